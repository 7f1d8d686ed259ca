ghost use Rattle.std.specs.Prelude.{◌≡◌};

use wsn_print::{HeldBytes, KeptBytes};

/// The most bytes that a [`FirstBytes`] holds.
const FIRST_MAX: usize = 4_096;

/// The number of the bytes that came, and the first 4,096 of them.
#[derive(Drop)]
pub struct FirstBytes {
    count: u64,
    held: KeptBytes<FIRST_MAX>,
}

impl FirstBytes {
    ghost use Rattle.std.specs.Prelude.{ℕ, ◌+◌, ◌<◌, ◌^◌, List, [], ◌++◌, length};
    ghost use Rattle.wsn_show.specs.HeldParts.{HasFirst};

    /// No bytes.
    pub fn new() -> FirstBytes
        ensures { HasFirst result [] }
    {
        FirstBytes {
            count: 0,
            held: KeptBytes::new(),
        }
    }

    /// Forgets the bytes that came.
    pub fn clear(&mut self)
        ensures { HasFirst self.new [] }
    {
        self.count = 0;
        self.held.clear();
    }

    /// More bytes come.
    pub fn add(&mut self, bytes: &[u8])
        ensures { (came : List ℕ) → length came + length bytes.now < 2 ^ 64 → HasFirst self.old came →
            HasFirst self.new (came ++ bytes.now) }
    {
        let room = FIRST_MAX - self.held.len();
        self.held.add(&bytes[..room.min(bytes.len())]);
        self.count = self.count.saturating_add(bytes.len() as u64);
    }

    /// The number of bytes that came.
    pub fn count(&self) -> u64
        ensures { result ≡ self.now.count }
    {
        self.count
    }

    /// As they are printed.
    pub fn front(&self) -> HeldBytes<'_>
        ensures bytes { result.bytes ≡ self.now.count }
        ensures held { result.held.now ≡ self.now.held }
    {
        HeldBytes {
            bytes: self.count,
            held: self.held.as_slice(),
        }
    }
}
