ghost use Rattle.std.specs.Prelude.{◌≡◌};

use wsn_print::{HeldBytes, KeptBytes};

/// The most bytes that a [`LastBytes`] holds.
pub(crate) const LAST_MAX: usize = 2_048;

/// The number of the bytes that came, and the last 2,048 of them.
#[derive(Drop)]
pub struct LastBytes {
    count: u64,
    held: KeptBytes<LAST_MAX>,
}

impl LastBytes {
    ghost use Rattle.std.specs.Prelude.{ℕ, ◌+◌, ◌-◌, ◌<◌, ◌≤◌, ◌^◌, List, [], ◌++◌, length, drop};
    ghost use Rattle.wsn_show.specs.HeldParts.{HasLast};

    /// No bytes.
    pub fn new() -> LastBytes
        ensures { HasLast result [] }
    {
        LastBytes {
            count: 0,
            held: KeptBytes::new(),
        }
    }

    /// Forgets the bytes that came.
    pub fn clear(&mut self)
        ensures { HasLast self.new [] }
    {
        self.count = 0;
        self.held.clear();
    }

    /// More bytes come.
    pub fn add(&mut self, bytes: &[u8])
        ensures { (came : List ℕ) → length came + length bytes.now < 2 ^ 64 → HasLast self.old came →
            HasLast self.new (came ++ bytes.now) }
    {
        let last = &bytes[bytes.len().saturating_sub(LAST_MAX)..];
        self.make_room(last.len());
        self.held.add(last);
        self.count = self.count.saturating_add(bytes.len() as u64);
    }

    /// Drops the first bytes that are held, as many as have to go for this number to fit.
    fn make_room(&mut self, number: usize)
        requires { number ≤ LAST_MAX }
        ensures held { self.new.held
            ≡ drop ((length self.old.held + number) - LAST_MAX) self.old.held }
        ensures count { self.new.count ≡ self.old.count }
    {
        let over = (self.held.len() + number).saturating_sub(LAST_MAX);
        self.held.drop_front(over);
    }

    /// As they are printed.
    pub fn end(&self) -> HeldBytes<'_>
        ensures bytes { result.bytes ≡ self.now.count }
        ensures held { result.held.now ≡ self.now.held }
    {
        HeldBytes {
            bytes: self.count,
            held: self.held.as_slice(),
        }
    }
}
