ghost use Rattle.std.specs.Prelude.{◌≡◌, ◌+◌, ◌≤◌, ◌++◌, length, take};

use std::marker::Model;

/// The number of the bytes of a payload that came, and the first of them, as many as fit into memory that a caller lends.
#[derive(Drop)]
pub struct PayloadBytes<'a> {
    count: u64,
    memory: &'a mut [u8],
    /// The first `len` bytes of the memory are held.
    len: usize,
}

impl<'a> Model for PayloadBytes<'a> {
    ghost use Rattle.std.specs.Prelude.{◌≤◌, take, length};
    ghost use Rattle.wsn_show.specs.PayloadsSoFar.{PayloadSoFar};

    ghost Value = { PayloadSoFar };

    ghost view = { λ p. record {
      count = p.count;
      held = take p.len p.memory.now;
      size = length p.memory.now;
    } };

    ghost invariant = { λ p. p.len ≤ length p.memory.now };
}

impl<'a> PayloadBytes<'a> {
    ghost use Rattle.std.specs.Prelude.{◌≡◌, ℕ, ◌+◌, ◌<◌, ◌≤◌, ◌^◌, List, [], ◌++◌, length};
    ghost use Rattle.wsn_show.specs.PayloadsSoFar.{HasPayload};

    /// No bytes.
    pub fn new(memory: &'a mut [u8]) -> PayloadBytes<'a>
        ensures { (n : ℕ) → n ≤ length memory.old → HasPayload n result [] }
    {
        PayloadBytes {
            count: 0,
            memory,
            len: 0,
        }
    }

    /// Forgets the bytes that came.
    pub fn clear(&mut self)
        ensures { (n : ℕ) → n ≤ self.old.size → HasPayload n self.new [] }
    {
        self.count = 0;
        self.len = 0;
    }

    /// More bytes come.
    pub fn add(&mut self, bytes: &[u8])
        ensures { (n : ℕ) (came : List ℕ) → length came + length bytes.now < 2 ^ 64 → HasPayload n self.old came →
            HasPayload n self.new (came ++ bytes.now) }
    {
        let number = bytes.len().min(self.memory.len() - self.len);
        self.len = put_after(&bytes[..number], self.memory, self.len);
        self.count = self.count.saturating_add(bytes.len() as u64);
    }

    /// The number of bytes that came.
    pub fn count(&self) -> u64
        ensures { result ≡ self.now.count }
    {
        self.count
    }

    /// The first bytes that came.
    pub fn held(&self) -> &[u8]
        ensures { result.now ≡ self.now.held }
    {
        &self.memory[..self.len]
    }
}

/// Puts bytes after the first `len` bytes of the memory, and returns where they end.
fn put_after(bytes: &[u8], memory: &mut [u8], len: usize) -> usize
    requires { len + length bytes.now ≤ length memory.old }
    ensures end { result ≡ len + length bytes.now }
    ensures written { take result memory.new ≡ take len memory.old ++ bytes.now }
{
    let end = len + bytes.len();
    memory[len..end].copy_from_slice(bytes);
    end
}
