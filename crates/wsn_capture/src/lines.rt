use memchr::memchr;
use std::marker::Model;

/// A line of this many bytes is too long, whatever follows and whether or not a CR ends it.
pub const BEGUN_MAX: usize = 8196;

/// Splits the chunks of a text into lines. It holds one line.
#[derive(Drop)]
pub struct Lines {
    begun: [u8; BEGUN_MAX],
    /// The first `len` bytes are the line.
    len: usize,
}

impl Model for Lines {
    ghost use Rattle.std.specs.Prelude.{ℕ, ◌≤◌, List, take};

    ghost Value = { List ℕ };

    ghost view = { λ lines. take lines.len lines.begun };

    ghost invariant = { λ lines. lines.len ≤ 8196 };
}

impl Lines {
    ghost use Rattle.std.specs.Prelude.{◌≡◌, ◌+◌, ◌<◌, ◌≤◌, [], ◌++◌, length, false, true};
    ghost use Rattle.wsn_capture.specs.LineSplitters.{ContinuesLine, EndsLine};

    /// No line has begun.
    pub fn new() -> Lines
        ensures { result ≡ [] }
    {
        Lines {
            begun: [0; BEGUN_MAX],
            len: 0,
        }
    }

    /// Consumes a prefix of a chunk, to the end of a line or as much as one line may hold. Returns the number of bytes, and
    /// whether the line has ended or is too long; then [`Lines::line`] returns it, without its LF.
    pub fn take(&mut self, chunk: &[u8]) -> (usize, bool)
        requires some { 0 < length chunk.now }
        requires short { length self.old < BEGUN_MAX }
        ensures within { (0 < result.0) × (result.0 ≤ length chunk.now) }
        ensures goes_on { result.1 ≡ false → ContinuesLine self.old self.new chunk.now result.0 }
        ensures ends { result.1 ≡ true → EndsLine self.old self.new chunk.now result.0 }
    {
        let room = BEGUN_MAX - self.len;
        let front = &chunk[..room.min(chunk.len())];
        match memchr(b'\n', front) {
            Some(end) => {
                self.add(&front[..end]);
                (end + 1, true)
            }
            None => {
                self.add(front);
                (front.len(), self.len == BEGUN_MAX)
            }
        }
    }

    /// Adds bytes to the line, which fit.
    fn add(&mut self, bytes: &[u8])
        requires { length self.old + length bytes.now ≤ BEGUN_MAX }
        ensures { self.new ≡ self.old ++ bytes.now }
    {
        let end = self.len + bytes.len();
        self.begun[self.len..end].copy_from_slice(bytes);
        self.len = end;
    }

    /// The line that has begun or ended.
    pub fn line(&self) -> &[u8]
        ensures { result.now ≡ self.now }
    {
        &self.begun[..self.len]
    }

    /// Forgets the line.
    pub fn clear(&mut self)
        ensures { self.new ≡ [] }
    {
        self.len = 0;
    }
}
