ghost use Rattle.std.specs.Prelude.{◌≡◌, ℕ, ◌<◌, ◌≤◌, true, false, length, take, MatchBool};
ghost use Rattle.std.specs.Io.KnownBytes.{Appends};

use std::io::Write;
use std::marker::Model;

/// A writer, and whether a write has failed. `Output::new(&mut writer)` borrows the writer, which can be used again
/// afterwards. An output never flushes its writer.
#[derive(Drop)]
pub struct Output<W: Write> {
    writer: W,
    failed: bool,
}

impl<W: Write> Model for Output<W> {
    ghost use Rattle.wsn_io.specs.Transfer.{Outgoing};

    ghost Value = { Outgoing };

    ghost view = { λ o. record { written = W.contents o.writer; failed = o.failed } };
}

impl<W: Write> Output<W> {
    /// An output in which no write has failed.
    #[tactic(none)]
    pub fn new(writer: W) -> Self
        ensures written { result.written ≡ W.contents writer }
        ensures failed { result.failed ≡ false }
    {
        Output {
            writer,
            failed: false,
        }
    }

    /// Whether a write has failed. Once true, it stays true.
    #[tactic(none)]
    pub fn failed(&self) -> bool
        ensures { result ≡ self.now.failed }
    {
        self.failed
    }

    /// The writer, in the state in which the last write left it.
    #[tactic(none)]
    pub fn into_writer(self) -> W
        ensures { W.contents result ≡ self.written }
    {
        self.writer
    }

    /// Calls the writer until it has accepted all the bytes; without bytes it makes no call. `false` at the writer's
    /// first error, of any kind, or if it accepts no byte: a proper prefix of the bytes has been written.
    #[tactic(none)]
    pub fn put(&mut self, bytes: &[u8]) -> bool
        ensures all { result ≡ true → Appends self.old.written self.new.written bytes.now }
        ensures same { result ≡ true → self.new.failed ≡ self.old.failed }
        ensures prefix { result ≡ false → (k : ℕ) × (k < length bytes.now)
            × Appends self.old.written self.new.written (take k bytes.now) }
        ensures failed { result ≡ false → self.new.failed ≡ true }
    {
        let mut taken = 0;
        while taken < bytes.len() {
            match self.writer.write(&bytes[taken..]) {
                Ok(n) if n > 0 => taken += n,
                _ => {
                    self.failed = true;
                    return false;
                }
            }
        }
        true
    }
}
