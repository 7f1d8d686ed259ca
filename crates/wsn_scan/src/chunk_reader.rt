ghost use Rattle.std.specs.Prelude.{◌≡◌, ℕ, ◌<◌, ◌↔◌, List, [], false, true, Ok, Err, Some, length};
ghost use Rattle.wsn_io.specs.Transfer.{Incoming};
ghost use Rattle.wsn_rules.specs.Limits.{Limits};
ghost use Rattle.wsn_io.specs.declared.stop.Stop.{Stop};
ghost use Rattle.wsn_scan.specs.ChunkReaders.{HasCome, IsNextOf, has_passed, chunks_ahead};

use std::io::Read;
use wsn_io::{Input, Stop};
use wsn_rules::Limits;

/// The maximum number of bytes that one read returns.
pub const CHUNK: usize = 4096;

/// Reads an input in chunks up to the input limit. All that reads a stream to its end or up to an answer is a loop over
/// [`next`](ChunkReader::next).
#[derive(Drop)]
pub struct ChunkReader {
    room: u64,
    past_limit: bool,
}

impl ChunkReader {
    /// A reader to which nothing has come.
    #[tactic(none)]
    pub fn new(limits: Limits) -> ChunkReader
        ensures { (input : Incoming) → input.failed ≡ false → HasCome limits input input result [] }
    {
        ChunkReader {
            room: limits.input(),
            past_limit: false,
        }
    }

    /// Reads the next chunk into the start of `buffer` and returns how many bytes it has within the input limit. `None`
    /// at the end of the input.
    ///
    /// Errors: `Read` if the read fails: then no byte of the input is consumed; `InputLimit` if a byte past the input
    /// limit came after the last chunk: then nothing is read.
    #[tactic(none)]
    pub fn next<R: Read>(
        &mut self,
        input: &mut Input<R>,
        buffer: &mut [u8],
    ) -> Result<Option<usize>, Stop>
        requires { 0 < length buffer.old }
        ensures next { (limits : Limits) (first : Incoming) (came : List ℕ) →
            HasCome limits first input.old self.old came →
            IsNextOf limits first input.new self.new came buffer.new result }
        ensures falls { (n : ℕ) → result ≡ Ok (Some n) → chunks_ahead self.new < chunks_ahead self.old }
        ensures limit { (result ≡ Err Stop.InputLimit) ↔ (has_passed self.old ≡ true) }
        ensures kept { has_passed self.old ≡ true → input.new ≡ input.old }
    {
        if self.past_limit {
            return Err(Stop::InputLimit);
        }
        let wanted = self.room.saturating_add(1).min(buffer.len() as u64) as usize;
        let Some(count) = input.read(&mut buffer[..wanted]) else {
            return Err(Stop::Read);
        };
        if count == 0 {
            return Ok(None);
        }
        let len = self.room.min(count as u64) as usize;
        self.room -= len as u64;
        self.past_limit = count > len;
        Ok(Some(len))
    }
}
