ghost use Rattle.std.specs.Prelude.{◌≡◌, false};
ghost use Rattle.wsn_io.specs.Stops.{IsWrittenOrStops};

use crate::output::Output;
use crate::stop::Stop;
use std::io::Write;

/// Writes a line's bytes, which include its LF. `Stop::Write` if the writer fails: a prefix of the line was written.
#[inline(always)]
#[tactic(none)]
pub fn put_line<W: Write>(to: &mut Output<W>, line: &[u8]) -> Result<(), Stop>
    requires { to.old.failed ≡ false }
    ensures { IsWrittenOrStops to.old to.new line.now result }
{
    if to.put(line) {
        Ok(())
    } else {
        Err(Stop::Write)
    }
}
