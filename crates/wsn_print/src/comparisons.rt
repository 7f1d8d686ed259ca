ghost use Rattle.std.specs.Prelude.{◌≡◌, ◌++◌, false};
ghost use Rattle.wsn_io.specs.Stops.{IsWrittenOrStops};
ghost use Rattle.wsn_print.specs.VerdictText.{comparison_line, verdict_line};

use crate::line::Line;
use crate::verdicts::put_verdict;
use std::io::Write;
use wsn_io::{Output, Stop, put_line};
use wsn_rules::{Compared, Verdict};

/// The maximum length in bytes of the line of a difference, with a number of twenty digits.
pub(crate) const DIFFERENCE_LINE_MAX: usize = 31;

/// Writes a comparison in one line: `equal`, `different 2`, or `first ` or `second ` and the line of the verdict of a
/// stream that isn't accepted. `Stop::Write` if the writer fails: a prefix of the line was written.
#[tactic(none)]
pub fn put_compared<W: Write>(output: &mut Output<W>, compared: Compared) -> Result<(), Stop>
    requires { output.old.failed ≡ false }
    ensures { IsWrittenOrStops output.old output.new (comparison_line compared) result }
{
    match compared {
        Compared::Equal => put_line(output, b"equal\n"),
        Compared::Different(index) => put_line(output, line_of_difference(index).bytes()),
        Compared::NotAccepted { second, verdict } => {
            put_verdict_of(output, if second { "second " } else { "first " }, verdict)
        }
    }
}

/// Writes which stream a verdict is for, and the verdict's line.
fn put_verdict_of<W: Write>(
    output: &mut Output<W>,
    stream: &str,
    verdict: Verdict,
) -> Result<(), Stop>
    requires { output.old.failed ≡ false }
    ensures { IsWrittenOrStops output.old output.new (stream.now ++ verdict_line verdict) result }
{
    put_line(output, stream.as_bytes())?;
    put_verdict(output, &verdict)
}

/// The line of a difference.
pub fn line_of_difference(index: u64) -> Line<DIFFERENCE_LINE_MAX>
    ensures { result ≡ comparison_line (Compared.Different index) }
{
    let mut line = Line::new();
    line.push("different ");
    line.push_number(index);
    line.push("\n");
    line
}
