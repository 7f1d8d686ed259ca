ghost use Rattle.std.specs.Prelude.{◌≡◌};
ghost use Rattle.wsn_print.specs.FaultText.{stop_line};

use crate::line::Line;
use wsn_io::Stop;

/// The maximum length in bytes of the line of a stop.
const STOP_LINE_MAX: usize = 14;

/// The line for a stop: its words, such as `read failed`.
pub fn line_of_stop(stop: Stop) -> Line<STOP_LINE_MAX>
    ensures { result ≡ stop_line stop }
{
    let mut line = Line::new();
    line.push(stop.word());
    line.push("\n");
    line
}
