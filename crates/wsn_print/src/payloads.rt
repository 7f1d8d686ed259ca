ghost use Rattle.std.specs.Prelude.{◌≡◌};
ghost use Rattle.wsn_print.specs.PayloadText.{begun_head_line, inside_line, its_head, nothing_line};

use crate::heads::op_word;
use crate::line::Line;
use crate::verdicts::line_of_verdict;
use wsn_rules::Verdict;
use wsn_wire::Op;

/// The maximum length in bytes of the line of an offset inside an event, with two numbers of twenty digits.
const INSIDE_LINE_MAX: usize = 84;

/// The maximum length in bytes of what the line of an offset in a head says of the head, with a number of twenty digits.
const ITS_HEAD_MAX: usize = 43;

/// The maximum length in bytes of the line of an offset in a head, with two numbers of twenty digits and a verdict.
const BEGUN_HEAD_LINE_MAX: usize = 171;

/// The maximum length in bytes of the line of an offset after all that came, with a number of twenty digits and a verdict.
const NOTHING_LINE_MAX: usize = 128;

/// The line for an offset that is inside an event, such as `nothing begins at 9; it is in the text at 7`.
pub fn line_of_inside(at: u64, op: Op, start: u64) -> Line<INSIDE_LINE_MAX>
    ensures { result ≡ inside_line at op start }
{
    let mut line = Line::new();
    line.push("nothing begins at ");
    line.push_number(at);
    line.push("; it is in the ");
    line.push(op_word(op));
    line.push(" at ");
    line.push_number(start);
    line.push("\n");
    line
}

/// The line for an offset in the head at `head`, which isn't complete, in a stream with this verdict, such as
/// `nothing begins at 7 but a head: cut 8` or `nothing begins at 8; it is in the head at 7: cut 9`.
pub fn line_of_begun_head(at: u64, head: u64, verdict: &Verdict) -> Line<BEGUN_HEAD_LINE_MAX>
    ensures { result ≡ begun_head_line at head verdict.now }
{
    let mut line = Line::new();
    line.push("nothing begins at ");
    line.push_number(at);
    line.push_line(&line_of_its_head(at, head));
    line.push(": ");
    let verdict = line_of_verdict(verdict);
    line.push_line(&verdict);
    line
}

/// What that line says of the head.
fn line_of_its_head(at: u64, head: u64) -> Line<ITS_HEAD_MAX>
    ensures { result ≡ its_head at head }
{
    let mut line = Line::new();
    if at == head {
        line.push(" but a head");
        return line;
    }
    line.push("; it is in the head at ");
    line.push_number(head);
    line
}

/// The line for an offset after all that came of a stream with this verdict, or after a Close, such as
/// `nothing begins at 99: cut 40`.
pub fn line_of_nothing(at: u64, verdict: &Verdict) -> Line<NOTHING_LINE_MAX>
    ensures { result ≡ nothing_line at verdict.now }
{
    let mut line = Line::new();
    line.push("nothing begins at ");
    line.push_number(at);
    line.push(": ");
    line.push_line(&line_of_verdict(verdict));
    line
}
