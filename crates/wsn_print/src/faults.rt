ghost use Rattle.std.specs.Prelude.{◌≡◌, ◌≤◌, length};
ghost use Rattle.wsn_print.specs.FaultText.{recut_fault_line, unfinished_line, line_fault_line};

use crate::line::Line;
use wsn_rules::Why;

/// The maximum length in bytes of the line of a recut's fault, with a number of twenty digits.
const RECUT_FAULT_LINE_MAX: usize = 43;

/// The maximum length in bytes of the line of a line's fault, with room for a number of twenty digits.
const LINE_FAULT_LINE_MAX: usize = 42;

/// The line for a plan that doesn't fit: `fault`, the number of the faulty step, from 0, and the reason's word.
#[tactic(none)]
pub fn line_of_recut_fault(step: u64, why: Why) -> Line<RECUT_FAULT_LINE_MAX>
    ensures { result ≡ recut_fault_line step why }
{
    let mut line = Line::new();
    line.push("fault ");
    line.push_number(step);
    line.push(" ");
    line.push(why.word());
    line.push("\n");
    line
}

/// The line for a stream that has no plan: the Close interrupts a message.
pub fn line_of_unfinished() -> &'static [u8]
    ensures { result.now ≡ unfinished_line }
{
    b"unfinished\n"
}

/// The line for a faulty line of a text: its number, from 1, and the word of its fault.
pub fn line_of_line_fault(number: u32, word: &str) -> Line<LINE_FAULT_LINE_MAX>
    requires { length word.now ≤ 14 }
    ensures { result ≡ line_fault_line number word.now }
{
    let mut line = Line::new();
    line.push("line ");
    line.push_number(u64::from(number));
    line.push(": ");
    line.push(word);
    line.push("\n");
    line
}
