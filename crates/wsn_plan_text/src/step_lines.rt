ghost use Rattle.std.specs.Prelude.{◌≡◌, ◌+◌, ◌≤◌, ◌++◌, length, take};
ghost use Rattle.wsn_plan_text.specs.PlanText.{step_line};

use wsn_print::{KeptBytes, put, put_form, put_key, put_number};
use wsn_rules::Step;

/// The maximum length in bytes of the lines that are held.
const HELD_MAX: usize = 4_096;

/// The maximum length in bytes of one line: a piece with a number of twenty digits, a key and ` eight`.
pub(crate) const LINE_MAX: usize = 42;

/// The lines of steps, one after another, held until they are written, at most 4,096 bytes.
pub(crate) type StepLines = KeptBytes<HELD_MAX>;

/// Adds the line of a step.
#[inline(always)]
pub(crate) fn add_step(lines: &mut StepLines, step: Step)
    requires { length lines.old + 42 ≤ 4096 }
    ensures { lines.new ≡ lines.old ++ step_line step }
{
    lines.add_with(|room| put_step(step, room));
}

/// Writes the line of a step at the start of a text, and returns its length. Its parts are written from the first to the
/// last.
#[inline(always)]
fn put_step(step: Step, text: &mut [u8]) -> usize
    requires { 42 ≤ length text.old }
    ensures end { result ≤ 42 }
    ensures written { take result text.new ≡ step_line step }
{
    match step {
        Step::Piece { len, key, form } => {
            let at = put(*b"piece ", text, 0);
            let at = put_number(len, text, at);
            let at = put(*b" ", text, at);
            let at = put_key(key, text, at);
            put_form(form, text, at)
        }
        Step::Last { key, form } => {
            let at = put(*b"last ", text, 0);
            let at = put_key(key, text, at);
            put_form(form, text, at)
        }
        Step::Control { key } => {
            let at = put(*b"control ", text, 0);
            let at = put_key(key, text, at);
            put(*b"\n", text, at)
        }
    }
}
