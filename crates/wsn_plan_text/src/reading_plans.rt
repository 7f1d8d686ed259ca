ghost use Rattle.std.specs.Prelude.{◌≡◌, ◌≢◌, ◌<◌, ◌↔◌, ◌⊎◌, ℕ, [], codes, slice_index, IsTrue, MatchResult, Option, List};
ghost use Rattle.std.specs.Option.{option_copied};
ghost use Rattle.wsn_wire.specs.declared.length_encoding.Form.{Form};
ghost use Rattle.wsn_print.specs.HeadText.{form_text};
ghost use Rattle.wsn_plan_text.specs.declared.plan_fault.LineWhy.TheVariants.{BadKey, BadLength, BadNumber};
ghost use Rattle.wsn_plan_text.specs.PlanText.{preceded_by, IsLineFault, IsReadPlan, EncodesKey, EncodesNumber, EncodesStep};
ghost use Rattle.wsn_plan_text.specs.Splits.{IsNextLine};

use crate::line_fields::{Fields, fields_of, split};
use crate::plan::Plan;
use crate::plan_fault::{LineWhy, PlanFault};
use hex::FromHex;
use std::alloc::Allocator;
use std::str;
use wsn_rules::Step;
use wsn_wire::Form;

/// Reads the plan that a text encodes: one line for each step, such as `piece 3 -`, `last 37FA213D` or `last - two`.
///
/// Errors: `Line` with the number, from 1, of the first line that encodes no step, and its first fault. `Memory` if an
/// allocation fails; a later line may be faulty then.
#[tactic(none)]
pub fn read_plan<A: Allocator>(alloc: A, text: &[u8]) -> Result<Plan<A>, PlanFault>
    ensures { IsReadPlan text.now result }
{
    let mut plan = Plan::new(alloc);
    let mut rest = text;
    let mut number = 0u64;
    while !rest.is_empty() {
        let (line, later) = next_line(rest);
        number += 1;
        let step = match step_of(line) {
            Ok(step) => step,
            Err(why) => return Err(PlanFault::Line { number, why }),
        };
        let Ok(()) = plan.push(step) else {
            return Err(PlanFault::Memory);
        };
        rest = later;
    }
    Ok(plan)
}

/// The first line without its LF, and the text after it.
#[tactic(none)]
fn next_line(text: &[u8]) -> (&[u8], &[u8])
    requires { text.now ≢ [] }
    ensures { IsNextLine text.now result.0.now result.1.now }
{
    let (line, rest) = split(text, b'\n');
    (line, rest.unwrap_or(&[]))
}

/// The step that a line encodes, or the line's first fault.
#[tactic(none)]
fn step_of(line: &[u8]) -> Result<Step, LineWhy>
    ensures { MatchResult result (EncodesStep line.now) (IsLineFault line.now) }
{
    let fields = fields_of(line).ok_or(LineWhy::BadForm)?;
    match fields {
        Fields::Piece { number, key, form } => Ok(Step::Piece {
            len: number_of(number)?,
            key: key_of(key)?,
            form: form_of(form)?,
        }),
        Fields::Last { key, form } => Ok(Step::Last {
            key: key_of(key)?,
            form: form_of(form)?,
        }),
        Fields::Control { key } => Ok(Step::Control { key: key_of(key)? }),
    }
}

/// A decimal number without leading zeros that fits 64 bits, or `BadNumber`.
fn number_of(field: &[u8]) -> Result<u64, LineWhy>
    ensures { MatchResult result
        (EncodesNumber field.now)
        (λ why. (why ≡ BadNumber) × ((n : ℕ) → ¬ (EncodesNumber field.now n))) }
{
    // `parse` also accepts leading zeros and a plus sign.
    if !is_plain(field) {
        return Err(LineWhy::BadNumber);
    }
    let Ok(digits) = str::from_utf8(field) else {
        return Err(LineWhy::BadNumber);
    };
    match digits.parse() {
        Ok(n) => Ok(n),
        Err(_) => Err(LineWhy::BadNumber),
    }
}

/// Whether a field begins with a digit other than 0, or is `0`.
#[tactic(none)]
fn is_plain(field: &[u8]) -> bool
    ensures { IsTrue result
        ↔ ((field.now ≡ codes "0") ⊎ ((48 < slice_index field.now 0) × (slice_index field.now 0 < 58))) }
{
    matches!(field, b"0" | [b'1'..=b'9', ..])
}

/// A key in eight hexadecimal digits, or none for a dash, or `BadKey`.
#[tactic(none)]
fn key_of(field: &[u8]) -> Result<Option<[u8; 4]>, LineWhy>
    ensures { MatchResult result
        (EncodesKey field.now)
        (λ why. (why ≡ BadKey) × ((key : Option (List ℕ)) → ¬ (EncodesKey field.now key))) }
{
    if matches!(field, b"-") {
        return Ok(None);
    }
    match <[u8; 4] as FromHex>::from_hex(field) {
        Ok(key) => Ok(Some(key)),
        Err(_) => Err(LineWhy::BadKey),
    }
}

/// How a length is encoded: in two or eight bytes as the field says, or without a field in the shortest encoding.
fn form_of(field: Option<&[u8]>) -> Result<Form, LineWhy>
    ensures { MatchResult result
        (λ form. preceded_by 32 (option_copied field.entry) ≡ form_text form)
        (λ why. (why ≡ BadLength) × ((form : Form) → ¬ (preceded_by 32 (option_copied field.entry) ≡ form_text form))) }
{
    match field {
        None => Ok(Form::Shortest),
        Some(b"two") => Ok(Form::Two),
        Some(b"eight") => Ok(Form::Eight),
        Some(_) => Err(LineWhy::BadLength),
    }
}
