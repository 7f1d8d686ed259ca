ghost use Rattle.std.specs.Prelude.{◌≡◌, false};
ghost use Rattle.wsn_io.specs.Stops.{IsWrittenOrStops};
ghost use Rattle.wsn_plan_text.specs.PlanText.{plan_text};

use crate::plan::Plan;
use crate::step_lines::{LINE_MAX, StepLines, add_step};
use std::alloc::Allocator;
use std::io::Write;
use wsn_io::{Output, Stop};

/// Writes a plan as text: one line for each step, such as `piece 3 -`, `last 37fa213d` or `last - two`. Many lines are
/// written together. `Write` if the writer fails: a prefix of the text is written.
#[tactic(none)]
pub fn write_plan<W: Write, A: Allocator>(
    output: &mut Output<W>,
    plan: &Plan<A>,
) -> Result<(), Stop>
    requires { output.old.failed ≡ false }
    ensures { IsWrittenOrStops output.old output.new (plan_text plan.now) result }
{
    let mut lines = StepLines::new();
    for step in plan.steps() {
        lines.make_room(output, LINE_MAX)?;
        add_step(&mut lines, *step);
    }
    lines.write_to(output)
}
