ghost use Rattle.std.specs.Prelude.{◌≡◌, IfSome};

use crate::performing::{SidedJob, perform_on};
use std::rt::Runtime;
use wsn_cli::named_input::{diagnose_unread, hold_standard_input, name_of, open};
use wsn_cli::printed_hints::give_hint;
use wsn_cli::stdio::{FAULT, diagnose};
use wsn_cli::terminals::Colors;
use wsn_cli::{Hint, How, Job, PlannedRecut, Unread, plan_hint_of};
use wsn_io::{FirstBytes, Input};
use wsn_plan_text::{PlanFileFault, read_plan_file};

/// Recuts the stream in a file by the plan in another and returns the exit status. Both are opened before either is
/// read, the plan first, and the plan is read whole before the stream; its fault is reported in one line on standard
/// error.
pub fn recut_by<R: Runtime + AllocGlobal>(rt: &R, asked: &PlannedRecut, colors: Colors) -> u8
    requires { IfSome asked.now.side (λ own. own ≡ asked.now.role) }
{
    let _held = hold_standard_input(rt);
    let from = match open(rt, &asked.plan) {
        Ok(from) => from,
        Err(status) => return status,
    };
    let input = match open(rt, &asked.file) {
        Ok(input) => input,
        Err(status) => return status,
    };
    let mut first = FirstBytes::new(from);
    let steps = read_plan_file(rt.alloc(), &mut Input::new(&mut first));
    let hint = plan_hint_of(first.kept());
    // the plan's file is closed here, before the stream is read
    drop(first);
    match steps {
        Ok(plan) => {
            let job = Job::Recut(asked.role, asked.limits, How::ByPlan(plan));
            let asked = SidedJob {
                job: &job,
                side: asked.side,
            };
            perform_on(rt, &asked, input, colors)
        }
        Err(fault) => diagnose_plan(rt, &asked.plan, &fault, hint, colors.hints),
    }
}

/// Reports the fault of a plan's file, and the hint if it is a faulty line, and returns the exit status for a fault.
fn diagnose_plan<R: Eprint>(
    rt: &R,
    plan: &Option<String>,
    fault: &PlanFileFault,
    hint: Option<Hint>,
    in_colors: bool,
) -> u8 {
    match fault {
        PlanFileFault::Unread => diagnose_unread(rt, name_of(plan), Unread::Other),
        PlanFileFault::TooLong => diagnose(rt, "plan file too long\n"),
        PlanFileFault::Faulty(fault) => {
            let _ = eprintln!(rt; "{fault}");
            give_hint(rt, hint, in_colors);
            FAULT
        }
    }
}
