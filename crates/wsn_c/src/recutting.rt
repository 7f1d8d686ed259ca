ghost use Rattle.std.specs.Prelude.{◌≡◌, ◌≤◌, IsSome, IfSome, ◌↔◌, Ok, Err};
ghost use Rattle.wsn_c.specs.Calls.{call};
ghost use Rattle.wsn_c.specs.Numbers.{flag_number};
ghost use Rattle.wsn_c.specs.Recuts.{IsRecut, IsRecutBySize, GivesRecut, IsKeyInRange, IsJobBySize, MayRecutBySize, fault_line, key_named};
ghost use Rattle.wsn_command.specs.Jobs.{MayRun};

use crate::answer::Answer;
use crate::options::{Asked, Options, flag};
use crate::running::{give, give_usage, run_over};
use std::alloc::Global;
use wsn_job::{How, Job};
use wsn_plan_text::{LineWhy, PlanFault, read_plan};
use wsn_print::Line;

/// The maximum number of bytes in the line of a plan's fault.
const FAULT_LINE_MAX: usize = 64;

/// Writes what a stream means in the frames of a plan, as `wsn recut --plan` does.
#[unsafe(no_mangle)]
pub extern "C" fn wsn_recut(
    alloc: Global,
    options: &Options,
    plan: &[u8],
    stream: &[u8],
    output: &mut [u8],
    message: &mut [u8],
) -> Answer
    ensures { IsRecut options.now plan.now stream.now (call output.old output.new message.old message.new result) }
{
    match options.asked() {
        Some(asked) => recut_by(alloc, &asked, plan, stream, output, message),
        None => give_usage(output, message),
    }
}

/// Writes what a stream means in the frames of a plan, or reports the plan's fault.
fn recut_by(
    alloc: Global,
    asked: &Asked,
    plan: &[u8],
    stream: &[u8],
    output: &mut [u8],
    message: &mut [u8],
) -> Answer
    ensures { GivesRecut asked.now plan.now stream.now (call output.old output.new message.old message.new result) }
{
    match read_plan(alloc, plan) {
        Ok(steps) => {
            let job = Job::Recut(asked.role, asked.limits, How::ByPlan(steps));
            run_over(alloc, &job, stream, output, message)
        }
        Err(fault) => give(2, b"", line_of_fault(fault).bytes(), output, message),
    }
}

/// The line of a plan's fault.
fn line_of_fault(fault: PlanFault) -> Line<FAULT_LINE_MAX>
    ensures { result ≡ fault_line fault }
{
    let mut line = Line::new();
    match fault {
        PlanFault::Memory => line.push("out of memory"),
        PlanFault::Line { number, why } => {
            line.push("plan line ");
            line.push_number(number);
            line.push(": ");
            line.push(match why {
                LineWhy::BadForm => "bad-form",
                LineWhy::BadNumber => "bad-number",
                LineWhy::BadKey => "bad-key",
                LineWhy::BadLength => "bad-length",
            });
        }
    }
    line.push("\n");
    line
}

/// Writes what a stream means in frames of one size, as `wsn recut --size` does.
#[unsafe(no_mangle)]
pub extern "C" fn wsn_recut_by_size(
    alloc: Global,
    options: &Options,
    size: u32,
    weave: u8,
    key: &[u8],
    stream: &[u8],
    output: &mut [u8],
    message: &mut [u8],
) -> Answer
    ensures { IsRecutBySize options.now size weave key.now stream.now
        (call output.old output.new message.old message.new result) }
{
    match job_by_size(options, size, weave, key) {
        Some(job) => run_over(alloc, &job, stream, output, message),
        None => give_usage(output, message),
    }
}

/// The work of a recut by size. `None` if an option or an argument is out of range.
fn job_by_size(options: &Options, size: u32, weave: u8, key: &[u8]) -> Option<Job>
    ensures may_run { IfSome result MayRun }
    ensures value { IfSome result (IsJobBySize options.now size weave key.now) }
    ensures in_range { IsSome result ↔ MayRecutBySize options.now size weave key.now }
{
    let asked = options.asked()?;
    let how = How::by_size(asked.role, size, flag(weave)?, key_of(key)?)?;
    Some(Job::Recut(asked.role, asked.limits, how))
}

/// The key of four bytes, and none of no bytes. `None` for any other number of bytes.
fn key_of(key: &[u8]) -> Option<Option<[u8; 4]>>
    ensures in_range { IsSome result ↔ IsKeyInRange key.now }
    ensures value { IfSome result (λ named. named ≡ key_named key.now) }
{
    match key {
        [] => Some(None),
        [a, b, c, d] => Some(Some([*a, *b, *c, *d])),
        _ => None,
    }
}
