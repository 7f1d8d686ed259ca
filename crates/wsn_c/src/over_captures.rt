ghost use Rattle.wsn_command.specs.declared.job.Job.TheVariants.{Closing, RedactCapture, Show};
ghost use Rattle.wsn_c.specs.Calls.{IsCalled, call};

use crate::answer::Answer;
use crate::options::Options;
use crate::running::{give_usage, run_over};
use std::alloc::Global;
use wsn_job::Job;

/// Reports how the connection closed, from a capture of both sides, as `wsn closing` does. The role counts for nothing.
#[unsafe(no_mangle)]
pub extern "C" fn wsn_closing(
    alloc: Global,
    options: &Options,
    capture: &[u8],
    output: &mut [u8],
    message: &mut [u8],
) -> Answer
    ensures { IsCalled options.now (λ asked. Closing asked.limits asked.style.format) capture.now
        (call output.old output.new message.old message.new result) }
{
    match options.asked() {
        Some(asked) => {
            let job = Job::Closing(asked.limits, asked.style.format);
            run_over(alloc, &job, capture, output, message)
        }
        None => give_usage(output, message),
    }
}

/// Shows what both sides of a capture said, in order, as `wsn show` does. The role counts for nothing.
#[unsafe(no_mangle)]
pub extern "C" fn wsn_show(
    alloc: Global,
    options: &Options,
    capture: &[u8],
    output: &mut [u8],
    message: &mut [u8],
) -> Answer
    ensures { IsCalled options.now (λ asked. Show asked.limits asked.style) capture.now
        (call output.old output.new message.old message.new result) }
{
    match options.asked() {
        Some(asked) => {
            let job = Job::Show(asked.limits, asked.style);
            run_over(alloc, &job, capture, output, message)
        }
        None => give_usage(output, message),
    }
}

/// Writes a capture without what was said, as `wsn redact` does. The role counts for nothing.
///
/// Status 0: the text is the whole redaction, however the connection closed. 2: the message says why the work stopped, after
/// the redaction of the lines before.
#[unsafe(no_mangle)]
pub extern "C" fn wsn_redact_capture(
    alloc: Global,
    options: &Options,
    capture: &[u8],
    output: &mut [u8],
    message: &mut [u8],
) -> Answer
    ensures { IsCalled options.now (λ asked. RedactCapture asked.limits) capture.now
        (call output.old output.new message.old message.new result) }
{
    match options.asked() {
        Some(asked) => {
            let job = Job::RedactCapture(asked.limits);
            run_over(alloc, &job, capture, output, message)
        }
        None => give_usage(output, message),
    }
}
