ghost use Rattle.wsn_command.specs.declared.job.Job.TheVariants.{Judge, Frames, Payload, Normal, Redact, Plan, ShowStream};
ghost use Rattle.wsn_c.specs.Calls.{IsCalled, call};

use crate::answer::Answer;
use crate::options::Options;
use crate::running::{give_usage, run_over};
use std::alloc::Global;
use wsn_job::Job;

/// Judges the stream, as `wsn judge` does: prints the verdict.
#[unsafe(no_mangle)]
pub extern "C" fn wsn_judge(
    alloc: Global,
    options: &Options,
    stream: &[u8],
    output: &mut [u8],
    message: &mut [u8],
) -> Answer
    ensures { IsCalled options.now (λ asked. Judge asked.role asked.limits asked.style.format) stream.now
        (call output.old output.new message.old message.new result) }
{
    match options.asked() {
        Some(asked) => {
            let job = Job::Judge(asked.role, asked.limits, asked.style.format);
            run_over(alloc, &job, stream, output, message)
        }
        None => give_usage(output, message),
    }
}

/// Lists the stream's frames and then its verdict, as `wsn frames` does.
#[unsafe(no_mangle)]
pub extern "C" fn wsn_frames(
    alloc: Global,
    options: &Options,
    stream: &[u8],
    output: &mut [u8],
    message: &mut [u8],
) -> Answer
    ensures { IsCalled options.now (λ asked. Frames asked.role asked.limits asked.style.format) stream.now
        (call output.old output.new message.old message.new result) }
{
    match options.asked() {
        Some(asked) => {
            let job = Job::Frames(asked.role, asked.limits, asked.style.format);
            run_over(alloc, &job, stream, output, message)
        }
        None => give_usage(output, message),
    }
}

/// Writes the payload of one message, ping, pong or Close of the stream, as `wsn payload` does: unmasked, joined from its
/// frames. `at` is where its first frame begins: the offset in the stream, in bytes from 0.
///
/// Status 0: it is complete, and the text is its payload. 1: it isn't complete; the text is what came of its payload, up
/// to the offending byte if it is refused, and the message is the verdict's line. 2: the message says that none begins at
/// this offset, without a text; or why the work stopped, after what was written before.
#[unsafe(no_mangle)]
pub extern "C" fn wsn_payload(
    alloc: Global,
    options: &Options,
    stream: &[u8],
    at: u64,
    output: &mut [u8],
    message: &mut [u8],
) -> Answer
    ensures { IsCalled options.now (λ asked. Payload asked.role asked.limits at) stream.now
        (call output.old output.new message.old message.new result) }
{
    match options.asked() {
        Some(asked) => {
            let job = Job::Payload(asked.role, asked.limits, at);
            run_over(alloc, &job, stream, output, message)
        }
        None => give_usage(output, message),
    }
}

/// Writes the normal form of what the stream means, as `wsn normal` does.
#[unsafe(no_mangle)]
pub extern "C" fn wsn_normal(
    alloc: Global,
    options: &Options,
    stream: &[u8],
    output: &mut [u8],
    message: &mut [u8],
) -> Answer
    ensures { IsCalled options.now (λ asked. Normal asked.role asked.limits) stream.now
        (call output.old output.new message.old message.new result) }
{
    match options.asked() {
        Some(asked) => {
            let job = Job::Normal(asked.role, asked.limits);
            run_over(alloc, &job, stream, output, message)
        }
        None => give_usage(output, message),
    }
}

/// Writes the stream without what was said, as `wsn redact` does.
#[unsafe(no_mangle)]
pub extern "C" fn wsn_redact(
    alloc: Global,
    options: &Options,
    stream: &[u8],
    output: &mut [u8],
    message: &mut [u8],
) -> Answer
    ensures { IsCalled options.now (λ asked. Redact asked.role asked.limits) stream.now
        (call output.old output.new message.old message.new result) }
{
    match options.asked() {
        Some(asked) => {
            let job = Job::Redact(asked.role, asked.limits);
            run_over(alloc, &job, stream, output, message)
        }
        None => give_usage(output, message),
    }
}

/// Prints how the stream is framed, as `wsn plan` does.
#[unsafe(no_mangle)]
pub extern "C" fn wsn_plan(
    alloc: Global,
    options: &Options,
    stream: &[u8],
    output: &mut [u8],
    message: &mut [u8],
) -> Answer
    ensures { IsCalled options.now (λ asked. Plan asked.role asked.limits) stream.now
        (call output.old output.new message.old message.new result) }
{
    match options.asked() {
        Some(asked) => {
            let job = Job::Plan(asked.role, asked.limits);
            run_over(alloc, &job, stream, output, message)
        }
        None => give_usage(output, message),
    }
}

/// Shows what the stream says, in order, as `wsn show --role` does.
#[unsafe(no_mangle)]
pub extern "C" fn wsn_show_stream(
    alloc: Global,
    options: &Options,
    stream: &[u8],
    output: &mut [u8],
    message: &mut [u8],
) -> Answer
    ensures { IsCalled options.now (λ asked. ShowStream asked.role asked.limits asked.style) stream.now
        (call output.old output.new message.old message.new result) }
{
    match options.asked() {
        Some(asked) => {
            let job = Job::ShowStream(asked.role, asked.limits, asked.style);
            run_over(alloc, &job, stream, output, message)
        }
        None => give_usage(output, message),
    }
}
