ghost use Rattle.std.specs.Prelude.{◌≤◌, None, Some, IfSome, min};
ghost use Rattle.wsn_c.specs.Calls.{IsCompared, GivesComparison, call};

use crate::answer::Answer;
use crate::options::{Asked, Options};
use crate::running::{give, give_usage};
use crate::text::Text;
use std::alloc::Global;
use wsn_io::{Input, Output};
use wsn_job::{ComparedStreams, Comparison, run_same};
use wsn_print::ViewLimit;

/// Compares what two streams mean, as `wsn same` does. Both were sent by endpoints of the role that the options name. It
/// shows no events.
#[unsafe(no_mangle)]
pub extern "C" fn wsn_same(
    alloc: Global,
    options: &Options,
    first: &[u8],
    second: &[u8],
    output: &mut [u8],
    message: &mut [u8],
) -> Answer
    ensures { IsCompared options.now (λ asked. None) first.now second.now
        (call output.old output.new message.old message.new result) }
{
    match options.asked() {
        Some(asked) => compare(alloc, &asked, None, first, second, output, message),
        None => give_usage(output, message),
    }
}

/// Compares them as `wsn same --view` does: where they differ, it also shows the first event of each that does, and where
/// their payloads differ. The most bytes of a payload that it shows are the options' view, and never over 4,096.
#[unsafe(no_mangle)]
pub extern "C" fn wsn_same_view(
    alloc: Global,
    options: &Options,
    first: &[u8],
    second: &[u8],
    output: &mut [u8],
    message: &mut [u8],
) -> Answer
    ensures { IsCompared options.now (λ asked. Some (min asked.style.view 4096)) first.now second.now
        (call output.old output.new message.old message.new result) }
{
    match options.asked() {
        Some(asked) => {
            let view = asked.style.view.short();
            compare(alloc, &asked, Some(view), first, second, output, message)
        }
        None => give_usage(output, message),
    }
}

/// Compares what two streams mean, and shows events that differ if there is a view.
fn compare(
    alloc: Global,
    asked: &Asked,
    view: Option<ViewLimit>,
    first: &[u8],
    second: &[u8],
    output: &mut [u8],
    message: &mut [u8],
) -> Answer
    requires { IfSome view (λ n. n ≤ 4096) }
    ensures { GivesComparison asked.now view first.now second.now
        (call output.old output.new message.old message.new result) }
{
    let comparison = Comparison {
        role: asked.role,
        limits: asked.limits,
        without: asked.without,
        format: asked.style.format,
        view,
    };
    let mut printed = Output::new(Text::new(alloc));
    let mut said = Output::new(Text::new(alloc));
    let mut streams = ComparedStreams {
        first: Input::lent(first),
        second: Input::lent(second),
    };
    let ran = run_same(alloc, &mut streams, comparison, &mut printed, &mut said);
    give(
        ran.status,
        printed.into_writer().as_slice(),
        said.into_writer().as_slice(),
        output,
        message,
    )
}
