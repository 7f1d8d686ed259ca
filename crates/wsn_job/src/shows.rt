ghost use Rattle.std.specs.Prelude.{◌≡◌, ◌⊎◌, false, true, IfSome, vec_len};
ghost use Rattle.wsn_command.specs.declared.job.Job.TheVariants.{Show, ShowStream};
ghost use Rattle.wsn_job.specs.Work.{IsDone, done_status};

use crate::done::Done;
use std::alloc::Allocator;
use std::io::{Read, Write};
use wsn_io::{Input, Output};
use wsn_print::{Style, VIEW_MAX};
use wsn_rules::Limits;
use wsn_show::{show, show_stream};
use wsn_wire::Role;

/// The most bytes of a payload that are shown without an allocation.
const SHORT: usize = VIEW_MAX as usize;

/// Shows the capture on the input. With a view over 4,096 bytes, memory for the payloads of both endpoints is allocated
/// first: if that fails, nothing is read or printed.
pub(crate) fn show_capture<A: Allocator + Copy, R: Read, W: Write>(
    alloc: A,
    input: &mut Input<R>,
    limits: Limits,
    style: Style,
    output: &mut Output<W>,
) -> Done<A>
    requires readable { input.old.failed ≡ false }
    requires writable { output.old.failed ≡ false }
    ensures done { IsDone (Show limits style) input.old input.new output.old output.new result }
    ensures status { (done_status result ≡ 0) ⊎ (done_status result ≡ 1) ⊎ (done_status result ≡ 2) }
    ensures read { input.new.failed ≡ true → done_status result ≡ 2 }
    ensures write { output.new.failed ≡ true → done_status result ≡ 2 }
{
    let size = style.view.bytes();
    if size <= SHORT {
        let mut client = [0; SHORT];
        let mut server = [0; SHORT];
        return Done::Show(show(input, output, limits, style, &mut client, &mut server));
    }
    let Some(mut client) = memory_of(alloc, size) else {
        return Done::Memory;
    };
    let Some(mut server) = memory_of(alloc, size) else {
        return Done::Memory;
    };
    Done::Show(show(
        input,
        output,
        limits,
        style,
        client.as_mut_slice(),
        server.as_mut_slice(),
    ))
}

/// Shows the stream on the input, which this endpoint sent. With a view over 4,096 bytes, memory for a payload is allocated
/// first: if that fails, nothing is read or printed.
pub(crate) fn show_one_stream<A: Allocator + Copy, R: Read, W: Write>(
    alloc: A,
    input: &mut Input<R>,
    role: Role,
    limits: Limits,
    style: Style,
    output: &mut Output<W>,
) -> Done<A>
    requires readable { input.old.failed ≡ false }
    requires writable { output.old.failed ≡ false }
    ensures done { IsDone (ShowStream role limits style) input.old input.new output.old output.new result }
    ensures status { (done_status result ≡ 0) ⊎ (done_status result ≡ 1) ⊎ (done_status result ≡ 2) }
    ensures read { input.new.failed ≡ true → done_status result ≡ 2 }
    ensures write { output.new.failed ≡ true → done_status result ≡ 2 }
{
    let size = style.view.bytes();
    if size <= SHORT {
        let mut memory = [0; SHORT];
        return Done::ShowStream(show_stream(input, output, role, limits, style, &mut memory));
    }
    let Some(mut memory) = memory_of(alloc, size) else {
        return Done::Memory;
    };
    let memory = memory.as_mut_slice();
    Done::ShowStream(show_stream(input, output, role, limits, style, memory))
}

/// Memory of this many bytes; `None` if an allocation fails.
fn memory_of<A: Allocator>(alloc: A, size: usize) -> Option<Vec<u8, A>>
    ensures { IfSome result (λ memory. vec_len memory ≡ size) }
{
    match vec![in alloc; 0; size] {
        Ok(memory) => Some(memory),
        Err(_) => None,
    }
}
