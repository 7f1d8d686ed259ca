ghost use Rattle.std.specs.Prelude.{◌≡◌, ◌≤◌, false, ℕ, List, None, Some};
ghost use Rattle.wsn_wire.specs.declared.endpoint.Role.{Role};
ghost use Rattle.wsn_rules.specs.Meaning.{MeantEvent};
ghost use Rattle.wsn_events.specs.SourceStates.{HasGiven, answered, events_ahead};
ghost use Rattle.wsn_events.specs.LentMessages.{PutsTaken};
ghost use Rattle.wsn_events.specs.Normalised.{IsNormalised, IsNormalisedWhole};

use crate::normal_form::put_event;
use crate::source::{Next, Source};
use std::alloc::Allocator;
use std::io::{Read, Write};
use wsn_io::{Input, Output, Stop};
use wsn_scan::{Limits, Verdict};
use wsn_wire::Role;

/// Writes the normal form of a stream's meaning (RFC 6455 sections 5.4 to 5.6) and returns the stream's verdict. Each
/// event is written as soon as the frame that ends it has come. `role` is the endpoint that sent the stream.
///
/// Errors: `Read` if the reader fails, and `InputLimit` if a byte past the input limit comes. With either, the events
/// that end in the bytes within the limit are written. `Memory` if an allocation for a message fails: some first events
/// are written. `Write` if the writer fails: a prefix of the normal form is written, and nothing is read after it.
#[tactic(none)]
pub fn normalise<A: Allocator + Copy, R: Read, W: Write>(
    alloc: A,
    input: &mut Input<R>,
    output: &mut Output<W>,
    role: Role,
    limits: Limits,
) -> Result<Verdict, Stop>
    requires readable { input.old.failed ≡ false }
    requires writable { output.old.failed ≡ false }
    ensures normalised { IsNormalised role limits input.old input.new output.old output.new result }
    ensures whole { (all : List ℕ) → input.old.remaining ≡ Some all →
        IsNormalisedWhole role limits all output.old output.new result }
{
    let mut source = Source::new(alloc, role, limits);
    loop {
        match source.next(input)? {
            Next::Event(event) => {
                put_event(output, role, &event)?;
                put_taken(output, &mut source)?;
                source.reuse(event);
            }
            Next::Done(verdict) => return Ok(verdict),
        }
    }
}

/// Takes the events that the source can take at once, and writes their normal form in one call. `Write` if the writer
/// fails: a prefix of it is written.
#[tactic(none)]
fn put_taken<A: Allocator + Copy, W: Write>(
    output: &mut Output<W>,
    source: &mut Source<A>,
) -> Result<(), Stop>
    requires writable { output.old.failed ≡ false }
    requires going { answered source.old ≡ None }
    ensures put { (role : Role) (limits : _) (came : List ℕ) (given : List MeantEvent) →
        HasGiven role limits source.old came given →
        PutsTaken role limits source.new came given output.old output.new result }
    ensures left { events_ahead source.new ≤ events_ahead source.old }
{
    if !source.take_events() {
        return Ok(());
    }
    if output.put(source.taken()) {
        Ok(())
    } else {
        Err(Stop::Write)
    }
}
