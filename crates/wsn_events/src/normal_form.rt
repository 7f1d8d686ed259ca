ghost use Rattle.std.specs.Prelude.{◌≡◌, ℕ, ◌<◌, ◌≤◌, ◌^◌, List, false, length};
ghost use Rattle.wsn_wire.specs.declared.opcode.Op.{Op};
ghost use Rattle.wsn_wire.specs.Frame.{frame_bytes, is_control};
ghost use Rattle.wsn_rules.specs.Meaning.{Message, Control};
ghost use Rattle.wsn_rules.specs.LawfulEvents.{IsLawfulEvent};
ghost use Rattle.wsn_events.specs.EventsMeant.{meant, close_body};
ghost use Rattle.wsn_rules.specs.NormalForm.{normal_frame, normal_key, op_of};
ghost use Rattle.wsn_io.specs.Stops.{IsWrittenOrStops};

use crate::event::{Event, Small};
use crate::framing::{WireFrame, put_frame};
use std::alloc::Allocator;
use std::io::Write;
use wsn_io::{Output, Stop};
use wsn_wire::{Form, Kind, Op, Role};

/// Writes an event's normal form: one final frame with its length in the shortest encoding, under a key of zeros for a
/// client and under none for a server (RFC 6455 sections 5.2 and 5.3). The event must be lawful. `Stop::Write` if the
/// writer fails: a prefix of the frame is written.
pub fn put_event<A: Allocator, W: Write>(
    to: &mut Output<W>,
    role: Role,
    event: &Event<A>,
) -> Result<(), Stop>
    requires unfailed { to.old.failed ≡ false }
    requires lawful { IsLawfulEvent (meant event.now) }
    ensures { IsWrittenOrStops to.old to.new (frame_bytes (normal_frame role (meant event.now))) result }
{
    match event {
        Event::Message(kind, text) => put_message(to, role, *kind, text),
        Event::Ping(body) => put_control(to, role, Op::Ping, body),
        Event::Pong(body) => put_control(to, role, Op::Pong, body),
        Event::Close(held) => put_control(to, role, Op::Close, &body_of_close(held)),
    }
}

#[tactic(none)]
fn put_message<W: Write>(
    to: &mut Output<W>,
    role: Role,
    kind: Kind,
    text: &[u8],
) -> Result<(), Stop>
    requires unfailed { to.old.failed ≡ false }
    requires size { length text.now < 2 ^ 63 }
    ensures { IsWrittenOrStops to.old to.new (frame_bytes (normal_frame role (Message kind text.now))) result }
{
    let message = WireFrame {
        fin: true,
        op: op_of(kind),
        key: key_of(role),
        form: Form::Shortest,
        wire: text,
    };
    put_frame(to, &message)
}

#[tactic(none)]
fn put_control<W: Write>(to: &mut Output<W>, role: Role, op: Op, body: &[u8]) -> Result<(), Stop>
    requires unfailed { to.old.failed ≡ false }
    requires size { length body.now ≤ 125 }
    ensures { IsWrittenOrStops to.old to.new (frame_bytes (normal_frame role (Control op body.now))) result }
{
    let control = WireFrame {
        fin: true,
        op,
        key: key_of(role),
        form: Form::Shortest,
        wire: body,
    };
    put_frame(to, &control)
}

/// The opcode and the body of a ping, a pong or a close (RFC 6455 section 5.5). The event must not be a message, and
/// its body has at most 125 bytes.
#[tactic(none)]
pub fn control_of<A: Allocator>(event: &Event<A>) -> (Op, Small)
    requires { (op : Op) × (body : List ℕ) × (meant event.now ≡ Control op body) × (length body ≤ 125) }
    ensures { meant event.now ≡ Control result.0 result.1.items }
{
    match event {
        Event::Message(..) => unreachable!(),
        Event::Ping(body) => (Op::Ping, small_of(body)),
        Event::Pong(body) => (Op::Pong, small_of(body)),
        Event::Close(held) => (Op::Close, body_of_close(held)),
    }
}

/// A copy of the bytes.
fn small_of(bytes: &[u8]) -> Small
    requires { length bytes.now ≤ 125 }
    ensures { result.items ≡ bytes.now }
{
    let mut small = Small::new();
    let _fits = small.try_extend_from_slice(bytes);
    small
}

/// A Close's body: empty, or its code in big-endian order and its reason (RFC 6455 section 5.5.1).
#[tactic(none)]
fn body_of_close(held: &Option<(u16, Small)>) -> Small
    requires { length (close_body held.now) ≤ 125 }
    ensures { result.items ≡ close_body held.now }
{
    let mut body = Small::new();
    if let Some((code, reason)) = held {
        let _fits = body.try_extend_from_slice(&code.to_be_bytes());
        let _fits = body.try_extend_from_slice(reason);
    }
    body
}

/// The opcode that begins a message of this kind.
pub(crate) fn op_of(kind: Kind) -> Op
    ensures op { result ≡ op_of kind }
    ensures data { is_control result ≡ false }
{
    match kind {
        Kind::Text => Op::Text,
        Kind::Binary => Op::Binary,
    }
}

#[tactic(none)]
fn key_of(role: Role) -> Option<[u8; 4]>
    ensures { result ≡ normal_key role }
{
    match role {
        Role::Client => Some([0; 4]),
        Role::Server => None,
    }
}
