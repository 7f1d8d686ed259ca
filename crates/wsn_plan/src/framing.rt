ghost use Rattle.std.specs.Prelude.{◌≡◌, ℕ, ◌+◌, ◌-◌, ◌<◌, ◌≤◌, ◌^◌, true, false, Option, Some, List, [], ◌∷◌, length, map, drop};
ghost use Rattle.wsn_wire.specs.Frame.{FormFits, frame_bytes, is_control};
ghost use Rattle.wsn_wire.specs.declared.opcode.Kind.{Kind};
ghost use Rattle.wsn_rules.specs.Meaning.{Message, Control};
ghost use Rattle.wsn_rules.specs.LawfulEvents.{AreLawful};
ghost use Rattle.wsn_rules.specs.Plan.{next_text};
ghost use Rattle.wsn_wire.specs.declared.opcode.Op.{Op};
ghost use Rattle.wsn_rules.specs.Recut.{op_after};
ghost use Rattle.wsn_rules.specs.declared.step.Step.TheVariants.{Piece, Last};
ghost use Rattle.wsn_io.specs.Stops.{IsWrittenOrStops};
ghost use Rattle.wsn_plan.specs.Gathering.{kept_meant};
ghost use Rattle.wsn_events.specs.EventsMeant.{close_body};
ghost use Rattle.wsn_plan.specs.Walking.{IsPlaced, IsApplicable};
ghost use Rattle.wsn_plan.specs.Framing.{control_frame, frame_here, EncodesItsLength};
ghost use Rattle.wsn_frame.specs.Payloads.{unmasked_by};

use crate::kept::Kept;
use crate::walking::{FrameForm, Walk};
use std::alloc::Allocator;
use std::io::Write;
use wsn_events::{WireFrame, put_frame};
use wsn_frame::unmask;
use wsn_io::{Output, Stop};
use wsn_rules::Step;
use wsn_wire::{Form, Kind, Op};

/// What a frame's head says, but for the length.
#[derive(Clone, Copy)]
struct FrameHead {
    fin: bool,
    op: Op,
    key: Option<[u8; 4]>,
    form: Form,
}

/// Writes the frame of a plan's next step. The events are masked in place and are unchanged afterwards. `Write` if the
/// writer fails: a prefix of the frame is written.
pub(crate) fn put_step<A: Allocator, W: Write>(
    output: &mut Output<W>,
    events: &mut [Kept<A>],
    walk: &Walk,
    step: &Step,
) -> Result<(), Stop>
    requires unfailed { output.old.failed ≡ false }
    requires placed { IsPlaced walk.now (map kept_meant events.old) }
    requires may { IsApplicable walk.now (map kept_meant events.old) step.now }
    requires form { EncodesItsLength walk.now (drop walk.now.event (map kept_meant events.old)) step.now }
    requires held { (text : List ℕ) → next_text (drop walk.now.event (map kept_meant events.old)) ≡ Some text →
        (walk.now.held ≤ length text) × (length text < 2 ^ 63) }
    requires lawful { (most : ℕ) × AreLawful most (map kept_meant events.old) }
    ensures put { IsWrittenOrStops output.old output.new
        (frame_bytes (frame_here walk.now (drop walk.now.event (map kept_meant events.old)) step.now)) result }
    ensures same { map kept_meant events.new ≡ map kept_meant events.old }
{
    match step {
        Step::Piece { len, key, form } => {
            let frame = FrameForm {
                key: *key,
                form: *form,
            };
            put_piece(output, &mut events[walk.message], walk, *len, frame)
        }
        Step::Last { key, form } => {
            let frame = FrameForm {
                key: *key,
                form: *form,
            };
            put_last(output, &mut events[walk.event], walk, frame)
        }
        Step::Control { key } => put_control(output, &mut events[walk.event], *key),
    }
}

/// Writes a frame of a message that isn't its last.
fn put_piece<A: Allocator, W: Write>(
    output: &mut Output<W>,
    event: &mut Kept<A>,
    walk: &Walk,
    len: u64,
    frame: FrameForm,
) -> Result<(), Stop>
    requires unfailed { output.old.failed ≡ false }
    requires message { (kind : Kind) × (text : List ℕ) × (kept_meant event.old ≡ Message kind text)
        × (walk.now.held + len ≤ length text) × (length text < 2 ^ 63) }
    requires form { FormFits frame.form len }
    ensures put { (kind : Kind) (text : List ℕ) → kept_meant event.old ≡ Message kind text →
        IsWrittenOrStops output.old output.new
        (frame_bytes (frame_here walk.now (Message kind text ∷ []) (Piece len frame.key frame.form))) result }
    ensures same { kept_meant event.new ≡ kept_meant event.old }
{
    let Kept::Message(kind, text) = event else {
        unreachable!();
    };
    let from = walk.held as usize;
    let to = from + len as usize;
    let head = FrameHead {
        fin: false,
        op: op_after(walk.pieces, *kind),
        key: frame.key,
        form: frame.form,
    };
    put_masked(output, head, &mut text[from..to])
}

/// Writes a message's last frame.
fn put_last<A: Allocator, W: Write>(
    output: &mut Output<W>,
    event: &mut Kept<A>,
    walk: &Walk,
    frame: FrameForm,
) -> Result<(), Stop>
    requires unfailed { output.old.failed ≡ false }
    requires message { (kind : Kind) × (text : List ℕ) × (kept_meant event.old ≡ Message kind text)
        × (walk.now.held ≤ length text) × (length text < 2 ^ 63)
        × FormFits frame.form (length text - walk.now.held) }
    ensures put { (kind : Kind) (text : List ℕ) → kept_meant event.old ≡ Message kind text →
        IsWrittenOrStops output.old output.new
        (frame_bytes (frame_here walk.now (Message kind text ∷ []) (Last frame.key frame.form))) result }
    ensures same { kept_meant event.new ≡ kept_meant event.old }
{
    let Kept::Message(kind, text) = event else {
        unreachable!();
    };
    let from = walk.held as usize;
    let head = FrameHead {
        fin: true,
        op: op_after(walk.pieces, *kind),
        key: frame.key,
        form: frame.form,
    };
    put_masked(output, head, &mut text[from..])
}

/// The opcode of a message's frame after this many Pieces: the first has that of the message's kind, the others
/// continue it (RFC 6455 section 5.4).
fn op_after(pieces: u64, kind: Kind) -> Op
    ensures op { result ≡ op_after pieces kind }
    ensures data { is_control result ≡ false }
{
    match kind {
        _ if pieces > 0 => Op::Continue,
        Kind::Text => Op::Text,
        Kind::Binary => Op::Binary,
    }
}

/// Writes a control frame.
fn put_control<A: Allocator, W: Write>(
    output: &mut Output<W>,
    event: &mut Kept<A>,
    key: Option<[u8; 4]>,
) -> Result<(), Stop>
    requires unfailed { output.old.failed ≡ false }
    requires control { (op : Op) × (body : List ℕ) × (kept_meant event.old ≡ Control op body) × (length body ≤ 125) }
    ensures put { (op : Op) (body : List ℕ) → kept_meant event.old ≡ Control op body →
        IsWrittenOrStops output.old output.new (frame_bytes (control_frame key (op, body))) result }
    ensures same { kept_meant event.new ≡ kept_meant event.old }
{
    let Kept::Control(op, body) = event else {
        unreachable!();
    };
    let head = FrameHead {
        fin: true,
        op: *op,
        key,
        form: Form::Shortest,
    };
    put_masked(output, head, body)
}

/// Writes a frame. With a key the payload is masked in place, and unmasked again afterwards: `unmask` does both (RFC
/// 6455 section 5.3). `Write` if the writer fails: a prefix of the frame is written.
#[tactic(none)]
fn put_masked<W: Write>(
    output: &mut Output<W>,
    head: FrameHead,
    payload: &mut [u8],
) -> Result<(), Stop>
    requires unfailed { output.old.failed ≡ false }
    requires size { length payload.old < 2 ^ 63 }
    requires control { is_control head.op ≡ true →
        (head.fin ≡ true) × (length payload.old ≤ 125) × (head.form ≡ Form.Shortest) }
    requires fits { FormFits head.form (length payload.old) }
    ensures put { IsWrittenOrStops output.old output.new (frame_bytes (record {
      fin = head.fin;
      op = head.op;
      key = head.key;
      form = head.form;
      payload = payload.old;
    })) result }
    ensures same { payload.new ≡ payload.old }
{
    let mask = changing(head.key);
    unmask(mask, 0, payload);
    let frame = WireFrame {
        fin: head.fin,
        op: head.op,
        key: head.key,
        form: head.form,
        wire: payload,
    };
    let done = put_frame(output, &frame);
    unmask(mask, 0, payload);
    done
}

/// The key, if masking by it changes a payload: a key of zeros doesn't (RFC 6455 section 5.3).
fn changing(key: Option<[u8; 4]>) -> Option<[u8; 4]>
    ensures { (payload : List ℕ) → unmasked_by result 0 payload ≡ unmasked_by key 0 payload }
{
    match key {
        Some(key) if key != [0; 4] => Some(key),
        _ => None,
    }
}
