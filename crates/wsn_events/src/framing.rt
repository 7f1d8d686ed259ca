ghost use Rattle.std.specs.Prelude.{◌≡◌, ℕ, ◌<◌, ◌≤◌, ◌^◌, List, true, false, length};
ghost use Rattle.wsn_wire.specs.Frame.{FormFits, frame_bytes, is_control, wire_payload};
ghost use Rattle.wsn_io.specs.Stops.{IsWrittenOrStops};

use std::io::Write;
use wsn_io::{Output, Stop};
use wsn_wire::{Form, Op, head_as};

/// A frame as it is sent (RFC 6455 section 5.2).
#[derive(Clone, Copy)]
pub struct WireFrame<'a> {
    /// Whether it is the last frame of its message, or a control.
    pub fin: bool,
    /// Its opcode.
    pub op: Op,
    /// The masking key, if it is masked.
    pub key: Option<[u8; 4]>,
    /// How its length is encoded.
    pub form: Form,
    /// Its payload: with a key it is masked already.
    pub wire: &'a [u8],
}

/// Writes a frame: its head and then its payload, each in one call (RFC 6455 section 5.2). `Write` if the writer fails:
/// a prefix of the frame is written.
#[tactic(none)]
pub fn put_frame<W: Write>(to: &mut Output<W>, frame: &WireFrame<'_>) -> Result<(), Stop>
    requires unfailed { to.old.failed ≡ false }
    requires size { length frame.now.wire.now < 2 ^ 63 }
    requires control { is_control frame.now.op ≡ true →
        (frame.now.fin ≡ true) × (length frame.now.wire.now ≤ 125) × (frame.now.form ≡ Form.Shortest) }
    requires fits { FormFits frame.now.form (length frame.now.wire.now) }
    ensures { (payload : List ℕ) → frame.now.wire.now ≡ wire_payload frame.now.key payload →
        IsWrittenOrStops to.old to.new (frame_bytes (record {
          fin = frame.now.fin;
          op = frame.now.op;
          key = frame.now.key;
          form = frame.now.form;
          payload = payload;
        })) result }
{
    let head = head_as(
        frame.fin,
        frame.op,
        frame.key,
        frame.wire.len() as u64,
        frame.form,
    );
    if to.put(&head) && to.put(frame.wire) {
        Ok(())
    } else {
        Err(Stop::Write)
    }
}
