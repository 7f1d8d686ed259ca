//! The line of a frame. `show --wire` writes one for each, so little space is cleared for it.
ghost use Rattle.std.specs.Prelude.{◌≡◌, ℕ, ◌++◌, false};
ghost use Rattle.wsn_io.specs.Stops.{IsWrittenOrStops};
ghost use Rattle.wsn_rules.specs.ShownStream.Item.{Head};
ghost use Rattle.wsn_print.specs.ShownParts.{position_of};
ghost use Rattle.wsn_shown_text.specs.Members.Member.{Frame};
ghost use Rattle.wsn_shown_text.specs.EntryFormats.{item_in, offset_in, member_in, end_in};
ghost use Rattle.wsn_shown_text.specs.declared.fields.Shape.TheVariants.{Line as words};

use crate::fronts::put_side;
use std::io::Write;
use wsn_io::{Output, Stop, put_line};
use wsn_print::{EntryFront, Line};
use wsn_rules::HeadInfo;

/// The space in bytes for an offset of twenty digits, the fields of a head, with a length of twenty digits, and the end.
const FRAME_MAX: usize = 70;

/// Writes a frame as a line of words.
#[inline(always)]
pub(crate) fn put_frame_line<W: Write>(
    to: &mut Output<W>,
    front: &EntryFront<'_>,
    head: &HeadInfo,
) -> Result<(), Stop>
    requires { to.old.failed ≡ false }
    ensures { (n : ℕ) → IsWrittenOrStops to.old to.new
        (item_in words n front.now.role (position_of front.now.origin)
        (Head (record head.now { offset = front.now.offset }))) result }
{
    put_side(to, front)?;
    put_line(to, frame_line(front.offset, head).bytes())
}

/// A frame's offset, the fields of its head, and the end.
fn frame_line(offset: u64, head: &HeadInfo) -> Line<FRAME_MAX>
    ensures { result ≡ offset_in words offset ++ member_in words (Frame head.now) ++ end_in words }
{
    let mut line = Line::new();
    line.push(" ");
    line.push_number(offset);
    line.push_fields(head);
    line
}
