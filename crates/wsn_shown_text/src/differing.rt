ghost use Rattle.std.specs.Prelude.{◌≡◌, ℕ, ◌≤◌, ◌++◌, Option, Some, false, IfOk, codes, decimal, length};
ghost use Rattle.wsn_io.specs.Stops.{IsWrittenOrStops};
ghost use Rattle.wsn_rules.specs.Meaning.{MeantEvent};
ghost use Rattle.wsn_rules.specs.ShownStream.{Item};
ghost use Rattle.wsn_shown_text.specs.DifferingText.{start_in, part_in, parts_in, differ_in};
ghost use Rattle.wsn_shown_text.specs.EntryFormats.{piece_in};
ghost use Rattle.wsn_print.specs.DifferingPayloads.{IsPartOf, StandsForPayloads};

use crate::fields::{Shape, piece_of};
use crate::line_views::put_if;
use crate::seen::put_shown;
use crate::views::view_of_part;
use std::io::Write;
use wsn_io::{Output, Stop, put_line};
use wsn_print::{DifferingPayloads, Line, PayloadPart, ViewLimit};

/// The space for a word or keys and a number of twenty digits in bytes.
const PLACE_MAX: usize = 48;

/// Writes where the payloads of two events differ: the line `differ-at PLACE VIEW VIEW`, or the member. If they don't, or
/// if there aren't two events, there is no line, and the member is null.
pub(crate) fn put_differing<W: Write>(
    to: &mut Output<W>,
    shape: Shape,
    view: ViewLimit,
    differing: &Option<DifferingPayloads<'_>>,
) -> Result<(), Stop>
    requires { to.old.failed ≡ false }
    ensures text { (one other : Option Item) → StandsForPayloads view differing.now one other →
        IsWrittenOrStops to.old to.new (differ_in shape view one other) result }
    ensures unfailed { IfOk result (λ done. to.new.failed ≡ false) }
{
    match differing {
        Some(differing) => put_place(to, shape, view, differing),
        None => put_piece(to, shape, "", ",\"differ_at\":null"),
    }
}

fn put_place<W: Write>(
    to: &mut Output<W>,
    shape: Shape,
    view: ViewLimit,
    differing: &DifferingPayloads<'_>,
) -> Result<(), Stop>
    requires { to.old.failed ≡ false }
    ensures text { (event other : MeantEvent) → IsPartOf view differing.now.place differing.now.first event →
        IsPartOf view differing.now.place differing.now.second other → IsWrittenOrStops to.old to.new
        (parts_in shape view (Some differing.now.place) (Some event) (Some other)) result }
    ensures unfailed { IfOk result (λ done. to.new.failed ≡ false) }
{
    let key = piece_of(shape, "differ-at ", ",\"differ_at\":{\"in_payload\":");
    put_line(to, line_of_number(key, differing.place).bytes())?;
    put_part(to, shape, ",\"first\":", view, &differing.first)?;
    put_part(to, shape, ",\"second\":", view, &differing.second)?;
    put_piece(to, shape, "\n", "}")
}

/// A word or keys, and a number.
fn line_of_number(key: &str, number: u64) -> Line<PLACE_MAX>
    requires { length key.now ≤ 28 }
    ensures { result ≡ key.now ++ decimal number }
{
    let mut line = Line::new();
    line.push(key);
    line.push_number(number);
    line
}

/// Writes a space or this key, and what is shown of a payload around a place; a dash or null if the view is 0.
fn put_part<W: Write>(
    to: &mut Output<W>,
    shape: Shape,
    key: &'static str,
    view: ViewLimit,
    part: &PayloadPart<'_>,
) -> Result<(), Stop>
    requires { to.old.failed ≡ false }
    ensures text { (place : ℕ) (event : MeantEvent) → IsPartOf view place part.now event →
        IsWrittenOrStops to.old to.new (piece_in shape (codes " ") key.now ++ part_in shape view place event) result }
    ensures unfailed { IfOk result (λ done. to.new.failed ≡ false) }
{
    put_piece(to, shape, " ", key)?;
    if view.bytes() == 0 {
        return put_piece(to, shape, "-", "null");
    }
    put_start(to, shape, part.from)?;
    put_shown(to, shape, view, &view_of_part(view, part))?;
    put_piece(to, shape, "", "}")
}

/// Writes `..` if what is shown doesn't begin with the payload; in an object, where it begins.
fn put_start<W: Write>(to: &mut Output<W>, shape: Shape, from: u64) -> Result<(), Stop>
    requires { to.old.failed ≡ false }
    ensures text { IsWrittenOrStops to.old to.new (start_in shape from) result }
    ensures unfailed { IfOk result (λ done. to.new.failed ≡ false) }
{
    match shape {
        Shape::Line => put_if(to, from > 0, b".."),
        Shape::Object => put_line(to, line_of_number("{\"from\":", from).bytes()),
    }
}

/// Writes the first text in a line, the second in an object.
pub(crate) fn put_piece<W: Write>(
    to: &mut Output<W>,
    shape: Shape,
    in_line: &'static str,
    in_object: &'static str,
) -> Result<(), Stop>
    requires { to.old.failed ≡ false }
    ensures text { IsWrittenOrStops to.old to.new (piece_in shape in_line.now in_object.now) result }
    ensures unfailed { IfOk result (λ done. to.new.failed ≡ false) }
{
    put_line(to, piece_of(shape, in_line, in_object).as_bytes())
}
