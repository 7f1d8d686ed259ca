ghost use Rattle.std.specs.Prelude.{◌≡◌, ◌++◌, false, IfOk, Option};
ghost use Rattle.wsn_io.specs.Stops.{IsWrittenOrStops};
ghost use Rattle.wsn_rules.specs.ShownStream.{Item};
ghost use Rattle.wsn_shown_text.specs.DifferenceText.{answer_in, compared_event_in, difference_in, difference_text};
ghost use Rattle.wsn_shown_text.specs.declared.fields.Shape.TheVariants.{Object};
ghost use Rattle.wsn_print.specs.DifferingPayloads.{StandsForPayloads};
ghost use Rattle.wsn_print.specs.ShownParts.{StandsFor};

use crate::differing::{put_differing, put_piece};
use crate::fields::{Shape, piece_of};
use crate::items::put_placed;
use std::io::Write;
use wsn_io::{Output, Stop, put_line};
use wsn_print::{
    Difference, Format, Line, PlacedEvent, ViewLimit, line_of_difference, push_number_field,
    push_string_field,
};
use wsn_wire::Role;

/// The space for the answer's members in bytes, with a number of twenty digits.
const ANSWER_MAX: usize = 110;

/// Writes in a format that two streams of this role differ, and each stream's event: the answer's line and the lines
/// `first EVENT` and `second EVENT`, with a dash for no event; or a JSON object in one line, with null for no event. If
/// both have an event and their payloads differ, the line `differ-at PLACE VIEW VIEW` follows, or the member says where.
/// `Stop::Write` if the writer fails: a prefix of the text was written.
pub fn put_difference_as<W: Write>(
    to: &mut Output<W>,
    format: Format,
    view: ViewLimit,
    role: Role,
    difference: &Difference<'_>,
) -> Result<(), Stop>
    requires { to.old.failed ≡ false }
    ensures { (one other : Option Item) → StandsFor view difference.now.first one →
        StandsFor view difference.now.second other → StandsForPayloads view difference.now.payloads one other →
        IsWrittenOrStops to.old to.new (difference_text format view role difference.now.index one other) result }
{
    match format {
        Format::Text | Format::People => put_difference(to, Shape::Line, view, role, difference),
        Format::Json => put_difference(to, Shape::Object, view, role, difference),
    }
}

fn put_difference<W: Write>(
    to: &mut Output<W>,
    shape: Shape,
    view: ViewLimit,
    role: Role,
    difference: &Difference<'_>,
) -> Result<(), Stop>
    requires { to.old.failed ≡ false }
    ensures { (one other : Option Item) → StandsFor view difference.now.first one →
        StandsFor view difference.now.second other → StandsForPayloads view difference.now.payloads one other →
        IsWrittenOrStops to.old to.new (difference_in shape view role difference.now.index one other) result }
{
    put_answer(to, shape, difference.index)?;
    let first = piece_of(shape, "first ", ",\"first\":");
    put_event(to, shape, first, view, role, &difference.first)?;
    let second = piece_of(shape, "second ", ",\"second\":");
    put_event(to, shape, second, view, role, &difference.second)?;
    put_differing(to, shape, view, &difference.payloads)?;
    put_piece(to, shape, "", "}\n")
}

fn put_answer<W: Write>(to: &mut Output<W>, shape: Shape, index: u64) -> Result<(), Stop>
    requires { to.old.failed ≡ false }
    ensures text { IsWrittenOrStops to.old to.new (answer_in shape index) result }
    ensures unfailed { IfOk result (λ done. to.new.failed ≡ false) }
{
    match shape {
        Shape::Line => put_line(to, line_of_difference(index).bytes()),
        Shape::Object => put_line(to, line_of_answer(index).bytes()),
    }
}

/// The type and the answer.
fn line_of_answer(index: u64) -> Line<ANSWER_MAX>
    ensures { result ≡ answer_in Object index }
{
    let mut line = Line::new();
    line.push("{\"type\":\"comparison\"");
    push_string_field(&mut line, "answer", "different");
    push_number_field(&mut line, "event", index);
    line
}

/// Writes which stream's event comes, and the event.
fn put_event<W: Write>(
    to: &mut Output<W>,
    shape: Shape,
    stream: &str,
    view: ViewLimit,
    role: Role,
    event: &Option<PlacedEvent<'_>>,
) -> Result<(), Stop>
    requires { to.old.failed ≡ false }
    ensures text { (item : Option Item) → StandsFor view event.now item →
        IsWrittenOrStops to.old to.new (stream.now ++ compared_event_in shape view role item) result }
    ensures unfailed { IfOk result (λ done. to.new.failed ≡ false) }
{
    put_line(to, stream.as_bytes())?;
    match event {
        Some(placed) => {
            put_placed(to, shape, view, role, placed)?;
            put_piece(to, shape, "\n", "}")
        }
        None => put_piece(to, shape, "-\n", "null"),
    }
}
