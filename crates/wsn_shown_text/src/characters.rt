ghost use Rattle.std.specs.Prelude.{◌≡◌, ℕ, ◌+◌, ◌/◌, ◌≤◌, [], ◌∷◌, ◌++◌, ◌==◌, ◌||◌, nat_lt, if◌then◌else◌, false, List, IfOk, flat_map, length, codes, decimal};
ghost use Rattle.hex.specs.Hex.{encode_lower};
ghost use Rattle.wsn_io.specs.Stops.{IsWrittenOrStops};
ghost use Rattle.wsn_print.specs.Json.{number_field, field};
ghost use Rattle.wsn_print.specs.EscapedText.{quoted};
ghost use Rattle.wsn_print.specs.ShownParts.{IsEndOf, time_at, position_of, character_of, character_in};
ghost use Rattle.wsn_shown_text.specs.CharacterText.{from_character, end_part, known_text, text_before, byte_escape, character_text, character_view, character_line, shown_bytes, truncated_text, character_object, character_fields};

use crate::fronts::put_side;
use crate::line_views::{put_hex, put_if};
use crate::object_views::{put_hex_field, put_truncated};
use crate::views::{end_of, first_characters, front_of};
use std::io::Write;
use wsn_io::{Output, Stop, put_line};
use wsn_print::{
    EntryFront, HeldBytes, KeptBytes, Line, ShownCharacter, ViewLimit, push_number_field,
    put_quoted, put_quoted_characters,
};

/// The space for an offset, the word and a place in the payload in bytes, with two numbers of twenty digits.
const PLACE_MAX: usize = 57;

/// The most bytes of a byte that is escaped: `\x` and two digits.
const BYTE_MAX: usize = 4;

/// The most bytes that are shown up to the offending one, half of 4,096.
const TEXT_MAX: usize = 2_048;

/// The space for the first members of the object in bytes, with two numbers of twenty digits.
const PLACES_MAX: usize = 80;

/// Writes the line of a bad character, such as `C - 18 bad-character 12 e920 .."Ren\xe9\x20"`: its front, with the
/// character's offset, its place in the payload of the message, its bytes up to the offending one, and the text up to
/// that byte, with `..` before it if some of the message before isn't shown. The front's own offset isn't printed.
#[tactic(none)]
pub(crate) fn put_character_line<W: Write>(
    to: &mut Output<W>,
    view: ViewLimit,
    front: &EntryFront<'_>,
    evidence: &HeldBytes<'_>,
    character: &ShownCharacter<'_>,
) -> Result<(), Stop>
    requires { to.old.failed ≡ false }
    ensures { (all : List ℕ) → IsEndOf (view / 2) all evidence.now →
        IsWrittenOrStops to.old to.new (character_line view front.now.role (time_at (position_of front.now.origin)) all
        (character_of character.now)) result }
{
    put_side(to, front)?;
    put_line(
        to,
        line_of_place(character.offset, character.in_payload).bytes(),
    )?;
    put_character_view(to, view, evidence, character)?;
    put_line(to, b"\n")
}

fn line_of_place(offset: u64, in_payload: u64) -> Line<PLACE_MAX>
    ensures { result ≡ codes " " ++ decimal offset ++ codes " bad-character " ++ decimal in_payload ++ codes " " }
{
    let mut line = Line::new();
    line.push(" ");
    line.push_number(offset);
    line.push(" bad-character ");
    line.push_number(in_payload);
    line.push(" ");
    line
}

/// Writes the bytes of a bad character, and the text up to its last byte; two dashes if the view is 0.
#[tactic(none)]
fn put_character_view<W: Write>(
    to: &mut Output<W>,
    view: ViewLimit,
    evidence: &HeldBytes<'_>,
    character: &ShownCharacter<'_>,
) -> Result<(), Stop>
    requires { to.old.failed ≡ false }
    ensures text { (all : List ℕ) → IsEndOf (view / 2) all evidence.now →
        IsWrittenOrStops to.old to.new (character_view view all (character_of character.now)) result }
    ensures unfailed { IfOk result (λ done. to.new.failed ≡ false) }
{
    if view.bytes() == 0 {
        return put_line(to, b"- -");
    }
    put_hex(to, character.bytes)?;
    put_line(to, b" ")?;
    put_character_text(to, view, evidence, character)
}

/// Writes the text up to the last byte of a bad character, quoted.
#[tactic(none)]
fn put_character_text<W: Write>(
    to: &mut Output<W>,
    view: ViewLimit,
    evidence: &HeldBytes<'_>,
    character: &ShownCharacter<'_>,
) -> Result<(), Stop>
    requires { to.old.failed ≡ false }
    ensures text { (all : List ℕ) → IsEndOf (view / 2) all evidence.now →
        IsWrittenOrStops to.old to.new (character_text view all (character_of character.now)) result }
    ensures unfailed { IfOk result (λ done. to.new.failed ≡ false) }
{
    let end = end_of_text(view, evidence, character);
    let before = text_before(end.as_slice(), character);
    put_if(to, (before.len() as u64) < character.in_payload, b"..")?;
    put_line(to, b"\"")?;
    put_quoted_characters(to, before)?;
    put_byte_escapes(to, character.bytes)?;
    put_line(to, b"\"")
}

/// The last bytes up to the offending one that are shown: the end of what is known of earlier frames, and then that of the
/// evidence.
#[tactic(none)]
pub(crate) fn end_of_text(
    view: ViewLimit,
    evidence: &HeldBytes<'_>,
    character: &ShownCharacter<'_>,
) -> KeptBytes<TEXT_MAX>
    ensures { (all : List ℕ) → IsEndOf (view / 2) all evidence.now →
        result ≡ end_part view (known_text all (character_of character.now)) }
{
    let view = view.short();
    let most = view.bytes() / 2;
    let last = end_of(evidence.held, most);
    let earlier = end_of(character.earlier, most - last.len());
    let mut text = KeptBytes::new();
    text.add(earlier);
    text.add(last);
    text
}

/// The whole characters that are shown before a bad one, the last of these bytes.
#[tactic(none)]
pub(crate) fn text_before<'a>(end: &'a [u8], character: &ShownCharacter<'_>) -> &'a str
    ensures { (n : ℕ) (evidence : List ℕ) →
        end.now ≡ end_part n (known_text evidence (character_of character.now)) →
        result.now ≡ text_before n evidence (character_of character.now) }
{
    let before = front_of(end, end.len().saturating_sub(character.bytes.len()));
    first_characters(from_character(before))
}

/// The bytes from the first one on that begins a character.
#[tactic(none)]
fn from_character(bytes: &[u8]) -> &[u8]
    ensures { result.now ≡ from_character bytes.now }
{
    for (start, byte) in bytes.iter().enumerate() {
        if !matches!(byte, 0x80..=0xbf) {
            return &bytes[start..];
        }
    }
    b""
}

/// Writes bytes, each as `\x` and two digits.
#[tactic(none)]
fn put_byte_escapes<W: Write>(to: &mut Output<W>, bytes: &[u8]) -> Result<(), Stop>
    requires { to.old.failed ≡ false }
    ensures { IsWrittenOrStops to.old to.new (flat_map byte_escape bytes.now) result }
{
    for b in bytes {
        put_line(to, byte_escape(*b).bytes())?;
    }
    Ok(())
}

#[tactic(none)]
fn byte_escape(b: u8) -> Line<BYTE_MAX>
    ensures { result ≡ byte_escape b }
{
    let mut line = Line::new();
    line.push("\\x");
    line.push_hex(&[b]);
    line
}

/// Writes the member of a refusal's object, if there is a bad character.
#[tactic(none)]
pub(crate) fn put_character_fields<W: Write>(
    to: &mut Output<W>,
    view: ViewLimit,
    evidence: &HeldBytes<'_>,
    character: &Option<ShownCharacter<'_>>,
) -> Result<(), Stop>
    requires { to.old.failed ≡ false }
    ensures text { (all : List ℕ) → IsEndOf (view / 2) all evidence.now →
        IsWrittenOrStops to.old to.new (character_fields view all (character_in character.now)) result }
    ensures unfailed { IfOk result (λ done. to.new.failed ≡ false) }
{
    match character {
        Some(character) => put_character_field(to, view, evidence, character),
        None => Ok(()),
    }
}

/// Writes a bad character: where it is, its bytes, and the text before it.
#[tactic(none)]
fn put_character_field<W: Write>(
    to: &mut Output<W>,
    view: ViewLimit,
    evidence: &HeldBytes<'_>,
    character: &ShownCharacter<'_>,
) -> Result<(), Stop>
    requires { to.old.failed ≡ false }
    ensures text { (all : List ℕ) → IsEndOf (view / 2) all evidence.now →
        IsWrittenOrStops to.old to.new
        (field (codes "character") (character_object view all (character_of character.now))) result }
    ensures unfailed { IfOk result (λ done. to.new.failed ≡ false) }
{
    put_line(to, line_of_places(character).bytes())?;
    put_hex_field(to, shown_bytes(view, character))?;
    put_before_field(to, view, evidence, character)?;
    put_line(to, b"}")
}

#[tactic(none)]
fn line_of_places(character: &ShownCharacter<'_>) -> Line<PLACES_MAX>
    ensures { result ≡ codes ",\"character\":{\"offset\":" ++ decimal character.now.offset
        ++ number_field (codes "in_payload") character.now.in_payload }
{
    let mut line = Line::new();
    line.push(",\"character\":{\"offset\":");
    line.push_number(character.offset);
    push_number_field(&mut line, "in_payload", character.in_payload);
    line
}

/// The bytes of a bad character that are shown: none if the view is 0.
#[tactic(none)]
fn shown_bytes<'a>(view: ViewLimit, character: &ShownCharacter<'a>) -> &'a [u8]
    ensures { result.now ≡ shown_bytes view (character_of character.now) }
{
    if view.bytes() == 0 {
        &[]
    } else {
        character.bytes
    }
}

/// Writes the text before a bad character, and whether some of the message before isn't shown.
#[tactic(none)]
fn put_before_field<W: Write>(
    to: &mut Output<W>,
    view: ViewLimit,
    evidence: &HeldBytes<'_>,
    character: &ShownCharacter<'_>,
) -> Result<(), Stop>
    requires { to.old.failed ≡ false }
    ensures text { (all : List ℕ) → IsEndOf (view / 2) all evidence.now →
        IsWrittenOrStops to.old to.new
        (field (codes "before") (quoted (text_before view all (character_of character.now)))
        ++ truncated_text view all (character_of character.now)) result }
    ensures unfailed { IfOk result (λ done. to.new.failed ≡ false) }
{
    let end = end_of_text(view, evidence, character);
    let before = text_before(end.as_slice(), character);
    put_line(to, b",\"before\":")?;
    put_quoted(to, before.as_bytes())?;
    put_truncated(to, hides_some(view, before.len(), character.in_payload))
}

/// Whether a view is 0, or fewer bytes are shown than there are.
fn hides_some(view: ViewLimit, shown: usize, all: u64) -> bool
    ensures { result ≡ (view == 0 || nat_lt shown all) }
{
    view.bytes() == 0 || (shown as u64) < all
}
