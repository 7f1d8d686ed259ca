ghost use Rattle.std.specs.Prelude.{◌≡◌, ◌↔◌, ◌==◌, List, Option, ℕ, codes, position, IsTrue, MatchOption};
ghost use Rattle.std.specs.Option.{option_copied};
ghost use Rattle.wsn_plan_text.specs.PlanText as text;
ghost use Rattle.wsn_plan_text.specs.PlanText.{HasFields, IsField};
ghost use Rattle.wsn_plan_text.specs.Splits.{AreFieldsAfter, AreKeyAndForm, IsSplit, seen};

/// The fields of a line of plan text, by its first word. No field is empty or has a space.
#[derive(Clone, Copy, Drop)]
pub enum Fields<'a> {
    /// `piece NUMBER KEY` or `piece NUMBER KEY FORM`.
    Piece {
        number: &'a [u8],
        key: &'a [u8],
        form: Option<&'a [u8]>,
    },
    /// `last KEY` or `last KEY FORM`.
    Last {
        key: &'a [u8],
        form: Option<&'a [u8]>,
    },
    /// `control KEY`.
    Control {
        key: &'a [u8],
    },
}

/// A line's fields. `None` if its first word is unknown, a field is empty, or there are too few or too many fields.
#[tactic(none)]
pub fn fields_of(line: &[u8]) -> Option<Fields<'_>>
    ensures { MatchOption result
        ((fields : text.Fields) → ¬ (HasFields line.now fields))
        (λ fields. HasFields line.now (seen fields)) }
{
    let (word, rest) = split(line, b' ');
    fields_after(word, rest?)
}

fn fields_after<'a>(word: &[u8], rest: &'a [u8]) -> Option<Fields<'a>>
    ensures { MatchOption result
        ((fields : text.Fields) → ¬ (AreFieldsAfter word.now rest.now fields))
        (λ fields. AreFieldsAfter word.now rest.now (seen fields)) }
{
    match word {
        b"piece" => piece_fields(rest),
        b"last" => {
            let (key, form) = key_and_form(rest)?;
            Some(Fields::Last { key, form })
        }
        b"control" if is_field(rest) => Some(Fields::Control { key: rest }),
        _ => None,
    }
}

fn piece_fields(rest: &[u8]) -> Option<Fields<'_>>
    ensures { MatchOption result
        ((fields : text.Fields) → ¬ (AreFieldsAfter (codes "piece") rest.now fields))
        (λ fields. AreFieldsAfter (codes "piece") rest.now (seen fields)) }
{
    let (number, rest) = split(rest, b' ');
    if number.is_empty() {
        return None;
    }
    let (key, form) = key_and_form(rest?)?;
    Some(Fields::Piece { number, key, form })
}

/// A key, and the field after it, if there is one. `None` if a field is empty or there are more fields.
#[tactic(none)]
fn key_and_form(text: &[u8]) -> Option<(&[u8], Option<&[u8]>)>
    ensures { MatchOption result
        ((key : List ℕ) (form : Option (List ℕ)) → ¬ (AreKeyAndForm text.now key form))
        (λ parts. AreKeyAndForm text.now parts.0.now (option_copied parts.1)) }
{
    let (key, form) = split(text, b' ');
    if key.is_empty() {
        return None;
    }
    if let Some(form) = form {
        if !is_field(form) {
            return None;
        }
    }
    Some((key, form))
}

fn is_field(text: &[u8]) -> bool
    ensures { IsTrue result ↔ IsField text.now }
{
    !text.is_empty() && split(text, b' ').1.is_none()
}

/// Splits a text at the first byte of this value: the text before it, and the text after it. Without such a byte it
/// returns the whole text and `None`.
pub fn split(text: &[u8], byte: u8) -> (&[u8], Option<&[u8]>)
    ensures { IsSplit byte text.now result.0.now (option_copied result.1) }
{
    match first_place(text, byte) {
        Some(at) => (&text[..at], Some(&text[at + 1..])),
        None => (text, None),
    }
}

fn first_place(text: &[u8], byte: u8) -> Option<usize>
    ensures { result ≡ position (λ other. other == byte) text.now }
{
    text.iter().position(|other| *other == byte)
}
