ghost use Rattle.std.specs.Prelude.{◌≡◌, ◌↔◌, ◌++◌, MatchOption, IsTrue, codes};
ghost use Rattle.std.specs.List.{AllByRecursion};
ghost use Rattle.wsn_rules.specs.ShownCapture.{IsDigit, IsWholePart, IsFractionalPart, IsSeconds, GivesTime, GivesNoTime};

use memchr::memchr;

/// The time that a line gives, without its CR, if it is a comment of `# ` and seconds: the text of the seconds.
pub fn time_of(text: &[u8]) -> Option<&[u8]>
    ensures { MatchOption result (GivesNoTime text.now) (λ seconds. GivesTime text.now seconds.now) }
{
    let seconds = text.strip_prefix(b"# ")?;
    is_seconds(seconds).then_some(seconds)
}

/// Whether a text is digits without a leading zero, a point, and one to nine digits.
#[tactic(auto, using(crate::proofs::Points::seconds_of_parts, crate::proofs::Points::parts_of_seconds, crate::proofs::Points::no_seconds))]
fn is_seconds(text: &[u8]) -> bool
    ensures { IsTrue result ↔ IsSeconds text.now }
{
    let Some(point) = memchr(b'.', text) else {
        return false;
    };
    is_whole(&text[..point]) && is_fraction(&text[point + 1..])
}

/// Whether a text is digits without a leading zero, at least one.
#[tactic(auto, using(crate::proofs::Points::leading_zero, crate::proofs::Points::no_leading_zero))]
fn is_whole(text: &[u8]) -> bool
    ensures { IsTrue result ↔ IsWholePart text.now }
{
    match text {
        [] | [b'0', _, ..] => false,
        _ => are_digits(text),
    }
}

/// Whether a text is one to nine digits.
fn is_fraction(text: &[u8]) -> bool
    ensures { IsTrue result ↔ IsFractionalPart text.now }
{
    are_digits(text) && matches!(text.len(), 1..=9)
}

fn are_digits(text: &[u8]) -> bool
    ensures { IsTrue result ↔ AllByRecursion IsDigit text.now }
{
    text.iter().all(|byte| byte.is_ascii_digit())
}
