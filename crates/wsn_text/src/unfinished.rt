ghost use Rattle.std.specs.Prelude.{◌≡◌, ◌↔◌, ◌⊎◌, ℕ, ◌+◌, ◌-◌, ◌<◌, ◌≤◌, IsTrue, List, [], ◌++◌, length, take, drop, slice_index};
ghost use Rattle.std.specs.Str.Lossy.{utf8_valid_len};
ghost use Rattle.wsn_text.specs.Utf8.{BeginsText, IsFirstBad};

/// The whole characters of bytes that begin text: all bytes but those of an unfinished last character. The bytes aren't
/// validated.
#[tactic(none)]
pub fn whole_characters(bytes: &[u8]) -> &[u8]
    ensures { BeginsText bytes.now → result.now ≡ take (utf8_valid_len bytes.now) bytes.now }
{
    &bytes[..bytes.len() - unfinished_bytes(bytes)]
}

/// The number of bytes of the last character of text if it is unfinished, otherwise 0. The bytes are the last three of
/// the text, or more; or all.
#[tactic(none)]
fn unfinished_bytes(bytes: &[u8]) -> usize
    ensures within { result ≤ length bytes.now }
    ensures text { (text skipped : List ℕ) → text ≡ skipped ++ bytes.now → (3 ≤ length bytes.now) ⊎ (skipped ≡ []) →
        BeginsText text → utf8_valid_len text + result ≡ length text }
{
    if begins_at(bytes, 1, 0xC0) {
        1
    } else if begins_at(bytes, 2, 0xE0) {
        2
    } else if begins_at(bytes, 3, 0xF0) {
        3
    } else {
        0
    }
}

/// The number of bytes of the character with which a text goes wrong, the offending byte included: 1 to 4. `last` is
/// the last four bytes of the text, or all if it has fewer; the last of them is the first bad byte (RFC 6455 section
/// 8.1).
#[tactic(none)]
pub fn bad_character_len(last: &[u8]) -> usize
    ensures within { result ≤ length last.now }
    ensures bad { (text : List ℕ) (i : ℕ) → IsFirstBad text i → i + 1 ≡ length text →
        last.now ≡ drop (length text - 4) text → utf8_valid_len text + result ≡ length text }
{
    match last.split_last() {
        Some((_, before)) => 1 + unfinished_bytes(before),
        None => 0,
    }
}

/// Whether the byte `back` bytes before the end is at least `low`.
fn begins_at(bytes: &[u8], back: usize, low: u8) -> bool
    requires { 0 < back }
    ensures { IsTrue result ↔ (back ≤ length bytes.now) × (low ≤ slice_index bytes.now (length bytes.now - back)) }
{
    back <= bytes.len() && bytes[bytes.len() - back] >= low
}
