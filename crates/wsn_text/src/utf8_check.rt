ghost use Rattle.std.specs.Prelude.{◌≡◌, ℕ, ◌+◌, ◌<◌, ◌≤◌, ◌⊎◌, ◌↔◌, List, [], ◌++◌, length, take, IsTrue, IsFalse, IsOk, IfErr, MatchResult};
ghost use Rattle.wsn_text.specs.Utf8.{IsText, BeginsText, IsFirstBad};
ghost use Rattle.wsn_text.specs.Validated.{Follows, HasValidated, Validates, Breaks};

use crate::ascii_blocks::is_ascii;
use crate::expected::Expected;
use crate::text_blocks::is_text_after;
use simdutf8::compat::from_utf8;
use std::marker::Model;

/// At most this many bytes are validated one by one.
const FEW: usize = 3;

/// At most this many bytes are validated at once.
const PART: usize = 8192;

/// Validates UTF-8 that comes in chunks (Unicode Standard, Table 3-7; RFC 6455 sections 5.6 and 8.1). It keeps one byte
/// of state, and no text.
///
/// ```
/// let mut utf8 = Utf8::new();
/// utf8.feed(b"5 \xE2\x82"); // Ok(()), and is_whole() is false
/// utf8.feed(b"\xAC"); // Ok(()), and is_whole() is true
/// utf8.feed(b"a\xFFb"); // Err(1)
/// utf8.feed(b""); // Err(0)
/// ```
#[derive(Clone, Copy, Debug)]
pub struct Utf8 {
    expected: Expected,
}

impl Model for Utf8 {
    ghost use Rattle.std.specs.Prelude.{List, Option};
    ghost use Rattle.wsn_text.specs.Utf8.{Range};
    ghost use Rattle.wsn_text.specs.Expected.{awaited, expecting, expecting-awaited};

    ghost Value = { Option (List Range) };

    ghost view = { λ u. awaited u.expected };

    ghost inverse = { λ ranges. record { expected = expecting ranges } };

    ghost inverse_ok = { λ u h i. record { expected = expecting-awaited u.expected i } };
}

impl Utf8 {
    /// A validator to which no byte has been fed.
    #[tactic(none)]
    pub fn new() -> Self
        ensures { HasValidated result [] }
    {
        Utf8 {
            expected: Expected::Character,
        }
    }

    /// Validates the next bytes. `chunk` may be empty.
    ///
    /// # Errors
    ///
    /// The offset in `chunk` of the first bad byte among all bytes fed so far. 0 for every call after a bad byte.
    #[inline(always)]
    #[tactic(none)]
    pub fn feed(&mut self, chunk: &[u8]) -> Result<(), usize>
        ensures within { IfErr result (λ i. (i ≡ 0) ⊎ (i < length chunk.now)) }

        // Whatever was fed before:
        ensures taken { (taken : List ℕ) → HasValidated self.old taken → HasValidated self.new (taken ++ chunk.now) }
        ensures ok { (taken : List ℕ) → HasValidated self.old taken → (IsOk result ↔ BeginsText (taken ++ chunk.now)) }
        ensures first_bad { (taken : List ℕ) → HasValidated self.old taken → BeginsText taken
            → IfErr result (λ i. IsFirstBad (taken ++ chunk.now) (length taken + i)) }
        ensures after_bad { (taken : List ℕ) → HasValidated self.old taken → ¬ (BeginsText taken) → result ≡ Err 0 }
    {
        if self.goes_on_in_ascii(chunk) {
            return Ok(());
        }
        if self.is_bad() {
            return Err(0);
        }
        self.take_chunk(chunk)
    }

    /// Whether all bytes fed so far are UTF-8. `false` forever after a bad byte.
    #[tactic(none)]
    pub fn is_whole(&self) -> bool
        ensures { (taken : List ℕ) → HasValidated self.now taken → (IsTrue result ↔ IsText taken) }
    {
        matches!(self.expected, Expected::Character)
    }

    /// Whether no character is unfinished and the chunk is ASCII.
    #[inline(always)]
    fn goes_on_in_ascii(&self, chunk: &[u8]) -> bool
        ensures { IsTrue result → Validates self.now self.now chunk.now }
    {
        self.is_whole() && is_ascii(chunk)
    }

    /// Whether a bad byte has come.
    fn is_bad(&self) -> bool
        ensures bad { IsTrue result → (more : List ℕ) → ¬ (Follows self.now more) }
        ensures good { IsFalse result → (more : List ℕ) × Follows self.now more }
    {
        matches!(self.expected, Expected::Nothing)
    }

    /// Validates a chunk by parts, so that not much is read after a bad byte.
    #[inline(never)]
    #[tactic(none)]
    fn take_chunk(&mut self, chunk: &[u8]) -> Result<(), usize>
        requires { (more : List ℕ) × Follows self.old more }
        ensures within { IfErr result (λ i. i < length chunk.now) }
        ensures steps { MatchResult result (λ _. Validates self.old self.new chunk.now)
            (Breaks self.old self.new chunk.now) }
    {
        if chunk.len() <= FEW {
            return self.take_each(chunk);
        }
        let mut at = 0;
        loop {
            let end = chunk.len().min(at + PART);
            self.take_part(&chunk[at..end]).map_err(|i| at + i)?;
            if end == chunk.len() {
                return Ok(());
            }
            at = end;
        }
    }

    /// Validates a part: all of it at once but an unfinished last character, or in steps if a byte is bad.
    #[tactic(none)]
    fn take_part(&mut self, chunk: &[u8]) -> Result<(), usize>
        requires { (more : List ℕ) × Follows self.old more }
        ensures within { IfErr result (λ i. i < length chunk.now) }
        ensures good { IsOk result → (more : List ℕ) × Follows self.new more }
        ensures steps { MatchResult result (λ _. Validates self.old self.new chunk.now)
            (Breaks self.old self.new chunk.now) }
    {
        let (front, rest) = chunk.split_at(chunk.len() - unfinished(chunk));
        if !is_text_after(self.expected.first_byte(), front) {
            return self.take_in_steps(chunk);
        }
        self.expected = Expected::Character;
        if rest.is_empty() {
            return Ok(());
        }
        self.take_each(rest).map_err(|i| front.len() + i)
    }

    /// Validates a chunk: what the last character still needs byte by byte, and then the rest.
    #[inline(never)]
    #[tactic(none)]
    fn take_in_steps(&mut self, chunk: &[u8]) -> Result<(), usize>
        requires { (more : List ℕ) × Follows self.old more }
        ensures within { IfErr result (λ i. i < length chunk.now) }
        ensures good { IsOk result → (more : List ℕ) × Follows self.new more }
        ensures steps { MatchResult result (λ _. Validates self.old self.new chunk.now)
            (Breaks self.old self.new chunk.now) }
    {
        let (begun, rest) = chunk.split_at(self.expected.missing().min(chunk.len()));
        self.take_each(begun)?;
        self.take_rest(rest).map_err(|i| begun.len() + i)
    }

    /// Validates bytes one by one.
    fn take_each(&mut self, bytes: &[u8]) -> Result<(), usize>
        requires { (more : List ℕ) × Follows self.old more }
        ensures within { IfErr result (λ i. i < length bytes.now) }
        ensures good { IsOk result → (more : List ℕ) × Follows self.new more }
        ensures steps { MatchResult result (λ _. Validates self.old self.new bytes.now)
            (Breaks self.old self.new bytes.now) }
    {
        for (i, &byte) in bytes.iter().enumerate() {
            self.expected = self.expected.after(byte);
            if self.is_bad() {
                return Err(i);
            }
        }
        Ok(())
    }

    /// Validates bytes; if no character is unfinished, a long prefix of them at once and the rest byte by byte.
    #[tactic(none)]
    fn take_rest(&mut self, bytes: &[u8]) -> Result<(), usize>
        requires { (more : List ℕ) × Follows self.old more }
        ensures within { IfErr result (λ i. i < length bytes.now) }
        ensures good { IsOk result → (more : List ℕ) × Follows self.new more }
        ensures steps { MatchResult result (λ _. Validates self.old self.new bytes.now)
            (Breaks self.old self.new bytes.now) }
    {
        if !self.is_whole() {
            return self.take_each(bytes);
        }
        let (text, rest) = bytes.split_at(text_prefix(bytes));
        self.take_each(rest).map_err(|i| text.len() + i)
    }
}

/// The number of bytes at the end that may be an unfinished character, found without a branch.
fn unfinished(bytes: &[u8]) -> usize
    ensures { result ≤ length bytes.now }
{
    let [.., third, second, last] = bytes else {
        return 0;
    };
    let one = usize::from(*last >= 0xC0);
    let two = usize::from(*second >= 0xE0) * 2;
    let three = usize::from(*third >= 0xF0) * 3;
    one.max(two).max(three)
}

/// The length of a prefix that is text. If no byte is bad, only an unfinished last character is left out.
#[tactic(none)]
fn text_prefix(bytes: &[u8]) -> usize
    ensures text { (result ≤ length bytes.now) × IsText (take result bytes.now) }
    ensures most { result + 6 < length bytes.now → ¬ (BeginsText bytes.now) }
{
    match from_utf8(&bytes[..last_character(bytes)]) {
        Ok(text) => text.len(),
        Err(bad) => bad.valid_up_to(),
    }
}

/// The offset of the last character if it may be unfinished, otherwise the length.
fn last_character(bytes: &[u8]) -> usize
    ensures { (result ≤ length bytes.now) × (length bytes.now ≤ result + 3) }
{
    let tail = bytes.len().saturating_sub(3);
    let lead = bytes[tail..].iter().rposition(|&byte| byte >= 0xC0);
    lead.map_or(bytes.len(), |i| tail + i)
}
