ghost use Rattle.std.specs.Prelude.{◌≡◌};
ghost use Rattle.std.specs.Str.{bytes_eq};
ghost use Rattle.wsn_color.specs.Tones.{begins_comment, later_tone, name_tone, opening_of, opening_tone, outcome_tone, sent_tone};

use crate::tone::Tone;

/// What a line of an answer is about, by its first word.
#[derive(Clone, Copy)]
pub(crate) enum Opening {
    Client,
    Server,
    Refusal,
    Cut,
    Outcome,
    Comment,
    Other,
}

impl Opening {
    /// What a line is about that begins with this word.
    pub fn of(word: &[u8]) -> Self
        ensures { result ≡ opening_of word.now }
    {
        if begins_comment(word) {
            Opening::Comment
        } else if is(word, b"C") || is(word, b"client") || is(word, b"client-sees") {
            Opening::Client
        } else if is(word, b"S") || is(word, b"server") || is(word, b"server-sees") {
            Opening::Server
        } else if is(word, b"refused") || is(word, b"bad") {
            Opening::Refusal
        } else if is(word, b"cut") {
            Opening::Cut
        } else if is(word, b"outcome") {
            Opening::Outcome
        } else {
            Opening::Other
        }
    }

    /// The tone with which the line begins.
    pub fn tone(self) -> Option<Tone>
        ensures { result ≡ opening_tone self }
    {
        match self {
            Opening::Client => Some(Tone::Client),
            Opening::Server => Some(Tone::Server),
            Opening::Refusal => Some(Tone::Alarm),
            Opening::Cut => Some(Tone::Warning),
            Opening::Comment => Some(Tone::Minor),
            Opening::Outcome | Opening::Other => None,
        }
    }

    /// The tone that begins with a later word of the line.
    pub fn later_tone(self, word: &[u8]) -> Option<Tone>
        ensures { result ≡ later_tone self word.now }
    {
        match self {
            Opening::Client | Opening::Server => sent_tone(word),
            Opening::Outcome => outcome_tone(word),
            _ => None,
        }
    }
}

/// Whether the word is this one.
fn is(word: &[u8], other: &[u8]) -> bool
    ensures { result ≡ bytes_eq word.now other.now }
{
    word == other
}

/// Whether a word begins with `#`.
fn begins_comment(word: &[u8]) -> bool
    ensures { result ≡ begins_comment word.now }
{
    matches!(word, [b'#', ..])
}

/// The tone that begins with a word about what an endpoint sent.
fn sent_tone(word: &[u8]) -> Option<Tone>
    ensures { result ≡ sent_tone word.now }
{
    if is(word, b"refused") || is(word, b"bad-character") {
        Some(Tone::Alarm)
    } else if is(word, b"cut") || is(word, b"unfinished") {
        Some(Tone::Warning)
    } else if is(word, b"end") {
        Some(Tone::Minor)
    } else {
        None
    }
}

/// The tone of a connection's outcome.
pub(crate) fn outcome_tone(word: &[u8]) -> Option<Tone>
    ensures { result ≡ outcome_tone word.now }
{
    if is(word, b"failed") {
        Some(Tone::Alarm)
    } else if is(word, b"abnormal") {
        Some(Tone::Warning)
    } else {
        None
    }
}

/// The tone of a name before a colon.
pub(crate) fn name_tone(word: &[u8]) -> Option<Tone>
    ensures { result ≡ name_tone word.now }
{
    if is(word, b"Usual causes") || is(word, b"Next") {
        Some(Tone::Label)
    } else if is(word, b"hint") {
        Some(Tone::Warning)
    } else {
        None
    }
}
