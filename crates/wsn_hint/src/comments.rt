ghost use Rattle.std.specs.Prelude.{◌≡◌, ◌↔◌, ◌<◌, ◌∷◌, ◌⊎◌, IsTrue, length, codes};
ghost use Rattle.wsn_rules.specs.TextLines.{lines_of};
ghost use Rattle.wsn_hint.specs.Hints.{Begins};
ghost use Rattle.wsn_hint.specs.Comments.{HasWord, IsSaid, IsUnoffered, IsWrongAccept, Says};

use memchr::{memchr, memmem};
use wsn_capture::strip_cr;

/// What a comment says of a capture's handshake.
#[derive(Clone, Copy)]
pub enum Said {
    /// That it is known: the answer's status line.
    Answer,
    /// That compression was agreed on.
    Compression,
    /// What is wrong with the answer.
    WrongAnswer,
}

/// Whether a line of the text is a comment that says this.
pub fn is_said(text: &[u8], said: Said) -> bool
    ensures { IsTrue result ↔ IsSaid said text.now }
{
    let mut rest = text;
    while !rest.is_empty() {
        let (line, later) = first_line(rest);
        if says(line, said) {
            return true;
        }
        rest = later;
    }
    false
}

/// The first line of a text, without its LF, and what follows.
fn first_line(text: &[u8]) -> (&[u8], &[u8])
    requires { 0 < length text.now }
    ensures lines { lines_of text.now ≡ result.0.now ∷ lines_of result.1.now }
    ensures shorter { length result.1.now < length text.now }
{
    match memchr(b'\n', text) {
        Some(end) => (&text[..end], &text[end + 1..]),
        None => (text, &[]),
    }
}

/// Whether the line is a comment that says this.
fn says(line: &[u8], said: Said) -> bool
    ensures { IsTrue result ↔ Says said line.now }
{
    match said {
        Said::Answer => begins(line, b"# answer: "),
        Said::Compression => {
            begins(line, b"# extensions: ") && has_word(line, b"permessage-deflate")
        }
        Said::WrongAnswer => is_wrong_accept(line) || is_unoffered(line),
    }
}

fn is_wrong_accept(line: &[u8]) -> bool
    ensures { IsTrue result ↔ IsWrongAccept line.now }
{
    strip_cr(line) == b"# accept is wrong".as_slice()
}

fn is_unoffered(line: &[u8]) -> bool
    ensures { IsTrue result ↔ IsUnoffered line.now }
{
    is_choice(line) && has_word(line, b" was not offered")
}

/// Whether the line is about a subprotocol or an extension that the answer chose.
fn is_choice(line: &[u8]) -> bool
    ensures { IsTrue result ↔ (Begins (codes "# subprotocol ") line.now ⊎ Begins (codes "# extension ") line.now) }
{
    begins(line, b"# subprotocol ") || begins(line, b"# extension ")
}

fn begins(line: &[u8], label: &[u8]) -> bool
    ensures { IsTrue result ↔ Begins label.now line.now }
{
    if line.len() < label.len() {
        return false;
    }
    &line[..label.len()] == label
}

fn has_word(line: &[u8], word: &[u8]) -> bool
    ensures { IsTrue result ↔ HasWord line.now word.now }
{
    memmem::find(line, word).is_some()
}
