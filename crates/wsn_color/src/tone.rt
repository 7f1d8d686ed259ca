ghost use Rattle.std.specs.Prelude.{◌≡◌, ◌≤◌, Bool, true, false, [], length};
ghost use Rattle.wsn_color.specs.Codes.{IsComplete, colored_after, has_plain_ends, without_codes};
ghost use Rattle.wsn_color.specs.Tones.{code_of, end_code};

/// How a part of a line is shown. The colours are of the 256 that are the same on all terminals, and are read on dark and
/// on light grounds.
#[derive(Clone, Copy)]
pub(crate) enum Tone {
    /// What the client said: blue.
    Client,
    /// What the server said: magenta.
    Server,
    /// What went wrong: bold and red.
    Alarm,
    /// What isn't as it should be: orange.
    Warning,
    /// What matters less: grey.
    Minor,
    /// The name of a paragraph: bold.
    Label,
}

/// The code after which nothing is coloured.
pub(crate) fn plain_code() -> &'static [u8]
    ensures code { result.now ≡ end_code }
    ensures complete { IsComplete result.now }
    ensures empty { without_codes result.now ≡ [] }
    ensures plain { (colored : Bool) → colored_after colored [] result.now ≡ false }
    ensures ends { (colored : Bool) → has_plain_ends colored [] result.now ≡ true }
    ensures short { length result.now ≤ 4 }
{
    b"\x1b[0m"
}

impl Tone {
    /// The code with which the tone begins.
    pub(crate) fn code(self) -> &'static [u8]
        ensures code { result.now ≡ code_of self }
        ensures complete { IsComplete result.now }
        ensures empty { without_codes result.now ≡ [] }
        ensures colored { (colored : Bool) → colored_after colored [] result.now ≡ true }
        ensures ends { (colored : Bool) → has_plain_ends colored [] result.now ≡ true }
        ensures short { length result.now ≤ 13 }
    {
        match self {
            Tone::Client => b"\x1b[38;5;31m",
            Tone::Server => b"\x1b[38;5;165m",
            Tone::Alarm => b"\x1b[1;38;5;196m",
            Tone::Warning => b"\x1b[38;5;166m",
            Tone::Minor => b"\x1b[38;5;244m",
            Tone::Label => b"\x1b[1m",
        }
    }
}
