ghost use Rattle.std.specs.Prelude.{◌≤◌, length};

/// Which rule that clap doesn't check the words of a command line break.
#[derive(Clone, Copy)]
pub enum Mistake {
    /// `recut` has neither `--plan` nor `--size`.
    NoPlanOrSize,
    /// `recut` has both.
    PlanAndSize,
    /// `--weave` or `--key` with `--plan`.
    SizeOptionWithPlan,
    /// `--key` for a server.
    KeyOfServer,
    /// `--key` isn't 8 hexadecimal digits.
    BadKey,
    /// A number isn't digits alone.
    NoNumber,
    /// An offset is 2^64 or more.
    OffsetTooLarge,
    /// A view is neither a number of bytes up to 4,096 nor `all`.
    BadView,
    /// Two inputs are standard input.
    TwoStandardInputs,
    /// `--capture` for a command that reads captures alone, or without `--role`.
    CaptureAsItIs,
    /// `--color` before the command's name, or for a command that prints nothing in colours.
    ColorElsewhere,
    /// A word isn't UTF-8.
    NotUtf8,
    /// Any other rule.
    Other,
}

impl Mistake {
    /// The line that says what is wrong, without its LF: `usage: ` and a text, at most 80 bytes.
    pub fn line(&self) -> &'static str
        ensures { length result.now ≤ 80 }
    {
        match self {
            Mistake::NoPlanOrSize => "usage: recut requires --plan PLAN or --size BYTES",
            Mistake::PlanAndSize => "usage: recut takes --plan or --size, not both",
            Mistake::SizeOptionWithPlan =>
                "usage: --weave and --key go with --size, not with --plan",
            Mistake::KeyOfServer =>
                "usage: a server's frames have no key: leave out --key, or use --role client",
            Mistake::BadKey => "usage: --key takes 8 hexadecimal digits, such as 37fa213d",
            Mistake::NoNumber =>
                "usage: a number is written in digits alone: 5, not +5, 0x5 or 5.0",
            Mistake::OffsetTooLarge =>
                "usage: --at takes an OFFSET that show prints: a number below 2^64",
            Mistake::BadView => "usage: --view takes a number of bytes, 0 to 4096, or all",
            Mistake::TwoStandardInputs =>
                "usage: two inputs are standard input (-, or no FILE): name a file for one",
            Mistake::CaptureAsItIs =>
                "usage: show, closing and redact read a capture as it is: leave out --capture",
            Mistake::ColorElsewhere =>
                "usage: --color goes after show, closing, frames, judge or explain, and no other",
            Mistake::NotUtf8 =>
                "usage: an argument isn't UTF-8: give such a file as standard input, with <",
            Mistake::Other => "usage: 'wsn help COMMAND' lists what a command accepts",
        }
    }
}
