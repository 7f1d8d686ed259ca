ghost use Rattle.std.specs.Prelude.{◌≡◌, None, Some};

use std::fmt::{self, Display, Formatter};
use wsn_hint::Hint;

/// A hint on one of the two inputs that are compared. It is printed as one line without its LF, which names the input as
/// the help of `same` does.
#[derive(Clone, Copy)]
pub struct ComparedHint {
    is_second: bool,
    hint: Option<Hint>,
}

impl ComparedHint {
    /// What an input looks like: the second if `is_second`, else the first.
    pub fn looks(is_second: bool, hint: Hint) -> Self
        ensures { result ≡ record { is_second = is_second; hint = Some hint } }
    {
        ComparedHint {
            is_second,
            hint: Some(hint),
        }
    }

    /// Which input has the line that is reported.
    pub fn has_line(is_second: bool) -> Self
        ensures { result ≡ record { is_second = is_second; hint = None } }
    {
        ComparedHint {
            is_second,
            hint: None,
        }
    }
}

impl Display for ComparedHint {
    fn fmt<W: fmt::Write>(&self, f: &mut Formatter<W>) -> fmt::Result {
        let name = if self.is_second { "SECOND" } else { "FIRST" };
        match self.hint {
            Some(hint) => {
                let said = hint.after_name();
                write!(f, "hint: {name}{said}")
            }
            None => write!(f, "hint: this line is in {name}"),
        }
    }
}
