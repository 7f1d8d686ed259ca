ghost use Rattle.std.specs.Prelude.{◌≡◌};
ghost use Rattle.wsn_color.specs.Choices.{is_vt, names_colors, paints};

/// When answers are painted.
#[derive(Clone, Copy)]
pub enum ColorChoice {
    /// On a terminal.
    Auto,
    /// Everywhere.
    Always,
    /// Nowhere.
    Never,
}

/// Where answers are printed.
#[derive(Clone, Copy)]
pub struct Terminal {
    /// Whether it is a terminal at all.
    pub is_terminal: bool,
    /// Whether the variable `NO_COLOR` is set and not empty.
    pub has_no_color: bool,
    /// Whether the variable `TERM` names a terminal that has colours ([`names_colors`]).
    pub has_colors: bool,
}

impl ColorChoice {
    /// Whether answers that are printed there are painted.
    pub fn paints(self, terminal: Terminal) -> bool
        ensures { result ≡ paints self terminal }
    {
        match self {
            ColorChoice::Auto => {
                terminal.is_terminal && !terminal.has_no_color && terminal.has_colors
            }
            ColorChoice::Always => true,
            ColorChoice::Never => false,
        }
    }
}

/// Whether a terminal of this name, the value of `TERM`, has colours. One without a name, `dumb`, and `vt` and a digit,
/// such as `vt100`, have none.
pub fn names_colors(name: &[u8]) -> bool
    ensures { result ≡ names_colors name.now }
{
    !name.is_empty() && name != b"dumb".as_slice() && !is_vt(name)
}

/// Whether a name begins with `vt` and a digit.
fn is_vt(name: &[u8]) -> bool
    ensures { result ≡ is_vt name.now }
{
    match name {
        [b'v', b't', digit, ..] => digit.is_ascii_digit(),
        _ => false,
    }
}
