use std::env::FillError;
use std::rt::Env;
use wsn_color::{Layout, Terminal, names_colors};

/// The number of bytes of a variable that are read.
const VALUE: usize = 64;

/// How what is printed is coloured.
#[derive(Clone, Copy)]
pub struct Colors {
    /// Which lines of the answer are; `None` if it is in one colour.
    pub answer: Option<Layout>,
    /// Whether hints are.
    pub hints: bool,
}

/// Where something is printed: on a terminal or not, under these variables of the environment.
pub fn terminal_of<E: Env>(env: &E, is_terminal: bool) -> Terminal {
    Terminal {
        is_terminal,
        has_no_color: is_set(env, "NO_COLOR"),
        has_colors: names_terminal_with_colors(env),
    }
}

/// Whether a variable is set, and not empty.
fn is_set<E: Env>(env: &E, name: &str) -> bool {
    match env.var(name, &mut [0; VALUE]) {
        Ok(len) => len > 0,
        Err(FillError::TooLong) => true,
        Err(FillError::NotPresent) => false,
    }
}

/// Whether the variable `TERM` names a terminal that has colours. A longer name than is read does.
fn names_terminal_with_colors<E: Env>(env: &E) -> bool {
    let mut bytes = [0; VALUE];
    match env.var("TERM", &mut bytes) {
        Ok(len) => names_colors(&bytes[..len]),
        Err(FillError::TooLong) => true,
        Err(FillError::NotPresent) => false,
    }
}
