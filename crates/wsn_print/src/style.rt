use crate::format::Format;
use crate::shown::ViewLimit;
use wsn_rules::Detail;

/// How a stream or a capture is shown.
#[derive(Clone, Copy)]
pub struct Style {
    /// The most bytes of a payload that an entry shows.
    pub view: ViewLimit,
    /// What is shown of a stream's frames.
    pub detail: Detail,
    /// Whether lines of words, lines for people or JSON objects are printed.
    pub format: Format,
}
