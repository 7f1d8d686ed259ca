use wsn_print::{Origin, Style};
use wsn_wire::Role;

/// What all entries of a stream have in common that are printed at one time.
#[derive(Clone, Copy)]
pub struct EntryContext<'a> {
    /// The endpoint that sent the stream.
    pub role: Role,
    /// How the stream is shown.
    pub style: Style,
    /// Where the entries are.
    pub origin: Origin<'a>,
}
