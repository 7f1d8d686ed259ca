use wsn_rules::Refusal;

/// Why the sides of a capture are refused, of those that a command reads. `None` for a side that isn't refused, and for
/// one that wasn't read.
#[derive(Clone, Copy)]
pub struct RefusedSides {
    /// Why the client's is.
    pub client: Option<Refusal>,
    /// Why the server's is.
    pub server: Option<Refusal>,
}
