use wsn_wire::Role;

/// Who ended a connection of which a stream ended without a Close (RFC 6455 section 7.1.1).
#[derive(Clone, Copy)]
pub struct EndedBy {
    /// The endpoint with the first end mark.
    pub role: Role,
    /// Whether a comment says that this endpoint reset the connection.
    pub reset: bool,
}
