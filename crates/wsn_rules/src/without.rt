/// The kinds of control frames that a comparison leaves out: without pings and pongs, a keepalive that came a message
/// later is no difference.
#[derive(Clone, Copy, Debug, PartialEq, Eq)]
pub struct Without {
    /// Whether it leaves out pings.
    pub ping: bool,
    /// Whether it leaves out pongs.
    pub pong: bool,
    /// Whether it leaves out Closes.
    pub close: bool,
}
