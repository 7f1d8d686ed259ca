/// What an endpoint accuses the other of by the code of its Close (RFC 6455 section 7.4.1).
#[derive(Clone, Copy)]
pub enum Charge {
    /// It broke the protocol: 1002.
    Protocol,
    /// A message's content doesn't fit its kind, as text that isn't UTF-8: 1007.
    Content,
    /// A message is too big: 1009.
    Size,
}
