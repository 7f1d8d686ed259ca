ghost use Rattle.std.specs.Prelude.{◌≡◌, ◌↔◌, IsTrue};
ghost use Rattle.wsn_rules.specs.ClosingHandshake.{IsRefusedSide, IsClosedSide, IsEndedEarly, IsOutcome, seen_of, echo_of};

use crate::verdict::Refusal;
use wsn_wire::Role;

/// What became of the stream that an endpoint sent (specs/Sides.antt).
#[derive(Clone, Copy, Debug, PartialEq, Eq)]
pub enum Side {
    /// It has a Close: the Close's code, if it has one.
    Closed(Option<u16>),
    /// It is refused.
    Refused(Refusal),
    /// It ended between messages, without a Close.
    Ended,
    /// It ended inside a frame or a message.
    Cut,
    /// None of these: more may come.
    Running,
}

/// How the connection closed (specs/ClosingHandshake.antt): the first of these that applies.
#[derive(Clone, Copy, Debug, PartialEq, Eq)]
pub enum Outcome {
    /// A stream is refused.
    Failed,
    /// Both endpoints sent a Close, and both streams ended.
    Clean,
    /// Both endpoints sent a Close.
    Complete,
    /// A stream ended without a Close.
    Abnormal,
    /// One endpoint sent a Close.
    Half,
    /// The connection is open.
    Live,
}

/// The report on a capture (specs/ClosingHandshake.antt).
#[derive(Clone, Copy, Debug, PartialEq, Eq)]
pub struct Report {
    /// What became of the client's stream.
    pub client: Side,
    /// What became of the server's stream.
    pub server: Side,
    /// The endpoint whose Close was complete first; `None` if neither sent one.
    pub first: Option<Role>,
    /// Whether both Closes have the same code, or both none; `None` unless both endpoints sent a Close.
    pub echo: Option<bool>,
    /// The status code with which the client sees the connection closed (RFC 6455 section 7.1.5): the code in the
    /// server's Close; 1005 for a Close without a code; 1006 if there is no Close, or the server's stream is refused.
    /// `None` while the server may send more.
    pub client_sees: Option<u16>,
    /// The same for the server, from the client's stream.
    pub server_sees: Option<u16>,
    /// How the connection closed.
    pub outcome: Outcome,
}

impl Side {
    /// The status code that the other endpoint sees (RFC 6455 section 7.1.5): 1005 for a Close without a code, 1006 if
    /// there is no Close or the stream is refused. `None` while more may come.
    #[tactic(none)]
    pub fn seen(&self) -> Option<u16>
        ensures { result ≡ seen_of self.now }
    {
        match self {
            Side::Closed(Some(code)) => Some(*code),
            Side::Closed(None) => Some(1005),
            Side::Refused(_) | Side::Ended | Side::Cut => Some(1006),
            Side::Running => None,
        }
    }

    /// Whether both Closes have the same code, or both none; `None` unless both endpoints sent a Close (RFC 6455
    /// section 5.5.1).
    #[tactic(none)]
    pub fn echo(&self, other: &Side) -> Option<bool>
        ensures { result ≡ echo_of self.now other.now }
    {
        match (self, other) {
            (Side::Closed(code), Side::Closed(other)) => Some(code == other),
            _ => None,
        }
    }

    fn is_refused(&self) -> bool
        ensures { IsTrue result ↔ IsRefusedSide self.now }
    {
        matches!(self, Side::Refused(_))
    }

    fn is_closed(&self) -> bool
        ensures { IsTrue result ↔ IsClosedSide self.now }
    {
        matches!(self, Side::Closed(_))
    }

    fn is_ended_early(&self) -> bool
        ensures { IsTrue result ↔ IsEndedEarly self.now }
    {
        matches!(self, Side::Ended | Side::Cut)
    }
}

impl Outcome {
    /// The outcome for what became of both streams; the flags say whether each stream has ended.
    #[tactic(none)]
    pub fn of(client: &Side, server: &Side, client_ended: bool, server_ended: bool) -> Outcome
        ensures { IsOutcome client.now server.now client_ended server_ended result }
    {
        if client.is_refused() || server.is_refused() {
            Outcome::Failed
        } else if client.is_closed() && server.is_closed() {
            if client_ended && server_ended {
                Outcome::Clean
            } else {
                Outcome::Complete
            }
        } else if client.is_ended_early() || server.is_ended_early() {
            Outcome::Abnormal
        } else if client.is_closed() || server.is_closed() {
            Outcome::Half
        } else {
            Outcome::Live
        }
    }
}
