ghost use Rattle.std.specs.Prelude.{◌≡◌, ℕ, ◌⊎◌, ◌↔◌, true, IsTrue, List, slice_get};
ghost use Rattle.wsn_rules.specs.ClosingHandshake.{IsEndedEarly};
ghost use Rattle.wsn_capture.specs.LineEntries.{held_entry};
ghost use Rattle.wsn_capture.specs.EndedBy.{marks_in, reset_comment, HasEndedEarly};

use wsn_capture::{EndedBy, LineEntry};
use wsn_rules::{Report, Side};
use wsn_wire::Role;

/// What the lines of a capture say of the connection's end.
#[derive(Clone, Copy)]
pub struct EndNotes {
    /// The endpoint with the first end mark, if there is one.
    first: Option<Role>,
    /// Whether a comment says that the client reset the connection.
    client_reset: bool,
    /// Whether a comment says that the server did.
    server_reset: bool,
}

impl EndNotes {
    ghost use Rattle.std.specs.Prelude.{◌≡◌, ℕ, List, [], ◌∷◌, ◌++◌};
    ghost use Rattle.wsn_rules.specs.Limits.{Limits};
    ghost use Rattle.wsn_rules.specs.Entries.{Entry, without_cr};
    ghost use Rattle.wsn_rules.specs.ClosingHandshake.{IsReportOf};
    ghost use Rattle.wsn_capture.specs.LineEntries.{held_entry};
    ghost use Rattle.wsn_capture.specs.EndedBy.{IsEndedBy};
    ghost use Rattle.wsn_show.specs.EndNotes.{HasNotedEnd, noted_reset};

    /// There are no lines yet.
    pub fn new() -> EndNotes
        ensures { HasNotedEnd result [] [] }
    {
        EndNotes {
            first: None,
            client_reset: false,
            server_reset: false,
        }
    }

    /// Notes the next line, given without its CR, and what it gives.
    #[tactic(none)]
    pub fn note(&mut self, text: &[u8], entry: LineEntry)
        ensures { (lines : List (List ℕ)) (entries : List Entry) (line held : List ℕ) →
            HasNotedEnd self.old lines entries → text.now ≡ without_cr line →
            HasNotedEnd self.new (lines ++ line ∷ []) (entries ++ held_entry entry held ∷ []) }
    {
        self.first = self.first.or(mark_of(entry));
        self.client_reset = is_noted(self.client_reset, text, Role::Client);
        self.server_reset = is_noted(self.server_reset, text, Role::Server);
    }

    /// Who ended the connection, given the report on the lines; `None` if no stream ended without a Close.
    #[tactic(none)]
    pub fn ended_by(&self, report: &Report) -> Option<EndedBy>
        ensures { (limits : Limits) (lines : List (List ℕ)) (entries : List Entry) →
            HasNotedEnd self.now lines entries → IsReportOf limits entries report.now →
            IsEndedBy lines entries report.now result }
    {
        if !has_ended_early(report) {
            return None;
        }
        match self.first {
            Some(role) => Some(EndedBy {
                role,
                reset: self.is_reset_by(role),
            }),
            None => None,
        }
    }

    /// Whether a comment says that the endpoint reset the connection.
    fn is_reset_by(&self, role: Role) -> bool
        ensures { result ≡ noted_reset role self.now }
    {
        match role {
            Role::Client => self.client_reset,
            Role::Server => self.server_reset,
        }
    }
}

/// The endpoint whose end mark the entry is, if it is one.
fn mark_of(entry: LineEntry) -> Option<Role>
    ensures { (held : List ℕ) → result ≡ slice_get (marks_in (held_entry entry held)) 0 }
{
    match entry {
        LineEntry::Mark(role) => Some(role),
        LineEntry::Nothing | LineEntry::Bytes(_, _) => None,
    }
}

/// Whether this text, or one before it, is the comment that an endpoint reset the connection.
fn is_noted(before: bool, text: &[u8], role: Role) -> bool
    ensures { IsTrue result ↔ ((before ≡ true) ⊎ (text.now ≡ reset_comment role)) }
{
    before || text == reset_comment(role)
}

/// The comment that an endpoint reset the connection.
fn reset_comment(role: Role) -> &'static [u8]
    ensures { result.now ≡ reset_comment role }
{
    match role {
        Role::Client => b"# reset by the client",
        Role::Server => b"# reset by the server",
    }
}

/// Whether one of the streams ended without a Close.
fn has_ended_early(report: &Report) -> bool
    ensures { IsTrue result ↔ HasEndedEarly report.now }
{
    is_ended_early(&report.client) || is_ended_early(&report.server)
}

/// Whether a stream ended without a Close.
fn is_ended_early(side: &Side) -> bool
    ensures { IsTrue result ↔ IsEndedEarly side.now }
{
    matches!(side, Side::Ended | Side::Cut)
}
