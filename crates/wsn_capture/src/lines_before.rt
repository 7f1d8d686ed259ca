use crate::line_fault::LineFault;
use crate::line_form::{BYTES_MAX, LINE_MAX, LineEntry, entry_of, strip_cr};
use wsn_wire::Role;

/// The maximum number of lines of a capture.
pub(crate) const LINES_MAX: u32 = 1_000_000;

/// What counts of the lines before a line of a capture: how many they are, and which endpoints have sent their end mark.
#[derive(Clone, Copy)]
pub struct LinesBefore {
    count: u32,
    client_ended: bool,
    server_ended: bool,
}

impl LinesBefore {
    ghost use Rattle.std.specs.Prelude.{◌≡◌, ℕ, ◌<◌, MatchResult, Ok, Err, OnOk, IfErr, List, []};
    ghost use Rattle.wsn_capture.specs.LineEntries.{FitsInLine, held_entry};
    ghost use Rattle.wsn_capture.specs.SideTexts.{ended_before, unless_ended, entry_after, lines_giving, with_entry};

    /// No lines.
    pub fn new() -> LinesBefore
        ensures { result ≡ lines_giving [] }
    {
        LinesBefore {
            count: 0,
            client_ended: false,
            server_ended: false,
        }
    }

    /// The number of lines.
    pub fn count(&self) -> u32
        ensures { result ≡ self.now.count }
    {
        self.count
    }

    /// Whether the endpoint has sent its end mark.
    #[tactic(none)]
    pub fn has_ended(&self, role: Role) -> bool
        ensures { result ≡ ended_before role self.now }
    {
        match role {
            Role::Client => self.client_ended,
            Role::Server => self.server_ended,
        }
    }

    /// What the next line gives, given without its LF; its bytes are then at the start of `bytes`. The error is the line's
    /// first fault. The contents of the other bytes, and of all after an error, are unspecified.
    #[tactic(none)]
    pub fn entry(&self, line: &[u8], bytes: &mut [u8; BYTES_MAX]) -> Result<LineEntry, LineFault>
        ensures entry { MatchResult result
            (λ entry. FitsInLine entry × (entry_after self.now line.now ≡ Ok (held_entry entry bytes.new)))
            (λ fault. entry_after self.now line.now ≡ Err fault) }
        ensures few { OnOk result (self.now.count < LINES_MAX) }
    {
        if self.count >= LINES_MAX {
            return Err(LineFault::TooManyLines);
        }
        let text = strip_cr(line);
        if text.len() > LINE_MAX {
            return Err(LineFault::TooLong);
        }
        let entry = entry_of(text, bytes)?;
        self.check_running(entry)?;
        Ok(entry)
    }

    /// The error is `AfterEnd` if the entry is of an endpoint that has sent its end mark.
    #[tactic(none)]
    fn check_running(&self, entry: LineEntry) -> Result<(), LineFault>
        ensures going { OnOk result ((held : List ℕ) →
            unless_ended self.now (held_entry entry held) ≡ Ok (held_entry entry held)) }
        ensures over { IfErr result (λ fault. (held : List ℕ) →
            unless_ended self.now (held_entry entry held) ≡ Err fault) }
    {
        let ended = match entry {
            LineEntry::Nothing => false,
            LineEntry::Bytes(role, _) | LineEntry::Mark(role) => self.has_ended(role),
        };
        if ended {
            return Err(LineFault::AfterEnd);
        }
        Ok(())
    }

    /// Counts the line that gives this entry.
    #[tactic(none)]
    pub fn add(&mut self, entry: LineEntry)
        requires { self.old.count < LINES_MAX }
        ensures { (held : List ℕ) → self.new ≡ with_entry self.old (held_entry entry held) }
    {
        self.count += 1;
        match entry {
            LineEntry::Mark(Role::Client) => self.client_ended = true,
            LineEntry::Mark(Role::Server) => self.server_ended = true,
            LineEntry::Nothing | LineEntry::Bytes(_, _) => {}
        }
    }
}
