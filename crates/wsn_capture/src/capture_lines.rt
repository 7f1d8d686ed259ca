ghost use Rattle.std.specs.Prelude.{◌≡◌, ℕ, List};
ghost use Rattle.wsn_capture.specs.CloseLines.{IsClosedBy, earlier_of};
ghost use Rattle.wsn_wire.specs.declared.endpoint.Role.{Role};
ghost use Rattle.wsn_rules.specs.Limits.{Limits};
ghost use Rattle.wsn_wire.specs.Frame.{Frame};
ghost use Rattle.wsn_rules.specs.Verdict.{IsVerdict};
ghost use Rattle.wsn_rules.specs.Sides.{side_of, ended_as};

use crate::line_fault::LineFault;
use crate::line_form::{BYTES_MAX, LineEntry};
use crate::lines_before::LinesBefore;
use crate::refused_line::{RefusedLine, RefusedLines, kept_line};
use wsn_rules::{Limits, Outcome, Report, Side, Verdict};
use wsn_wire::Role;

/// What counts of the lines that a capture has accepted: it accepts the next line, and reports how the connection closed
/// (RFC 6455 section 7.1). Of the lines it keeps only those with an offending byte, and whoever reads the streams judges
/// them.
#[derive(Drop)]
pub struct CaptureLines {
    before: LinesBefore,
    client: SentBytes,
    server: SentBytes,
}

/// What counts of the bytes that an endpoint sent.
#[derive(Clone, Copy)]
struct SentBytes {
    /// How many bytes its stream accepts.
    input: u64,
    /// How many more bytes its stream accepts.
    room: u64,
    /// The number of lines before the line with the last byte of its Close, if a Close has come.
    close_line: Option<u32>,
    /// The line with the offending byte, if its stream is refused.
    refused: Option<RefusedLine>,
}

impl CaptureLines {
    ghost use Rattle.std.specs.Prelude.{◌≡◌, ◌+◌, ◌≤◌, ℕ, List, [], ◌∷◌, ◌++◌, OnOk, IfOk, IfErr};
    ghost use Rattle.wsn_rules.specs.Limits.{Limits};
    ghost use Rattle.wsn_rules.specs.Entries.{Entry};
    ghost use Rattle.wsn_rules.specs.Entries.Entry.{Bytes};
    ghost use Rattle.wsn_rules.specs.Sides.{has_ended};
    ghost use Rattle.wsn_rules.specs.ClosingHandshake.{IsReportOf};
    ghost use Rattle.wsn_capture.specs.LineFaults.{IsFaultAfter};
    ghost use Rattle.wsn_capture.specs.declared.line_fault.LineFault.TheVariants.{InputLimit};
    ghost use Rattle.wsn_capture.specs.LineEntries.{FitsInLine, held_entry};
    ghost use Rattle.wsn_capture.specs.RefusedLines.{AreRefusedLines};
    ghost use Rattle.wsn_capture.specs.CaptureLines.{HasAccepted, HasNotedCloses, HasNotedUpTo, IsVerdictOnSide, count_of, FitsRoom, ExceedsRoom, with_room_less};

    /// No line is accepted yet. The limits apply to each endpoint's stream separately.
    pub fn new(limits: Limits) -> CaptureLines
        ensures accepted { HasAccepted limits result [] [] }
        ensures noted { HasNotedCloses limits result [] }
    {
        let none = SentBytes {
            input: limits.input(),
            room: limits.input(),
            close_line: None,
            refused: None,
        };
        CaptureLines {
            before: LinesBefore::new(),
            client: none,
            server: none,
        }
    }

    /// Accepts the next line, given without its LF; a CR at its end is dropped. Returns what it gives; its bytes are then at
    /// the start of `bytes`. Once they are judged, [`CaptureLines::note`] is called.
    ///
    /// The error is the line's first fault, in the order of [`LineFault`]'s variants. Nothing has changed then, but the
    /// contents of `bytes`.
    #[tactic(none)]
    pub fn accept(
        &mut self,
        line: &[u8],
        bytes: &mut [u8; BYTES_MAX],
    ) -> Result<LineEntry, LineFault>
        ensures accepted { IfOk result (λ entry. (limits : Limits) (lines : List (List ℕ)) (given : List Entry) →
            HasAccepted limits self.old lines given →
            HasAccepted limits self.new (lines ++ line.now ∷ []) (given ++ held_entry entry bytes.new ∷ [])) }
        ensures fits { IfOk result FitsInLine }
        ensures noted { IfOk result (λ entry. (limits : Limits) (given : List Entry) →
            HasNotedCloses limits self.old given → HasNotedUpTo limits self.new given (held_entry entry bytes.new)) }
        ensures fault { IfErr result (λ fault. (limits : Limits) (lines : List (List ℕ)) (given : List Entry) →
            HasAccepted limits self.old lines given → IsFaultAfter limits lines line.now fault) }
        ensures unchanged { IfErr result (λ _. self.new ≡ self.old) }
        ensures count { OnOk result ((count_of self.new ≡ count_of self.old + 1) × (count_of self.new ≤ 1000000)) }
    {
        let entry = self.before.entry(line, bytes)?;
        self.take_room(entry)?;
        self.before.add(entry);
        Ok(entry)
    }

    /// Takes room for the bytes of an entry. The error is `InputLimit` if its endpoint has less; nothing has changed then.
    #[tactic(none)]
    fn take_room(&mut self, entry: LineEntry) -> Result<(), LineFault>
        ensures taken { OnOk result (self.new ≡ with_room_less entry self.old) }
        ensures fits { OnOk result (FitsRoom self.old entry) }
        ensures over { IfErr result (λ fault. (fault ≡ InputLimit) × ExceedsRoom self.old entry) }
        ensures unchanged { IfErr result (λ _. self.new ≡ self.old) }
    {
        match entry {
            LineEntry::Bytes(Role::Client, count) => self.client.take_room(count),
            LineEntry::Bytes(Role::Server, count) => self.server.take_room(count),
            LineEntry::Nothing | LineEntry::Mark(_) => Ok(()),
        }
    }

    /// Notes what the line that was accepted last changes of the endpoint whose bytes it has, given the verdict on the
    /// endpoint's stream: whether it has a Close now, or is refused.
    #[tactic(none)]
    #[inline(always)]
    pub fn note(&mut self, role: Role, line: &[u8], verdict: &Verdict)
        ensures noted { (limits : Limits) (lines : List (List ℕ)) (given : List Entry) (bytes : List ℕ) →
            HasAccepted limits self.old (lines ++ line.now ∷ []) (given ++ Bytes role bytes ∷ []) →
            HasNotedCloses limits self.old given →
            IsVerdictOnSide role limits (given ++ Bytes role bytes ∷ []) verdict.now →
            HasNotedCloses limits self.new (given ++ Bytes role bytes ∷ []) }
        ensures accepted { (limits : Limits) (lines : List (List ℕ)) (given : List Entry) →
            HasAccepted limits self.old lines given → HasAccepted limits self.new lines given }
        ensures count { count_of self.new ≡ count_of self.old }
    {
        let number = self.before.count().saturating_sub(1);
        match role {
            Role::Client => self.client.note(number, line, verdict),
            Role::Server => self.server.note(number, line, verdict),
        }
    }

    /// The lines with the offending bytes of both streams, as far as they are kept.
    #[tactic(none)]
    pub fn refused_lines(&self) -> RefusedLines
        ensures { (limits : Limits) (given : List Entry) →
            HasNotedCloses limits self.now given → AreRefusedLines limits given result }
    {
        RefusedLines {
            client: self.client.refused,
            server: self.server.refused,
        }
    }

    /// The number of lines accepted.
    pub fn count(&self) -> u32
        ensures { result ≡ count_of self.now }
    {
        self.before.count()
    }

    /// Whether an endpoint has sent its end mark.
    #[tactic(none)]
    pub fn has_ended(&self, role: Role) -> bool
        ensures { (limits : Limits) (lines : List (List ℕ)) (given : List Entry) →
            HasAccepted limits self.now lines given → result ≡ has_ended role given }
    {
        self.before.has_ended(role)
    }

    /// The report of the lines accepted so far (RFC 6455 section 7.1), given the verdicts on both endpoints' streams.
    #[tactic(none)]
    pub fn report(&self, client: &Verdict, server: &Verdict) -> Report
        ensures { (limits : Limits) (lines : List (List ℕ)) (given : List Entry) →
            HasAccepted limits self.now lines given → HasNotedCloses limits self.now given →
            IsVerdictOnSide Role.Client limits given client.now → IsVerdictOnSide Role.Server limits given server.now →
            IsReportOf limits given result }
    {
        let client_ended = self.before.has_ended(Role::Client);
        let server_ended = self.before.has_ended(Role::Server);
        let client = side_of(client, client_ended);
        let server = side_of(server, server_ended);
        Report {
            client,
            server,
            first: first_closed(self.client.close_line, self.server.close_line),
            echo: client.echo(&server),
            client_sees: server.seen(),
            server_sees: client.seen(),
            outcome: Outcome::of(&client, &server, client_ended, server_ended),
        }
    }
}

impl SentBytes {
    ghost use Rattle.std.specs.Prelude.{◌≡◌, ◌-◌, ◌<◌, ◌≤◌, OnOk, IfErr};
    ghost use Rattle.wsn_capture.specs.declared.line_fault.LineFault.TheVariants.{InputLimit};
    ghost use Rattle.wsn_capture.specs.CloseLines.{noted_line};
    ghost use Rattle.wsn_capture.specs.CaptureLines.{IsNotedLine, IsNotedRefusal};

    /// Takes room for this number of bytes. The error is `InputLimit` if there is less; nothing has changed then.
    #[tactic(none)]
    fn take_room(&mut self, count: usize) -> Result<(), LineFault>
        ensures taken { OnOk result ((self.new ≡ record self.old { room = self.old.room - count })
            × (count ≤ self.old.room)) }
        ensures over { IfErr result (λ fault. (fault ≡ InputLimit) × (self.old.room < count) × (self.new ≡ self.old)) }
    {
        if count as u64 > self.room {
            return Err(LineFault::InputLimit);
        }
        self.room -= count as u64;
        Ok(())
    }

    /// Notes the line with this number, given the verdict on its stream, if its Close ends in it, or its offending byte
    /// came in it, and no such line is noted yet.
    #[tactic(none)]
    #[inline(always)]
    fn note(&mut self, number: u32, line: &[u8], verdict: &Verdict)
        ensures same { (self.new.input ≡ self.old.input) × (self.new.room ≡ self.old.room) }
        ensures close { (role : Role) (limits : Limits) (came : List ℕ) →
            (fs : List Frame) × IsVerdict role limits came fs verdict.now →
            (closed : _) × IsClosedBy role limits came closed
            × (self.new.close_line ≡ noted_line self.old.close_line number closed) }
        ensures refused { IsNotedRefusal self.old line.now verdict.now self.new.refused }
    {
        self.note_close(number, has_close(verdict));
        match verdict {
            Verdict::Refused(refusal) => self.note_refusal(line, refusal.offset),
            Verdict::Accepted(_) => {}
            Verdict::Cut(_) => {}
        }
    }

    /// Notes the line in which its Close ends, if it has one and no line is noted yet.
    #[tactic(none)]
    #[inline(always)]
    fn note_close(&mut self, line: u32, closed: bool)
        ensures { self.new ≡ record self.old { close_line = noted_line self.old.close_line line closed } }
    {
        if closed && self.close_line.is_none() {
            self.close_line = Some(line);
        }
    }

    /// Keeps the line with the offending byte, whose offset is given, unless one is kept.
    #[tactic(none)]
    fn note_refusal(&mut self, line: &[u8], offset: u64)
        ensures same { self.new ≡ record self.old { refused = self.new.refused } }
        ensures noted { IsNotedLine self.old line.now offset self.new.refused }
    {
        if self.refused.is_none() {
            self.refused = kept_line(line, self.input.saturating_sub(self.room), offset);
        }
    }
}

/// Whether the stream has a Close, given the verdict on it.
#[tactic(none)]
#[inline(always)]
fn has_close(verdict: &Verdict) -> bool
    ensures { (role : Role) (limits : Limits) (came : List ℕ) →
        (fs : List Frame) × IsVerdict role limits came fs verdict.now → IsClosedBy role limits came result }
{
    match verdict {
        Verdict::Accepted(summary) => summary.close.is_some(),
        Verdict::Cut(_) | Verdict::Refused(_) => false,
    }
}

/// What became of a stream with this verdict, which has its end mark or not.
fn side_of(verdict: &Verdict, ended: bool) -> Side
    ensures { result ≡ side_of verdict.now ended }
{
    match verdict {
        Verdict::Refused(refusal) => Side::Refused(*refusal),
        Verdict::Accepted(summary) => match summary.close {
            Some(code) => Side::Closed(code),
            None => unclosed(Side::Ended, ended),
        },
        Verdict::Cut(_) => unclosed(Side::Cut, ended),
    }
}

/// What became of a stream without a Close: it is running until its end mark, and then this side.
fn unclosed(side: Side, ended: bool) -> Side
    ensures { result ≡ ended_as side ended }
{
    if ended { side } else { Side::Running }
}

/// The endpoint whose Close ends in an earlier line, given the line in which each endpoint's Close ends.
fn first_closed(client: Option<u32>, server: Option<u32>) -> Option<Role>
    ensures { result ≡ earlier_of client server }
{
    match (client, server) {
        (None, None) => None,
        (Some(_), None) => Some(Role::Client),
        (None, Some(_)) => Some(Role::Server),
        (Some(client), Some(server)) if client < server => Some(Role::Client),
        (Some(_), Some(_)) => Some(Role::Server),
    }
}
