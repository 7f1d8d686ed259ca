use crate::redacted_line::{LINE_ROOM, redact_line};
use crate::redacted_payload::Redactor;
use crate::redacting::redact_chunk;
use wsn_capture::{BYTES_MAX, CaptureLines, LineEntry, LineFault};
use wsn_rules::Limits;
use wsn_scan::Scan;
use wsn_wire::Role;

/// Redacts the lines of a capture one by one. It keeps none of the lines.
#[derive(Drop)]
pub struct CaptureRedactor {
    lines: CaptureLines,
    client: StreamRedactor,
    server: StreamRedactor,
}

/// Redacts the stream of one endpoint.
#[derive(Drop)]
struct StreamRedactor {
    scan: Scan,
    redactor: Redactor,
}

impl CaptureRedactor {
    ghost use Rattle.std.specs.Prelude.{◌≡◌, ◌≤◌, ◌+◌, ℕ, List, [], ◌∷◌, ◌++◌, length, take, OnOk, IfOk, IfErr};
    ghost use Rattle.wsn_rules.specs.Limits.{Limits};
    ghost use Rattle.wsn_rules.specs.Entries.{Entry};
    ghost use Rattle.wsn_rules.specs.Entries.Entry.{Bytes};
    ghost use Rattle.wsn_capture.specs.CaptureLines.{count_of};
    ghost use Rattle.wsn_capture.specs.LineFaults.{IsFaultAfter};
    ghost use Rattle.wsn_capture.specs.LineEntries.{FitsInLine, held_entry};
    ghost use Rattle.wsn_redact.specs.PassedRedactions.{AreStreams, HasRoomFor, HasRoomForEntry, HasRedactedLines, IsRedactingLines, RedactsLine};

    /// A redactor that has redacted no line. The limits apply to each endpoint's stream separately.
    pub fn new(limits: Limits) -> CaptureRedactor
        ensures { HasRedactedLines limits result [] [] [] [] }
    {
        CaptureRedactor {
            lines: CaptureLines::new(limits),
            client: StreamRedactor {
                scan: Scan::new(Role::Client, limits),
                redactor: Redactor::new(),
            },
            server: StreamRedactor {
                scan: Scan::new(Role::Server, limits),
                redactor: Redactor::new(),
            },
        }
    }

    /// Accepts the next line, given without its LF, and puts its redaction at the start of `into`. Returns the length of
    /// this. `bytes` is room for the bytes that the line gives; its contents are then unspecified.
    ///
    /// The error is the line's first fault. The redactor is unchanged then.
    pub fn line(
        &mut self,
        line: &[u8],
        bytes: &mut [u8; BYTES_MAX],
        into: &mut [u8; LINE_ROOM],
    ) -> Result<usize, LineFault>
        requires { IsRedactingLines self.old }
        ensures redacted { IfOk result (λ count. (limits : Limits) (lines : List (List ℕ)) (entries others : List Entry)
            (redacted : List (List ℕ)) → HasRedactedLines limits self.old lines entries others redacted →
            RedactsLine limits self.new lines entries others redacted line.now (take count into.new)) }
        ensures within { IfOk result (λ count. count ≤ 8195) }
        ensures fault { IfErr result (λ fault. (limits : Limits) (lines : List (List ℕ)) (entries others : List Entry)
            (redacted : List (List ℕ)) → HasRedactedLines limits self.old lines entries others redacted →
            IsFaultAfter limits lines line.now fault) }
        ensures unchanged { IfErr result (λ _. self.new ≡ self.old) }
        ensures count { OnOk result ((count_of self.new.lines ≡ count_of self.old.lines + 1)
            × (count_of self.new.lines ≤ 1000000)) }
    {
        let entry = self.lines.accept(line, bytes)?;
        self.redact_entry(entry, bytes);
        Ok(redact_line(line, entry, bytes, into))
    }

    /// The number of lines that it has redacted.
    pub fn count(&self) -> u32
        ensures { result ≡ count_of self.now.lines }
    {
        self.lines.count()
    }

    /// Redacts the bytes that a line gives in place: they are at the start of `bytes`.
    fn redact_entry(&mut self, entry: LineEntry, bytes: &mut [u8; BYTES_MAX])
        requires fits { FitsInLine entry }
        requires room { HasRoomForEntry entry self.old }
        ensures streams { (limits : Limits) (entries others : List Entry) → AreStreams limits self.old entries others →
            AreStreams limits self.new (entries ++ held_entry entry bytes.old ∷ [])
            (others ++ held_entry entry bytes.new ∷ []) }
        ensures lines { self.new.lines ≡ self.old.lines }
    {
        match entry {
            LineEntry::Bytes(role, count) => self.redact_bytes(role, &mut bytes[..count]),
            LineEntry::Nothing => {}
            LineEntry::Mark(_) => {}
        }
    }

    /// Redacts the next bytes of an endpoint in place.
    fn redact_bytes(&mut self, role: Role, bytes: &mut [u8])
        requires { HasRoomFor role (length bytes.old) self.old }
        ensures streams { (limits : Limits) (entries others : List Entry) → AreStreams limits self.old entries others →
            AreStreams limits self.new (entries ++ Bytes role bytes.old ∷ []) (others ++ Bytes role bytes.new ∷ []) }
        ensures lines { self.new.lines ≡ self.old.lines }
    {
        match role {
            Role::Client => redact_chunk(&mut self.client.scan, &mut self.client.redactor, bytes),
            Role::Server => redact_chunk(&mut self.server.scan, &mut self.server.redactor, bytes),
        }
    }
}
