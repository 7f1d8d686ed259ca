ghost use Rattle.std.specs.Prelude.{◌≤◌, ℕ, List, ◌++◌, length};
ghost use Rattle.wsn_wire.specs.declared.endpoint.Role.{Role};
ghost use Rattle.wsn_rules.specs.Limits.{Limits};
ghost use Rattle.wsn_scan.specs.Feeding.{IsRunning};
ghost use Rattle.wsn_scan.specs.Scans.{room_of};
ghost use Rattle.wsn_capture.specs.Captures.{HasStreamed};

use crate::capture_lines::CaptureLines;
use crate::line_fault::LineFault;
use crate::line_form::{BYTES_MAX, LineEntry};
use crate::refused_line::RefusedLines;
use crate::tail_counts::Tails;
use std::fmt::{self, Debug, Formatter};
use std::marker::Model;
use wsn_rules::{Limits, Report};
use wsn_scan::Scan;
use wsn_wire::Role;

/// Accepts the lines of a capture one by one and reports how the connection closed (RFC 6455 section 7.1). Of the
/// lines it keeps only those with an offending byte.
#[derive(Drop)]
pub struct Capture {
    lines: CaptureLines,
    client: Scan,
    server: Scan,
    /// At its start, the bytes of the last line.
    bytes: [u8; BYTES_MAX],
}

impl Model for Capture {
    ghost use Rattle.wsn_capture.specs.Captures.{Captured, IsCapturing};

    ghost Value = { Captured };

    ghost view = { λ capture. record { lines = capture.lines; client = capture.client; server = capture.server } };

    ghost invariant = { λ capture.
        IsCapturing (record { lines = capture.lines; client = capture.client; server = capture.server }) };
}

impl Capture {
    ghost use Rattle.std.specs.Prelude.{◌≡◌, ◌+◌, ◌≤◌, ℕ, List, [], ◌∷◌, ◌++◌, OnOk, IfErr};
    ghost use Rattle.wsn_rules.specs.Limits.{Limits};
    ghost use Rattle.wsn_rules.specs.Sides.{has_ended};
    ghost use Rattle.wsn_rules.specs.ClosingHandshake.{IsReport};
    ghost use Rattle.wsn_capture.specs.LineFaults.{IsFaultAfter};
    ghost use Rattle.wsn_capture.specs.CaptureLines.{count_of};
    ghost use Rattle.wsn_capture.specs.Captures.{HasAcceptedLines};
    ghost use Rattle.wsn_capture.specs.RefusedLines.{AreRefusedLines};
    ghost use Rattle.wsn_capture.specs.TailCounts.{AreTails};

    /// A capture that has accepted no line. The limits apply to each endpoint's stream separately.
    pub fn new(limits: Limits) -> Capture
        ensures { HasAcceptedLines limits result [] }
    {
        Capture {
            lines: CaptureLines::new(limits),
            client: Scan::new(Role::Client, limits),
            server: Scan::new(Role::Server, limits),
            bytes: [0; BYTES_MAX],
        }
    }

    /// Accepts a line, given without its LF; a CR at its end is dropped.
    ///
    /// The error is the line's first fault, in the order of [`LineFault`]'s variants. The capture is then unchanged.
    #[tactic(none)]
    pub fn line(&mut self, text: &[u8]) -> Result<(), LineFault>
        ensures taken { OnOk result ((limits : Limits) (lines : List (List ℕ)) →
            HasAcceptedLines limits self.old lines → HasAcceptedLines limits self.new (lines ++ text.now ∷ [])) }
        ensures fault { IfErr result (λ fault. (limits : Limits) (lines : List (List ℕ)) →
            HasAcceptedLines limits self.old lines → IsFaultAfter limits lines text.now fault) }
        ensures unchanged { IfErr result (λ _. self.new ≡ self.old) }
        ensures count { OnOk result ((count_of self.new.lines ≡ count_of self.old.lines + 1)
            × (count_of self.new.lines ≤ 1000000)) }
    {
        let entry = self.lines.accept(text, &mut self.bytes)?;
        let bytes = &mut self.bytes[..];
        match entry {
            LineEntry::Bytes(role, count) => match role {
                Role::Client => {
                    scan_on(&mut self.client, &mut bytes[..count]);
                    self.lines.note(Role::Client, text, &self.client.finish());
                }
                Role::Server => {
                    scan_on(&mut self.server, &mut bytes[..count]);
                    self.lines.note(Role::Server, text, &self.server.finish());
                }
            },
            LineEntry::Nothing | LineEntry::Mark(_) => {}
        }
        Ok(())
    }

    /// The number of lines accepted.
    pub fn count(&self) -> u32
        ensures { result ≡ count_of self.now.lines }
    {
        self.lines.count()
    }

    /// Whether an endpoint has sent its end mark.
    #[tactic(none)]
    pub fn has_ended(&self, role: Role) -> bool
        ensures { (limits : Limits) (lines : List (List ℕ)) (has : HasAcceptedLines limits self.now lines) →
            result ≡ has_ended role has.entries }
    {
        self.lines.has_ended(role)
    }

    /// The report of the lines accepted so far (RFC 6455 section 7.1).
    #[tactic(none)]
    pub fn report(&self) -> Report
        ensures { (limits : Limits) (lines : List (List ℕ)) →
            HasAcceptedLines limits self.now lines → IsReport limits lines result }
    {
        let client = self.client.finish();
        let server = self.server.finish();
        self.lines.report(&client, &server)
    }

    /// The number of bytes that each endpoint sent after its Close, in the lines accepted so far.
    #[tactic(none)]
    pub fn tails(&self) -> Tails
        ensures { (limits : Limits) (lines : List (List ℕ)) (has : HasAcceptedLines limits self.now lines) →
            AreTails limits has.entries result }
    {
        Tails::of(&self.client.finish(), &self.server.finish())
    }

    /// The lines with the offending bytes, among those accepted so far.
    #[tactic(none)]
    pub fn refused_lines(&self) -> RefusedLines
        ensures { (limits : Limits) (lines : List (List ℕ)) (has : HasAcceptedLines limits self.now lines) →
            AreRefusedLines limits has.entries result }
    {
        self.lines.refused_lines()
    }
}

/// Scans further bytes of a stream, unless it is refused. It may unmask payload in place.
#[tactic(none)]
fn scan_on(scan: &mut Scan, bytes: &mut [u8])
    requires begun { IsRunning scan.old }
    requires fits { length bytes.old ≤ room_of scan.old }
    ensures { (role : Role) (limits : Limits) (came : List ℕ) →
        HasStreamed role limits scan.old came → HasStreamed role limits scan.new (came ++ bytes.old) }
{
    if scan.refusal().is_some() {
        return;
    }
    let _refusal = scan.feed(bytes);
}

/// Prints only the type's name.
impl Debug for Capture {
    fn fmt<W: fmt::Write>(&self, f: &mut Formatter<W>) -> fmt::Result {
        f.write_str("Capture { .. }")
    }
}
