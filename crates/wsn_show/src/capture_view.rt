ghost use Rattle.std.specs.Prelude.{◌≡◌, List, false};
ghost use Rattle.wsn_rules.specs.Limits.{Limits};
ghost use Rattle.wsn_rules.specs.Entries.{Entry};
ghost use Rattle.wsn_rules.specs.Sides.{sent};
ghost use Rattle.wsn_print.specs.declared.style.Style.{Style};
ghost use Rattle.wsn_show.specs.ShownSoFar.{HasViewed};
ghost use Rattle.wsn_print.specs.ShownParts.EntryPosition.{InLine};
ghost use Rattle.wsn_print.specs.ShownParts.{position_of};
ghost use Rattle.wsn_capture.specs.CaptureLines.{count_of};
ghost use Rattle.wsn_show.specs.CaptureViews.{ShowsMark};

use crate::end_notes::EndNotes;
use crate::ended_by::text_of;
use crate::last_times::LastTimes;
use crate::stream_view::StreamView;
use crate::times::{CurrentTime, LINE_MAX};
use std::io::Write;
use wsn_capture::{
    BYTES_MAX, CaptureLines, LineEntry, LineFault, RefusedLines, Report, Tails, strip_cr,
};
use wsn_io::{Output, put_line};
use wsn_print::{EntryFront, Origin, Style};
use wsn_rules::Limits;
use wsn_shown_text::{put_comment_as, put_end_as};
use wsn_wire::Role;

/// Shows the lines of a capture one by one: prints what each completes. It keeps none of the lines.
#[derive(Drop)]
pub struct CaptureView<'a> {
    lines: CaptureLines,
    client: StreamView<'a>,
    server: StreamView<'a>,
    time: CurrentTime,
    last_times: LastTimes,
    ends: EndNotes,
}

impl<'a> CaptureView<'a> {
    ghost use Rattle.std.specs.Prelude.{◌≡◌, ◌≤◌, ◌+◌, ℕ, List, [], ◌∷◌, ◌++◌, length, false, OnOk, IfErr};
    ghost use Rattle.wsn_rules.specs.Limits.{Limits};
    ghost use Rattle.wsn_rules.specs.Entries.{Entry, GivesEntry, IsHex, bytes_prefix, end_mark};
    ghost use Rattle.wsn_rules.specs.Entries.Entry.{Nothing, Bytes};
    ghost use Rattle.wsn_rules.specs.ClosingHandshake.{IsReportOf};
    ghost use Rattle.wsn_capture.specs.CaptureLines.{HasAccepted, HasNotedCloses, count_of};
    ghost use Rattle.wsn_capture.specs.LineFaults.{IsFaultAfter};
    ghost use Rattle.wsn_capture.specs.RefusedLines.{AreRefusedLines};
    ghost use Rattle.wsn_capture.specs.TailCounts.{AreTails};
    ghost use Rattle.wsn_print.specs.declared.style.Style.{Style};
    ghost use Rattle.wsn_show.specs.CaptureViews.{HasShownLines, IsShowingLines, AreViewed, CanShow, Shows, ShowsLine, LeavesAtEnd, SaysWhoEnded, Finishes};

    /// A view that has shown no line. The limits apply to each endpoint's stream separately. The payload of a message is
    /// held in `client` or `server`, memory with at least as many bytes as are shown of it.
    pub fn new(
        limits: Limits,
        style: Style,
        client: &'a mut [u8],
        server: &'a mut [u8],
    ) -> CaptureView<'a>
        requires client { style.view ≤ length client.old }
        requires server { style.view ≤ length server.old }
        ensures { HasShownLines limits style result [] [] }
    {
        let of_client = style;
        CaptureView {
            lines: CaptureLines::new(limits),
            client: StreamView::new(Role::Client, limits, of_client, client),
            server: StreamView::new(Role::Server, limits, style, server),
            time: CurrentTime::new(),
            last_times: LastTimes::new(),
            ends: EndNotes::new(),
        }
    }

    /// Accepts the next line, given without its LF, and prints what it shows. `bytes` is room for the bytes that the line
    /// gives; its contents are then unspecified.
    ///
    /// The error is the line's first fault. Nothing is printed then, and the view is unchanged.
    #[tactic(none)]
    pub fn line<W: Write>(
        &mut self,
        line: &[u8],
        bytes: &mut [u8; BYTES_MAX],
        output: &mut Output<W>,
    ) -> Result<(), LineFault>
        requires showing { IsShowingLines self.old }
        requires writable { output.old.failed ≡ false }
        ensures shown { OnOk result ((limits : Limits) (style : Style) (lines : List (List ℕ)) (entries : List Entry) →
            HasShownLines limits style self.old lines entries →
            ShowsLine limits style self.new lines entries line.now output.old output.new) }
        ensures fault { IfErr result (λ fault. (limits : Limits) (style : Style) (lines : List (List ℕ))
            (entries : List Entry) →
            HasShownLines limits style self.old lines entries → IsFaultAfter limits lines line.now fault) }
        ensures unchanged { IfErr result (λ _. (self.new ≡ self.old) × (output.new ≡ output.old)) }
        ensures count { OnOk result ((count_of self.new.lines ≡ count_of self.old.lines + 1)
            × (count_of self.new.lines ≤ 1000000)) }
    {
        let text = strip_cr(line);
        let entry = self.lines.accept(line, bytes)?;
        self.ends.note(text, entry);
        self.last_times.note(entry, &self.time);
        match entry {
            LineEntry::Nothing => self.show_nothing(text, output),
            LineEntry::Bytes(role, count) => {
                self.show_bytes(role, line, &mut bytes[..count], output);
            }
            LineEntry::Mark(role) => self.show_mark(role, output),
        }
        Ok(())
    }

    /// How the lines are shown.
    pub fn style(&self) -> Style
        ensures { (limits : Limits) (style : Style) (lines : List (List ℕ)) (entries : List Entry) →
            HasShownLines limits style self.now lines entries → result ≡ style }
    {
        self.client.style()
    }

    /// The number of lines that it has shown.
    pub fn count(&self) -> u32
        ensures { result ≡ count_of self.now.lines }
    {
        self.lines.count()
    }

    /// Prints what is left over of both streams at the end of the capture, the client's first, and who ended the
    /// connection if a stream ended without a Close. Returns the report.
    pub fn finish<W: Write>(&self, output: &mut Output<W>) -> Report
        requires { output.old.failed ≡ false }
        ensures { (limits : Limits) (style : Style) (lines : List (List ℕ)) (entries : List Entry) →
            HasShownLines limits style self.now lines entries →
            Finishes limits style lines entries output.old output.new result }
    {
        self.put_left_at_end(Role::Client, output);
        self.put_left_at_end(Role::Server, output);
        let report = self
            .lines
            .report(&self.client.verdict(), &self.server.verdict());
        self.put_who_ended(&report, output);
        report
    }

    /// The number of bytes that each endpoint sent after its Close.
    pub fn tails(&self) -> Tails
        ensures { (limits : Limits) (style : Style) (lines : List (List ℕ)) (entries : List Entry) →
            HasShownLines limits style self.now lines entries → AreTails limits entries result }
    {
        Tails::of(&self.client.verdict(), &self.server.verdict())
    }

    /// The lines with the offending bytes of both streams.
    pub fn refused_lines(&self) -> RefusedLines
        ensures { (limits : Limits) (style : Style) (lines : List (List ℕ)) (entries : List Entry) →
            HasShownLines limits style self.now lines entries → AreRefusedLines limits entries result }
    {
        self.lines.refused_lines()
    }

    /// Prints who ended the connection, if a stream ended without a Close.
    fn put_who_ended<W: Write>(&self, report: &Report, output: &mut Output<W>)
        ensures { (limits : Limits) (style : Style) (lines : List (List ℕ)) (entries : List Entry) →
            HasShownLines limits style self.now lines entries → IsReportOf limits entries report.now →
            SaysWhoEnded style lines entries report.now output.old output.new }
    {
        let text = text_of(self.style().format, self.ends.ended_by(report));
        if !output.failed() {
            let _stop = put_line(output, text);
        }
    }

    /// Prints what is left over of an endpoint's stream at the end of the capture, with the time of its last bytes:
    /// nothing after its end mark.
    fn put_left_at_end<W: Write>(&self, role: Role, output: &mut Output<W>)
        ensures { (limits : Limits) (style : Style) (lines : List (List ℕ)) (entries : List Entry) →
            HasShownLines limits style self.now lines entries →
            LeavesAtEnd role limits style lines entries output.old output.new }
    {
        if self.lines.has_ended(role) {
            return;
        }
        let origin = Origin::End {
            time: self.last_times.of(role),
        };
        match role {
            Role::Client => self.client.put_left_over(origin, output),
            Role::Server => self.server.put_left_over(origin, output),
        }
    }

    /// Prints a comment; nothing for an empty line and for a comment that gives a time.
    fn show_nothing<W: Write>(&mut self, text: &[u8], output: &mut Output<W>)
        requires writable { output.old.failed ≡ false }
        requires nothing { GivesEntry text.now Nothing }
        requires short { length text.now ≤ LINE_MAX }
        ensures shows { Shows self.old self.new text.now output.old output.new }
        ensures lines { self.new.lines ≡ self.old.lines }
        ensures ends { self.new.ends ≡ self.old.ends }
        ensures times { self.new.last_times ≡ self.old.last_times }
    {
        if text.is_empty() {
            return;
        }
        if self.time.take(text) {
            return;
        }
        let format = self.client.style().format;
        let number = self.lines.count();
        let _stop = put_comment_as(output, format, number, text);
    }

    /// Prints what these bytes of an endpoint complete, which the line gives, and notes whether its Close or an offending
    /// byte is among it. Payload is unmasked in place.
    fn show_bytes<W: Write>(
        &mut self,
        role: Role,
        line: &[u8],
        bytes: &mut [u8],
        output: &mut Output<W>,
    )
        requires writable { output.old.failed ≡ false }
        requires can_show { (digits : List ℕ) × IsHex digits bytes.old × CanShow self.old (bytes_prefix role ++ digits) }
        ensures shows { (digits : List ℕ) → IsHex digits bytes.old →
            Shows self.old self.new (bytes_prefix role ++ digits) output.old output.new }
        ensures accepted { (limits : Limits) (lines : List (List ℕ)) (given : List Entry) →
            HasAccepted limits self.old.lines lines given → HasAccepted limits self.new.lines lines given }
        ensures noted { (limits : Limits) (style : Style) (lines : List (List ℕ)) (given : List Entry) →
            HasAccepted limits self.old.lines (lines ++ line.now ∷ []) (given ++ Bytes role bytes.old ∷ []) →
            HasNotedCloses limits self.old.lines given → AreViewed limits style self.old given →
            HasNotedCloses limits self.new.lines (given ++ Bytes role bytes.old ∷ []) }
        ensures count { count_of self.new.lines ≡ count_of self.old.lines }
        ensures ends { self.new.ends ≡ self.old.ends }
        ensures times { self.new.last_times ≡ self.old.last_times }
    {
        let origin = origin_of(&self.lines, &self.time);
        match role {
            Role::Client => {
                self.client.take(bytes, origin, output);
                self.lines.note(Role::Client, line, &self.client.verdict());
            }
            Role::Server => {
                self.server.take(bytes, origin, output);
                self.lines.note(Role::Server, line, &self.server.verdict());
            }
        }
    }

    /// Prints what an endpoint's stream leaves over, and its end.
    fn show_mark<W: Write>(&mut self, role: Role, output: &mut Output<W>)
        requires writable { output.old.failed ≡ false }
        ensures shows { Shows self.old self.new (end_mark role) output.old output.new }
        ensures lines { self.new.lines ≡ self.old.lines }
        ensures ends { self.new.ends ≡ self.old.ends }
        ensures times { self.new.last_times ≡ self.old.last_times }
    {
        let origin = origin_of(&self.lines, &self.time);
        match role {
            Role::Client => put_end_of(role, &self.client, origin, output),
            Role::Server => put_end_of(role, &self.server, origin, output),
        }
    }
}

/// Where the last line is, while this time holds.
fn origin_of<'a>(lines: &CaptureLines, time: &'a CurrentTime) -> Origin<'a>
    ensures { position_of result ≡ InLine (count_of lines.now) time.now }
{
    Origin::Line {
        number: lines.count(),
        time: time.text(),
    }
}

/// Prints what a stream leaves over, and its end.
fn put_end_of<W: Write>(
    role: Role,
    stream: &StreamView<'_>,
    origin: Origin<'_>,
    output: &mut Output<W>,
)
    requires writable { output.old.failed ≡ false }
    ensures { (limits : Limits) (style : Style) (given : List Entry) →
        HasViewed role limits style stream.now (sent role given) →
        ShowsMark role limits style given (position_of origin.entry) output.old output.new }
{
    stream.put_left_over(origin, output);
    if !output.failed() {
        let offset = stream.sent();
        let front = EntryFront {
            role,
            origin,
            offset,
        };
        let _stop = put_end_as(output, stream.style().format, &front);
    }
}
