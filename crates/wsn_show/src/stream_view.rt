use crate::entry_context::EntryContext;
use crate::feeding::feed;
use crate::stream_parts::StreamParts;
use std::io::Write;
use std::marker::Model;
use wsn_io::Output;
use wsn_print::{Origin, Remainder, Style};
use wsn_rules::{Limits, Verdict};
use wsn_scan::Scan;
use wsn_wire::Role;

/// Shows the stream that one endpoint sent, as its bytes come (RFC 6455 sections 5 and 7): prints each event with its
/// last byte, or each frame with its head's last byte, and a refusal with the offending byte. It keeps the first bytes of
/// the open message in memory that a caller lends, and those of the frame that has begun. It allocates nothing.
#[derive(Drop)]
pub struct StreamView<'a> {
    role: Role,
    style: Style,
    input: u64,
    room: u64,
    scan: Scan,
    parts: StreamParts<'a>,
}

impl<'a> Model for StreamView<'a> {
    ghost use Rattle.wsn_show.specs.ShownSoFar.{Viewed, IsViewing};

    ghost Value = { Viewed };

    ghost view = { λ v. record {
      role = v.role;
      style = v.style;
      input = v.input;
      room = v.room;
      scan = v.scan;
      parts = v.parts;
    } };

    ghost invariant = { λ v. IsViewing (record {
      role = v.role;
      style = v.style;
      input = v.input;
      room = v.room;
      scan = v.scan;
      parts = v.parts;
    }) };
}

impl<'a> StreamView<'a> {
    ghost use Rattle.std.specs.Prelude.{◌≡◌, ℕ, ◌+◌, ◌≤◌, List, [], ◌++◌, length, false};
    ghost use Rattle.wsn_io.specs.Transfer.{Outgoing, IsWrittenUpToFailure};
    ghost use Rattle.wsn_wire.specs.Frame.{Frame};
    ghost use Rattle.wsn_wire.specs.declared.endpoint.Role.{Role};
    ghost use Rattle.wsn_rules.specs.Limits.{Limits};
    ghost use Rattle.wsn_rules.specs.Verdict.{IsVerdict};
    ghost use Rattle.wsn_rules.specs.ShownStream.{Item, Shown, IsShownStream, IsLeftOver};
    ghost use Rattle.wsn_rules.specs.ShownCapture.{beyond};
    ghost use Rattle.wsn_print.specs.ShownParts.{position_of};
    ghost use Rattle.wsn_print.specs.declared.style.Style.{Style};
    ghost use Rattle.wsn_show.specs.Styles.{styled_items};
    ghost use Rattle.wsn_show.specs.ShownSoFar.{HasViewed};

    /// A view of a stream of no bytes. `role` is the endpoint that sent the stream. The payload of a message is held in
    /// `memory`, which has at least as many bytes as are shown of it.
    pub fn new(role: Role, limits: Limits, style: Style, memory: &'a mut [u8]) -> StreamView<'a>
        requires { style.view ≤ length memory.old }
        ensures { HasViewed role limits style result [] }
    {
        StreamView {
            role,
            style,
            input: limits.input(),
            room: limits.input(),
            scan: Scan::new(role, limits),
            parts: StreamParts::new(memory),
        }
    }

    /// How the stream is shown.
    pub fn style(&self) -> Style
        ensures { result ≡ self.now.style }
    {
        self.style
    }

    /// The number of bytes that may still come: the input limit less those that came.
    pub fn room(&self) -> u64
        ensures { result ≡ self.now.room }
    {
        self.room
    }

    /// The number of bytes that came.
    pub fn sent(&self) -> u64
        ensures { (role : Role) (limits : Limits) (style : Style) (came : List ℕ) →
            HasViewed role limits style self.now came → result ≡ length came }
    {
        self.input.saturating_sub(self.room)
    }

    /// The verdict on the bytes that came, as if the stream ended here (RFC 6455 sections 5 and 7).
    #[tactic(none)]
    pub fn verdict(&self) -> Verdict
        ensures { (role : Role) (limits : Limits) (style : Style) (came : List ℕ) →
            HasViewed role limits style self.now came → (fs : List Frame) × IsVerdict role limits came fs result }
    {
        self.scan.finish()
    }

    /// Consumes bytes, at most `room` of them, and prints what they complete, up to a failed write. `origin` is where
    /// they are. Payload is unmasked in place. Bytes after a refusal are counted, and the
    /// first of them kept, but they aren't read.
    pub fn take<W: Write>(&mut self, bytes: &mut [u8], origin: Origin<'_>, output: &mut Output<W>)
        requires fits { length bytes.old ≤ self.old.room }
        requires writable { output.old.failed ≡ false }
        ensures viewed { (role : Role) (limits : Limits) (style : Style) (came : List ℕ) →
            HasViewed role limits style self.old came → HasViewed role limits style self.new (came ++ bytes.old) }
        ensures printed { (role : Role) (limits : Limits) (style : Style) (came : List ℕ) →
            HasViewed role limits style self.old came → (shown : List Shown)
            × IsShownStream style.detail role limits (came ++ bytes.old) shown
            × IsWrittenUpToFailure output.old output.new
            (styled_items style role (position_of origin.entry) (beyond (length came) shown)) }
    {
        self.room -= bytes.len() as u64;
        let context = EntryContext {
            role: self.role,
            style: self.style,
            origin,
        };
        feed(&mut self.scan, &mut self.parts, bytes, output, &context);
    }

    /// Prints what is left over if the stream ends here, after what was printed before, up to a failed write: the open
    /// message, the frame that has begun, the tail, or the bytes that weren't read. `origin` is where
    /// it is.
    pub fn put_left_over<W: Write>(&self, origin: Origin<'_>, output: &mut Output<W>)
        ensures { (role : Role) (limits : Limits) (style : Style) (came : List ℕ) →
            HasViewed role limits style self.now came → (left : List Item)
            × IsLeftOver role limits came left
            × ((before : Outgoing) (text : List ℕ) → IsWrittenUpToFailure before output.old text →
            IsWrittenUpToFailure before output.new (text ++ styled_items style role (position_of origin.entry) left)) }
    {
        let context = EntryContext {
            role: self.role,
            style: self.style,
            origin,
        };
        let parts = &self.parts;
        match self.scan.finish() {
            Verdict::Refused(refusal) => {
                let offset = refusal.offset.saturating_add(1);
                parts.put_remainder(output, &context, Remainder::Unread, offset);
            }
            Verdict::Accepted(summary) => match summary.close {
                Some(_) => parts.put_remainder(output, &context, Remainder::Tail, parts.offset),
                None => parts.put_left(output, &context),
            },
            Verdict::Cut(_) => parts.put_left(output, &context),
        }
    }
}
