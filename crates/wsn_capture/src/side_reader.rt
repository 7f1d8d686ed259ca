use crate::capture_stop::CaptureStop;
use crate::side_source::SideSource;
use std::io::{self, ErrorKind, Read};
use std::marker::Model;
use wsn_wire::Role;

/// One side of a capture as a reader: the bytes that an endpoint sent, joined, of the lines of a capture's text. The
/// text comes from another reader. At most one line is held, and nothing is allocated.
///
/// The side ends where the text ends. A read fails if a read of the text fails, with the same error; nothing is lost, and
/// a later read may succeed. After the bytes of the lines before the first line that isn't accepted, each read fails
/// (`InvalidData`), and [`SideReader::stop`] returns the line. Its fault is any [`crate::LineFault`] except `InputLimit`:
/// the limits of an engine that reads the side are its own.
#[derive(Drop)]
pub struct SideReader<R: Read> {
    source: SideSource<R>,
    failed: bool,
}

impl<R: Read> Model for SideReader<R> {
    ghost use Rattle.wsn_capture.specs.SideStates.{SideReading, source_left, stop_of};

    ghost Value = { SideReading };

    ghost view = { λ s. record {
      remaining = source_left R.remaining s.source;
      stop = stop_of s.source.lines.side.fault s.failed;
    } };
}

impl<R: Read> SideReader<R> {
    ghost use Rattle.std.specs.Prelude.{◌≡◌, ◌∷◌, ℕ, [], None, Some, IfSome};
    ghost use Rattle.std.specs.Option.{option_map};
    ghost use Rattle.wsn_capture.specs.declared.line_fault.LineFault.{LineFault};
    ghost use Rattle.wsn_capture.specs.declared.capture_stop.CaptureStop.TheVariants.{Line};
    ghost use Rattle.wsn_capture.specs.SideTexts.{sent_in, sentinel};

    /// The side of `role` of the text that `reader` has left. Nothing has been read yet.
    #[tactic(none)]
    pub fn new(reader: R, role: Role) -> Self
        ensures remaining { result.remaining ≡ option_map (sent_in role) (R.remaining reader) }
        ensures stop { result.stop ≡ None }
    {
        SideReader {
            source: SideSource::new(reader, role),
            failed: false,
        }
    }

    /// Why a read has failed, if one has: `Line` is the first line that isn't accepted; `Read` is a failed read of the
    /// text, if no such line has come.
    #[tactic(none)]
    pub fn stop(&self) -> Option<CaptureStop>
        ensures value { result ≡ self.now.stop }
        ensures line { (number : ℕ) (fault : LineFault) → result ≡ Some (Line number fault) →
            IfSome self.now.remaining (λ left. left ≡ sentinel number fault ∷ []) }
    {
        match self.source.lines.side.fault() {
            Some(faulty) => Some(CaptureStop::Line {
                number: faulty.number,
                fault: faulty.fault,
            }),
            None if self.failed => Some(CaptureStop::Read),
            None => None,
        }
    }
}

impl<R: Read> Read for SideReader<R> {
    ghost use Rattle.std.specs.Prelude.{◌≡◌, IsErr, OnOk, OnErr, IsSome};
    ghost use Rattle.std.specs.Io.{ReadsAtMost};
    ghost use Rattle.std.specs.Io.KnownBytes.{ReadConsumes};
    ghost use Rattle.wsn_capture.specs.SideStates.{IsLineStop};

    ghost remaining = { λ s. s.remaining };

    fn read(&mut self, into: &mut [u8]) -> io::Result<usize>
        ensures bound { ReadsAtMost result into.new }
        ensures bytes { ReadConsumes self.old.remaining self.new.remaining result into.new }
        ensures same { OnOk result (self.new.stop ≡ self.old.stop) }
        ensures stopped { OnErr result (IsSome self.new.stop) }
        ensures for_good { IsLineStop self.old.stop → IsErr result × (self.new ≡ self.old) }
    {
        if let Err(error) = self.source.read_on() {
            self.failed = true;
            return Err(error);
        }
        if self.source.lines.side.fault().is_some() {
            return Err(ErrorKind::InvalidData.into());
        }
        Ok(self.source.lines.side.copy_to(into))
    }
}
