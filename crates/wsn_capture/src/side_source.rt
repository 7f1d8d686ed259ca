ghost use Rattle.std.specs.Prelude.{◌≤◌, ◌<◌, length};
ghost use Rattle.std.proofs.Props.{props};
ghost use Rattle.wsn_rules.specs.TextLines.{IsLine};

use crate::side_lines::SideLines;
use std::io::{self, Read};
use wsn_scan::CHUNK;
use wsn_wire::Role;

/// One endpoint's side of the text that a reader returns in chunks.
#[derive(Drop)]
pub struct SideSource<R> {
    reader: R,
    ended: bool,
    chunk: [u8; CHUNK],
    start: usize,
    end: usize,
    pub lines: SideLines,
    ghost ordered: { start ≤ end },
    ghost within: { end ≤ 4096 },
    ghost short: { length lines.begun < 8196 },
    ghost in_line: { IsLine lines.begun } by { Prim.hlevel props },
}

impl<R: Read> SideSource<R> {
    ghost use Rattle.std.specs.Prelude.{◌≡◌, ◌<◌, true, false, None, IsSome, IsOk, OnOk};
    ghost use Rattle.std.specs.Option.{option_map};
    ghost use Rattle.std.specs.Io.KnownBytes.{Keeps};
    ghost use Rattle.wsn_capture.specs.SideTexts.{sent_in};
    ghost use Rattle.wsn_capture.specs.SideStates.{IsReady, source_left, steps_ahead};

    /// The side of all that the reader has left. Nothing has been read yet.
    pub fn new(reader: R, role: Role) -> Self
        ensures left { source_left R.remaining result ≡ option_map (sent_in role) (R.remaining reader) }
        ensures unfaulted { result.lines.side.fault ≡ None }
    {
        SideSource {
            reader,
            ended: false,
            chunk: [0; CHUNK],
            start: 0,
            end: 0,
            lines: SideLines::new(role),
        }
    }

    /// Reads on until bytes of the endpoint, a line that isn't accepted, or the end of the text has come. What is left of
    /// the side stays the same, also after an error, which is the reader's.
    pub fn read_on(&mut self) -> io::Result<()>
        ensures left { Keeps (source_left R.remaining self.old) (source_left R.remaining self.new) }
        ensures found { OnOk result (IsReady self.new.lines.side → self.new.ended ≡ true) }
        ensures faulty { IsSome self.old.lines.side.fault → IsOk result × (self.new ≡ self.old) }
    {
        while !self.ended && self.lines.side.is_ready() {
            self.step()?;
        }
        Ok(())
    }

    /// Reads a chunk, or consumes a prefix of the last one.
    #[tactic(none)]
    fn step(&mut self) -> io::Result<()>
        requires going { self.old.ended ≡ false }
        requires ready { IsReady self.old.lines.side }
        ensures left { Keeps (source_left R.remaining self.old) (source_left R.remaining self.new) }
        ensures falls { OnOk result (steps_ahead self.new < steps_ahead self.old) }
    {
        if self.start == self.end {
            return self.fill();
        }
        self.start += self.lines.take_from(&self.chunk[..self.end], self.start);
        Ok(())
    }

    /// Reads the next chunk. At the end of the text the last line ends.
    #[tactic(none)]
    fn fill(&mut self) -> io::Result<()>
        requires going { self.old.ended ≡ false }
        requires empty { self.old.start ≡ self.old.end }
        requires ready { IsReady self.old.lines.side }
        ensures left { Keeps (source_left R.remaining self.old) (source_left R.remaining self.new) }
        ensures falls { OnOk result (steps_ahead self.new < steps_ahead self.old) }
    {
        self.start = 0;
        self.end = 0;
        self.end = self.reader.read(&mut self.chunk)?;
        if self.end == 0 {
            self.ended = true;
            self.lines.finish();
        }
        Ok(())
    }
}
