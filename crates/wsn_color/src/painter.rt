ghost use Rattle.std.specs.Prelude.{◌≡◌, ℕ, List, false, [], ◌++◌, take, IfOk, OnOk, MatchResult};
ghost use Rattle.std.specs.Io.{WritesAtMost};
ghost use Rattle.std.specs.Io.KnownBytes.{Keeps, WriteAppends, append_known};
ghost use Rattle.wsn_color.specs.Codes.{HasNoEscape};
ghost use Rattle.wsn_color.specs.PaintedText.{painted, with_word, without_tone};
ghost use Rattle.wsn_color.specs.Painting.{HasPlainEnds, IsKnownPlain, all_given, in_full};

use crate::brush::Brush;
use crate::layout::Layout;
use crate::queue::Queue;
use std::io::{self, ErrorKind, Write};
use std::marker::Model;

/// A writer that colours the lines that it is given: it writes them to another writer, with codes around their parts,
/// and ends each colour before the line feed. Of a line it holds back at most 31 bytes of a word, until the word ends or
/// `flush`.
///
/// It takes no ESC: a write that begins with one fails, so that every code is the painter's own.
#[derive(Drop)]
pub struct Painter<W: Write> {
    writer: W,
    brush: Brush,
    queue: Queue,
}

impl<W: Write> Model for Painter<W> {
    ghost use Rattle.std.specs.Prelude.{drop};
    ghost use Rattle.wsn_color.specs.Painting.{Painted};

    ghost Value = { Painted };

    ghost view = { λ p. record {
      written = W.contents p.writer;
      queued = drop p.queue.sent p.queue.bytes.items;
      word = p.brush.word.items;
      line = p.brush.line;
    } };
}

impl<W: Write> Painter<W> {
    /// A painter of such lines, to which nothing has been given.
    pub fn new(writer: W, layout: Layout) -> Self
        ensures written { result.written ≡ W.contents writer }
        ensures queued { result.queued ≡ [] }
        ensures word { result.word ≡ [] }
        ensures plain { result.line.is_toned ≡ false }
        ensures text { (text : List ℕ) → in_full result text ≡ append_known (W.contents writer) (painted layout text) }
        ensures ends { IsKnownPlain false (W.contents writer) → HasPlainEnds result }
    {
        Painter {
            writer,
            brush: Brush::new(layout),
            queue: Queue::new(),
        }
    }
}

impl<W: Write> Write for Painter<W> {
    ghost contents = { λ p. all_given p };

    /// Writes what is queued, takes as many bytes as there is room for, and writes what they give. It takes bytes only
    /// up to the first ESC, and fails if that is the first byte.
    fn write(&mut self, bytes: &[u8]) -> io::Result<usize>
        ensures bound { WritesAtMost result bytes.now }
        ensures bytes { WriteAppends (all_given self.old) (all_given self.new) result bytes.now }
        ensures escape { IfOk result (λ count. HasNoEscape (take count bytes.now)) }
        ensures progress { IfOk result (λ count. count ≡ 0 → bytes.now ≡ []) }
        ensures plain { HasPlainEnds self.old → HasPlainEnds self.new }
        ensures text { MatchResult result
            (λ count. (rest : List ℕ) → Keeps (in_full self.old (take count bytes.now ++ rest)) (in_full self.new rest))
            (λ _. (rest : List ℕ) → Keeps (in_full self.old rest) (in_full self.new rest)) }
    {
        self.queue.write_to(&mut self.writer)?;
        let count = self.brush.take(bytes, &mut self.queue.bytes);
        if count == 0 && !bytes.is_empty() {
            return Err(ErrorKind::InvalidData.into());
        }
        let _later = self.queue.write_to(&mut self.writer);
        Ok(count)
    }

    /// Writes all that was given, and ends all colours.
    fn flush(&mut self) -> io::Result<()>
        ensures bytes { Keeps (all_given self.old) (all_given self.new) }
        ensures queued { OnOk result (self.new.queued ≡ []) }
        ensures word { OnOk result (self.new.word ≡ []) }
        ensures plain { HasPlainEnds self.old → HasPlainEnds self.new }
        ensures off { OnOk result (self.new.line.is_toned ≡ false) }
        ensures text { Keeps (in_full self.old []) (in_full self.new []) }
        ensures all { OnOk result (Keeps (in_full self.old []) self.new.written) }
        ensures line { OnOk result (self.new.line ≡ without_tone (with_word self.old.line self.old.word)) }
    {
        self.queue.write_to(&mut self.writer)?;
        self.brush.end_tones(&mut self.queue.bytes);
        self.queue.write_to(&mut self.writer)?;
        self.writer.flush()
    }
}
