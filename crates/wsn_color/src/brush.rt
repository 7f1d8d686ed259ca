ghost use Rattle.std.specs.Prelude.{◌≡◌, ◌≢◌, Bool, ℕ, ◌+◌, ◌<◌, ◌≤◌, [], ◌∷◌, ◌++◌, Some, length, take, IsTrue};
ghost use Rattle.arrayvec.specs.ArrayVec.{array_vec_len};
ghost use Rattle.wsn_color.specs.Codes.{HasNoEscape, IsInWords};
ghost use Rattle.wsn_color.specs.PaintedText.{Continues, is_held, new_line, painted_end, painted_word, toned_word, with_word, without_tone};
ghost use Rattle.wsn_color.specs.Painting.{Paints};
ghost use Rattle.wsn_color.specs.Tones.{is_of_line};

use crate::layout::Layout;
use crate::line::Line;
use crate::queue::{Bytes, QUEUE};
use crate::tone::{Tone, plain_code};
use arrayvec::ArrayVec;

/// The maximum number of bytes that a step adds to the queue: two codes, a word and a byte.
const STEP: usize = 64;

/// The number of bytes of a word after which its tone is decided.
const WORD: usize = 32;

/// Puts codes around the parts of lines as they come. The beginning of a word is held until it is known whether a tone
/// begins with it.
#[derive(Drop)]
pub(crate) struct Brush {
    line: Line,
    word: ArrayVec<u8, WORD>,
    ghost plain: { IsInWords word.items },
    ghost short: { array_vec_len word < 32 },
}

/// Adds bytes to the queue, where they fit.
fn put(queue: &mut Bytes, bytes: &[u8])
    requires { array_vec_len queue.old + length bytes.now ≤ 4096 }
    ensures { queue.new.items ≡ queue.old.items ++ bytes.now }
{
    let _fits = queue.try_extend_from_slice(bytes);
}

/// Adds a word in a tone, which ends after the word if it isn't one of lines.
fn put_toned(queue: &mut Bytes, word: &[u8], tone: Tone, layout: Layout)
    requires room { array_vec_len queue.old + length word.now + 17 ≤ 4096 }
    requires plain { IsInWords word.now }
    ensures text { queue.new.items ≡ queue.old.items ++ toned_word layout (Some tone) word.now }
    ensures paints { (colored : Bool) →
        Paints colored queue.old.items word.now [] (is_of_line layout) queue.new.items [] }
    ensures few { array_vec_len queue.new ≤ array_vec_len queue.old + length word.now + 17 }
{
    put(queue, tone.code());
    put(queue, word);
    if layout.is_of_line() {
        return;
    }
    put(queue, plain_code());
}

impl Brush {
    /// A brush before the first line.
    pub fn new(layout: Layout) -> Self
        ensures word { result.word.items ≡ [] }
        ensures line { result.line ≡ new_line layout }
    {
        Brush {
            line: Line::new(layout),
            word: ArrayVec::new(),
        }
    }

    /// Takes bytes up to the first ESC, as many as the queue has room for, and returns their number.
    pub fn take(&mut self, bytes: &[u8], queue: &mut Bytes) -> usize
        ensures within { result ≤ length bytes.now }
        ensures escape { HasNoEscape (take result bytes.now) }
        ensures paints { Paints self.old.line.is_toned queue.old.items self.old.word.items (take result bytes.now)
            self.new.line.is_toned queue.new.items self.new.word.items }
        ensures text { Continues queue.old.items self.old.line self.old.word.items (take result bytes.now)
            queue.new.items self.new.line self.new.word.items }
    {
        let mut taken = 0;
        while taken < bytes.len() && queue.len() <= QUEUE - STEP {
            let byte = bytes[taken];
            if byte == b'\x1b' {
                return taken;
            }
            self.take_byte(byte, queue);
            taken += 1;
        }
        taken
    }

    /// Takes a byte, which isn't ESC.
    fn take_byte(&mut self, byte: u8, queue: &mut Bytes)
        requires plain { byte ≢ 27 }
        requires room { array_vec_len queue.old + 64 ≤ 4096 }
        ensures paints { Paints self.old.line.is_toned queue.old.items self.old.word.items (byte ∷ [])
            self.new.line.is_toned queue.new.items self.new.word.items }
        ensures text { Continues queue.old.items self.old.line self.old.word.items (byte ∷ [])
            queue.new.items self.new.line self.new.word.items }
    {
        if byte == b'\n' {
            self.end_tones(queue);
            put(queue, b"\n");
            self.line = Line::new(self.line.layout);
        } else if self.holds(byte) {
            self.word.push(byte);
        } else {
            self.release(queue);
            put(queue, &[byte]);
            self.line.pass(byte);
        }
    }

    /// Whether this byte is held: it is of a word whose tone isn't decided. Of a long word the beginning alone decides.
    fn holds(&self, byte: u8) -> bool
        ensures short { IsTrue result → array_vec_len self.now.word < 31 }
        ensures held { result ≡ is_held self.now.line self.now.word.items byte }
    {
        self.word.len() < WORD - 1 && self.line.is_open() && !self.line.ends_word(byte)
    }

    /// Ends the word, and the tone if there is one.
    pub fn end_tones(&mut self, queue: &mut Bytes)
        requires room { array_vec_len queue.old + 52 ≤ 4096 }
        ensures paints { Paints self.old.line.is_toned queue.old.items self.old.word.items []
            self.new.line.is_toned queue.new.items self.new.word.items }
        ensures text { queue.new.items ≡ queue.old.items ++ painted_end self.old.line self.old.word.items }
        ensures line { self.new.line ≡ without_tone (with_word self.old.line self.old.word.items) }
        ensures empty { self.new.word.items ≡ [] }
        ensures few { array_vec_len queue.new ≤ array_vec_len queue.old + 52 }
    {
        self.release(queue);
        if self.line.take_tone() {
            put(queue, plain_code());
        }
    }

    /// Queues what is held of the word, in its tone.
    fn release(&mut self, queue: &mut Bytes)
        requires room { array_vec_len queue.old + 48 ≤ 4096 }
        ensures paints { Paints self.old.line.is_toned queue.old.items self.old.word.items []
            self.new.line.is_toned queue.new.items self.new.word.items }
        ensures text { queue.new.items ≡ queue.old.items ++ painted_word self.old.line self.old.word.items }
        ensures line { self.new.line ≡ with_word self.old.line self.old.word.items }
        ensures empty { self.new.word.items ≡ [] }
        ensures few { array_vec_len queue.new ≤ array_vec_len queue.old + 48 }
    {
        let layout = self.line.layout;
        match self.line.decide(self.word.as_slice()) {
            None => put(queue, self.word.as_slice()),
            Some(tone) => put_toned(queue, self.word.as_slice(), tone, layout),
        }
        self.word.clear();
    }
}
