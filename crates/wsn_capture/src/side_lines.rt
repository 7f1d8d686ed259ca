use crate::lines::{BEGUN_MAX, Lines};
use crate::side_bytes::SideBytes;
use wsn_wire::Role;

/// Splits the chunks of a text into lines and passes each to one endpoint's side. It holds the line that isn't finished.
#[derive(Drop)]
pub struct SideLines {
    pub side: SideBytes,
    begun: Lines,
}

impl SideLines {
    ghost use Rattle.std.specs.Prelude.{◌≡◌, ℕ, ◌+◌, ◌<◌, ◌≤◌, ◌++◌, ◌∷◌, [], List, None, length, drop};
    ghost use Rattle.wsn_rules.specs.TextLines.{IsLine};
    ghost use Rattle.wsn_capture.specs.SideTexts.{sent_in};
    ghost use Rattle.wsn_capture.specs.SideStates.{side_left, IsReady, lines_ahead, text_left, side_bytes_ahead};

    /// The side of a text of no bytes.
    pub fn new(role: Role) -> SideLines
        ensures left { (text : List ℕ) → text_left result text ≡ sent_in role text }
        ensures begun { result.begun ≡ [] }
        ensures unfaulted { result.side.fault ≡ None }
    {
        SideLines {
            side: SideBytes::new(role),
            begun: Lines::new(),
        }
    }

    /// Consumes a prefix of a chunk's bytes from `start` on, as `take` does, and returns its length in bytes.
    pub fn take_from(&mut self, chunk: &[u8], start: usize) -> usize
        requires some { start < length chunk.now }
        requires ready { IsReady self.old.side }
        requires short { length self.old.begun < BEGUN_MAX }
        requires in_line { IsLine self.old.begun }
        ensures more { 0 < result }
        ensures within { start + result ≤ length chunk.now }
        ensures left { (later : List ℕ) → text_left self.new (drop (start + result) chunk.now ++ later)
            ≡ text_left self.old (drop start chunk.now ++ later) }
        ensures falls { side_bytes_ahead self.new < side_bytes_ahead self.old }
        ensures short { length self.new.begun < BEGUN_MAX }
        ensures in_line { IsLine self.new.begun }
    {
        self.take(&chunk[start..])
    }

    /// Consumes a prefix of a chunk, to the end of a line or as much as one line may hold, and returns its length in
    /// bytes.
    fn take(&mut self, chunk: &[u8]) -> usize
        requires some { 0 < length chunk.now }
        requires ready { IsReady self.old.side }
        requires short { length self.old.begun < BEGUN_MAX }
        requires in_line { IsLine self.old.begun }
        ensures more { 0 < result }
        ensures within { result ≤ length chunk.now }
        ensures left { (later : List ℕ) →
            text_left self.new (drop result chunk.now ++ later) ≡ text_left self.old (chunk.now ++ later) }
        ensures falls { side_bytes_ahead self.new < side_bytes_ahead self.old }
        ensures short { length self.new.begun < BEGUN_MAX }
        ensures in_line { IsLine self.new.begun }
    {
        let (count, ended) = self.begun.take(chunk);
        if ended {
            self.end_line();
        }
        count
    }

    /// Passes the line to the side.
    fn end_line(&mut self)
        requires { IsReady self.old.side }
        ensures left { (lines : List (List ℕ)) →
            side_left self.new.side lines ≡ side_left self.old.side (self.old.begun ∷ lines) }
        ensures falls { lines_ahead self.new.side < lines_ahead self.old.side }
        ensures begun { self.new.begun ≡ [] }
    {
        self.side.take_line(self.begun.line());
        self.begun.clear();
    }

    /// Ends the text. The unfinished line is the last line, unless it is empty.
    #[tactic(none)]
    pub fn finish(&mut self)
        requires ready { IsReady self.old.side }
        requires in_line { IsLine self.old.begun }
        ensures left { side_left self.new.side [] ≡ text_left self.old [] }
        ensures begun { self.new.begun ≡ [] }
    {
        if !self.begun.line().is_empty() {
            self.end_line();
        }
    }
}
