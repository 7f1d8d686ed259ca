ghost use Rattle.std.specs.Prelude.{◌≡◌, ◌==◌, ◌<◌, false, if◌then◌else◌};
ghost use Rattle.wsn_color.specs.PaintedText.{begun_tone, colored_by, decides, is_open, new_line, next_place, with_byte, with_word, without_tone};
ghost use Rattle.wsn_color.specs.Tones.{counts_empty, is_of_line, later_tone, may_begin, opening_of, opening_tone, separator, tone_of};

use crate::layout::Layout;
use crate::opening::{Opening, name_tone, outcome_tone};
use crate::tone::Tone;

/// The number of words of an answer's line with which a tone may begin: the last is KIND, after SIDE, TIME and OFFSET.
const TONED_WORDS: u8 = 4;

/// The same in columns for people, where an arrow follows SIDE: the greatest number of words that are counted.
const TONED_IN_COLUMNS: u8 = 5;

/// How far a line has come.
#[derive(Clone, Copy)]
pub(crate) struct Line {
    pub layout: Layout,
    pub opening: Opening,
    /// The number of words before the one that is being read, at most `TONED_IN_COLUMNS`.
    pub place: u8,
    /// Whether the word's tone is known.
    pub is_decided: bool,
    /// Whether a tone has begun that hasn't ended.
    pub is_toned: bool,
}

impl Layout {
    /// The byte between words.
    fn separator(self) -> u8
        ensures { result ≡ separator self }
    {
        match self {
            Layout::Answer | Layout::People => b' ',
            Layout::Table => b'\t',
            Layout::Explanation => b':',
        }
    }

    /// Whether a tone goes on to the end of its line, and not of its word.
    pub(crate) fn is_of_line(self) -> bool
        ensures { result ≡ is_of_line self }
    {
        matches!(self, Layout::Answer | Layout::People)
    }

    /// Whether an empty word counts.
    fn counts_empty(self) -> bool
        ensures { result ≡ counts_empty self }
    {
        !matches!(self, Layout::People)
    }

    /// Whether a word with this many before it may begin a tone.
    fn may_begin(self, place: u8) -> bool
        ensures { result ≡ may_begin self place }
    {
        match self {
            Layout::Answer => place < TONED_WORDS,
            Layout::People => place < TONED_IN_COLUMNS,
            Layout::Table => place == 1,
            Layout::Explanation => place == 0,
        }
    }
}

impl Line {
    /// A line of which no byte has come.
    pub fn new(layout: Layout) -> Self
        ensures { result ≡ new_line layout }
    {
        Line {
            layout,
            opening: Opening::Other,
            place: 0,
            is_decided: false,
            is_toned: false,
        }
    }

    /// Whether a word ends before this byte.
    pub fn ends_word(&self, byte: u8) -> bool
        ensures { result ≡ (byte == separator self.now.layout) }
    {
        byte == self.layout.separator()
    }

    /// Whether a tone may begin with the word that is being read.
    pub fn is_open(&self) -> bool
        ensures { result ≡ is_open self.now }
    {
        !self.is_decided && self.layout.may_begin(self.place)
    }

    /// The tone that begins with this word.
    fn tone_of(&self, word: &[u8]) -> Option<Tone>
        ensures { result ≡ tone_of self.now.layout self.now.opening self.now.place word.now }
    {
        match self.layout {
            Layout::Answer | Layout::People => self.tone_in_line(word),
            Layout::Table => outcome_tone(word),
            Layout::Explanation => name_tone(word),
        }
    }

    fn tone_in_line(&self, word: &[u8]) -> Option<Tone>
        ensures { result ≡ (if self.now.place == 0 then opening_tone (opening_of word.now)
            else later_tone self.now.opening word.now) }
    {
        match self.place {
            0 => Opening::of(word).tone(),
            _ => self.opening.later_tone(word),
        }
    }

    /// Takes the word that was read, of which at most the beginning is given, and returns the tone that begins with it.
    pub fn decide(&mut self, word: &[u8]) -> Option<Tone>
        ensures tone { result ≡ begun_tone self.old word.now }
        ensures line { self.new ≡ with_word self.old word.now }
        ensures colored { self.new.is_toned ≡ colored_by self.old.layout self.old.is_toned result }
        ensures layout { self.new.layout ≡ self.old.layout }
    {
        if word.is_empty() || !self.is_open() {
            return None;
        }
        let tone = self.tone_of(word);
        if self.place == 0 {
            self.opening = Opening::of(word);
        }
        self.is_decided = true;
        if tone.is_some() {
            self.is_toned = self.layout.is_of_line();
        }
        tone
    }

    /// Goes on after this byte: to the next word, if one ended before it.
    pub fn pass(&mut self, byte: u8)
        ensures line { self.new ≡ with_byte self.old byte }
        ensures colored { self.new.is_toned ≡ self.old.is_toned }
    {
        if self.ends_word(byte) {
            self.place = self.next_place();
            self.is_decided = false;
        }
    }

    /// The number of words before the next one.
    fn next_place(&self) -> u8
        ensures { result ≡ next_place self.now }
    {
        let counts = self.layout.counts_empty() || self.is_decided;
        if counts && self.place < TONED_IN_COLUMNS {
            self.place + 1
        } else {
            self.place
        }
    }

    /// Ends the tone of the line. `false` if there is none.
    pub fn take_tone(&mut self) -> bool
        ensures before { result ≡ self.old.is_toned }
        ensures after { self.new ≡ without_tone self.old }
    {
        let is_toned = self.is_toned;
        self.is_toned = false;
        is_toned
    }
}
