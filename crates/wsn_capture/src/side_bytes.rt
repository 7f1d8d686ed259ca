ghost use Rattle.std.specs.Prelude.{◌≡◌, ◌≤◌, ℕ, List, take};
ghost use Rattle.wsn_rules.specs.Sides.{bytes_in};
ghost use Rattle.wsn_capture.specs.LineEntries.{FitsInLine, held_entry};

use crate::line_fault::LineFault;
use crate::line_form::{BYTES_MAX, LineEntry};
use crate::lines_before::LinesBefore;
use wsn_wire::Role;

/// The first line that isn't accepted: its number, counted from 1, and its first fault.
#[derive(Clone, Copy)]
pub struct FaultyLine {
    pub number: u32,
    pub fault: LineFault,
}

/// One endpoint's bytes in the lines of a capture. It holds those of the last line that haven't been returned yet.
#[derive(Drop)]
pub struct SideBytes {
    role: Role,
    before: LinesBefore,
    fault: Option<FaultyLine>,
    bytes: [u8; BYTES_MAX],
    start: usize,
    end: usize,
    ghost few: { before.count ≤ 1000000 },
    ghost ordered: { start ≤ end },
    ghost within: { end ≤ 4096 },
}

impl SideBytes {
    ghost use Rattle.std.specs.Prelude.{◌≡◌, ℕ, ◌<◌, ◌≤◌, ◌++◌, ◌∷◌, ◌↔◌, List, [], None, length, take, IsTrue};
    ghost use Rattle.wsn_capture.specs.SideTexts.{lines_giving, sent_in_lines};
    ghost use Rattle.wsn_capture.specs.SideStates.{side_left, IsReady, lines_ahead};

    /// The side of no lines.
    pub fn new(role: Role) -> SideBytes
        ensures left { (lines : List (List ℕ)) → side_left result lines ≡ sent_in_lines role (lines_giving []) lines }
        ensures unfaulted { result.fault ≡ None }
    {
        SideBytes {
            role,
            before: LinesBefore::new(),
            fault: None,
            bytes: [0; BYTES_MAX],
            start: 0,
            end: 0,
        }
    }

    /// Whether the next line can be accepted: no line was faulty, and all bytes have been returned.
    #[tactic(none)]
    pub fn is_ready(&self) -> bool
        ensures { IsTrue result ↔ IsReady self.now }
    {
        self.fault.is_none() && self.start == self.end
    }

    /// The first line that isn't accepted, if one has come.
    pub fn fault(&self) -> Option<FaultyLine>
        ensures { result ≡ self.now.fault }
    {
        self.fault
    }

    /// Accepts the next line, given without its LF, or holds its number and its first fault.
    #[tactic(none)]
    pub fn take_line(&mut self, line: &[u8])
        requires { IsReady self.old }
        ensures left { (lines : List (List ℕ)) → side_left self.new lines ≡ side_left self.old (line.now ∷ lines) }
        ensures falls { lines_ahead self.new < lines_ahead self.old }
    {
        match self.before.entry(line, &mut self.bytes) {
            Ok(entry) => {
                self.before.add(entry);
                self.start = 0;
                self.end = own_count(self.role, entry);
            }
            Err(fault) => {
                let number = self.before.count() + 1;
                self.fault = Some(FaultyLine { number, fault });
            }
        }
    }

    /// Copies bytes to the start of `into`, as many as there are and fit, and returns their number.
    #[tactic(none)]
    pub fn copy_to(&mut self, into: &mut [u8]) -> usize
        requires { self.old.fault ≡ None }
        ensures within { result ≤ length into.new }
        ensures left { (lines : List (List ℕ)) →
            side_left self.old lines ≡ take result into.new ++ side_left self.new lines }
        ensures none { result ≡ 0 → 0 < length into.new → IsReady self.old }
        ensures unfaulted { self.new.fault ≡ None }
    {
        let held = &self.bytes[self.start..self.end];
        let count = held.len().min(into.len());
        into[..count].copy_from_slice(&held[..count]);
        self.start += count;
        count
    }
}

/// The number of bytes that the entry of a line gives of an endpoint.
#[tactic(none)]
fn own_count(role: Role, entry: LineEntry) -> usize
    ensures few { FitsInLine entry → result ≤ 4096 }
    ensures bytes { (held : List ℕ) → take result held ≡ bytes_in role (held_entry entry held) }
{
    match (role, entry) {
        (Role::Client, LineEntry::Bytes(Role::Client, count)) => count,
        (Role::Server, LineEntry::Bytes(Role::Server, count)) => count,
        _ => 0,
    }
}
