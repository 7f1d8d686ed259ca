use std::marker::Model;
use wsn_capture::time_of;
use wsn_print::KeptBytes;

/// The maximum length of a line in bytes, without its CR.
pub const LINE_MAX: usize = 8194;

/// The time that holds: that of the last line that gave one.
#[derive(Drop)]
pub struct CurrentTime {
    text: KeptBytes<LINE_MAX>,
    /// Whether a line has given the time.
    given: bool,
}

impl Model for CurrentTime {
    ghost use Rattle.std.specs.Prelude.{ℕ, List, Option, None, Some, if◌then◌else◌};

    ghost Value = { Option (List ℕ) };

    ghost view = { λ time. if time.given then Some time.text else None };
}

impl CurrentTime {
    ghost use Rattle.std.specs.Prelude.{◌≡◌, ◌≤◌, None, Some, length, option_copied, true, false};
    ghost use Rattle.wsn_rules.specs.ShownCapture.{GivesTime, GivesNoTime};

    /// No line has given a time.
    pub fn new() -> CurrentTime
        ensures { result ≡ None }
    {
        CurrentTime {
            text: KeptBytes::new(),
            given: false,
        }
    }

    /// The time, if one holds.
    pub fn text(&self) -> Option<&[u8]>
        ensures { option_copied result ≡ self.now }
    {
        if !self.given {
            return None;
        }
        Some(self.text.as_slice())
    }

    /// Takes over the time of another.
    #[tactic(none)]
    pub fn copy_from(&mut self, other: &CurrentTime)
        ensures { self.new ≡ other.now }
    {
        self.given = other.given;
        if other.given {
            self.text.clear();
            self.text.add(other.text.as_slice());
        }
    }

    /// Takes a line without its CR, and returns whether it gives a time, which holds from then on.
    pub fn take(&mut self, line: &[u8]) -> bool
        requires { length line.now ≤ LINE_MAX }
        ensures given { result ≡ true → (seconds : _) × GivesTime line.now seconds × (self.new ≡ Some seconds) }
        ensures none { result ≡ false → GivesNoTime line.now × (self.new ≡ self.old) }
    {
        let Some(seconds) = time_of(line) else {
            return false;
        };
        self.text.clear();
        self.text.add(seconds);
        self.given = true;
        true
    }
}
