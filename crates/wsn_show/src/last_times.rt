use crate::times::CurrentTime;
use wsn_capture::LineEntry;
use wsn_wire::Role;

/// The times that held when the last bytes of each endpoint came.
#[derive(Drop)]
pub struct LastTimes {
    client: CurrentTime,
    server: CurrentTime,
}

impl LastTimes {
    ghost use Rattle.std.specs.Prelude.{◌≡◌, ℕ, List, [], ◌∷◌, ◌++◌, option_copied};
    ghost use Rattle.wsn_rules.specs.Entries.{Entry, IsEntry, AreEntries};
    ghost use Rattle.wsn_rules.specs.ShownCapture.{IsTimeAfter};
    ghost use Rattle.wsn_capture.specs.LineEntries.{held_entry};
    ghost use Rattle.wsn_show.specs.EndNotes.{last_time, HasNotedTimes};

    /// No bytes came.
    pub fn new() -> LastTimes
        ensures { HasNotedTimes result [] [] }
    {
        LastTimes {
            client: CurrentTime::new(),
            server: CurrentTime::new(),
        }
    }

    /// Notes what the next line gives, and the time that holds.
    #[tactic(none)]
    pub fn note(&mut self, entry: LineEntry, time: &CurrentTime)
        ensures { (lines : List (List ℕ)) (entries : List Entry) (line held : List ℕ) →
            HasNotedTimes self.old lines entries → AreEntries lines entries → IsTimeAfter lines time.now →
            IsEntry line (held_entry entry held) →
            HasNotedTimes self.new (lines ++ line ∷ []) (entries ++ held_entry entry held ∷ []) }
    {
        match entry {
            LineEntry::Bytes(role, _) => match role {
                Role::Client => self.client.copy_from(time),
                Role::Server => self.server.copy_from(time),
            },
            LineEntry::Nothing | LineEntry::Mark(_) => {}
        }
    }

    /// The time that held when the last bytes of an endpoint came, if one did.
    #[tactic(none)]
    pub fn of(&self, role: Role) -> Option<&[u8]>
        ensures { option_copied result ≡ last_time role self.now }
    {
        match role {
            Role::Client => self.client.text(),
            Role::Server => self.server.text(),
        }
    }
}
