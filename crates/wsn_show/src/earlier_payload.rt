ghost use Rattle.std.specs.Prelude.{◌≡◌, ℕ, ◌+◌, ◌≤◌, List, [], ◌++◌, length};
ghost use Rattle.wsn_rules.specs.BadCharacter.{last_of};
ghost use Rattle.wsn_show.specs.HeldParts.{HasEarlier};

use wsn_print::KeptBytes;

/// The most bytes of earlier frames with which a bad character is shown.
pub(crate) const EARLIER_MAX: usize = 48;

/// The space for them. They are moved to its front only when the next ones don't fit.
const ROOM: usize = 128;

/// The last 48 payload bytes of the open message's complete frames, after older ones.
#[derive(Drop)]
pub struct EarlierPayload {
    held: KeptBytes<ROOM>,
}

impl EarlierPayload {
    /// No frame is complete.
    #[tactic(none)]
    pub fn new() -> EarlierPayload
        ensures { HasEarlier result [] }
    {
        EarlierPayload {
            held: KeptBytes::new(),
        }
    }

    /// Forgets the bytes that came.
    #[tactic(none)]
    pub fn clear(&mut self)
        ensures { HasEarlier self.new [] }
    {
        self.held.clear();
    }

    /// A frame ends, whose payload ends with these bytes.
    #[inline(always)]
    #[tactic(none)]
    pub fn add(&mut self, bytes: &[u8])
        ensures { (came payload : List ℕ) → last_of 48 bytes.now ≡ last_of 48 payload → HasEarlier self.old came →
            HasEarlier self.new (came ++ payload) }
    {
        match bytes.last_chunk::<EARLIER_MAX>() {
            Some(last) => replace(&mut self.held, last),
            None => self.add_short(bytes),
        }
    }

    /// Adds bytes, too few to take the place of those that are held.
    #[tactic(none)]
    fn add_short(&mut self, bytes: &[u8])
        requires { length bytes.now ≤ EARLIER_MAX }
        ensures { last_of 48 self.new.held ≡ last_of 48 (self.old.held ++ bytes.now) }
    {
        self.make_room(bytes.len());
        self.held.add(bytes);
    }

    /// Drops all but the last 48 bytes if this many more don't fit.
    #[tactic(none)]
    fn make_room(&mut self, number: usize)
        requires { number ≤ EARLIER_MAX }
        ensures last { last_of 48 self.new.held ≡ last_of 48 self.old.held }
        ensures fits { length self.new.held + number ≤ ROOM }
    {
        if !self.held.has_room(number) {
            let older = self.held.len() - EARLIER_MAX;
            self.held.drop_front(older);
        }
    }

    /// The last 48 bytes.
    #[tactic(none)]
    pub fn end(&self) -> KeptBytes<EARLIER_MAX>
        ensures { result ≡ last_of 48 self.now.held }
    {
        end_of(self.held.as_slice())
    }
}

/// These bytes take the place of those that are held.
#[inline(always)]
fn replace(held: &mut KeptBytes<ROOM>, bytes: &[u8; EARLIER_MAX])
    ensures { held.new ≡ bytes.now }
{
    held.clear();
    held.add(bytes);
}

/// The last 48 of these bytes.
#[tactic(none)]
pub fn end_of(bytes: &[u8]) -> KeptBytes<EARLIER_MAX>
    ensures { result ≡ last_of 48 bytes.now }
{
    let mut end = KeptBytes::new();
    end.add(&bytes[bytes.len().saturating_sub(EARLIER_MAX)..]);
    end
}
