use wsn_wire::Op;

/// The number of complete frames, and how many of them end a message, are pings, or are pongs.
#[derive(Clone, Copy)]
pub struct Counts {
    /// All frames.
    pub frames: u64,
    /// The final data frames.
    pub messages: u64,
    /// The pings.
    pub pings: u64,
    /// The pongs.
    pub pongs: u64,
}

impl Counts {
    ghost use Rattle.std.specs.Prelude.{◌≡◌, ◌+◌, ◌<◌, ◌^◌, List, [], ◌∷◌, ◌++◌, length};
    ghost use Rattle.wsn_wire.specs.Frame.{Frame};
    ghost use Rattle.wsn_frame.specs.Counts.{AreCounts};

    /// The counts of no frames.
    #[tactic(none)]
    pub fn new() -> Counts
        ensures { AreCounts result [] }
    {
        Counts {
            frames: 0,
            messages: 0,
            pings: 0,
            pongs: 0,
        }
    }

    /// The counts with one more frame, which has this FIN and this opcode. Fewer than 2^63 frames have been counted.
    #[tactic(none)]
    pub fn with(self, fin: bool, op: Op) -> Counts
        ensures { (fs : List Frame) (f : Frame) → AreCounts self fs → length fs < 2 ^ 63 → f.fin ≡ fin → f.op ≡ op →
            AreCounts result (fs ++ f ∷ []) }
    {
        let ends_message = fin && !op.is_control();
        Counts {
            frames: self.frames.wrapping_add(1),
            messages: self.messages.wrapping_add(u64::from(ends_message)),
            pings: self.pings.wrapping_add(u64::from(matches!(op, Op::Ping))),
            pongs: self.pongs.wrapping_add(u64::from(matches!(op, Op::Pong))),
        }
    }

    /// Counts one more frame, which has this FIN and this opcode. It takes fewer instructions than [`Counts::with`], which
    /// has no branch. Fewer than 2^63 frames have been counted.
    #[inline(always)]
    #[tactic(none)]
    pub fn add(&mut self, fin: bool, op: Op)
        ensures { (fs : List Frame) (f : Frame) → AreCounts self.old fs → length fs < 2 ^ 63 → f.fin ≡ fin → f.op ≡ op →
            AreCounts self.new (fs ++ f ∷ []) }
    {
        self.frames = self.frames.wrapping_add(1);
        if !op.is_control() {
            if fin {
                self.messages = self.messages.wrapping_add(1);
            }
            return;
        }
        match op {
            Op::Ping => self.pings = self.pings.wrapping_add(1),
            Op::Pong => self.pongs = self.pongs.wrapping_add(1),
            _ => {}
        }
    }
}
