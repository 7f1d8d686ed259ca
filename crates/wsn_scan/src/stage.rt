ghost use Rattle.std.specs.Prelude.{◌≡◌, None};
ghost use Rattle.wsn_scan.specs.Scans.{IsStageAfter, refusal_at};

use arrayvec::ArrayVec;
use wsn_frame::{HEAD_MAX, Head, PayloadCheck};
use wsn_rules::Refusal;

/// A frame whose payload is coming.
#[derive(Clone, Copy)]
pub struct Inside {
    pub head: Head,
    pub check: PayloadCheck,
    /// How many bytes of the payload came: fewer than all.
    pub done: u64,
}

/// The part of the stream that a scan is in.
#[derive(Drop)]
pub enum Stage {
    /// Between frames.
    Between,
    /// In a head: its first bytes, one at least.
    Head(ArrayVec<u8, HEAD_MAX>),
    /// In a payload.
    Payload(Inside),
    /// After a Close: its code, if it has one.
    Closed(Option<u16>),
    /// After the offending byte of a refusal.
    Refused(Refusal),
}

impl Stage {
    /// Goes on after a whole frame, whose payload was checked with this result.
    #[inline(always)]
    #[tactic(none)]
    pub fn end_frame(&mut self, check: &PayloadCheck)
        ensures stage { IsStageAfter check.now self.new }
        ensures reported { refusal_at self.new ≡ None }
    {
        match check {
            PayloadCheck::Close(body) => *self = Stage::Closed(body.code()),
            PayloadCheck::Free | PayloadCheck::Text(_) => self.go_between(),
        }
    }

    /// Goes on between frames. The stage is written only if it is another.
    #[inline(always)]
    fn go_between(&mut self)
        ensures { self.new ≡ Stage.Between }
    {
        if !matches!(self, Stage::Between) {
            *self = Stage::Between;
        }
    }
}
