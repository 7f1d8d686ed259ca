ghost use Rattle.std.specs.Prelude.{◌≡◌, ℕ, ◌+◌, ◌<◌, ◌≤◌, ◌^◌, ◌↔◌, IsTrue, Option, List, MatchOption, IsSome, None, Some, length, map, drop};
ghost use Rattle.wsn_wire.specs.declared.endpoint.Role.TheVariants.{Client};
ghost use Rattle.wsn_rules.specs.declared.why.Why.{Why};
ghost use Rattle.wsn_rules.specs.declared.step.Step.TheVariants.{Piece, Last, Control};
ghost use Rattle.wsn_rules.specs.Plan.{next_text};
ghost use Rattle.wsn_rules.specs.Fitting.{IsAllowedForm};
ghost use Rattle.wsn_rules.specs.Fault.{Holds};
ghost use Rattle.wsn_plan.specs.Gathering.{kept_meant};
ghost use Rattle.wsn_plan.specs.Walking.{from_message, IsPlaced, IsAgainst, IsFirstAgainst, IsApplicable, HasAdvancedBy, IsControl, IsMessageOf, held_after};

use crate::kept::Kept;
use std::alloc::Allocator;
use wsn_rules::{Step, Why};
use wsn_scan::Limits;
use wsn_wire::{Form, Lengths, Role};

/// What a step says of its frame: the masking key, and how the length is encoded.
#[derive(Clone, Copy)]
pub(crate) struct FrameForm {
    /// The key; `None` if the frame isn't masked.
    pub key: Option<[u8; 4]>,
    /// The form of its length.
    pub form: Form,
}

/// How far a plan has been followed over events: the state after its steps so far.
#[derive(Clone, Copy)]
pub(crate) struct Walk {
    /// How many Pieces of the next message there were.
    pub pieces: u64,
    /// How many bytes of the next message they hold.
    pub held: u64,
    /// The index of the first event that hasn't ended.
    pub event: usize,
    /// The index of the first message that hasn't ended; the number of events if there is none.
    pub message: usize,
}

impl Walk {
    /// Before the first step.
    pub fn start<A: Allocator>(events: &[Kept<A>]) -> Walk
        ensures start { (result.pieces ≡ 0) × (result.held ≡ 0) × (result.event ≡ 0) }
        ensures placed { IsPlaced result (map kept_meant events.now) }
    {
        Walk {
            pieces: 0,
            held: 0,
            event: 0,
            message: next_message(events, 0),
        }
    }

    /// The first reason against the next step of a plan, if there is one.
    #[tactic(none)]
    pub fn reason_against<A: Allocator>(
        &self,
        role: Role,
        limits: Limits,
        events: &[Kept<A>],
        step: &Step,
    ) -> Option<Why>
        requires placed { IsPlaced self.now (map kept_meant events.now) }
        requires few { self.now.pieces + 1 < 2 ^ 64 }
        ensures { IsFirstAgainst (IsAgainst role limits self.now (map kept_meant events.now) step.now) result }
    {
        match step {
            Step::Piece { len, key, form } => {
                let frame = FrameForm {
                    key: *key,
                    form: *form,
                };
                self.against_piece(role, limits, events, *len, frame)
            }
            Step::Last { key, form } => {
                let frame = FrameForm {
                    key: *key,
                    form: *form,
                };
                self.against_last(role, limits, events, frame)
            }
            Step::Control { key } => self.against_control(role, events, *key),
        }
    }

    /// A Piece must have a key exactly for a client, belong to a message, hold at most what is left of it, leave a
    /// frame for its Last, and have a length that may be encoded in its form.
    fn against_piece<A: Allocator>(
        &self,
        role: Role,
        limits: Limits,
        events: &[Kept<A>],
        len: u64,
        frame: FrameForm,
    ) -> Option<Why>
        requires placed { IsPlaced self.now (map kept_meant events.now) }
        requires few { self.now.pieces + 1 < 2 ^ 64 }
        ensures { IsFirstAgainst
            (IsAgainst role limits self.now (map kept_meant events.now) (Piece len frame.key frame.form)) result }
    {
        if !has_key_of(role, frame.key) {
            return Some(Why::KeyMismatch);
        }
        if self.event == events.len() {
            return Some(Why::StepsLeft);
        }
        let Some(text_len) = text_len(events, self.message) else {
            return Some(Why::NoMessage);
        };
        if is_too_long(self.held, len, text_len) {
            return Some(Why::PieceTooLong);
        }
        if is_one_too_many(limits, self.pieces) {
            return Some(Why::TooManyPieces);
        }
        if !is_allowed_form(limits.lengths(), frame.form, len) {
            return Some(Why::WrongForm);
        }
        None
    }

    /// A Last must have a key exactly for a client, end a message that is the next event, and have a length that may be
    /// encoded in its form.
    #[tactic(none)]
    fn against_last<A: Allocator>(
        &self,
        role: Role,
        limits: Limits,
        events: &[Kept<A>],
        frame: FrameForm,
    ) -> Option<Why>
        requires { IsPlaced self.now (map kept_meant events.now) }
        ensures { IsFirstAgainst (IsAgainst role limits self.now (map kept_meant events.now) (Last frame.key frame.form))
            result }
    {
        if !has_key_of(role, frame.key) {
            return Some(Why::KeyMismatch);
        }
        if self.event == events.len() {
            return Some(Why::StepsLeft);
        }
        let Some(text_len) = text_len(events, self.message) else {
            return Some(Why::NoMessage);
        };
        if self.message != self.event {
            return Some(Why::NotAMessage);
        }
        if !is_allowed_form(
            limits.lengths(),
            frame.form,
            text_len.saturating_sub(self.held),
        ) {
            return Some(Why::WrongForm);
        }
        None
    }

    /// A Control must have a key exactly for a client, and be for a control that is the next event.
    fn against_control<A: Allocator>(
        &self,
        role: Role,
        events: &[Kept<A>],
        key: Option<[u8; 4]>,
    ) -> Option<Why>
        requires { IsPlaced self.now (map kept_meant events.now) }
        ensures { (limits : _) →
            IsFirstAgainst (IsAgainst role limits self.now (map kept_meant events.now) (Control key)) result }
    {
        if !has_key_of(role, key) {
            return Some(Why::KeyMismatch);
        }
        if self.event == events.len() {
            return Some(Why::StepsLeft);
        }
        if self.message == self.event {
            return Some(Why::NotAControl);
        }
        None
    }

    /// Follows a step that may come here.
    pub fn take<A: Allocator>(&mut self, events: &[Kept<A>], step: &Step)
        requires placed { IsPlaced self.old (map kept_meant events.now) }
        requires may { IsApplicable self.old (map kept_meant events.now) step.now }
        requires few { self.old.pieces + 1 < 2 ^ 64 }
        requires small { held_after self.old.held step.now < 2 ^ 64 }
        ensures taken { HasAdvancedBy self.old self.new step.now }
        ensures placed { IsPlaced self.new (map kept_meant events.now) }
    {
        match step {
            Step::Piece { len, .. } => {
                self.pieces += 1;
                self.held += *len;
            }
            Step::Last { .. } => {
                self.pieces = 0;
                self.held = 0;
                self.event += 1;
                self.message = next_message(events, self.event);
            }
            Step::Control { .. } => self.event += 1,
        }
    }
}

/// The index of the first message from this index on; the number of events if there is none.
fn next_message<A: Allocator>(events: &[Kept<A>], from: usize) -> usize
    requires { from ≤ length events.now }
    ensures within { result ≤ length events.now }
    ensures message { drop result (map kept_meant events.now) ≡ from_message (drop from (map kept_meant events.now)) }
{
    let mut at = from;
    while at < events.len() {
        if message_len(&events[at]).is_some() {
            return at;
        }
        at += 1;
    }
    at
}

/// How many bytes the message at this index has; `None` if there is no message.
fn text_len<A: Allocator>(events: &[Kept<A>], at: usize) -> Option<u64>
    requires { drop at (map kept_meant events.now) ≡ from_message (drop at (map kept_meant events.now)) }
    ensures { MatchOption result (next_text (drop at (map kept_meant events.now)) ≡ None)
        (λ len. (text : List ℕ) × (next_text (drop at (map kept_meant events.now)) ≡ Some text) × (len ≡ length text)) }
{
    if at < events.len() {
        message_len(&events[at])
    } else {
        None
    }
}

/// How many bytes a message has; `None` for a control.
pub(crate) fn message_len<A: Allocator>(event: &Kept<A>) -> Option<u64>
    ensures { MatchOption result (IsControl (kept_meant event.now)) (IsMessageOf (kept_meant event.now)) }
{
    match event {
        Kept::Message(_, text) => Some(text.len() as u64),
        _ => None,
    }
}

/// Whether a Piece is longer than what the Pieces before it leave of a message.
fn is_too_long(held: u64, len: u64, text_len: u64) -> bool
    ensures { IsTrue result ↔ (text_len < held + len) }
{
    match held.checked_add(len) {
        Some(sum) => text_len < sum,
        None => true,
    }
}

/// Whether a frame has a key as its endpoint must send it: a client's has one, a server's none (RFC 6455 section 5.1).
fn has_key_of(role: Role, key: Option<[u8; 4]>) -> bool
    ensures { IsTrue result ↔ (IsSome key ↔ (role ≡ Client)) }
{
    match role {
        Role::Client => key.is_some(),
        Role::Server => key.is_none(),
    }
}

/// Whether this many Pieces leave no frame for one more and the message's last.
#[tactic(none)]
fn is_one_too_many(limits: Limits, pieces: u64) -> bool
    requires { pieces + 1 < 2 ^ 64 }
    ensures { IsTrue result ↔ ((most : ℕ) × (limits.frames ≡ Some most) × (most ≤ pieces + 1)) }
{
    match limits.frames() {
        Some(most) => u64::from(most) <= pieces + 1,
        None => false,
    }
}

/// Whether a length may be encoded in this form (RFC 6455 section 5.2).
fn is_allowed_form(lengths: Lengths, form: Form, len: u64) -> bool
    ensures { IsTrue result ↔ IsAllowedForm lengths form len }
{
    match form {
        Form::Shortest => true,
        Form::Two | Form::Eight => lengths == Lengths::Any && form.fits(len),
    }
}
