//! Runs of frames that are whole in a chunk and each end an event, with the event's normal frame written in their place.
ghost use Rattle.std.specs.Prelude.{◌≡◌, ◌≢◌, ◌+◌, ◌<◌, ◌≤◌, ◌⊎◌, true, false, None, Ok, List, [], ◌∷◌, length, take, drop, IsTrue, IfSome, IfNone};
ghost use Rattle.wsn_wire.specs.Frame.{Frame, IsBytes, first_byte};
ghost use Rattle.wsn_frame.specs.declared.payload_check.PayloadCheck.{PayloadCheck};
ghost use Rattle.wsn_frame.specs.KeptMessages.{IsOpenMessage};
ghost use Rattle.wsn_frame.specs.PayloadChecks.{HasChecked, IsChecked};
ghost use Rattle.wsn_frame.specs.PartialHeads.{encoded_form};
ghost use Rattle.wsn_scan.specs.EventFrames.{IsEventFrame, TakesEvents, IsIdle, info_found, whole_part, with_key_cleared};
ghost use Rattle.wsn_scan.specs.Feeding.{ConsumesPrefix};
ghost use Rattle.wsn_scan.specs.Scans.{AdvancesFrom, HasNoRest, room_of, refusal_in};
ghost use Rattle.wsn_scan.specs.declared.part.Taken.{Taken};

use super::Scan;
use crate::stage::Stage;
use wsn_frame::{FrameContext, HEAD_MAX, Head, PayloadCheck, unmask, whole_head_after};
use wsn_rules::HeadInfo;
use wsn_wire::{FirstByte, Form, Op};

/// A final frame, which ends an event and encodes its length shortest.
#[derive(Clone, Copy)]
struct EventFrame {
    op: Op,
    /// The masking key, if the frame is masked.
    key: Option<[u8; 4]>,
    /// The number of the frame's bytes.
    size: usize,
    /// The number of the payload's bytes, the last of these.
    len: usize,
}

impl EventFrame {
    /// Its head, if its first byte is at this offset.
    #[inline(always)]
    fn info(&self, offset: u64) -> HeadInfo
        ensures { result ≡ info_found offset self.now }
    {
        HeadInfo {
            offset,
            fin: true,
            op: self.op,
            key: self.key,
            form: Form::Shortest,
            len: self.len as u64,
        }
    }
}

impl Scan {
    /// Consumes frames at the start of the chunk, up to the first that [`take_event`] leaves, and writes the normal
    /// form of their events in their place (RFC 6455 section 5.4). Returns the number of bytes. It does so if the scan
    /// is between frames and no message is open. With 0 nothing changes.
    #[inline(never)]
    #[tactic(none)]
    pub(crate) fn take_events(&mut self, chunk: &mut [u8]) -> usize
        requires { length chunk.old ≤ room_of self.old }
        ensures taken { 0 < result → IsIdle self.old × TakesEvents self.old self.new chunk.old chunk.new result }
        ensures within { result ≤ length chunk.old }
        ensures kept { drop result chunk.new ≡ drop result chunk.old }
        ensures room { room_of self.new + result ≡ room_of self.old }
        ensures reported { refusal_in self.old ≡ None → refusal_in self.new ≡ None }
        ensures none { result ≡ 0 → (self.new ≡ self.old) × (chunk.new ≡ chunk.old) }
    {
        if !self.is_idle() {
            return 0;
        }
        // The compiler knows of this copy that no message is open.
        let context = FrameContext {
            message: None,
            ..self.context
        };
        let mut counts = self.counts;
        let mut at = 0;
        while let Some(frame) = take_event(&context, &mut chunk[at..]) {
            counts = counts.with(true, frame.op);
            at += frame.size;
        }
        if at == 0 {
            return 0;
        }
        self.counts = counts;
        self.room -= at as u64;
        self.used = self.taken();
        at
    }

    /// Consumes the frame at the start of the chunk if [`take_event`] takes it, and returns its size and its head; its
    /// event's normal frame is in its place. It does so if the scan is between frames and no message is open. Otherwise it
    /// returns `None`, and nothing changes.
    #[inline(always)]
    pub fn next_event(&mut self, chunk: &mut [u8]) -> Option<(usize, HeadInfo)>
        requires { length chunk.old ≤ room_of self.old }
        ensures taken { IfSome result (λ found. IsBytes chunk.old →
            ConsumesPrefix self.old self.new chunk.old found.0 (found.1 ∷ [])) }
        ensures part { IfSome result (λ found. AdvancesFrom self.old.stage self.old self.new chunk.old chunk.new found.0
            Taken.Part (whole_part found.1 found.0)) }
        ensures first { IfSome result (λ found. (found.1.fin ≡ true)
            × (take 1 chunk.old ≡ first_byte true found.1.op ∷ [])) }
        ensures whole { IfSome result (λ found. (found.1.len ≤ found.0) × HasNoRest self.new) }
        ensures reported { IfSome result (λ _. refusal_in self.new ≡ None) }
        ensures within { IfSome result (λ found. (0 < found.0) × (found.0 ≤ length chunk.old)) }
        ensures kept { IfSome result (λ found. drop found.0 chunk.new ≡ drop found.0 chunk.old) }
        ensures room { IfSome result (λ found. room_of self.new + found.0 ≡ room_of self.old) }
        ensures none { IfNone result ((self.new ≡ self.old) × (chunk.new ≡ chunk.old)) }
    {
        if chunk.len() < HEAD_MAX {
            return None;
        }
        self.next_event_after(chunk[0], chunk)
    }

    /// Consumes a frame as [`Scan::next_event`] does; `byte` is the chunk's first.
    #[inline(always)]
    #[tactic(none)]
    pub fn next_event_after(&mut self, byte: u8, chunk: &mut [u8]) -> Option<(usize, HeadInfo)>
        requires fits { length chunk.old ≤ room_of self.old }
        requires first { take 1 chunk.old ≡ byte ∷ [] }
        ensures taken { IfSome result (λ found. IsBytes chunk.old →
            ConsumesPrefix self.old self.new chunk.old found.0 (found.1 ∷ [])) }
        ensures part { IfSome result (λ found. AdvancesFrom self.old.stage self.old self.new chunk.old chunk.new found.0
            Taken.Part (whole_part found.1 found.0)) }
        ensures first { IfSome result (λ found. (found.1.fin ≡ true)
            × (take 1 chunk.old ≡ first_byte true found.1.op ∷ [])) }
        ensures whole { IfSome result (λ found. (found.1.len ≤ found.0) × HasNoRest self.new) }
        ensures reported { IfSome result (λ _. refusal_in self.new ≡ None) }
        ensures within { IfSome result (λ found. (0 < found.0) × (found.0 ≤ length chunk.old)) }
        ensures kept { IfSome result (λ found. drop found.0 chunk.new ≡ drop found.0 chunk.old) }
        ensures room { IfSome result (λ found. room_of self.new + found.0 ≡ room_of self.old) }
        ensures none { IfNone result ((self.new ≡ self.old) × (chunk.new ≡ chunk.old)) }
    {
        if !self.is_idle() {
            return None;
        }
        // The compiler knows of this copy that no message is open.
        let context = FrameContext {
            message: None,
            ..self.context
        };
        let frame = take_event_after(byte, &context, chunk)?;
        let head = frame.info(self.used);
        self.counts = self.counts.with(true, frame.op);
        self.room -= frame.size as u64;
        self.used = self.taken();
        Some((frame.size, head))
    }

    /// Whether it is between frames, and no message is open.
    #[inline(always)]
    pub fn is_idle(&self) -> bool
        ensures { IsTrue result → IsIdle self.now }
    {
        matches!((&self.stage, &self.context.message), (Stage::Between, None))
    }
}

/// Writes the normal frame of an event in place of the frame that ends it, at the start of the chunk, and returns that
/// frame. It does so if no message is open, the chunk has the whole frame and at least 14 bytes, and the frame is valid,
/// final and no Close, and encodes its length shortest, in at most two length bytes. Otherwise it returns `None`, and
/// nothing changes.
#[inline(always)]
fn take_event(context: &FrameContext, chunk: &mut [u8]) -> Option<EventFrame>
    requires { context.now.message ≡ None }
    ensures taken { IfSome result (λ frame. IsBytes chunk.old →
        IsEventFrame context.now.role context.now.limits chunk.old chunk.new frame) }
    ensures first { IfSome result (λ frame. take 1 chunk.old ≡ first_byte true frame.op ∷ []) }
    ensures within { IfSome result (λ frame. (0 < frame.size) × (frame.size ≤ length chunk.old)
        × (frame.len ≤ frame.size)) }
    ensures kept { IfSome result (λ frame. drop frame.size chunk.new ≡ drop frame.size chunk.old) }
    ensures none { IfNone result (chunk.new ≡ chunk.old) }
{
    if chunk.len() < HEAD_MAX {
        return None;
    }
    take_event_after(chunk[0], context, chunk)
}

/// Takes an event as [`take_event`] does; `byte` is the chunk's first.
#[inline(always)]
#[tactic(none)]
fn take_event_after(byte: u8, context: &FrameContext, chunk: &mut [u8]) -> Option<EventFrame>
    requires none_open { context.now.message ≡ None }
    requires first { take 1 chunk.old ≡ byte ∷ [] }
    ensures taken { IfSome result (λ frame. IsBytes chunk.old →
        IsEventFrame context.now.role context.now.limits chunk.old chunk.new frame) }
    ensures first { IfSome result (λ frame. take 1 chunk.old ≡ first_byte true frame.op ∷ []) }
    ensures within { IfSome result (λ frame. (0 < frame.size) × (frame.size ≤ length chunk.old)
        × (frame.len ≤ frame.size)) }
    ensures kept { IfSome result (λ frame. drop frame.size chunk.new ≡ drop frame.size chunk.old) }
    ensures none { IfNone result (chunk.new ≡ chunk.old) }
{
    let (start, head) = whole_head_after(byte, chunk, context)?;
    if head.len == 0 {
        let frame = take_empty(&head, &mut chunk[..start])?;
        return Some(frame);
    }
    let room = (chunk.len() - start) as u64;
    if head.len > room || !is_plain(&head) {
        return None;
    }
    let end = start + head.len as usize;
    unmask(head.key, 0, &mut chunk[start..end]);
    if !is_valid(head.first, &chunk[start..end]) {
        unmask(head.key, 0, &mut chunk[start..end]);
        return None;
    }
    clear_key(head.key, &mut chunk[..start]);
    Some(EventFrame {
        op: head.first.op,
        key: head.key,
        size: end,
        len: head.len as usize,
    })
}

/// Whether a whole payload, unmasked, is valid in a final frame while no message is open (RFC 6455 section 8.1). Only a
/// text's is looked at.
#[inline(always)]
#[tactic(none)]
fn is_valid(first: FirstByte, payload: &[u8]) -> bool
    requires some { 0 < length payload.now }
    requires no_close { first.op ≢ Op.Close }
    ensures { result ≡ true → first.fin ≡ true → (group : List Frame) → IsOpenMessage None group
        → (first.op ≡ Op.Continue → group ≢ []) → ((first.op ≡ Op.Text) ⊎ (first.op ≡ Op.Binary) → group ≡ [])
        → (check : PayloadCheck) × (next : PayloadCheck) × HasChecked group (first_byte first.fin first.op) check []
        × IsChecked group (first_byte first.fin first.op) (length payload.now) [] payload.now (Ok next) }
{
    match first.op {
        Op::Text => PayloadCheck::new(first, None).take(payload, true, true),
        _ => true,
    }
}

/// Writes the normal frame of an event in place of the empty frame that ends it, all of whose bytes are this head, and
/// returns that frame. It does so if the frame is final and no Close, and encodes its length shortest. Otherwise it
/// returns `None`, and nothing changes.
#[inline(always)]
#[tactic(none)]
fn take_empty(head: &Head, bytes: &mut [u8]) -> Option<EventFrame>
    requires { IfSome head.now.key (λ _. 4 ≤ length bytes.old) }
    ensures taken { IfSome result (λ frame. frame ≡
        record { op = head.now.first.op; key = head.now.key; size = length bytes.old; len = 0 }) }
    ensures plain { IfSome result (λ _. (head.now.first.fin ≡ true) × (head.now.first.op ≢ Op.Close)
        × (encoded_form head.now.encoded head.now.len ≡ Form.Shortest)) }
    ensures cleared { IfSome result (λ _. bytes.new ≡ with_key_cleared head.now.key bytes.old) }
    ensures none { IfNone result (bytes.new ≡ bytes.old) }
{
    if !is_plain(head) {
        return None;
    }
    clear_key(head.key, bytes);
    Some(EventFrame {
        op: head.first.op,
        key: head.key,
        size: bytes.len(),
        len: 0,
    })
}

/// Whether the frame is final and no Close, and its length is in the shortest encoding (RFC 6455 section 5.2).
#[inline(always)]
#[tactic(none)]
fn is_plain(head: &Head) -> bool
    ensures { IsTrue result → (head.now.first.fin ≡ true) × (head.now.first.op ≢ Op.Close)
        × (encoded_form head.now.encoded head.now.len ≡ Form.Shortest) }
{
    head.first.fin && head.first.op != Op::Close && matches!(head.info(0).form, Form::Shortest)
}

/// Writes zeros over the key at the end of a head, if it has one.
#[inline(always)]
fn clear_key(key: Option<[u8; 4]>, head: &mut [u8])
    requires { IfSome key (λ _. 4 ≤ length head.old) }
    ensures { head.new ≡ with_key_cleared key head.old }
{
    let Some(_) = key else {
        return;
    };
    let at = head.len() - 4;
    head[at..].copy_from_slice(&[0; 4]);
}
