//! Laws about this crate's answers and definitions. Each function does nothing: its contract is the law.

ghost use Rattle.std.specs.Prelude.{◌≡◌, ◌≤◌, ℕ, true, Result, Ok, List, [], ◌∷◌, ◌++◌, length};
ghost use Rattle.wsn_io.specs.Stops.{HasNoFailure};
ghost use Rattle.wsn_io.specs.Transfer.{Outgoing, IsWritten};
ghost use Rattle.wsn_io.specs.declared.stop.Stop.{Stop};
ghost use Rattle.wsn_wire.specs.declared.endpoint.Role.{Role};
ghost use Rattle.wsn_wire.specs.Frame.{Frame, stream};
ghost use Rattle.wsn_rules.specs.declared.verdict.Verdict.{Verdict};
ghost use Rattle.wsn_rules.specs.Limits.{Limits};
ghost use Rattle.wsn_rules.specs.Meaning.{event_at, payload_in};
ghost use Rattle.wsn_rules.specs.ShownStream.{event_offset};
ghost use Rattle.wsn_rules.specs.Verdict.{IsVerdict};
ghost use Rattle.wsn_print.specs.declared.format.Format.{Format};
ghost use Rattle.wsn_parts.specs.Listing.{IsListedWholeAs};
ghost use Rattle.wsn_parts.specs.EventsAt.{IsWholeAt, IsUnfinishedAt, EndsBefore, IsInHeadAt, IsInsideAt};
ghost use Rattle.wsn_parts.specs.Payloads.{IsPayloadOfAll};
ghost use Rattle.wsn_parts.specs.declared.answer.EventStart.{EventStart};
ghost use Rattle.wsn_parts.specs.declared.answer.Payload.{Payload};
ghost use Rattle.wsn_parts.specs.declared.answer.Payload.TheVariants.{Whole};

/// [`list_as`](crate::list_as) has one answer for an input whose bytes are known and prints one text in each format, in
/// whatever chunks they come, unless a read or a write fails. So has [`list`](crate::list).
pub fn law_one_listing()
    ensures { (format : Format) (role : Role) (limits : Limits) (all : List ℕ)
        (before after other_before other_after : Outgoing) (result other : Result Verdict Stop) →
        HasNoFailure result → HasNoFailure other → IsListedWholeAs format role limits all before after result →
        IsListedWholeAs format role limits all other_before other_after other →
        (result ≡ other) × ((bytes : List ℕ) × IsWritten before after bytes
        × IsWritten other_before other_after bytes) }
{}

/// An event of a stream whose first frame begins at an offset is complete there, within the input limit, and what
/// [`payload`](crate::payload) writes of a complete event there is its payload and no other. It isn't unfinished, not
/// all frames end before it, and the offset is in no head and in no frame of another event.
pub fn law_payload_of_event()
    ensures some { (role : Role) (limits : Limits) (bytes : List ℕ) (fs before later : List Frame) (f : Frame)
        (verdict : Verdict) →
        IsVerdict role limits bytes fs verdict → fs ≡ before ++ f ∷ later → f.fin ≡ true →
        length (stream (before ++ f ∷ [])) ≤ limits.input →
        IsWholeAt role limits bytes (event_offset before f) (payload_in (event_at before f)) }
    ensures one { (role : Role) (limits : Limits) (bytes payload : List ℕ) (fs before later : List Frame) (f : Frame)
        (verdict : Verdict) →
        IsVerdict role limits bytes fs verdict → fs ≡ before ++ f ∷ later → f.fin ≡ true →
        IsWholeAt role limits bytes (event_offset before f) payload → payload ≡ payload_in (event_at before f) }
    ensures finished { (role : Role) (limits : Limits) (bytes payload : List ℕ) (fs before later : List Frame)
        (f : Frame) (verdict other : Verdict) →
        IsVerdict role limits bytes fs verdict → fs ≡ before ++ f ∷ later → f.fin ≡ true →
        IsUnfinishedAt role limits bytes other (event_offset before f) payload → ⊥ }
    ensures reached { (role : Role) (limits : Limits) (bytes : List ℕ) (fs before later : List Frame) (f : Frame)
        (verdict other : Verdict) →
        IsVerdict role limits bytes fs verdict → fs ≡ before ++ f ∷ later → f.fin ≡ true →
        EndsBefore role limits bytes other (event_offset before f) → ⊥ }
    ensures complete { (role : Role) (limits : Limits) (bytes : List ℕ) (fs before later : List Frame) (f : Frame)
        (verdict other : Verdict) (start : ℕ) →
        IsVerdict role limits bytes fs verdict → fs ≡ before ++ f ∷ later → f.fin ≡ true →
        IsInHeadAt role limits bytes other (event_offset before f) start → ⊥ }
    ensures own { (role : Role) (limits : Limits) (bytes : List ℕ) (fs before later : List Frame) (f : Frame)
        (verdict : Verdict) (start : EventStart) →
        IsVerdict role limits bytes fs verdict → fs ≡ before ++ f ∷ later → f.fin ≡ true →
        IsInsideAt role limits bytes (event_offset before f) start → ⊥ }
{}

/// [`payload`](crate::payload) answers [`Whole`](crate::Payload::Whole) for an event that ends within the input limit and
/// writes its payload, in whatever chunks the input comes, unless a read or a write fails.
pub fn law_whole_payload()
    ensures { (role : Role) (limits : Limits) (all : List ℕ) (fs before later : List Frame) (f : Frame)
        (verdict : Verdict) (first after : Outgoing) (result : Result Payload Stop) →
        IsVerdict role limits all fs verdict → fs ≡ before ++ f ∷ later → f.fin ≡ true →
        length (stream (before ++ f ∷ [])) ≤ limits.input → HasNoFailure result →
        IsPayloadOfAll role limits (event_offset before f) all first after result →
        (result ≡ Ok Whole) × IsWritten first after (payload_in (event_at before f)) }
{}

/// What [`payload`](crate::payload) answers for an input's bytes and an offset, and what it writes, is one thing, in whatever
/// chunks the input comes, unless a read or a write fails.
pub fn law_one_payload()
    ensures { (role : Role) (limits : Limits) (at : ℕ) (all : List ℕ)
        (before after other_before other_after : Outgoing) (result other : Result Payload Stop) →
        HasNoFailure result → HasNoFailure other → IsPayloadOfAll role limits at all before after result →
        IsPayloadOfAll role limits at all other_before other_after other →
        (result ≡ other)
        × ((payload : List ℕ) × IsWritten before after payload × IsWritten other_before other_after payload) }
{}
