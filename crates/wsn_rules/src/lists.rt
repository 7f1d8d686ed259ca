//! Laws of how lists of frames continue. The main laws and the crates above depend on them. The functions do nothing
//! when called; their contracts are proved.

ghost use Rattle.std.specs.Prelude.{◌≡◌, ◌≢◌, ℕ, ◌+◌, ◌≤◌, ◌⊎◌, ◌↔◌, true, false, List, [], ◌∷◌, ◌++◌, length, if◌then◌else◌};
ghost use Rattle.std.specs.Option.{ForSome};
ghost use Rattle.wsn_wire.specs.declared.endpoint.Role.{Role};
ghost use Rattle.wsn_wire.specs.Frame.{Frame, stream};
ghost use Rattle.wsn_text.specs.Utf8.{BeginsText};
ghost use Rattle.wsn_rules.specs.Limits.{Limits};
ghost use Rattle.wsn_rules.specs.Group.{is_data, unfinished, first_op, payload_of};
ghost use Rattle.wsn_rules.specs.Lawful.{LawAt, IsLawful, AreLawfulAfter};
ghost use Rattle.wsn_rules.specs.AfterClose.{HasNoClose, EndsWithClose};
ghost use Rattle.wsn_rules.specs.Meaning.{event_at, events_after, meaning};
ghost use Rattle.wsn_wire.specs.declared.opcode.Op.TheVariants.{Text, Binary, Close};

/// A prefix of a lawful list is lawful.
#[tactic(auto, using(crate::proofs::LawfulLists::lawful_front))]
pub fn law_prefix_is_lawful()
    ensures { (role : Role) (limits : Limits) (fs gs : List Frame) → IsLawful role limits (fs ++ gs) →
        IsLawful role limits fs }
{}

/// A lawful list without a Close stays lawful with one more frame exactly if that frame is lawful after it.
pub fn law_one_frame_more()
    ensures goes_on { (role : Role) (limits : Limits) (fs : List Frame) (f : Frame) →
        IsLawful role limits fs → HasNoClose fs → LawAt role limits fs f → IsLawful role limits (fs ++ f ∷ []) }
    ensures came_on { (role : Role) (limits : Limits) (fs : List Frame) (f : Frame) →
        IsLawful role limits (fs ++ f ∷ []) → IsLawful role limits fs × HasNoClose fs × LawAt role limits fs f }
{}

/// Whether frames are lawful after others is decided frame by frame, from the first.
pub fn law_frame_by_frame()
    ensures joined { (role : Role) (limits : Limits) (before fs : List Frame) →
        IsLawful role limits before → HasNoClose before → AreLawfulAfter role limits before fs →
        IsLawful role limits (before ++ fs) }
    ensures parted { (role : Role) (limits : Limits) (before fs : List Frame) →
        IsLawful role limits (before ++ fs) → AreLawfulAfter role limits before fs }
    ensures whole { (role : Role) (limits : Limits) (fs : List Frame) →
        IsLawful role limits fs ↔ AreLawfulAfter role limits [] fs }
{}

/// A lawful list has no Close, or ends with its only Close.
pub fn law_a_close_is_last()
    ensures last { (role : Role) (limits : Limits) (fs : List Frame) → IsLawful role limits fs → HasNoClose fs
        ⊎ EndsWithClose fs }
    ensures before { (role : Role) (limits : Limits) (fs : List Frame) (f : Frame) (gs : List Frame) →
        IsLawful role limits (fs ++ f ∷ gs) → HasNoClose fs }
{}

/// A list without a Close stays without one if a frame follows that isn't a Close. Its prefixes have no Close either.
pub fn law_no_close_goes_on()
    ensures none { HasNoClose [] }
    ensures one_more { (fs : List Frame) (f : Frame) → HasNoClose fs → (f.op ≡ Close → ⊥) → HasNoClose (fs ++ f ∷ []) }
    ensures prefix { (fs gs : List Frame) → HasNoClose (fs ++ gs) → HasNoClose fs }
{}

/// If an input begins with two lists of lawful frames, one list continues the other.
pub fn law_two_lists_under_one_input()
    ensures { (role : Role) (limits : Limits) (fs gs : List Frame) (r s : List ℕ) →
        IsLawful role limits fs → IsLawful role limits gs → stream fs ++ r ≡ stream gs ++ s →
        ((more : List Frame) × (gs ≡ fs ++ more) × (r ≡ stream more ++ s))
        ⊎ ((more : List Frame) × (fs ≡ gs ++ more) × (s ≡ stream more ++ r)) }
{}

/// Lawful lists of frames with the same bytes are the same.
pub fn law_bytes_determine_frames()
    ensures { (role : Role) (limits : Limits) (fs gs : List Frame) →
        IsLawful role limits fs → IsLawful role limits gs → stream fs ≡ stream gs → fs ≡ gs }
{}

/// The bytes of joined lists are the joined bytes.
pub fn law_stream_joins()
    ensures { (fs gs : List Frame) → stream (fs ++ gs) ≡ stream fs ++ stream gs }
{}

/// The meaning of a list that continues.
pub fn law_meaning_goes_on()
    ensures joined { (fs gs : List Frame) → meaning (fs ++ gs) ≡ meaning fs ++ events_after fs gs }
    ensures following { (before fs gs : List Frame) → events_after before (fs ++ gs) ≡ events_after before fs
        ++ events_after (before ++ fs) gs }
    ensures one_more { (fs : List Frame) (f : Frame) →
        meaning (fs ++ f ∷ []) ≡ meaning fs ++ (if f.fin then event_at fs f ∷ [] else []) }
{}

/// The unfinished frames after one more frame.
pub fn law_unfinished_goes_on()
    ensures control { (fs : List Frame) (f : Frame) → is_data f ≡ false → unfinished (fs ++ f ∷ []) ≡ unfinished fs }
    ensures ended { (fs : List Frame) (f : Frame) → is_data f ≡ true → f.fin ≡ true → unfinished (fs ++ f ∷ []) ≡ [] }
    ensures went_on { (fs : List Frame) (f : Frame) → is_data f ≡ true → f.fin ≡ false → unfinished (fs ++ f ∷ [])
        ≡ unfinished fs ++ f ∷ [] }
{}

/// The unfinished frames of a lawful list are within the limits and begin with Text or Binary; the payload of a text
/// message begins text.
pub fn law_unfinished_group()
    ensures size { (role : Role) (limits : Limits) (fs : List Frame) → IsLawful role limits fs →
        length (payload_of (unfinished fs)) ≤ limits.message }
    ensures count { (role : Role) (limits : Limits) (fs : List Frame) → IsLawful role limits fs →
        ForSome limits.frames (λ most. length (unfinished fs) ≤ most) }
    ensures begins { (role : Role) (limits : Limits) (fs : List Frame) → IsLawful role limits fs →
        first_op (unfinished fs) ≡ Text → BeginsText (payload_of (unfinished fs)) }
    ensures kind { (role : Role) (limits : Limits) (fs : List Frame) → IsLawful role limits fs →
        unfinished fs ≢ [] → (first_op (unfinished fs) ≡ Text) ⊎ (first_op (unfinished fs) ≡ Binary) }
{}
