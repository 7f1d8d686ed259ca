//! Laws of the definitions in `specs/`. The functions do nothing when called; their contracts are proved.

ghost use Rattle.std.specs.Prelude.{◌≡◌, ◌≢◌, ℕ, ◌+◌, ◌↔◌, List, [], ◌∷◌, ◌++◌, take, map};
ghost use Rattle.wsn_wire.specs.declared.endpoint.Role.{Role};
ghost use Rattle.wsn_wire.specs.declared.refusal.Reason.{Reason};
ghost use Rattle.wsn_wire.specs.Frame.{Frame, IsBytes, frame_bytes, stream};
ghost use Rattle.wsn_wire.specs.ReceivedHead.{HasLayout};
ghost use Rattle.wsn_rules.specs.Limits.{Limits, InRange};
ghost use Rattle.wsn_rules.specs.Group.{unfinished};
ghost use Rattle.wsn_rules.specs.Lawful.{LawAt, IsLawful};
ghost use Rattle.wsn_rules.specs.Accepted.{IsAccepted};
ghost use Rattle.wsn_rules.specs.Meaning.{events_after, meaning, MeantEvent};
ghost use Rattle.wsn_rules.specs.Verdict.{IsEvidentAt, IsRefused, IsVerdict};
ghost use Rattle.wsn_rules.specs.declared.verdict.Verdict.{Verdict};
ghost use Rattle.wsn_rules.specs.LawfulEvents.{AreLawful};
ghost use Rattle.wsn_rules.specs.NormalForm.{normal_frame, normal_form};
ghost use Rattle.wsn_rules.specs.declared.step.Step.{Step};
ghost use Rattle.wsn_rules.specs.Plan.{IsPlan};
ghost use Rattle.wsn_rules.specs.Fitting.{Fits};
ghost use Rattle.wsn_rules.specs.Encodings.{Encode, AreRecut};
ghost use Rattle.wsn_rules.specs.Recut.{recut, recut_bytes, plan_of, normal_plan};
ghost use Rattle.wsn_rules.specs.TextLines.{AreLines, lines_of};
ghost use Rattle.wsn_rules.specs.declared.verdict.Verdict.TheVariants.{Refused};

/// Every input has exactly one verdict (accepted, cut or refused), with exactly one list of frames. So a refused input
/// has one offset and one reason, and an accepted input has one meaning.
pub fn law_unique()
    ensures some { (role : Role) (limits : Limits) (bytes : List ℕ) → InRange limits → IsBytes bytes →
        (fs : List Frame) × (verdict : Verdict) × IsVerdict role limits bytes fs verdict }
    ensures one { (role : Role) (limits : Limits) (bytes : List ℕ) (fs gs : List Frame) (verdict other : Verdict) →
        IsVerdict role limits bytes fs verdict → IsVerdict role limits bytes gs other → (fs ≡ gs) × (verdict ≡ other) }
    ensures meaning { (role : Role) (limits : Limits) (bytes : List ℕ) (fs gs : List Frame) →
        IsAccepted role limits bytes fs → IsAccepted role limits bytes gs → meaning fs ≡ meaning gs }
{}

/// A refused input stays refused at the same offset for the same reason, whatever follows; so is every input with the
/// same bytes up to that offset. No input that begins with those bytes has another verdict.
pub fn law_stays_refused()
    ensures longer { (role : Role) (limits : Limits) (bytes more : List ℕ) (fs : List Frame) (offset : ℕ)
        (reason : Reason) →
        IsRefused role limits bytes fs offset reason → IsRefused role limits (bytes ++ more) fs offset reason }
    ensures alike { (role : Role) (limits : Limits) (bytes other : List ℕ) (fs : List Frame) (offset : ℕ)
        (reason : Reason) →
        IsRefused role limits bytes fs offset reason → take (offset + 1) other ≡ take (offset + 1) bytes →
        IsRefused role limits other fs offset reason }
    ensures nothing_else { (role : Role) (limits : Limits) (bytes more : List ℕ) (fs gs : List Frame) (offset : ℕ)
        (reason : Reason) (verdict : Verdict) →
        IsRefused role limits bytes fs offset reason →
        IsVerdict role limits (take (offset + 1) bytes ++ more) gs verdict →
        (gs ≡ fs) × (verdict ≡ Refused (record { offset = offset; reason = reason })) }
{}

/// The frames of a longer input continue those of a prefix, and so does their meaning. Lawful frames that an input
/// begins with are the first ones of its verdict.
pub fn law_longer_input()
    ensures verdicts { (role : Role) (limits : Limits) (bytes more : List ℕ) (fs gs : List Frame)
        (verdict longer : Verdict) →
        IsVerdict role limits bytes fs verdict → IsVerdict role limits (bytes ++ more) gs longer →
        (extra : List Frame) × (gs ≡ fs ++ extra) × (meaning gs ≡ meaning fs ++ events_after fs extra) }
    ensures lawful_front { (role : Role) (limits : Limits) (bytes rest : List ℕ) (fs gs : List Frame)
        (verdict : Verdict) →
        IsLawful role limits fs → bytes ≡ stream fs ++ rest → IsVerdict role limits bytes gs verdict →
        (extra : List Frame) × (gs ≡ fs ++ extra) }
{}

/// The table of refusals is complete: bytes with the layout of a frame that are evidence for no refusal after lawful
/// frames are the bytes of a frame that is lawful there. It is sound: a frame that is lawful there is evidence for no
/// refusal.
pub fn law_the_table_is_whole()
    ensures whole { (role : Role) (limits : Limits) (fs : List Frame) (bytes : List ℕ) →
        InRange limits → IsLawful role limits fs → HasLayout bytes →
        ((offset : ℕ) (reason : Reason) → ¬ (IsEvidentAt role limits (stream fs ++ bytes) fs offset reason)) →
        (f : Frame) × LawAt role limits fs f × (frame_bytes f ≡ bytes) }
    ensures sound { (role : Role) (limits : Limits) (fs gs : List Frame) (f : Frame) (following : List ℕ) (offset : ℕ)
        (reason : Reason) →
        IsLawful role limits (fs ++ f ∷ gs) →
        ¬ (IsEvidentAt role limits (stream fs ++ (frame_bytes f ++ following)) fs offset reason) }
{}

/// The frames of a verdict are lawful, and the input begins with their bytes.
pub fn law_frames_of_a_verdict()
    ensures lawful { (role : Role) (limits : Limits) (bytes : List ℕ) (fs : List Frame) (verdict : Verdict) →
        IsVerdict role limits bytes fs verdict → IsLawful role limits fs }
    ensures prefix { (role : Role) (limits : Limits) (bytes : List ℕ) (fs : List Frame) (verdict : Verdict) →
        IsVerdict role limits bytes fs verdict → (rest : List ℕ) × (bytes ≡ stream fs ++ rest) }
{}

/// The bytes of lawful frames that leave no message open are accepted, without a tail.
pub fn law_finished_is_accepted()
    ensures { (role : Role) (limits : Limits) (fs : List Frame) →
        IsLawful role limits fs → unfinished fs ≡ [] → IsAccepted role limits (stream fs) fs }
{}

/// The meaning of lawful frames is lawful, within the limit on messages.
pub fn law_meaning_is_lawful()
    ensures { (role : Role) (limits : Limits) (fs : List Frame) →
        IsLawful role limits fs → InRange limits → AreLawful limits.message (meaning fs) }
{}

/// Lawful events of one role have the same normal form exactly if they are the same. So two accepted inputs have the
/// same normal form exactly if they mean the same.
pub fn law_canon()
    ensures events { (role : Role) (most : ℕ) (events others : List MeantEvent) →
        AreLawful most events → AreLawful most others →
        (normal_form role events ≡ normal_form role others) ↔ (events ≡ others) }
    ensures inputs { (role : Role) (limits : Limits) (bytes others : List ℕ) (fs gs : List Frame) →
        InRange limits → IsAccepted role limits bytes fs → IsAccepted role limits others gs →
        (normal_form role (meaning fs) ≡ normal_form role (meaning gs)) ↔ (meaning fs ≡ meaning gs) }
{}

/// The normal form of an accepted input is accepted under the same limits, means the same, and is its own normal form.
/// The normal frames of lawful events are lawful, leave no message unfinished, and mean the events.
pub fn law_once()
    ensures accepted { (role : Role) (limits : Limits) (bytes : List ℕ) (fs : List Frame) → InRange limits →
        IsAccepted role limits bytes fs →
        (gs : List Frame) × IsAccepted role limits (normal_form role (meaning fs)) gs
        × (normal_form role (meaning fs) ≡ stream gs)
        × (unfinished gs ≡ []) × (meaning gs ≡ meaning fs) }
    ensures itself { (role : Role) (limits : Limits) (bytes : List ℕ) (fs gs : List Frame) → InRange limits →
        IsAccepted role limits bytes fs →
        IsAccepted role limits (normal_form role (meaning fs)) gs → normal_form role (meaning gs)
        ≡ normal_form role (meaning fs) }
    ensures of_events { (role : Role) (limits : Limits) (events : List MeantEvent) → InRange limits →
        AreLawful limits.message events →
        IsLawful role limits (map (normal_frame role) events) × (unfinished (map (normal_frame role) events) ≡ [])
        × (meaning (map (normal_frame role) events) ≡ events) }
{}

/// Every recut within the limits means the same. The recut of lawful events by a plan that fits them is lawful, leaves
/// no message unfinished and means the events; its bytes are accepted, without a tail. So is the recut of an accepted
/// input's meaning.
pub fn law_recut()
    ensures events { (role : Role) (limits : Limits) (plan : List Step) (events : List MeantEvent) →
        AreLawful limits.message events → IsPlan plan → Fits role limits plan events →
        IsLawful role limits (recut plan events) × (unfinished (recut plan events) ≡ [])
        × (meaning (recut plan events) ≡ events)
        × IsAccepted role limits (recut_bytes plan events) (recut plan events) }
    ensures inputs { (role : Role) (limits : Limits) (bytes : List ℕ) (fs : List Frame) (plan : List Step) →
        InRange limits → IsAccepted role limits bytes fs → IsPlan plan → Fits role limits plan (meaning fs) →
        IsAccepted role limits (recut_bytes plan (meaning fs)) (recut plan (meaning fs))
        × (meaning (recut plan (meaning fs)) ≡ meaning fs) }
{}

/// The normal form is a recut: by the plan with one step for each event and with the normal form's key. That plan fits
/// any events.
pub fn law_normal_form_is_a_recut()
    ensures fits { (role : Role) (limits : Limits) (events : List MeantEvent) → InRange limits →
        IsPlan (normal_plan role events) × Fits role limits (normal_plan role events) events }
    ensures frames { (role : Role) (events : List MeantEvent) →
        recut (normal_plan role events) events ≡ map (normal_frame role) events }
    ensures bytes { (role : Role) (events : List MeantEvent) →
        recut_bytes (normal_plan role events) events ≡ normal_form role events }
{}

/// The plan of lawful frames that leave no message unfinished fits their meaning, and the recut of that meaning by the
/// plan is just these frames. Different plans that fit give different bytes. So the inputs that encode events are
/// exactly their recuts.
pub fn law_restore()
    ensures fits { (role : Role) (limits : Limits) (fs : List Frame) → IsLawful role limits fs → unfinished fs ≡ [] →
        IsPlan (plan_of fs) × Fits role limits (plan_of fs) (meaning fs) }
    ensures restores { (role : Role) (limits : Limits) (fs : List Frame) → IsLawful role limits fs →
        unfinished fs ≡ [] → recut (plan_of fs) (meaning fs) ≡ fs }
    ensures own_plan { (role : Role) (limits : Limits) (events : List MeantEvent) (plan : List Step) →
        AreLawful limits.message events → Fits role limits plan events → plan_of (recut plan events) ≡ plan }
    ensures differ { (role : Role) (limits : Limits) (events : List MeantEvent) (plan other : List Step) →
        AreLawful limits.message events → IsPlan plan → IsPlan other → Fits role limits plan events →
        Fits role limits other events → plan ≢ other → recut_bytes plan events ≢ recut_bytes other events }
    ensures encodings { (role : Role) (limits : Limits) (events : List MeantEvent) (bytes : List ℕ) →
        AreLawful limits.message events → Encode role limits events bytes ↔ AreRecut role limits events bytes }
{}

/// A text has exactly one list of lines.
pub fn law_one_list_of_lines()
    ensures some { (text : List ℕ) → (lines : List (List ℕ)) × AreLines text lines }
    ensures one { (text : List ℕ) (lines others : List (List ℕ)) →
        AreLines text lines → AreLines text others → lines ≡ others }
    ensures function { (text : List ℕ) → AreLines text (lines_of text) }
{}
