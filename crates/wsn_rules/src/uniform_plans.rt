//! Laws of uniform plans: where they fit, how `weave` interleaves the controls, and which frames they are the plan of.
//! The functions do nothing when called; their contracts are proved.

ghost use Rattle.std.specs.Prelude.{◌≡◌, ℕ, ◌≤◌, ◌⊎◌, ◌↔◌, Bool, true, false, Option, None, IsSome, IfSome, List, [], ◌∷◌, ◌++◌};
ghost use Rattle.wsn_wire.specs.declared.endpoint.Role.{Role};
ghost use Rattle.wsn_wire.specs.Frame.{Frame, IsKey};
ghost use Rattle.wsn_rules.specs.declared.why.Why.{Why};
ghost use Rattle.wsn_rules.specs.Limits.{Limits, InRange};
ghost use Rattle.wsn_rules.specs.Group.{unfinished};
ghost use Rattle.wsn_rules.specs.Lawful.{IsLawful};
ghost use Rattle.wsn_rules.specs.Meaning.{MeantEvent, meaning};
ghost use Rattle.wsn_rules.specs.declared.step.Step.{Step};
ghost use Rattle.wsn_rules.specs.Plan.{IsPlan, pending};
ghost use Rattle.wsn_rules.specs.Fitting.{Fits};
ghost use Rattle.wsn_rules.specs.Fault.{IsFault};
ghost use Rattle.wsn_rules.specs.Recut.{plan_of};
ghost use Rattle.wsn_rules.specs.UniformPlan.{uniform_plan};
ghost use Rattle.wsn_rules.specs.InterleavedPlan.{IsInterleaved};
ghost use Rattle.wsn_rules.specs.UniformFrames.{AreUniform};
ghost use Rattle.wsn_wire.specs.declared.endpoint.Role.TheVariants.{Client};
ghost use Rattle.wsn_rules.specs.declared.step.Step.TheVariants.{Control};
ghost use Rattle.wsn_rules.specs.declared.why.Why.TheVariants.{TooManyPieces};

/// A uniform plan with a key for a client, or without one for a server, fits any events if messages may have any number
/// of frames. If the limits bound that number, it fits, or its only fault is that a message has too many Pieces.
pub fn law_uniform_plan_fits()
    ensures plan { (size : ℕ) (weave : Bool) (key : Option (List ℕ)) → IfSome key IsKey → (events : List MeantEvent) →
        IsPlan (uniform_plan size weave key events) }
    ensures unbounded { (role : Role) (limits : Limits) (size : ℕ) (weave : Bool) (key : Option (List ℕ))
        (events : List MeantEvent) →
        limits.frames ≡ None → IsSome key ↔ (role ≡ Client) →
        Fits role limits (uniform_plan size weave key events) events }
    ensures bounded { (role : Role) (limits : Limits) (size : ℕ) (weave : Bool) (key : Option (List ℕ))
        (events : List MeantEvent) →
        InRange limits → IsSome key ↔ (role ≡ Client) →
        Fits role limits (uniform_plan size weave key events) events
        ⊎ ((step : ℕ) × IsFault role limits (uniform_plan size weave key events) events step TooManyPieces) }
    ensures only_fault { (role : Role) (limits : Limits) (size : ℕ) (weave : Bool) (key : Option (List ℕ))
        (events : List MeantEvent) →
        IsSome key ↔ (role ≡ Client) → (step : ℕ) (why : Why) →
        IsFault role limits (uniform_plan size weave key events) events step why → why ≡ TooManyPieces }
{}

/// Without `weave`, every control of a uniform plan is between messages. With it, the plan is the same plan
/// interleaved: its ends and the steps of messages keep their order, and of the Pieces of the message around a control
/// exactly the first comes before it. A plan has at most one such interleaving.
pub fn law_weave()
    ensures plain { (size : ℕ) (key : Option (List ℕ)) (events : List MeantEvent) (before after : List Step)
        (own : Option (List ℕ)) → uniform_plan size false key events ≡ before ++ Control own ∷ after →
        pending before ≡ [] }
    ensures interleaved { (size : ℕ) (key : Option (List ℕ)) (events : List MeantEvent) →
        IsInterleaved (uniform_plan size false key events) (uniform_plan size true key events) }
    ensures only_this { (plan one other : List Step) → IsInterleaved plan one → IsInterleaved plan other → one ≡ other }
{}

/// The plan of frames is the uniform plan of their meaning exactly if the frames are uniform.
pub fn law_plan_of_uniform_frames()
    ensures answers { (size : ℕ) (key : Option (List ℕ)) (role : Role) (limits : Limits) (fs : List Frame) → 1 ≤ size →
        IsLawful role limits fs → unfinished fs ≡ [] → AreUniform size key fs →
        uniform_plan size false key (meaning fs) ≡ plan_of fs }
    ensures only_these { (size : ℕ) (key : Option (List ℕ)) (role : Role) (limits : Limits) (fs : List Frame) →
        1 ≤ size →
        IsLawful role limits fs → uniform_plan size false key (meaning fs) ≡ plan_of fs → AreUniform size key fs }
{}
