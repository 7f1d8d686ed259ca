//! Laws about this crate's answers. Each function does nothing: its contract is the law.

ghost use Rattle.std.specs.Prelude.{◌≡◌, ℕ, List, [], Result, Ok, false};
ghost use Rattle.wsn_wire.specs.declared.endpoint.Role.{Role};
ghost use Rattle.wsn_wire.specs.Frame.{Frame, stream};
ghost use Rattle.wsn_io.specs.Transfer.{Outgoing, IsWritten};
ghost use Rattle.wsn_rules.specs.Accepted.{IsAccepted};
ghost use Rattle.wsn_rules.specs.Group.{unfinished};
ghost use Rattle.wsn_rules.specs.Meaning.{MeantEvent, meaning};
ghost use Rattle.wsn_rules.specs.Plan.{IsPlan};
ghost use Rattle.wsn_rules.specs.declared.step.Step.{Step};
ghost use Rattle.wsn_rules.specs.declared.verdict.Verdict.{Verdict};
ghost use Rattle.wsn_rules.specs.Limits.{Limits, InRange};
ghost use Rattle.wsn_io.specs.declared.stop.Stop.{Stop};
ghost use Rattle.wsn_events.specs.Normalised.{IsNormalisedWhole};
ghost use Rattle.wsn_plan.specs.declared.planning.PlanAnswer.{PlanAnswer};
ghost use Rattle.wsn_plan.specs.declared.planning.PlanAnswer.TheVariants.{Plan};
ghost use Rattle.wsn_plan.specs.declared.recutting.RecutAnswer.{RecutAnswer};
ghost use Rattle.wsn_plan.specs.declared.recutting.RecutAnswer.TheVariants.{Done};
ghost use Rattle.wsn_io.specs.Stops.{HasNoFailure};
ghost use Rattle.wsn_plan.specs.Planning.{IsPlannedWhole, IsRestored};
ghost use Rattle.wsn_plan.specs.Recutting.{IsRecutWhole, Planner};

use std::alloc::Allocator;
pub use wsn_plan_text::laws::{law_one_line_fault, law_one_plan};

/// [`recut`](crate::recut) has one answer for an input whose bytes are known and writes one list of bytes, in whatever
/// chunks they come, unless a read, a write or an allocation fails. So has [`recut_uniform`](crate::recut_uniform).
pub fn law_one_recut()
    ensures { (role : Role) (limits : Limits) (planned : Planner) (all : List ℕ)
        (before after other_before other_after : Outgoing) (result other : Result RecutAnswer Stop) →
        before.failed ≡ false → other_before.failed ≡ false → HasNoFailure result → HasNoFailure other →
        IsRecutWhole role limits planned all before after result →
        IsRecutWhole role limits planned all other_before other_after other →
        (result ≡ other) × ((bytes : List ℕ) × IsWritten before after bytes
        × IsWritten other_before other_after bytes) }
{}

/// [`plan_of`](crate::plan_of) has one answer for an input whose bytes are known, in whatever chunks they come, unless
/// a read or an allocation fails.
pub fn law_one_plan_of<A: Allocator>()
    ensures { (role : Role) (limits : Limits) (all : List ℕ) (result other : Result (PlanAnswer A) Stop) →
        HasNoFailure result → HasNoFailure other → IsPlannedWhole role limits all result →
        IsPlannedWhole role limits all other → result ≡ other }
{}

/// A stream can be stored as its normal form and its plan. If [`plan_of`](crate::plan_of) returns a plan for an input
/// and [`normalise`](wsn_events::normalise) writes the input's meaning, then [`recut`](crate::recut) of these bytes by
/// that plan writes the input's own bytes: up to the end of its Close, or all of them without a Close. A normal form
/// can be longer than its input, and then its recut can meet the input limit.
pub fn law_restored<A: Allocator>()
    ensures { (role : Role) (limits : Limits) (all : List ℕ) (plan : List Step) (verdict : Verdict)
        (before after : Outgoing) →
        InRange limits → IsPlannedWhole {A = A} role limits all (Ok (Plan plan)) →
        IsNormalisedWhole role limits all before after (Ok verdict) →
        (normal : List ℕ) × IsWritten before after normal
        × ((recut_before recut_after : Outgoing) (answer : RecutAnswer) →
        IsRecutWhole role limits (λ _. plan) normal recut_before recut_after (Ok answer) →
        (answer ≡ Done) × IsRestored all verdict recut_before recut_after) }
{}

/// What [`recut`](crate::recut) writes means what its input does. With `Done`, and for an input whose bytes are known,
/// input and output are accepted and mean the same; the output has no tail and leaves no message unfinished. `IsPlan`
/// holds of any [`Plan`](crate::Plan), as the contract of its `steps` says, and of each plan that
/// [`recut_uniform`](crate::recut_uniform) uses.
pub fn law_same_meaning()
    ensures { (role : Role) (limits : Limits) (planned : Planner) (all : List ℕ) (before after : Outgoing) →
        InRange limits → ((events : List MeantEvent) → IsPlan (planned events)) →
        IsRecutWhole role limits planned all before after (Ok Done) →
        (fs gs : List Frame) × IsAccepted role limits all fs × IsWritten before after (stream gs)
        × IsAccepted role limits (stream gs) gs × (unfinished gs ≡ []) × (meaning gs ≡ meaning fs) }
{}
