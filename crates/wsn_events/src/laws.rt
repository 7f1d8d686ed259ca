//! Laws about this crate's answers and definitions. Each function does nothing: its contract is the law.

ghost use Rattle.std.specs.Prelude.{◌≡◌, ◌≢◌, ℕ, List, ◌≤◌, Result, Ok, length, false};
ghost use Rattle.wsn_rules.specs.declared.without.Without.{Without};
ghost use Rattle.wsn_rules.specs.declared.compared.Compared.TheVariants.{Equal};
ghost use Rattle.wsn_rules.specs.LeftOut.{events_without};
ghost use Rattle.wsn_wire.specs.declared.endpoint.Role.{Role};
ghost use Rattle.wsn_rules.specs.Limits.{Limits, InRange};
ghost use Rattle.wsn_rules.specs.Meaning.{MeantEvent};
ghost use Rattle.wsn_rules.specs.declared.compared.Compared.{Compared};
ghost use Rattle.wsn_rules.specs.SameMeaning.{DifferAt, IsComparisonOf, IsComparisonOfBy};
ghost use Rattle.wsn_io.specs.Transfer.{Outgoing, IsWritten};
ghost use Rattle.wsn_rules.specs.declared.verdict.Summary.{Summary};
ghost use Rattle.wsn_rules.specs.declared.verdict.Verdict.{Verdict};
ghost use Rattle.wsn_rules.specs.declared.verdict.Verdict.TheVariants.{Accepted};
ghost use Rattle.wsn_io.specs.declared.stop.Stop.{Stop};
ghost use Rattle.wsn_events.specs.Normalised.{IsNormalisedWhole};
ghost use Rattle.wsn_io.specs.Stops.{HasNoFailure};

pub use wsn_rules::laws::{
    law_canon, law_meaning_is_lawful, law_once, law_stays_refused, law_unique,
};

/// Two lists of events differ first at one index at most. If they do, they aren't equal.
pub fn law_one_difference()
    ensures one { (k j : ℕ) (events others : List MeantEvent) → DifferAt k events others → DifferAt j events others → k
        ≡ j }
    ensures unequal { (k : ℕ) (events others : List MeantEvent) → DifferAt k events others → events ≢ others }
{}

/// Two lists of bytes have at most one answer: equal, different at one index, or one of them not accepted.
pub fn law_one_comparison()
    ensures { (role : Role) (limits : Limits) (bytes others : List ℕ) (answer other : Compared) →
        IsComparisonOf role limits bytes others answer → IsComparisonOf role limits bytes others other → answer ≡ other }
{}

/// Without controls of some kinds two lists of bytes have at most one answer too. If they mean the same, they do so
/// without these as well; if no kind is left out, the answer is that of the whole meanings.
pub fn law_comparison_without()
    ensures one { (without : Without) (role : Role) (limits : Limits) (bytes others : List ℕ) (answer other : Compared) →
        IsComparisonOfBy (events_without without) role limits bytes others answer →
        IsComparisonOfBy (events_without without) role limits bytes others other → answer ≡ other }
    ensures equal { (without : Without) (role : Role) (limits : Limits) (bytes others : List ℕ) →
        IsComparisonOf role limits bytes others Equal →
        IsComparisonOfBy (events_without without) role limits bytes others Equal }
    ensures nothing { (role : Role) (limits : Limits) (bytes others : List ℕ) (answer : Compared) →
        IsComparisonOfBy (events_without (record { ping = false; pong = false; close = false })) role limits bytes others
        answer → IsComparisonOf role limits bytes others answer }
{}

/// [`normalise`](crate::normalise) has one answer for an input whose bytes are known and writes one list of bytes, in
/// whatever chunks they come, unless a read, a write or an allocation fails.
pub fn law_one_normal_form()
    ensures { (role : Role) (limits : Limits) (all : List ℕ) (before after other_before other_after : Outgoing)
        (result other : Result Verdict Stop) →
        HasNoFailure result → HasNoFailure other → IsNormalisedWhole role limits all before after result →
        IsNormalisedWhole role limits all other_before other_after other →
        (result ≡ other) × ((bytes : List ℕ) × IsWritten before after bytes
        × IsWritten other_before other_after bytes) }
{}

/// Normalising twice is the same as normalising once. What [`normalise`](crate::normalise) writes for an accepted input
/// it accepts and writes again, if that is within the input limit and no read, write or allocation fails.
pub fn law_normalising_twice()
    ensures { (role : Role) (limits : Limits) (all : List ℕ) (before after : Outgoing) (summary : Summary) →
        InRange limits → IsNormalisedWhole role limits all before after (Ok (Accepted summary)) →
        (out : List ℕ) × IsWritten before after out
        × ((again_before again_after : Outgoing) (result : Result Verdict Stop) →
        length out ≤ limits.input → HasNoFailure result →
        IsNormalisedWhole role limits out again_before again_after result →
        ((again : Summary) × (result ≡ Ok (Accepted again))) × IsWritten again_before again_after out) }
{}
