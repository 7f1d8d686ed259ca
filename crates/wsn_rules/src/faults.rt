//! Laws of the fault of a plan that doesn't fit its events. There is exactly one, and it is found step by step. The
//! functions do nothing when called; their contracts are proved.

ghost use Rattle.std.specs.Prelude.{◌≡◌, ◌≢◌, ℕ, ◌+◌, ◌≤◌, Some, None, ◌⊎◌, Option, List, [], ◌∷◌, ◌++◌, length, drop};
ghost use Rattle.std.specs.Option.{ForSome};
ghost use Rattle.wsn_wire.specs.declared.endpoint.Role.{Role};
ghost use Rattle.wsn_wire.specs.declared.length_encoding.Form.{Form};
ghost use Rattle.wsn_rules.specs.declared.step.Step.{Step};
ghost use Rattle.wsn_rules.specs.declared.why.Why.{Why};
ghost use Rattle.wsn_rules.specs.Limits.{Limits, InRange};
ghost use Rattle.wsn_rules.specs.Meaning.{MeantEvent};
ghost use Rattle.wsn_rules.specs.Plan.{next_text};
ghost use Rattle.wsn_rules.specs.Fitting.{Fits};
ghost use Rattle.wsn_rules.specs.Fault.{Holds, IsFirstWhy, IsFault};
ghost use Rattle.wsn_rules.specs.WalkedPlan.{HasWalked};
ghost use Rattle.wsn_rules.specs.declared.step.Step.TheVariants.{Piece, Last, Control};
ghost use Rattle.wsn_rules.specs.declared.why.Why.TheVariants.{EventsLeft};

/// A plan fits, or it has exactly one fault: one step and one reason.
pub fn law_one_fault()
    ensures some { (role : Role) (limits : Limits) (events : List MeantEvent) (plan : List Step) → InRange limits →
        Fits role limits plan events ⊎ ((step : ℕ) × (why : Why) × IsFault role limits plan events step why) }
    ensures not_both { (role : Role) (limits : Limits) (events : List MeantEvent) (plan : List Step) (step : ℕ)
        (why : Why) → Fits role limits plan events → ¬ (IsFault role limits plan events step why) }
    ensures one { (role : Role) (limits : Limits) (events : List MeantEvent) (plan : List Step) (step also : ℕ)
        (why other : Why) → IsFault role limits plan events step why → IsFault role limits plan events also other →
        (step ≡ also) × (why ≡ other) }
{}

/// Checks a plan step by step. After steps that begin to fit, the first reason that holds for the next step is the
/// plan's fault, whatever follows. If no reason holds, the plan up to that step begins to fit. At its end the plan fits
/// if no event is left; otherwise that is its fault. The pending Pieces are within the next message and leave a frame
/// for its last.
pub fn law_fault_step_by_step()
    ensures start { (role : Role) (limits : Limits) (events : List MeantEvent) →
        HasWalked role limits events [] 0 0 events }
    ensures piece { (role : Role) (limits : Limits) (events : List MeantEvent)
        (plan : List Step) (count held : ℕ) (left : List MeantEvent) → InRange limits →
        HasWalked role limits events plan count held left → (len : ℕ) (key : Option (List ℕ)) (form : Form) →
        ((why : Why) → ¬ (Holds role limits count held left (Piece len key form) why)) →
        HasWalked role limits events (plan ++ Piece len key form ∷ []) (count + 1) (held + len) left }
    ensures last { (role : Role) (limits : Limits) (events : List MeantEvent)
        (plan : List Step) (count held : ℕ) (left : List MeantEvent) → InRange limits →
        HasWalked role limits events plan count held left → (key : Option (List ℕ)) (form : Form) →
        ((why : Why) → ¬ (Holds role limits count held left (Last key form) why)) →
        HasWalked role limits events (plan ++ Last key form ∷ []) 0 0 (drop 1 left) }
    ensures control { (role : Role) (limits : Limits) (events : List MeantEvent)
        (plan : List Step) (count held : ℕ) (left : List MeantEvent) → InRange limits →
        HasWalked role limits events plan count held left → (key : Option (List ℕ)) →
        ((why : Why) → ¬ (Holds role limits count held left (Control key) why)) →
        HasWalked role limits events (plan ++ Control key ∷ []) count held (drop 1 left) }
    ensures fault { (role : Role) (limits : Limits) (events : List MeantEvent)
        (plan : List Step) (count held : ℕ) (left : List MeantEvent) →
        HasWalked role limits events plan count held left → (rest : List Step) (step : Step) (why : Why) →
        IsFirstWhy (Holds role limits count held left step) why →
        IsFault role limits (plan ++ step ∷ rest) events (length plan) why }
    ensures events_left { (role : Role) (limits : Limits) (events : List MeantEvent)
        (plan : List Step) (count held : ℕ) (left : List MeantEvent) →
        HasWalked role limits events plan count held left → left ≢ [] →
        IsFault role limits plan events (length plan) EventsLeft }
    ensures fits { (role : Role) (limits : Limits) (events : List MeantEvent)
        (plan : List Step) (count held : ℕ) (left : List MeantEvent) →
        HasWalked role limits events plan count held left → left ≡ [] → Fits role limits plan events }
    ensures pending { (role : Role) (limits : Limits) (events : List MeantEvent)
        (plan : List Step) (count held : ℕ) (left : List MeantEvent) →
        HasWalked role limits events plan count held left → InRange limits → (text : List ℕ) →
        next_text left ≡ Some text → (held ≤ length text) × ForSome limits.frames (λ most. count + 1 ≤ most) }
    ensures nothing_pending { (role : Role) (limits : Limits) (events : List MeantEvent)
        (plan : List Step) (count held : ℕ) (left : List MeantEvent) →
        HasWalked role limits events plan count held left → next_text left ≡ None → (count ≡ 0) × (held ≡ 0) }
{}
