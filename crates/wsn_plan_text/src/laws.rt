//! Laws about plan text. Each function does nothing: its contract is the law.

ghost use Rattle.std.specs.Prelude.{◌≡◌, ℕ, ◌⊎◌, List};
ghost use Rattle.wsn_rules.specs.Plan.{IsPlan};
ghost use Rattle.wsn_rules.specs.declared.step.Step.{Step};
ghost use Rattle.wsn_plan_text.specs.Plans.{HasLengths};
ghost use Rattle.wsn_plan_text.specs.declared.plan_fault.LineWhy.{LineWhy};
ghost use Rattle.wsn_plan_text.specs.PlanText.{EncodesPlan, EncodesStep, IsLineFault, plan_text, IsFirstPlanFault};

/// A text encodes one plan at most, and the text that is written of a plan encodes that plan. This holds of any
/// [`Plan`](crate::Plan): its lengths fit 64 bits, as the contract of its `steps` says.
pub fn law_one_plan()
    ensures one { (text : List ℕ) (plan other : List Step) →
        EncodesPlan text plan → EncodesPlan text other → plan ≡ other }
    ensures written { (plan : List Step) → IsPlan plan → HasLengths plan →
        EncodesPlan (plan_text plan) plan }
{}

/// A line encodes one step or has one first fault, and a text encodes one plan or has one first fault: never both.
pub fn law_one_line_fault()
    ensures line { (line : List ℕ) → ((step : Step) × EncodesStep line step) ⊎ ((why : LineWhy) × IsLineFault line why) }
    ensures one_step { (line : List ℕ) (step other : Step) →
        EncodesStep line step → EncodesStep line other → step ≡ other }
    ensures one_fault { (line : List ℕ) (why other : LineWhy) →
        IsLineFault line why → IsLineFault line other → why ≡ other }
    ensures not_both { (line : List ℕ) (step : Step) (why : LineWhy) →
        EncodesStep line step → ¬ (IsLineFault line why) }
    ensures text { (text : List ℕ) → ((plan : List Step) × EncodesPlan text plan)
        ⊎ ((number : ℕ) × (why : LineWhy) × IsFirstPlanFault text number why) }
    ensures one_first_fault { (text : List ℕ) (number other_number : ℕ) (why other : LineWhy) →
        IsFirstPlanFault text number why → IsFirstPlanFault text other_number other → (number ≡ other_number) × (why ≡ other) }
    ensures not_both_of_a_text { (text : List ℕ) (plan : List Step) (number : ℕ) (why : LineWhy) →
        EncodesPlan text plan → ¬ (IsFirstPlanFault text number why) }
{}
