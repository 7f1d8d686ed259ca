ghost use Rattle.std.specs.Prelude.{◌≡◌, List, [], ◌∷◌, ◌++◌, ℕ, ◌<◌, ◌^◌, IfOk, IfErr, IfSome};
ghost use Rattle.wsn_rules.specs.declared.step.Step.{Step};
ghost use Rattle.wsn_rules.specs.Plan.{IsPlan, key_of, piece_length};
ghost use Rattle.wsn_wire.specs.Frame.{IsKey};
ghost use Rattle.wsn_plan_text.specs.Plans.{HasLengths};

use std::alloc::{Allocator, Global};
use std::marker::Model;
use wsn_io::Stop;
use wsn_rules::Step;

/// How a stream's events are split into frames and how each frame is encoded: one step for each frame, in order (RFC
/// 6455 sections 5.2 to 5.4).
#[derive(Drop)]
pub struct Plan<A: Allocator = Global> {
    steps: Vec<Step, A>,
}

impl<A: Allocator> Model for Plan<A> {
    ghost Value = { List Step };

    ghost view = { λ plan. plan.steps.items };

    ghost invariant = { λ plan. IsPlan plan.steps.items × HasLengths plan.steps.items };
}

impl<A: Allocator> Plan<A> {
    /// A plan without steps. It allocates no memory.
    pub fn new(alloc: A) -> Self
        ensures { result ≡ [] }
    {
        Plan {
            steps: Vec::new(alloc),
        }
    }

    /// Appends a step. `Memory` if the allocation fails: then the plan is unchanged.
    #[tactic(none)]
    pub fn push(&mut self, step: Step) -> Result<(), Stop>
        ensures pushed { IfOk result (λ _. self.new ≡ self.old ++ step ∷ []) }
        ensures refused { IfErr result (λ stop. (stop ≡ Stop.Memory) × (self.new ≡ self.old)) }
    {
        law_step(step);
        self.steps.push(step).map_err(|_| Stop::Memory)
    }

    /// The steps in order. Each key is four bytes, and each length fits 64 bits.
    pub fn steps(&self) -> &[Step]
        ensures steps { result.now ≡ self.now }
        ensures keys { IsPlan self.now }
        ensures lengths { HasLengths self.now }
    {
        &self.steps
    }
}

/// A law: any step's key is four bytes, and its length fits 64 bits.
fn law_step(step: Step)
    ensures key { IfSome (key_of step) IsKey }
    ensures length { piece_length step < 2 ^ 64 }
{
    match step {
        Step::Piece { key, .. } | Step::Last { key, .. } | Step::Control { key } => law_key(key),
    }
}

/// A law: any key is four bytes.
fn law_key(key: Option<[u8; 4]>)
    ensures { IfSome key IsKey }
{
    if let Some(bytes) = key {
        let [_first, _second, _third, _fourth] = bytes;
    }
}
