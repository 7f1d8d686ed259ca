ghost use Rattle.std.specs.Prelude.{MatchOption, map};
ghost use Rattle.wsn_rules.specs.Limits.{InRange};
ghost use Rattle.wsn_rules.specs.LawfulEvents.{AreLawful};
ghost use Rattle.wsn_rules.specs.Fitting.{Fits};
ghost use Rattle.wsn_rules.specs.Fault.{IsFault};
ghost use Rattle.wsn_plan.specs.Gathering.{kept_meant};

use crate::kept::Kept;
use crate::walking::Walk;
use std::alloc::Allocator;
use wsn_rules::{Step, Why};
use wsn_scan::Limits;
use wsn_wire::Role;

/// The fault of a plan for these events: the faulty step, counted from 0, and the reason. `None` if the plan fits them.
#[tactic(none)]
pub(crate) fn fault_of<A: Allocator>(
    role: Role,
    limits: Limits,
    events: &[Kept<A>],
    steps: &[Step],
) -> Option<(u64, Why)>
    requires range { InRange limits }
    requires lawful { AreLawful limits.message (map kept_meant events.now) }
    ensures { MatchOption result (Fits role limits steps.now (map kept_meant events.now))
        (λ fault. IsFault role limits steps.now (map kept_meant events.now) fault.0 fault.1) }
{
    let mut walk = Walk::start(events);
    for (index, step) in steps.iter().enumerate() {
        if let Some(why) = walk.reason_against(role, limits, events, step) {
            return Some((index as u64, why));
        }
        walk.take(events, step);
    }
    if walk.event < events.len() {
        return Some((steps.len() as u64, Why::EventsLeft));
    }
    None
}
