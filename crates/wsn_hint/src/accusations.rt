ghost use Rattle.std.specs.Prelude.{◌≡◌, None, IfSome};
ghost use Rattle.wsn_hint.specs.Accusations.{IsAccusing, IsAccusingHint, charge_code};

use crate::charge::Charge;
use crate::hint::Hint;
use wsn_rules::{Report, Side};
use wsn_wire::Role;

/// The hint for such a capture by its report: that an endpoint's Close accuses the other one, whose stream isn't refused;
/// the client's if both do.
pub fn accusing_hint_of(report: &Report) -> Option<Hint>
    ensures { IsAccusingHint report.now result }
{
    if let Some(charge) = charge_by(Role::Client, report) {
        return Some(Hint::Accuses(Role::Client, charge));
    }
    let charge = charge_by(Role::Server, report)?;
    Some(Hint::Accuses(Role::Server, charge))
}

/// What the endpoint's Close accuses the other one of, whose stream isn't refused. A Close that echoes the other's accuses
/// it of nothing.
fn charge_by(role: Role, report: &Report) -> Option<Charge>
    ensures some { IfSome result (IsAccusing role report.now) }
    ensures none { result ≡ None → (charge : Charge) → IsAccusing role report.now charge → ⊥ }
{
    if report.echo == Some(true) && report.first != Some(role) {
        return None;
    }
    let (own, other) = match role {
        Role::Client => (report.client, report.server),
        Role::Server => (report.server, report.client),
    };
    match (own, other) {
        (_, Side::Refused(_)) => None,
        (Side::Closed(Some(code)), _) => charge_of(code),
        _ => None,
    }
}

/// What this code accuses the other endpoint of.
fn charge_of(code: u16) -> Option<Charge>
    ensures some { IfSome result (λ charge. code ≡ charge_code charge) }
    ensures none { result ≡ None → (charge : Charge) → code ≡ charge_code charge → ⊥ }
{
    match code {
        1002 => Some(Charge::Protocol),
        1007 => Some(Charge::Content),
        1009 => Some(Charge::Size),
        _ => None,
    }
}
