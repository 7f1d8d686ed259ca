ghost use Rattle.std.specs.Prelude.{◌≡◌, ◌<◌, ◌≤◌, None, true, take, length, IfSome};
ghost use Rattle.wsn_rules.specs.declared.verdict.Verdict.TheVariants.{Refused};
ghost use Rattle.wsn_rules.specs.Verdict.{IsUnrefused};
ghost use Rattle.wsn_hint.specs.Hints.{IsVerdictOnBytes};

use wsn_io::Input;
use wsn_rules::{Limits, Refusal, Verdict};
use wsn_scan::judge;
use wsn_wire::Role;

/// The verdict on the first two bytes alone; `None` if the input limit is less.
pub fn early_verdict(first: &[u8], role: Role, limits: Limits) -> Option<Verdict>
    ensures verdict { IfSome result (IsVerdictOnBytes role limits (take 2 first.now)) }
    ensures none { result ≡ None → limits.input < length (take 2 first.now) }
{
    judge(&mut Input::lent(&first[..first.len().min(2)]), role, limits).ok()
}

/// Whether the first two bytes are no evidence for a refusal, so that a lawful stream may begin with them.
pub fn is_lawful_start(first: &[u8], role: Role, limits: Limits) -> bool
    ensures unrefused { result ≡ true → IsUnrefused role limits (take 2 first.now) }
    ensures given { 2 ≤ limits.input → IsUnrefused role limits (take 2 first.now) → result ≡ true }
{
    match early_verdict(first, role, limits) {
        Some(Verdict::Accepted(_summary)) => true,
        Some(Verdict::Cut(_summary)) => true,
        Some(Verdict::Refused(_refusal)) => false,
        None => false,
    }
}

/// The refusal for which the first two bytes are evidence.
pub fn early_refusal(first: &[u8], role: Role, limits: Limits) -> Option<Refusal>
    ensures refused { IfSome result (λ refusal. IsVerdictOnBytes role limits (take 2 first.now) (Refused refusal)) }
    ensures none { result ≡ None → 2 ≤ limits.input → IsUnrefused role limits (take 2 first.now) }
{
    match early_verdict(first, role, limits) {
        Some(Verdict::Refused(refusal)) => Some(refusal),
        Some(Verdict::Accepted(_summary)) => None,
        Some(Verdict::Cut(_summary)) => None,
        None => None,
    }
}
