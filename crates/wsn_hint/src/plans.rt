ghost use Rattle.std.specs.Prelude.{◌≡◌, ◌↔◌, [], ◌∷◌, Some, IfSome};
ghost use Rattle.wsn_hint.specs.declared.hint.Hint.TheVariants.{ByteOrderMark};
ghost use Rattle.wsn_hint.specs.Hints.{Begins};

use crate::hint::Hint;

/// The hint for an input that begins with these bytes, where a plan is read and its first line isn't accepted: a byte
/// order mark. `None` for any other bytes.
pub fn plan_hint_of(first: &[u8]) -> Option<Hint>
    ensures mark { result ≡ Some ByteOrderMark ↔ Begins (0xef ∷ 0xbb ∷ 0xbf ∷ []) first.now }
    ensures no_other { IfSome result (λ hint. hint ≡ ByteOrderMark) }
{
    match first {
        [0xef, 0xbb, 0xbf, ..] => Some(Hint::ByteOrderMark),
        _ => None,
    }
}
