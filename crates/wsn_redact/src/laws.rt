//! Laws of the definitions in `specs/`. The functions do nothing when called; their contracts are proved.

ghost use Rattle.std.specs.Prelude.{◌≡◌, ℕ, ◌↔◌, List, [], ◌++◌, length};
ghost use Rattle.wsn_wire.specs.declared.endpoint.Role.{Role};
ghost use Rattle.wsn_text.specs.Utf8.{IsText, BeginsText};
ghost use Rattle.wsn_wire.specs.Frame.{Frame, IsBytes, stream};
ghost use Rattle.wsn_rules.specs.Accepted.{IsAccepted};
ghost use Rattle.wsn_rules.specs.Heads.{heads_of};
ghost use Rattle.wsn_rules.specs.Verdict.{IsCut, IsRefused, IsVerdict};
ghost use Rattle.wsn_rules.specs.declared.verdict.Verdict.{Verdict};
ghost use Rattle.wsn_wire.specs.declared.refusal.Reason.{Reason};
ghost use Rattle.wsn_rules.specs.Limits.{Limits, InRange};
ghost use Rattle.wsn_redact.specs.StandIns.{IsRedactedText, IsRedacted, stood};
ghost use Rattle.wsn_redact.specs.Redaction.{IsRedaction};

/// Bytes that begin text have one redaction, which is computed byte by byte. Bytes have one at most, with as many bytes;
/// those that are redacted as a text begin text.
pub fn law_one_redacted_text()
    ensures computed { (text redacted : List ℕ) → BeginsText text → IsRedacted text redacted ↔ (redacted ≡ stood [] text) }
    ensures begins { (text redacted : List ℕ) → IsRedactedText text redacted → BeginsText text }
    ensures one { (text redacted other : List ℕ) → IsRedacted text redacted → IsRedacted text other → redacted ≡ other }
    ensures size { (text redacted : List ℕ) → IsRedacted text redacted → length redacted ≡ length text }
{}

/// A stream has exactly one redaction, and it has as many bytes.
pub fn law_one_redaction()
    ensures some { (role : Role) (limits : Limits) (bytes : List ℕ) → InRange limits → IsBytes bytes →
        (redacted : List ℕ) × IsRedaction role limits bytes redacted }
    ensures one { (role : Role) (limits : Limits) (bytes redacted other : List ℕ) →
        IsRedaction role limits bytes redacted → IsRedaction role limits bytes other → redacted ≡ other }
    ensures size { (role : Role) (limits : Limits) (bytes redacted : List ℕ) →
        IsRedaction role limits bytes redacted → length redacted ≡ length bytes }
{}

/// The redaction of a longer stream continues that of the shorter one: what has been written stays right.
pub fn law_longer_redaction()
    ensures { (role : Role) (limits : Limits) (bytes more redacted longer : List ℕ) →
        IsRedaction role limits bytes redacted → IsRedaction role limits (bytes ++ more) longer →
        (later : List ℕ) × (longer ≡ redacted ++ later) }
{}

/// The redaction of an accepted stream is accepted, and the same heads are reported of it: its frames have the same
/// FIN, opcodes, keys, encodings and lengths, at the same offsets.
pub fn law_stays_accepted()
    ensures { (role : Role) (limits : Limits) (bytes redacted : List ℕ) (fs : List Frame) →
        IsAccepted role limits bytes fs → IsRedaction role limits bytes redacted →
        (gs : List Frame) × IsAccepted role limits redacted gs × (heads_of gs ≡ heads_of fs)
        × (length (stream gs) ≡ length (stream fs)) }
{}

/// The redaction of a stream has the same verdict: it is accepted or cut with the same counts and the same close code, or
/// refused at the same offset for the same reason. The same heads are reported of its frames.
pub fn law_same_verdict()
    ensures { (role : Role) (limits : Limits) (bytes redacted : List ℕ) (fs : List Frame) (verdict : Verdict) →
        IsBytes bytes → IsVerdict role limits bytes fs verdict → IsRedaction role limits bytes redacted →
        (gs : List Frame) × IsVerdict role limits redacted gs verdict × (heads_of gs ≡ heads_of fs) }
{}

/// Redacting twice is redacting once: of a text, even if it goes wrong at its last byte, and of every stream.
pub fn law_twice_is_once()
    ensures text { (text : List ℕ) → BeginsText text → stood [] (stood [] text) ≡ stood [] text }
    ensures any_text { (text redacted : List ℕ) → IsRedacted text redacted → IsRedacted redacted redacted }
    ensures accepted { (role : Role) (limits : Limits) (bytes redacted : List ℕ) (fs : List Frame) →
        IsAccepted role limits bytes fs → IsRedaction role limits bytes redacted →
        IsRedaction role limits redacted redacted }
    ensures stream { (role : Role) (limits : Limits) (bytes redacted : List ℕ) →
        IsBytes bytes → IsRedaction role limits bytes redacted → IsRedaction role limits redacted redacted }
{}

/// The redaction of a text begins text exactly if the text does, and is text exactly if it is. So a text that goes wrong
/// at its last byte, or ends inside a character, does so redacted.
pub fn law_text_stays()
    ensures begins { (text redacted : List ℕ) → IsRedacted text redacted → BeginsText text ↔ BeginsText redacted }
    ensures whole { (text redacted : List ℕ) → IsRedacted text redacted → IsText text ↔ IsText redacted }
{}

/// The redaction of a refused stream is refused at the same offset for the same reason, and its frames have the same
/// heads.
pub fn law_stays_refused()
    ensures { (role : Role) (limits : Limits) (bytes redacted : List ℕ) (fs : List Frame) (offset : ℕ) (reason : Reason) →
        IsBytes bytes → IsRefused role limits bytes fs offset reason → IsRedaction role limits bytes redacted →
        (gs : List Frame) × IsRefused role limits redacted gs offset reason × (heads_of gs ≡ heads_of fs) }
{}

/// The redaction of a cut stream is cut, and its frames have the same heads.
pub fn law_stays_cut()
    ensures { (role : Role) (limits : Limits) (bytes redacted : List ℕ) (fs : List Frame) →
        IsCut role limits bytes fs → IsRedaction role limits bytes redacted →
        (gs : List Frame) × IsCut role limits redacted gs × (heads_of gs ≡ heads_of fs) }
{}
