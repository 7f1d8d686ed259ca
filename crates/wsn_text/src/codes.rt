ghost use Rattle.std.specs.Prelude.{IsTrue, ◌↔◌};
ghost use Rattle.wsn_text.specs.CloseBody.{IsAcceptedCode};

/// Whether a Close may have this code: 1000 to 1003, 1007 to 1014 and 3000 to 4999 (RFC 6455 section 7.4 and the IANA
/// registry).
#[tactic(none)]
pub fn code_allowed(code: u16) -> bool
    ensures { IsTrue result ↔ IsAcceptedCode code }
{
    matches!(code, 1000..=1003 | 1007..=1014 | 3000..=4999)
}
