ghost use Rattle.std.specs.Prelude.{ℕ, List};
ghost use Rattle.wsn_wire.specs.declared.endpoint.Role.{Role};
ghost use Rattle.wsn_wire.specs.Frame.{Frame};
ghost use Rattle.wsn_rules.specs.Limits.{Limits};
ghost use Rattle.wsn_rules.specs.Verdict.{IsVerdict};
ghost use Rattle.wsn_capture.specs.TailCounts.{HasTail};

use wsn_rules::Verdict;

/// The number of bytes that each endpoint sent after its Close, which are ignored (RFC 6455 section 5.5.1): 0 without a
/// Close.
#[derive(Clone, Copy, Debug, PartialEq, Eq)]
pub struct Tails {
    /// The client's.
    pub client: u64,
    /// The server's.
    pub server: u64,
}

impl Tails {
    ghost use Rattle.wsn_wire.specs.declared.endpoint.Role.TheVariants.{Client, Server};
    ghost use Rattle.std.specs.Prelude.{List};
    ghost use Rattle.wsn_rules.specs.Limits.{Limits};
    ghost use Rattle.wsn_rules.specs.Entries.{Entry};
    ghost use Rattle.wsn_capture.specs.CaptureLines.{IsVerdictOnSide};
    ghost use Rattle.wsn_capture.specs.TailCounts.{AreTails};

    /// The tails of both endpoints' streams, given the verdicts on them.
    #[tactic(none)]
    pub fn of(client: &Verdict, server: &Verdict) -> Tails
        ensures { (limits : Limits) (given : List Entry) → IsVerdictOnSide Client limits given client.now →
            IsVerdictOnSide Server limits given server.now → AreTails limits given result }
    {
        Tails {
            client: tail_of(client),
            server: tail_of(server),
        }
    }
}

/// The number of bytes after the stream's Close, given the verdict on it.
#[tactic(none)]
fn tail_of(verdict: &Verdict) -> u64
    ensures { (role : Role) (limits : Limits) (came : List ℕ) →
        (fs : List Frame) × IsVerdict role limits came fs verdict.now → HasTail role limits came result }
{
    match verdict {
        Verdict::Accepted(summary) => summary.tail,
        Verdict::Cut(_) | Verdict::Refused(_) => 0,
    }
}
