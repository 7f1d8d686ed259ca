ghost use Rattle.std.specs.Prelude.{◌≡◌};
ghost use Rattle.wsn_print.specs.Statuses.{verdict_status, comparison_status, outcome_status};

use wsn_io::Stop;
use wsn_rules::{Compared, Outcome, Verdict};

/// The exit status for a verdict or a stop: 0 if the stream is accepted, 1 for any other verdict, 2 for a stop.
#[tactic(none)]
pub fn status_of_verdict(done: Result<Verdict, Stop>) -> u8
    ensures { result ≡ verdict_status done }
{
    match done {
        Ok(Verdict::Accepted(_)) => 0,
        Ok(Verdict::Cut(_) | Verdict::Refused(_)) => 1,
        Err(_) => 2,
    }
}

/// The exit status for a comparison or a stop: 0 if both streams are accepted and mean the same, 1 for any other
/// comparison, 2 for a stop.
pub fn status_of_comparison(done: Result<Compared, Stop>) -> u8
    ensures { result ≡ comparison_status done }
{
    match done {
        Ok(Compared::Equal) => 0,
        Ok(Compared::Different(_) | Compared::NotAccepted { .. }) => 1,
        Err(_) => 2,
    }
}

/// The exit status for an outcome: 0 if both sides sent a Close, otherwise 1.
#[tactic(none)]
pub fn status_of_outcome(outcome: Outcome) -> u8
    ensures { result ≡ outcome_status outcome }
{
    match outcome {
        Outcome::Clean | Outcome::Complete => 0,
        Outcome::Failed | Outcome::Abnormal | Outcome::Half | Outcome::Live => 1,
    }
}
