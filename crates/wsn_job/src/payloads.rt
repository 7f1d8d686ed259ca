ghost use Rattle.std.specs.Prelude.{◌≡◌};
ghost use Rattle.wsn_job.specs.Payloads.{IsPayloadDiagnosed, payload_status};

use crate::diagnostics::{diagnose, diagnose_stop, diagnose_verdict};
use std::io::Write;
use wsn_io::{Output, Stop};
use wsn_parts::Payload;
use wsn_print::{line_of_begun_head, line_of_inside, line_of_nothing};

/// Writes to `errors` what isn't in the payload: the verdict at which the event isn't complete, that nothing begins at
/// the offset, or a stop.
pub(crate) fn diagnose_payload<E: Write>(
    at: u64,
    done: Result<Payload, Stop>,
    errors: &mut Output<E>,
)
    ensures { IsPayloadDiagnosed at done errors.old errors.new }
{
    match done {
        Ok(Payload::Whole) => {}
        Ok(Payload::Unfinished(verdict)) => diagnose_verdict(errors, &verdict),
        Ok(Payload::Inside(event)) => {
            diagnose(errors, line_of_inside(at, event.op, event.offset).bytes());
        }
        Ok(Payload::Head { offset, verdict }) => {
            diagnose(errors, line_of_begun_head(at, offset, &verdict).bytes());
        }
        Ok(Payload::Nothing(verdict)) => diagnose(errors, line_of_nothing(at, &verdict).bytes()),
        Err(stop) => diagnose_stop(errors, stop),
    }
}

/// The program's exit status.
pub(crate) fn status(done: Result<Payload, Stop>) -> u8
    ensures { result ≡ payload_status done }
{
    match done {
        Ok(Payload::Whole) => 0,
        Ok(Payload::Unfinished(_)) => 1,
        Ok(Payload::Inside(_) | Payload::Head { .. } | Payload::Nothing(_)) | Err(_) => 2,
    }
}
