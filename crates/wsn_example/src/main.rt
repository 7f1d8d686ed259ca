//! Reads a capture from standard input, and prints which side broke the protocol, at which byte and why:
//!
//!     wsn_example < session.capture
//!
//! An example for programs in Rattle, as `examples/who_broke_it.c` is for those in C. The status is 1 if a side broke the
//! protocol, and 2 if a line of the capture is malformed.
#![tactic(auto)]

use std::io::{self, Read};
use std::process::ExitCode;
use wsn_canon::{Input, Limits, Refusal, Role, SideReader, Verdict, judge};

fn main(rt: HostRuntime) -> io::Result<ExitCode> {
    let limits = Limits::greatest();
    let mut capture = Vec::new(rt.alloc());
    rt.reader().read_to_end(&mut capture)?;
    let mut status = 0;
    for role in [Role::Client, Role::Server] {
        let mut side = Input::new(SideReader::new(capture.as_slice(), role));
        match judge(&mut side, role, limits) {
            Ok(Verdict::Refused(Refusal { offset, reason })) => {
                let (name, word, code) = (name_of(role), reason.word(), reason.code());
                println!(rt; "{name} broke {word} at byte {offset}: close code {code}")?;
                status = 1;
            }
            Ok(_) => {}
            Err(stop) => {
                match side.reader().and_then(SideReader::stop) {
                    Some(why) => eprintln!(rt; "{why}")?,
                    None => eprintln!(rt; "{stop}")?,
                }
                return Ok(ExitCode::from(2));
            }
        }
    }
    Ok(ExitCode::from(status))
}

/// The word for an endpoint.
fn name_of(role: Role) -> &'static str {
    match role {
        Role::Client => "client",
        Role::Server => "server",
    }
}
