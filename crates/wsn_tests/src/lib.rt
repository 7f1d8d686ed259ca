//! Tests of what only a caller of the libraries sees. What the program shows is tested as it is run (`tests/program`,
//! `tests/failing-calls`, `tests/refused-memory`).
//!
//! `scanner`: what each call of a `Scan` consumes and finds. `source`: the events of a `Source`, what it holds, and its
//! answers after the end. `events`: which events are lawful, and how they are written. `plans`: a plan's text, and the plan
//! of given events. `captures`: lines that are passed one by one, and a side as a reader. `inputs_and_outputs`: after a
//! read or write that failed. `unending`: an input without an end stops at its limit, which no command line asks for.
//! `peer`: another implementation, the kit's `tungstenite`. `readers` split and fail, and `expecting` has the assertions.
#![tactic(auto)]

#[cfg(test)]
mod captures;
#[cfg(test)]
mod events;
#[cfg(test)]
mod expecting;
#[cfg(test)]
mod inputs_and_outputs;
#[cfg(test)]
mod peer;
#[cfg(test)]
mod plans;
#[cfg(test)]
mod readers;
#[cfg(test)]
mod scanner;
#[cfg(test)]
mod source;
#[cfg(test)]
mod unending;
