//! Input and output: readers and writers that remember a failure, and standard streams in large blocks.
//!
//! [`Input`] reads bytes from a reader, [`Output`] writes bytes to a writer. A [`Stop`] is the reason why work on a
//! stream ended early, and [`put_line`] writes a line or returns a stop. [`BlockReader`] reads large blocks and
//! [`BlockWriter`] buffers what is written. [`TiedReader`] and [`TiedWriter`] flush the output before each read, so
//! that a program on a live pipe reports each result at once. [`FirstBytes`] keeps the first bytes that a reader
//! returns. Nothing here allocates.
//!
//! `specs/Transfer.antt` defines what was received and written, `specs/Stops.antt` what a call that may stop
//! returns.
#![tactic(auto)]

mod blocks;
mod byte_source;
mod first_bytes;
mod input;
mod output;
mod putting;
mod stop;
mod tied;

pub use blocks::{BlockReader, BlockWriter};
pub use first_bytes::FirstBytes;
pub use input::Input;
pub use output::Output;
pub use putting::put_line;
pub use stop::Stop;
pub use tied::{TiedReader, TiedWriter};
