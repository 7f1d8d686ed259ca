//! UTF-8 in chunks, and close codes (RFC 6455 sections 5.6, 7.4 and 8.1).
//!
//! [`Utf8`] validates text chunk by chunk and returns the offset of the first bad byte. [`code_allowed`] decides
//! whether a Close may have a code. [`whole_characters`] leaves out an unfinished last character of text that has been
//! validated; [`bad_character_len`] says how long the character is with which a text goes wrong.
//!
//! `specs/Utf8.antt` defines text by the Unicode Standard's table, `specs/Validated.antt` the state of a `Utf8` after
//! bytes, and `specs/CloseBody.antt` the body of a Close. [`laws`] states what follows from these definitions.
#![tactic(auto)]

mod ascii_blocks;
mod codes;
mod expected;
pub mod laws;
mod text_blocks;
mod unfinished;
mod utf8_check;

pub use codes::code_allowed;
pub use unfinished::{bad_character_len, whole_characters};
pub use utf8_check::Utf8;
