//! What is shown of a stream or a capture, and of two streams that differ: lines, and JSON objects in one line. Each has a
//! definition in `specs/` and a function.
//!
//! [`put_entry`] writes an item of a stream, [`put_end_as`] an end mark and [`put_comment_as`] a comment, each in a
//! [`Format`](wsn_print::Format): an item is a complete event, a frame, what isn't complete, a refusal with the bad
//! character of a text, or bytes in no frame. A [`ShownItem`] holds only the part of a payload that a
//! [`ViewLimit`](wsn_print::ViewLimit) shows. [`put_difference_as`] writes a difference with the events that differ.
//!
//! `Views` says what is shown of a payload and `Members` what an entry says, whatever the format. `ShownText` and
//! `CharacterText` define the lines, `PeopleText` the lines for people, `ShownObjects` the objects, `EntryFormats` the texts
//! in each format, `DifferenceText` a difference with its events, and `DifferingText` what is shown where their payloads
//! differ. `QuotedTexts` says what a quoted text is. In the crate `wsn_laws`, `quoted_laws` has laws of quoted texts,
//! `whole_laws` says with which view a payload is shown whole, and there are examples of printed lines, computed from the
//! definitions.
#![tactic(auto)]

mod ascii_text;
mod characters;
mod differences;
mod differing;
mod entry_formats;
mod fields;
mod frame_lines;
mod fronts;
mod items;
mod line_views;
mod object_views;
mod people;
mod people_columns;
mod people_views;
mod seen;
mod views;

pub use differences::put_difference_as;
pub use entry_formats::{put_comment_as, put_end_as};
pub use items::{ShownItem, put_entry};
