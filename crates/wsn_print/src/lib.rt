//! The lines of answers: verdicts, frames, comparisons, reports, faults and stops; and what all printed lines need. Each
//! has a definition in `specs/` and a function. (What is shown of a stream or a capture is in `wsn_shown_text`, a plan's
//! text in `wsn_plan_text`.)
//!
//! [`put_verdict`] writes the line of a verdict, [`put_compared`] the line of a comparison, and [`put_report`] the seven
//! lines of a report. [`HeadLines`] holds the lines or objects of frames, so that one write takes them. The lines of
//! faults and stops are built as a [`Line`], a text in a fixed array. [`put`], [`put_number`], [`put_key`] and
//! [`put_form`] write the parts of a line where they stay. The `status_of_..` functions return the exit status of an
//! answer. [`KeptBytes`] keeps bytes in an array, until they are written or forgotten. Nothing here allocates.
//!
//! Each answer can also be a JSON object in one line: `put_.._object` writes it, and [`put_verdict_as`],
//! [`put_report_as`] and [`put_compared_as`] write an answer in a [`Format`], and [`put_named_report`] the report on one
//! of several captures. For people, [`put_people_report`] says in sentences what a report means. `push_.._field` appends
//! a member to a [`Line`].
//!
//! [`put_quoted`] writes a text between quotation marks and [`put_comment`] a comment, with their hidden characters
//! escaped. A [`Style`] says how a stream or a capture is shown, an [`EntryFront`] where an entry is, and a [`Difference`]
//! where two streams differ first.
//!
//! `specs/Fields.antt` defines the fields of verdicts; `VerdictText`, `HeadText`, `ReportText`, `FaultText`, `PayloadText`
//! and `NamedReportText` define the lines, `PeopleReport` and `Sentences` what a report says to people, `EscapedText`
//! quoted texts and comments, `Json` and `Objects` the objects, `Formats` the texts in each format, and `Statuses` the
//! exit statuses. `ShownParts` says what the arguments of the functions that show an entry represent, and
//! `DifferingPayloads` where the payloads of two events differ. Examples of printed lines, computed from the definitions,
//! are in the crate `wsn_laws`.
#![tactic(auto)]

mod comparisons;
mod escapes;
mod faults;
mod format;
mod frame_members;
mod head_lines;
mod heads;
mod held_text;
mod json;
mod kept_bytes;
mod kept_digits;
mod line;
mod named_reports;
mod objects;
mod parts;
mod payloads;
mod people_reports;
mod quoted;
mod reports;
mod sentences;
mod shown;
mod statuses;
mod stops;
mod style;
mod verdicts;

pub use comparisons::{line_of_difference, put_compared};
pub use escapes::is_hidden;
pub use faults::{line_of_line_fault, line_of_recut_fault, line_of_unfinished};
pub use format::{Format, put_compared_as, put_report_as, put_verdict_as};
pub use head_lines::HeadLines;
pub use heads::op_word;
pub use held_text::{HELD_MAX, HeldText};
pub use json::{push_number_field, push_number_or_null_field, push_string_field};
pub use kept_bytes::KeptBytes;
pub use line::Line;
pub use named_reports::put_named_report;
pub use objects::{push_refusal, put_compared_object, put_report_object, put_verdict_object};
pub use parts::{put, put_form, put_key, put_number};
pub use payloads::{line_of_begun_head, line_of_inside, line_of_nothing};
pub use people_reports::put_people_report;
pub use quoted::{hold_quoted, put_comment, put_comment_text, put_quoted, put_quoted_characters};
pub use reports::put_report;
pub use shown::{
    Difference, DifferingPayloads, EntryFront, Front, HeldBytes, Origin, PayloadPart, PlacedEvent,
    Remainder, ShownCharacter, ShownEvent, VIEW_MAX, ViewLimit,
};
pub use statuses::{status_of_comparison, status_of_outcome, status_of_verdict};
pub use stops::line_of_stop;
pub use style::Style;
pub use verdicts::put_verdict;
