//! Laws and examples: what follows from the definitions of the other crates, and no function of the program needs. Each
//! function here does nothing: its contract is the law or the example. The program doesn't depend on this crate, so that
//! building it doesn't prove them; the gate does.
//!
//! [`object_laws`] has the laws of the JSON objects that are printed: each is JSON with distinct names, and an object says
//! all that its answer does. [`quoted_laws`] has those of quoted texts and comments, and of the lines that they are in;
//! [`whole_laws`] says with which view a payload is shown whole. [`alike_laws`] says what a redaction leaves: two streams
//! have one redaction exactly if they are alike, which `specs/AlikeStreams.antt` says with no word of redactions.
//! [`redacted_capture_laws`] has the laws of redacted captures. (More laws are beside the engines, in the modules `laws`.)
//!
//! The examples are computed from the definitions. Of `wsn_rules`: refusals in [`verdict_examples`], how streams end and
//! what they mean in [`stream_examples`], normal forms in [`normal_form_examples`], plans of inputs and recuts in
//! [`plan_examples`], plans and their faults in [`fault_examples`], captures and their reports in [`capture_examples`],
//! what is shown of frames in [`shown_examples`], where it is in [`offset_examples`], and bad characters in
//! [`bad_character_examples`]. Of `wsn_print`: lines and exit statuses in [`printed_lines`], and reports in
//! [`printed_reports`]. Of `wsn_shown_text`: entries in [`printed_entries`], those for people in [`printed_people`], objects
//! in [`printed_objects`], and two streams that differ in [`printed_differences`]. Of `wsn_show`: what `show` prints of a
//! whole capture in [`printed_captures`]. Of `wsn_plan_text`: plan text in [`plan_text_examples`]. Of `wsn_capture`: lines
//! with their first faults in [`line_fault_examples`], and sides of texts in [`side_examples`]. Of `wsn_redact`: redactions
//! in [`redaction_examples`], redacted lines in [`redacted_capture_examples`], and what is alike and what isn't in
//! [`alike_examples`].
#![tactic(auto)]

pub mod alike_examples;
pub mod alike_laws;
pub mod bad_character_examples;
pub mod capture_examples;
pub mod fault_examples;
pub mod line_fault_examples;
pub mod normal_form_examples;
pub mod object_laws;
pub mod offset_examples;
pub mod plan_examples;
pub mod plan_text_examples;
pub mod printed_captures;
pub mod printed_differences;
pub mod printed_entries;
pub mod printed_lines;
pub mod printed_objects;
pub mod printed_people;
pub mod printed_reports;
pub mod quoted_laws;
pub mod redacted_capture_examples;
pub mod redacted_capture_laws;
pub mod redaction_examples;
pub mod shown_examples;
pub mod side_examples;
pub mod stream_examples;
pub mod verdict_examples;
pub mod whole_laws;
