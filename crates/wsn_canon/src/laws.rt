//! The main laws. Each is a function that does nothing: its contract is the law.
//!
//! The laws from `wsn_rules` are about the definitions. Each input has one verdict and one meaning ([`law_unique`]). A
//! refused input stays refused ([`law_stays_refused`]). Normal forms are equal exactly if the meanings are
//! ([`law_canon`]). Normalising twice is the same as normalising once ([`law_once`]). Every refragmentation within the
//! limits means the same ([`law_recut`]). The accepted streams of a meaning that leave no message unfinished and have
//! no tail are exactly its recuts ([`law_restore`]). A plan that doesn't fit has exactly one fault ([`law_one_fault`]).
//!
//! The laws from the other crates are about what the calls return and write.

pub use wsn_events::laws::{
    law_normalising_twice, law_one_comparison, law_one_difference, law_one_normal_form,
};
pub use wsn_parts::laws::law_one_listing;
pub use wsn_plan::laws::{
    law_one_line_fault, law_one_plan, law_one_plan_of, law_one_recut, law_restored,
    law_same_meaning,
};
pub use wsn_rules::faults::law_one_fault;
pub use wsn_rules::laws::{
    law_canon, law_meaning_is_lawful, law_normal_form_is_a_recut, law_once, law_recut, law_restore,
    law_stays_refused, law_unique,
};
pub use wsn_scan::laws::law_one_answer;
