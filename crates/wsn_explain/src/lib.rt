//! What the printed words mean: the texts of `wsn explain`.
//!
//! [`explanation`] finds the text of a word, [`similar_words`] a word that was spelled otherwise, and [`list_of_words`]
//! lists all words.
#![tactic(auto)]

mod explain;

pub use explain::{explanation, list_of_words, similar_words};
