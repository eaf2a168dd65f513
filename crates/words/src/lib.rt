//! Lines of text: their words, and the numbers that words write.
#![tactic(auto)]

mod lines;
mod numbers;

pub use lines::{is_printable, next_word, place_of, push_words, uncommented};
pub use numbers::number;
