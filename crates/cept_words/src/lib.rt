//! Lines and words of scripts and drawings: bytes cut into lines, lines into words, words of one or two digits. It knows
//! no command and no figure.
#![tactic(auto)]

mod cutting;
mod lines;
mod numbers;
mod words;

pub use lines::{LINE_END, first_line};
pub use numbers::number;
pub use words::{first_word, four_words, next_word, one_word, two_words};
