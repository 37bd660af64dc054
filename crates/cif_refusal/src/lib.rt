//! Why a source is refused: each cause with its number, its name and its fields, and the text that is told of it.
#![tactic(auto)]

mod refusal;
mod texts;

pub use refusal::{Refusal, refusal_text};
pub use texts::{decimal_text, joined, with_number, with_numbers};
