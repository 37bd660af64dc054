//! That the text of a made source reads as a source, and rules that it keeps, as laws for the crates above.
#![tactic(auto)]

mod laws;

pub use laws::{
    made_sources_are_in_profile, made_sources_keep_rules, made_sources_read,
    made_trees_are_sources, written_pieces_are_tokens,
};
