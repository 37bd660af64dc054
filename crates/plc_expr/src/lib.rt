//! Expressions of a net as Structured Text: the expression, and the statements that are executed before it.
#![tactic(auto)]

mod draft;
mod forms;
mod laws;
mod names;
mod shapes;

pub use draft::Draft;
pub use forms::{
    absolute_of, comparison_of, conjunction_of, disjunction_of, equality_of, factor_of,
    greatest_of, implication_of, least_of, minus_of, number_of, product_of, sum_of, term_of,
};
pub use laws::{
    kinds_tell_what_is_boolean, named_things_are_there, own_variables_have_types,
    statements_before_a_text_break_no_check, statements_before_a_text_have_a_spelling,
    statements_before_a_text_prepare_it, texts_have_a_spelling, texts_have_the_sort,
    texts_have_the_value,
};
pub use names::{Names, PlaceText};
