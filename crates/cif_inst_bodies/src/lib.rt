//! That the components of a CIF source are its bodies as written, that names, kinds and constants are the same in both, and what
//! names of components denote, as laws for the crates above (CIF 3 language reference, "Component definition and
//! instantiation", "Scoping").
#![tactic(auto)]

mod laws;

pub use laws::{
    algebraic_variables_are_defined_once, assigned_variables_are_own,
    automata_have_one_initial_location, bodies_are_the_same, components_are_written,
    components_pass_what_bodies_pass, constant_expressions_are_constant, constants_are_the_same,
    declarations_stand_at_their_numbers, definitions_are_found_the_same, event_names_denote_events,
    expressions_have_the_same_kinds, expressions_have_their_kinds, first_values_are_the_same,
    location_names_denote_locations, names_are_found_in_both, names_find_the_same,
    names_find_the_same_as_written, names_stay_in_bodies, net_types_are_the_same,
    operands_are_asked_for_the_same, own_names_are_the_same, own_names_seek_the_same,
    parameters_are_arguments, positions_ask_for_the_same, ranges_are_the_same,
    types_have_the_same_kinds, uses_are_the_same, uses_of_events_fit, uses_seek_the_same,
    value_names_denote_values, variable_names_denote_variables, variables_are_assigned_once,
    writing_twice_is_writing_once,
};
