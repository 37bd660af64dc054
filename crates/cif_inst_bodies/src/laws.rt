//! The laws, each the contract of a function without a body.

ghost use Rattle.std.specs.Prelude.{◌≡◌, ◌≤◌, Bool, ℕ, List, Option, Some, false, flat_map, length, slice_get, true};
ghost use Rattle.std.specs.List.{Contains};
ghost use Rattle.cif_ast.specs.Tree.{Tree, UpdateTrees};
ghost use Rattle.cif_ast.specs.declared.names.Ident.{Ident};
ghost use Rattle.cif_ast.specs.declared.names.Name.{Name};
ghost use Rattle.cif_system.specs.Words.{Member};
ghost use Rattle.cif_source.specs.Source.{DeclTree, EdgeTree, InstanceTree, ParamTree, Source, SourceBody, Text, TypeTree, UseTree, disc_decl};
ghost use Rattle.cif_source.specs.Components.{Component, as_written, body_of, copy, params_of};
ghost use Rattle.cif_source.specs.Lookup.{ScopeEntry, definition_found, found, reached};
ghost use Rattle.cif_source.specs.Objects.{bodies, components_of, declares, decls_of, is_automaton, most_objects, number_in, of_sort};
ghost use Rattle.cif_source.specs.Uses.{OwnName, Use, event_asked, location_asked, own_names, own_sought, sought, uses, value_asked, variable_asked};
ghost use Rattle.cif_source.specs.Scoping.{DuplicateDue, UnknownDue, WrongKindDue, found_written};
ghost use Rattle.cif_source.specs.Value.{constant};
ghost use Rattle.cif_source.specs.Types.{first_of_type, range_of};
ghost use Rattle.cif_source.specs.Demands.{demands, event_channel, is_unfit, is_unfit_for};
ghost use Rattle.cif_source.specs.Kinds.{Demand, Kind, kind_of, operands, same_kind, type_kind};
ghost use Rattle.cif_source.specs.BodyRules.{AssignedTwiceDue, AssignsTwice, EquationsDue, InitialsDue, LeadsElsewhere, MismatchDue, NotConstantDue, NotOwnDue, algs_of, definition_counts, edges_of, initial_count, lists_of, targets_of_all};
ghost use Rattle.cif_source.specs.Constants.{constants_of, types_of};
ghost use Rattle.cif_inst_model.specs.Types.{net_type};
ghost use Rattle.cif_inst_model.specs.Bodies.{every_body};
ghost use Rattle.cif_inst_bodies.specs.Alike.{AreAlike, AreWrittenAlike};
ghost use Rattle.cif_inst_bodies.specs.Arguments.{IsArgumentFor};
ghost use Rattle.cif_inst_bodies.specs.Constancy.{HasConstantNames};
ghost use Rattle.cif_inst_bodies.specs.Denoted.{DenotesEvent, DenotesLocation, DenotesValue, DenotesVariable};
ghost use Rattle.cif_inst_bodies.specs.Entries.{IsOf};

/// Each component of a source, as written, is one of its bodies: so what is said of all bodies is said of what stands in
/// each component.
pub fn components_are_written()
    ensures { (t : Source) (c : Component) → Member c (components_of t) → Member (as_written c) (bodies t) }
{}

/// From a component that is written as a body names lead to components that are written as bodies, and to what their scopes
/// declare.
pub fn names_stay_in_bodies()
    ensures { (t : Source) (c : Component) → Member (as_written c) (bodies t) → (nm : Name) (x : ScopeEntry) →
        found c nm ≡ reached x → Member (as_written x.0) (bodies t) × IsOf x.0 x.1 }
{}

/// What each body of a source passes, each of its components passes.
pub fn components_pass_what_bodies_pass()
    ensures { (t : Source) (test : SourceBody → Bool) → every_body test t ≡ true → (c : Component) →
        Member (as_written c) (bodies t) → test (body_of c) ≡ true }
{}

/// A component as written is written as itself.
pub fn writing_twice_is_writing_once()
    ensures { (c : Component) → as_written (as_written c) ≡ as_written c }
{}

/// Components that are written as one body have one body and the same parameters.
pub fn bodies_are_the_same()
    ensures { (c d : Component) → AreWrittenAlike c d → (body_of c ≡ body_of d) × (params_of c ≡ params_of d) }
{}

/// A name finds the same in components that are written as one body.
pub fn names_find_the_same()
    ensures { (c d : Component) (nm : Name) → AreWrittenAlike c d → AreAlike (found c nm) (found d nm) }
{}

/// What a name finds in one of them it finds in the other too, in a component that is written as the same body.
pub fn names_are_found_in_both()
    ensures { (c d : Component) → AreWrittenAlike c d → (nm : Name) (x : ScopeEntry) → found c nm ≡ reached x →
        (y : Component) × (found d nm ≡ reached (y, x.1)) × AreWrittenAlike x.0 y }
{}

/// What a name finds in them is the same, in bodies as written.
pub fn names_find_the_same_as_written()
    ensures { (c d : Component) (nm : Name) → AreWrittenAlike c d → found_written c nm ≡ found_written d nm }
{}

/// An instance finds the same definition in components that are written as one body; it is not looked up through instances.
pub fn definitions_are_found_the_same()
    ensures { (c d : Component) (i : InstanceTree) → AreWrittenAlike c d →
        AreAlike (definition_found c i) (definition_found d i) }
{}

/// Components that are written as one body use the same names.
pub fn uses_are_the_same()
    ensures { (c d : Component) → AreWrittenAlike c d → uses c ≡ uses d }
{}

/// What is sought under a use is the same in components that are written as one body.
pub fn uses_seek_the_same()
    ensures { (c d : Component) → AreWrittenAlike c d → (u : Use) → AreAlike (sought c u) (sought d u) }
{}

/// Components that are written as one body have the same names that are looked up in the own scope alone.
pub fn own_names_are_the_same()
    ensures { (c d : Component) → AreWrittenAlike c d → own_names c ≡ own_names d }
{}

/// What is sought under such a name is the same in components that are written as one body.
pub fn own_names_seek_the_same()
    ensures { (c d : Component) → AreWrittenAlike c d → (n : OwnName) → AreAlike (own_sought c n) (own_sought d n) }
{}

/// A type has the same kind in components that are written as one body.
pub fn types_have_the_same_kinds()
    ensures { (c d : Component) → AreWrittenAlike c d → (ty : TypeTree) → type_kind c ty ≡ type_kind d ty }
{}

/// An expression has the same kind in components that are written as one body.
pub fn expressions_have_the_same_kinds()
    ensures { (c d : Component) → AreWrittenAlike c d → (r : Kind) (e : Tree) → kind_of c r e ≡ kind_of d r e }
{}

/// The operands within an expression are asked for the same in components that are written as one body.
pub fn operands_are_asked_for_the_same()
    ensures { (c d : Component) → AreWrittenAlike c d → (r : Kind) (e : Tree) → operands c r e ≡ operands d r e }
{}

/// All positions in components that are written as one body are asked for the same.
pub fn positions_ask_for_the_same()
    ensures { (c d : Component) → AreWrittenAlike c d → demands c ≡ demands d }
{}

/// Where a source keeps the rule on kinds, each expression of each of its components has the kind that its position asks
/// for.
pub fn expressions_have_their_kinds()
    ensures { (t : Source) → ((at : ℕ) → MismatchDue t at → ⊥) → (c : Component) → Member (as_written c) (bodies t) →
        (x : Demand) → Member x (demands c) → same_kind (kind_of c x.received_kind x.value) x.kind ≡ true }
{}

/// Where a source keeps the rule on kinds, each use of an event on an edge of a component fits what is sent along the event.
pub fn uses_of_events_fit()
    ensures { (t : Source) → ((at : ℕ) → MismatchDue t at → ⊥) → (c : Component) → Member (as_written c) (bodies t) →
        (u : UseTree) → Member u (flat_map (λ (e : EdgeTree). e.uses) (edges_of c)) →
        is_unfit u.role (event_channel c u.name) ≡ false }
{}

/// Where a source keeps the rule on constants, the constant expressions of each of its components, bounds of types, values
/// of constants and first values, name constants and literals alone.
pub fn constant_expressions_are_constant()
    ensures { (t : Source) → ((at : ℕ) → NotConstantDue t at → ⊥) → (c : Component) → Member (as_written c) (bodies t) →
        (e : Tree) → Member e (constants_of c) → HasConstantNames c e }
{}

/// Where a source keeps the rule on constants, such an expression has the same value in components that are written as one
/// body.
pub fn constants_are_the_same()
    ensures { (t : Source) → ((at : ℕ) → NotConstantDue t at → ⊥) → (c d : Component) → AreWrittenAlike c d →
        Member (as_written c) (bodies t) → (e : Tree) → HasConstantNames c e → constant c e ≡ constant d e }
{}

/// Where a source keeps the rule on constants, a type of a component has the same range in components that are written as
/// one body.
pub fn ranges_are_the_same()
    ensures { (t : Source) → ((at : ℕ) → NotConstantDue t at → ⊥) → (c d : Component) → AreWrittenAlike c d →
        Member (as_written c) (bodies t) → (ty : TypeTree) → Member ty (types_of c) → range_of c ty ≡ range_of d ty }
{}

/// Where a source keeps the rule on constants, a type of a component has the same type in a net in components that are
/// written as one body.
pub fn net_types_are_the_same()
    ensures { (t : Source) → ((at : ℕ) → NotConstantDue t at → ⊥) → (c d : Component) → AreWrittenAlike c d →
        Member (as_written c) (bodies t) → (ty : TypeTree) → Member ty (types_of c) → net_type c ty ≡ net_type d ty }
{}

/// Where a source keeps the rule on constants, a variable has the same first value in components that are written as one
/// body.
pub fn first_values_are_the_same()
    ensures { (t : Source) → ((at : ℕ) → NotConstantDue t at → ⊥) → (c d : Component) → AreWrittenAlike c d →
        Member (as_written c) (bodies t) → (ty : TypeTree) (n : Ident) (e : Option Tree) →
        Member (disc_decl ty n e) (decls_of c) → first_of_type c ty e ≡ first_of_type d ty e }
{}

/// Where a source keeps its rules on names and kinds, each parameter of an instance has its argument, which fits it where
/// the instance stands. One for an event or a location is a bare name that leads to an event or a location, or to a
/// parameter of that sort, and one for an `alg` parameter has the kind of its type.
pub fn parameters_are_arguments()
    ensures { (t : Source) → ((at : ℕ) → UnknownDue t at → ⊥) → ((at : ℕ) → WrongKindDue t at → ⊥) →
        ((at : ℕ) → MismatchDue t at → ⊥) →
        (o g : Component) (n : Ident) (ps : List ParamTree) (b : SourceBody) (i : InstanceTree) →
        Member (copy o n ps b g i) (components_of t) → (k : ℕ) (p : ParamTree) → slice_get ps k ≡ Some p →
        (e : Tree) × (slice_get i.args k ≡ Some e) × (is_unfit_for g (copy o n ps b g i) e p ≡ false) ×
        IsArgumentFor (copy o n ps b g i) p g e }
{}

/// Where a source keeps its rules on names and kinds, and has no more components than the limit, a name that a component
/// uses as an event denotes one of the events, through however many instances a parameter is passed on.
pub fn event_names_denote_events()
    ensures { (t : Source) → length (components_of t) ≤ most_objects → ((at : ℕ) → UnknownDue t at → ⊥) →
        ((at : ℕ) → WrongKindDue t at → ⊥) → ((at : ℕ) → MismatchDue t at → ⊥) →
        (c : Component) → Member c (components_of t) → (nm : Name) →
        Member (record { name = nm; asks = event_asked }) (uses c) → DenotesEvent t c nm }
{}

/// Where a source keeps its rules on names and kinds, and has no more components than the limit, a name that a component
/// uses as a location denotes a location of a component.
pub fn location_names_denote_locations()
    ensures { (t : Source) → length (components_of t) ≤ most_objects → ((at : ℕ) → UnknownDue t at → ⊥) →
        ((at : ℕ) → WrongKindDue t at → ⊥) → ((at : ℕ) → MismatchDue t at → ⊥) →
        (c : Component) → Member c (components_of t) → (nm : Name) →
        Member (record { name = nm; asks = location_asked }) (uses c) → DenotesLocation t c nm }
{}

/// Where a source keeps its rules on names and kinds, and has no more components than the limit, a name that a component
/// uses as a value denotes what has a value of the kind of the name: what a component declares, or the argument for an `alg`
/// parameter, which stands in a component.
pub fn value_names_denote_values()
    ensures { (t : Source) → length (components_of t) ≤ most_objects → ((at : ℕ) → UnknownDue t at → ⊥) →
        ((at : ℕ) → WrongKindDue t at → ⊥) → ((at : ℕ) → MismatchDue t at → ⊥) →
        (c : Component) → Member c (components_of t) → (nm : Name) →
        Member (record { name = nm; asks = value_asked }) (uses c) → DenotesValue t c nm }
{}

/// Where a source keeps its rules on names, and has no more components than the limit, a name that a component uses as a
/// variable denotes one of the variables.
pub fn variable_names_denote_variables()
    ensures { (t : Source) → length (components_of t) ≤ most_objects → ((at : ℕ) → UnknownDue t at → ⊥) →
        ((at : ℕ) → WrongKindDue t at → ⊥) → (c : Component) → Member c (components_of t) → (nm : Name) →
        Member (record { name = nm; asks = variable_asked }) (uses c) → DenotesVariable t c nm }
{}

/// Where no name is declared twice, and components are no more than the limit, a declaration of a component stands at its
/// number among those of its sort, as the events or the variables.
pub fn declarations_stand_at_their_numbers()
    ensures { (t : Source) → length (components_of t) ≤ most_objects → ((at first : ℕ) → DuplicateDue t at first → ⊥) →
        (sort : DeclTree → Bool) (c : Component) (d : DeclTree) → Member c (components_of t) → Member d (decls_of c) →
        sort d ≡ true → (x : Text) → declares x d ≡ true →
        slice_get (of_sort sort t) (number_in (of_sort sort t) c x) ≡ Some (c, d) }
{}

/// Where the variables that a body assigns are its own, a name that an edge of a component assigns leads to that component,
/// and not to another instance.
pub fn assigned_variables_are_own()
    ensures { (t : Source) → ((at : ℕ) → NotOwnDue t at → ⊥) → (c : Component) → Member (as_written c) (bodies t) →
        (e : EdgeTree) → Member e (edges_of c) → (nm : Name) → Member nm (targets_of_all e.updates) →
        LeadsElsewhere c (found c nm) → ⊥ }
{}

/// Where moreover no list of updates of a body assigns a variable twice, none of a component does.
pub fn variables_are_assigned_once()
    ensures { (t : Source) → ((at : ℕ) → NotOwnDue t at → ⊥) → (c : Component) → Member (as_written c) (bodies t) →
        (e : EdgeTree) → Member e (edges_of c) → ((at : ℕ) → AssignedTwiceDue t at → ⊥) →
        (us : UpdateTrees) → Member us (lists_of e) → (at : ℕ) (a : AssignsTwice c us at) →
        Member a.earlier_name (targets_of_all e.updates) → Member a.later_name (targets_of_all e.updates) → ⊥ }
{}

/// Where each automaton that is a body has one initial location, so has each component that is an automaton.
pub fn automata_have_one_initial_location()
    ensures { (t : Source) → ((at count : ℕ) → InitialsDue t at count → ⊥) → (c : Component) →
        Member (as_written c) (bodies t) → is_automaton (body_of c) ≡ true → initial_count c ≡ 1 }
{}

/// Where each algebraic variable of a body is defined once, or once in each location, so is each of a component.
pub fn algebraic_variables_are_defined_once()
    ensures { (t : Source) → ((at count : ℕ) → EquationsDue t at count → ⊥) → (c : Component) →
        Member (as_written c) (bodies t) → (a : Ident × Option Tree) → Member a (algs_of c) →
        (n : ℕ) → Contains (definition_counts c a.0.text a.1) n → n ≡ 1 }
{}
