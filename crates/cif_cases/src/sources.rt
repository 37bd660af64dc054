//! Cases of whole CIF sources.

ghost use Rattle.std.specs.Prelude.{IfOk};
ghost use Rattle.cif_ast.specs.Countable.{IsCountable};
ghost use Rattle.cif_ast.specs.SmallNumbers.{HasSmallNumbers};
ghost use Rattle.cif_parse.specs.Grammar.{Reads};

use crate::declarations::{decl_word, put_decls};
use case_text::{Fault, Fields, Put, put_text};
use cif_ast::{
    AutoBody, Body, Edge, EventUse, Ident, Item, Loc, Name, Role, Spec, Update, UpdateBranch,
};
use cif_base::Items;
use cif_lex::{LexErr, lex};
use cif_parse::{ParseErr, parse};
use std::alloc::Global;

/// The most bytes of a source.
const MOST_BYTES: usize = 4_194_304;

/// Why a text has no tree.
#[derive(Clone, Copy)]
pub enum NoTree {
    TooLong,
    Lex(LexErr),
    Parse(ParseErr),
}

/// The tree of a text.
pub fn spec_of(alloc: Global, text: &[u8]) -> Result<Spec, NoTree>
    ensures reads { IfOk result (Reads text.now) }
    ensures countable { IfOk result IsCountable }
    ensures small { IfOk result HasSmallNumbers }
{
    if text.len() > MOST_BYTES {
        return Err(NoTree::TooLong);
    }
    match lex(alloc, text) {
        Err(error) => Err(NoTree::Lex(error)),
        Ok(tokens) => match parse(alloc, text, tokens.as_slice()) {
            Ok(spec) => Ok(spec),
            Err(error) => Err(NoTree::Parse(error)),
        },
    }
}

pub fn put_no_tree(page: &mut String, why: NoTree) -> Result<(), Fault> {
    match why {
        NoTree::TooLong => page.push_str("  too long\n")?,
        NoTree::Lex(error) => writeln!(page, "  {error:?}")?,
        NoTree::Parse(error) => writeln!(page, "  {error:?}")?,
    }
    Ok(())
}

/// A case of a whole source.
pub fn source_case(call: &str, fields: &Fields<'_>, page: &mut String) -> Result<(), Fault> {
    let text = fields.text()?;
    match spec_of(fields.alloc, text.as_slice()) {
        Err(why) => put_no_tree(page, why),
        Ok(spec) => Ok(put_part(page, call, spec.items.as_slice())?),
    }
}

fn put_part(page: &mut String, call: &str, items: &[Item]) -> Put {
    match call {
        "items" => put_items(page, items),
        "automaton" => put_automaton(page, automaton_of(items)),
        "location" => put_location(page, location_of(items)),
        "edge" => put_edge(page, edge_of(items)),
        _ => put_choice(page, edge_of(items)),
    }
}

/// The word of an item, with that of its body where it has one.
fn item_word(item: &Item) -> &'static str {
    match item {
        Item::Decl(decl) => decl_word(decl),
        Item::Comp(comp) => match comp.body {
            Body::Group(_) => "group",
            Body::Auto(_) => "automaton",
        },
        Item::Def(_) => "def",
        Item::Inst(_) => "instance",
    }
}

fn put_items(page: &mut String, items: &[Item]) -> Put {
    page.push_str(if items.is_empty() { "  none" } else { "  " })?;
    let mut gap = "";
    for item in items {
        page.push_str(gap)?;
        page.push_str(item_word(item))?;
        gap = " ";
    }
    page.push('\n')
}

/// A name that may be missing.
fn put_target(page: &mut String, name: &Option<Ident>) -> Put {
    match name {
        Some(name) => put_text(page, name.text.as_slice()),
        None => page.push('-'),
    }
}

/// How many names there are where they are declared.
fn put_count(page: &mut String, names: &Option<Items<Name>>) -> Put {
    match names {
        Some(names) => {
            let count = names.len();
            write!(page, "{count}")
        }
        None => page.push('-'),
    }
}

fn put_automaton(page: &mut String, body: Option<&AutoBody>) -> Put {
    let Some(body) = body else {
        return page.push_str("  no automaton\n");
    };
    page.push_str("  ")?;
    put_decls(page, body.decls.as_slice())?;
    page.push_str("; alphabet ")?;
    put_count(page, &body.alphabet)?;
    page.push_str(", monitor ")?;
    put_count(page, &body.monitor)?;
    let count = body.locs.len();
    write!(page, ", locations {count}\n")
}

/// The automaton that is the last of some items.
fn automaton_of(items: &[Item]) -> Option<&AutoBody> {
    let [.., Item::Comp(comp)] = items else {
        return None;
    };
    match &comp.body {
        Body::Auto(body) => Some(body),
        Body::Group(_) => None,
    }
}

/// The first location of the automaton that is the last of some items.
fn location_of(items: &[Item]) -> Option<&Loc> {
    match automaton_of(items) {
        Some(body) => body.locs.get(0),
        None => None,
    }
}

fn put_location(page: &mut String, loc: Option<&Loc>) -> Put {
    let Some(loc) = loc else {
        return page.push_str("  no location\n");
    };
    page.push_str("  ")?;
    put_target(page, &loc.name)?;
    if loc.initial {
        page.push_str(" initial")?;
    }
    put_counts(page, loc)
}

fn put_counts(page: &mut String, loc: &Loc) -> Put {
    let marked = loc.marked.len();
    write!(page, "; marked {marked}")?;
    let equations = loc.equations.len();
    write!(page, ", equations {equations}")?;
    let edges = loc.edges.len();
    write!(page, ", edges {edges}\n")
}

/// The first edge of the first location of the automaton that is the last of some items.
fn edge_of(items: &[Item]) -> Option<&Edge> {
    match location_of(items) {
        Some(loc) => loc.edges.get(0),
        None => None,
    }
}

/// What an automaton does with each event: `=` where it synchronises, `!1` where it sends a value.
fn put_roles(page: &mut String, uses: &[EventUse]) -> Put {
    for one in uses {
        page.push_str(match &one.role {
            Role::Sync => " =",
            Role::Send(None) => " !",
            Role::Send(Some(_)) => " !1",
            Role::Recv => " ?",
        })?;
    }
    Ok(())
}

/// The form of each update.
fn put_updates(page: &mut String, updates: &[Update]) -> Put {
    for update in updates {
        page.push_str(match update {
            Update::Set { .. } => " :=",
            Update::If { .. } => " if",
        })?;
    }
    Ok(())
}

fn put_edge(page: &mut String, edge: Option<&Edge>) -> Put {
    let Some(edge) = edge else {
        return page.push_str("  no edge\n");
    };
    page.push_str("  uses")?;
    put_roles(page, edge.uses.as_slice())?;
    let guards = edge.guards.len();
    write!(page, ", guards {guards}, do")?;
    put_updates(page, edge.updates.as_slice())?;
    page.push_str(", goto ")?;
    put_target(page, &edge.target)?;
    page.push('\n')
}

/// How many conditions and updates there are in branches.
fn parts(branches: &[UpdateBranch]) -> (usize, usize) {
    let mut conds = 0usize;
    let mut updates = 0usize;
    for branch in branches {
        conds = conds.saturating_add(branch.conds.len());
        updates = updates.saturating_add(branch.updates.len());
    }
    (conds, updates)
}

/// The `if` update that is the first of an edge.
fn put_choice(page: &mut String, edge: Option<&Edge>) -> Put {
    let Some(edge) = edge else {
        return page.push_str("  no edge\n");
    };
    let Some(Update::If { branches, other }) = edge.updates.get(0) else {
        return page.push_str("  no choice\n");
    };
    put_branches(page, branches.as_slice())?;
    page.push_str(", else")?;
    put_updates(page, other.as_slice())?;
    page.push('\n')
}

fn put_branches(page: &mut String, branches: &[UpdateBranch]) -> Put {
    let count = branches.len();
    write!(page, "  branches {count}")?;
    let (conds, updates) = parts(branches);
    write!(page, ", conditions {conds}")?;
    write!(page, ", updates {updates}")
}
