//! The places to which edges lead.

ghost use Rattle.std.specs.Prelude.{◌≡◌};
ghost use Rattle.cif_inst_automata.specs.Targets.{target_place};

use cif_ast::Ident;
use cif_inst_names::Looking;
use cif_inst_paths::body_number;
use cif_scope::What;

/// The place of the location of a component with this name, and `count` where there is none.
pub(crate) fn place(looking: &Looking<'_, '_>, component: u32, name: &Ident, count: u32) -> u32
    ensures { result ≡ target_place looking.now component name.now count }
{
    let body = body_number(looking.components, component);
    match looking.scopes.own(body, &name.text) {
        Some(slot) => match looking.scopes.what(body, slot) {
            Some(What::Location(place)) => place,
            _ => count,
        },
        None => count,
    }
}
