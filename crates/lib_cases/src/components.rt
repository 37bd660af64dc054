//! Cases of the components of a source by numbers.

use crate::rules::constant_of;
use crate::sources::tree_of;
use case_text::{Fault, Fields, Put, first_word, number};
use cif_ast::{Form, Name};
use cif_inst_components::{Components, number_components};
use cif_resolve::resolve;
use cif_scope::Scopes;

fn put_component(page: &mut String, components: &Components, number: u32) -> Put {
    let Some(one) = components.get(number) else {
        return Ok(());
    };
    write!(page, "  body {}", one.body)?;
    if let Some(stands) = one.stands {
        write!(page, " at {}:{}", stands.component, stands.slot)?;
    }
    if let Some(outer) = components.outer(number) {
        write!(page, " in {outer}")?;
    }
    page.push('\n')
}

/// The components, each with its body, where it stands, and its outer component.
pub fn put_components(page: &mut String, components: &Components) -> Result<(), Fault> {
    for number in 0..cif_scope::number(components.len())? {
        put_component(page, components, number)?;
    }
    Ok(())
}

fn put_found(
    page: &mut String,
    scopes: &Scopes,
    components: &Components,
    component: u32,
    name: &Name,
) -> Put {
    match components.find(scopes, component, name) {
        Some(place) => writeln!(page, "  {}:{}", place.component, place.slot),
        None => page.push_str("  nothing\n"),
    }
}

/// `from COMPONENT NAME | TEXT`: what the name finds from the component with this number, as the number of a component and that of
/// a name of its scope.
pub fn from_case(fields: &Fields<'_>, page: &mut String) -> Result<(), Fault> {
    let (component, name) = first_word(fields.written(0));
    let component = number(component)?;
    let asked = format!(in fields.alloc; "const int x = {name};")?;
    let asked = tree_of(fields.alloc, asked.as_bytes())?;
    let Some(Form::Named(name)) = constant_of(asked.items.as_slice()).map(|value| &value.form)
    else {
        return Err(Fault::Form("no name"));
    };
    let text = fields.bytes_of(fields.written(1))?;
    let spec = tree_of(fields.alloc, text.as_slice())?;
    match resolve(fields.alloc, &spec) {
        Err(error) => Ok(writeln!(page, "  {error:?}")?),
        Ok(scopes) => match number_components(fields.alloc, &spec, &scopes) {
            Err(error) => Ok(writeln!(page, "  {error:?}")?),
            Ok(components) => Ok(put_found(page, &scopes, &components, component, name)?),
        },
    }
}
