//! What is told of an accepted contract.
ghost use Rattle.std.specs.Prelude.{◌≡◌, filter_map, IfOk};
ghost use Rattle.cl_nodes.specs.Accepting.{type_returned, with_type};

use cl_code::Definition;
use cl_tx::{Bounds, Row};
use cl_types::{NoMemory, SizedTy};
use std::alloc::Global;

/// What a result tells of an accepted contract: its bounds, and the type that each function
/// returns, in the order of the text.
#[derive(Drop)]
pub struct Told {
    pub bounds: Bounds,
    pub types: Row<SizedTy>,
}

/// Puts the type that a function returns behind others; another definition returns nothing.
fn push_type(
    types: &mut Vec<SizedTy>,
    alloc: Global,
    definition: &Definition,
) -> Result<(), NoMemory>
    ensures { IfOk result (λ _. types.new.items
        ≡ with_type types.old.items (type_returned definition.now)) }
{
    match definition {
        Definition::Function(function) => {
            let returns = function.returns.copy(alloc)?;
            types.push(returns)?;
            Ok(())
        }
        Definition::Constant(_) => Ok(()),
        Definition::Variable(_) => Ok(()),
        Definition::MapOf(_) => Ok(()),
        Definition::Fungible(_) => Ok(()),
        Definition::NonFungible(_) => Ok(()),
        Definition::TopLevel(_) => Ok(()),
    }
}

/// The type that each function returns, in the order of the text.
pub fn types_of(alloc: Global, definitions: &[Definition]) -> Result<Vec<SizedTy>, NoMemory>
    ensures { IfOk result (λ v. v.items ≡ filter_map type_returned definitions.now) }
{
    let mut types = Vec::new(alloc);
    for definition in definitions {
        push_type(&mut types, alloc, definition)?;
    }
    Ok(types)
}

/// What is told of a contract with these definitions and bounds.
pub fn told_of(alloc: Global, definitions: &[Definition], bounds: Bounds) -> Result<Told, NoMemory>
    ensures bounds { IfOk result (λ t. t.bounds ≡ bounds) }
    ensures types { IfOk result (λ t. t.types ≡ filter_map type_returned definitions.now) }
{
    let types = types_of(alloc, definitions)?;
    Ok(Told {
        bounds,
        types: Row::new(types),
    })
}
