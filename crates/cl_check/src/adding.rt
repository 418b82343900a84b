//! Names of forms are added to what stands around an expression.
ghost use Rattle.std.specs.Prelude.{◌≡◌, ◌++◌, ◌∷◌, [], false, Some, OnOk};
ghost use Rattle.cl_rules.specs.Context.{Context as Around, Signature as Signed};
ghost use Rattle.cl_judging.specs.Seen.{Shows, top_level_in, seen_under, shown};
ghost use Rattle.cl_check.specs.JudgingForms.{AddsName};

use cl_judging::{Context, Signature};
use cl_types::{Name, NoMemory, SizedTy};

pub(crate) fn add_constant(ctx: &mut Context, name: Name, ty: SizedTy) -> Result<(), NoMemory>
    requires { top_level_in ctx.old name ≡ false }
    ensures names { OnOk result (AddsName ctx.old (Some name) ctx.new) }
    ensures shown { OnOk result ((G : Around) → Shows ctx.old G → Shows ctx.new (record G { constants = G.constants ++ (name, ty) ∷ [] })) }
{
    ctx.constants.insert(name, ty)?;
    Ok(())
}

pub(crate) fn add_variable(ctx: &mut Context, name: Name, ty: SizedTy) -> Result<(), NoMemory>
    requires { top_level_in ctx.old name ≡ false }
    ensures names { OnOk result (AddsName ctx.old (Some name) ctx.new) }
    ensures shown { OnOk result ((G : Around) → Shows ctx.old G → Shows ctx.new (record G { variables = G.variables ++ (name, ty) ∷ [] })) }
{
    ctx.variables.insert(name, ty)?;
    Ok(())
}

pub(crate) fn add_map(
    ctx: &mut Context,
    name: Name,
    key: SizedTy,
    value: SizedTy,
) -> Result<(), NoMemory>
    requires { top_level_in ctx.old name ≡ false }
    ensures names { OnOk result (AddsName ctx.old (Some name) ctx.new) }
    ensures shown { OnOk result ((G : Around) → Shows ctx.old G → Shows ctx.new (record G { maps = G.maps ++ (name, (key, value)) ∷ [] })) }
{
    ctx.maps.insert(name, (key, value))?;
    Ok(())
}

pub(crate) fn add_fungible(ctx: &mut Context, name: Name) -> Result<(), NoMemory>
    requires { top_level_in ctx.old name ≡ false }
    ensures names { OnOk result (AddsName ctx.old (Some name) ctx.new) }
    ensures shown { OnOk result ((G : Around) → Shows ctx.old G → Shows ctx.new (record G { fungibles = G.fungibles ++ name ∷ [] })) }
{
    ctx.fungibles.insert(name)?;
    Ok(())
}

pub(crate) fn add_nonfungible(ctx: &mut Context, name: Name, id: SizedTy) -> Result<(), NoMemory>
    requires { top_level_in ctx.old name ≡ false }
    ensures names { OnOk result (AddsName ctx.old (Some name) ctx.new) }
    ensures shown { OnOk result ((G : Around) → Shows ctx.old G → Shows ctx.new (record G { nonfungibles = G.nonfungibles ++ (name, id) ∷ [] })) }
{
    ctx.nonfungibles.insert(name, id)?;
    Ok(())
}

pub(crate) fn add_function(
    ctx: &mut Context,
    name: Name,
    function: Signature,
) -> Result<(), NoMemory>
    requires { top_level_in ctx.old name ≡ false }
    ensures names { OnOk result (AddsName ctx.old (Some name) ctx.new) }
    ensures shown { OnOk result ((G : Around) (f : Signed) → Shows ctx.old G → seen_under f ≡ (name, shown function) → Shows ctx.new (record G { functions = G.functions ++ f ∷ [] })) }
{
    ctx.functions.insert(name, function)?;
    Ok(())
}
