//! Definitions, and what they are once their types are read.
ghost use Rattle.std.specs.Prelude.{◌≡◌, IfOk, option_map};
ghost use Rattle.cl_forms.specs.Forms.{VariableForm, NonFungibleForm, FunctionForm};
ghost use Rattle.cl_forms.specs.FormView.{plain_kind};
ghost use Rattle.cl_forms.specs.ItemView.{plain_draft};
ghost use Rattle.cl_forms.specs.Items.{kind_of, map_form, typed};
ghost use Rattle.cl_forms.specs.WrittenTypes.{written_type};

use crate::form::FormKind;
use crate::types::{typed, written_type};
use cl_sexpr::Sexpr;
use cl_types::{Access, Name, NoMemory, SizedTy};
use std::alloc::Global;

/// A definition, its types as the text writes them.
pub(crate) enum Draft {
    Constant(Sexpr),
    Variable(Sexpr, Sexpr),
    MapOf(Sexpr, Sexpr),
    Fungible(Option<Sexpr>),
    NonFungible(Sexpr),
    Function(Access, Vec<(Name, Sexpr)>, Sexpr),
}

impl Drop for Draft {
    fn drop(self) {
        match self {
            Draft::Constant(value) => drop(value),
            Draft::Variable(ty, value) => {
                drop(ty);
                drop(value);
            }
            Draft::MapOf(key, value) => {
                drop(key);
                drop(value);
            }
            Draft::Fungible(supply) => drop(supply),
            Draft::NonFungible(id) => drop(id),
            Draft::Function(_, params, body) => {
                drop(params);
                drop(body);
            }
        }
    }
}

impl Draft {
    /// What a definition is, if each of its types is one.
    pub(crate) fn kind_of(self, alloc: Global) -> Result<Option<FormKind>, NoMemory>
        ensures { IfOk result (λ o. option_map plain_kind o ≡ kind_of (plain_draft self)) }
    {
        match self {
            Draft::Constant(e) => Ok(Some(FormKind::Constant(e))),
            Draft::Variable(t, e) => variable(alloc, t, e),
            Draft::MapOf(k, v) => map_of(alloc, &k, &v),
            Draft::Fungible(supply) => Ok(Some(FormKind::Fungible(supply))),
            Draft::NonFungible(t) => non_fungible(alloc, &t),
            Draft::Function(access, params, body) => function(alloc, access, &params, body),
        }
    }
}

fn variable(alloc: Global, ty: Sexpr, value: Sexpr) -> Result<Option<FormKind>, NoMemory>
    ensures { IfOk result (λ o. option_map plain_kind o ≡ option_map (λ t. VariableForm t value) (written_type ty)) }
{
    match written_type(alloc, &ty)? {
        Some(ty) => Ok(Some(FormKind::Variable(ty, value))),
        None => Ok(None),
    }
}

/// The types of keys and of values.
fn both(
    alloc: Global,
    key: &Sexpr,
    value: &Sexpr,
) -> Result<(Option<SizedTy>, Option<SizedTy>), NoMemory>
    ensures { IfOk result (λ p. (p.0 ≡ written_type key.now) × (p.1 ≡ written_type value.now)) }
{
    let key = written_type(alloc, key)?;
    let value = written_type(alloc, value)?;
    Ok((key, value))
}

fn map_by(key: Option<SizedTy>, value: Option<SizedTy>) -> Option<FormKind>
    ensures { option_map plain_kind result ≡ map_form key value }
{
    match (key, value) {
        (Some(key), Some(value)) => Some(FormKind::MapOf(key, value)),
        _ => None,
    }
}

fn map_of(alloc: Global, key: &Sexpr, value: &Sexpr) -> Result<Option<FormKind>, NoMemory>
    ensures { IfOk result (λ o. option_map plain_kind o ≡ map_form (written_type key.now) (written_type value.now)) }
{
    let (key, value) = both(alloc, key, value)?;
    Ok(map_by(key, value))
}

fn non_fungible(alloc: Global, ty: &Sexpr) -> Result<Option<FormKind>, NoMemory>
    ensures { IfOk result (λ o. option_map plain_kind o ≡ option_map NonFungibleForm (written_type ty.now)) }
{
    match written_type(alloc, ty)? {
        Some(ty) => Ok(Some(FormKind::NonFungible(ty))),
        None => Ok(None),
    }
}

fn function(
    alloc: Global,
    access: Access,
    params: &[(Name, Sexpr)],
    body: Sexpr,
) -> Result<Option<FormKind>, NoMemory>
    ensures { IfOk result (λ o. option_map plain_kind o ≡ option_map (λ ps. FunctionForm access ps body) (typed params.now)) }
{
    match typed(alloc, params)? {
        Some(params) => Ok(Some(FormKind::Function {
            access,
            params,
            body,
        })),
        None => Ok(None),
    }
}
