//! Types as trees.
ghost use Rattle.std.specs.Prelude.{◌≡◌, IfOk};

use crate::Name;
use std::alloc::{AllocError, Global};
use std::marker::Model;

/// What a type is. The numbers are greatest lengths: in bytes, in characters of a UTF-8 string, in entries of a list.
#[derive(Drop)]
#[cycle(ty)]
pub enum TyKind {
    /// The type of what is not determined; no value has it.
    NoType,
    Int,
    Uint,
    Bool,
    Principal,
    Buff(u32),
    Ascii(u32),
    Utf8(u32),
    List(u32, Box<Ty>),
    /// The keys of a tuple with their types.
    Tuple(Vec<(Name, Ty)>),
    Optional(Box<Ty>),
    /// The types of an ok and of an err response.
    Response(Box<Ty>, Box<Ty>),
}

/// A type as a tree, of any size and depth, its keys in any order. Contracts see the tree.
#[cycle(ty)]
pub struct Ty {
    pub kind: TyKind,
}

impl Drop for Ty {
    #[cycle(ty)]
    fn drop(self) {
        let Ty { kind } = self;
        drop(kind);
    }
}

impl Model for Ty {
    ghost use Rattle.cl_types.specs.Types.{PlainType, weight_of};
    ghost use Rattle.cl_types.specs.TypeCode.{type_code};

    ghost Value = { PlainType };

    ghost coded = { type_code };

    ghost use Rattle.cl_types.specs.TypeView.{plain_of};

    ghost view = { λ t. plain_of t.kind };

    ghost size = { weight_of };

    ghost use Rattle.cl_types.specs.TypeFalls.{falls};

    ghost size_decreases = { λ t h. falls t.kind };
}

impl Ty {
    /// A copy of the type.
    #[cycle(copy)]
    pub fn copy(&self, alloc: Global) -> Result<Ty, AllocError>
        ensures { IfOk result (λ t. t ≡ self.now) }
    {
        let kind = match &self.kind {
            TyKind::NoType => TyKind::NoType,
            TyKind::Int => TyKind::Int,
            TyKind::Uint => TyKind::Uint,
            TyKind::Bool => TyKind::Bool,
            TyKind::Principal => TyKind::Principal,
            TyKind::Buff(most) => TyKind::Buff(*most),
            TyKind::Ascii(most) => TyKind::Ascii(*most),
            TyKind::Utf8(most) => TyKind::Utf8(*most),
            TyKind::List(most, entry) => {
                let entry = Box::new(alloc, entry.copy(alloc)?)?;
                TyKind::List(*most, entry)
            }
            TyKind::Tuple(fields) => TyKind::Tuple(copy_fields(alloc, fields)?),
            TyKind::Optional(part) => {
                let part = Box::new(alloc, part.copy(alloc)?)?;
                TyKind::Optional(part)
            }
            TyKind::Response(good, bad) => {
                let good = Box::new(alloc, good.copy(alloc)?)?;
                let bad = Box::new(alloc, bad.copy(alloc)?)?;
                TyKind::Response(good, bad)
            }
        };
        Ok(Ty { kind })
    }
}

#[cycle(copy)]
fn copy_fields(alloc: Global, fields: &[(Name, Ty)]) -> Result<Vec<(Name, Ty)>, AllocError>
    ensures { IfOk result (λ v. v.items ≡ fields.now) }
{
    let mut copies = Vec::new(alloc);
    for field in fields {
        let part = field.1.copy(alloc)?;
        copies.push((field.0, part))?;
    }
    Ok(copies)
}
