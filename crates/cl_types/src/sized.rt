//! Types within the limits.
ghost use Rattle.std.specs.Prelude.{◌≡◌, ◌≤◌, true, Ok, Err, Some, None, IfOk, if◌then◌else◌};
ghost use Rattle.cl_types.specs.Fault.{IfRefused};
ghost use Rattle.cl_types.specs.Types.{size_of, depth_of};
ghost use Rattle.cl_types.specs.Sized.{IsSized, most_size, most_depth, everywhere, keys_rise, is_within, made};

use crate::depth::depth_of;
use crate::keys::{has_keys, has_rising_keys};
use crate::measure::measured;
use crate::order::sort;
use crate::{Fault, NoMemory, Ty};
use std::alloc::Global;
use std::marker::Model;

/// Who may call a function of a contract.
#[derive(Clone, Copy)]
pub enum Access {
    /// Called by anyone; it may change the state.
    Public,
    /// Called by anyone; it changes nothing.
    ReadOnly,
    /// Called by its own contract alone.
    Private,
}

/// Why there is no type.
#[derive(Clone, Copy)]
pub enum TyRefusal {
    /// No type admits both.
    Differ,
    /// A type or a part of it is above 1,048,576 in size, or in the length that it states.
    TooLarge,
    /// A type is deeper than 32.
    TooDeep,
    /// A tuple has no key.
    EmptyTuple,
    /// A key stands twice in a tuple.
    KeyTwice,
}

/// A type within the limits: its depth is at most 32, the size of each part and each greatest length
/// are at most 1,048,576, and each tuple has a key and keys that rise bytewise. It knows its size.
/// Contracts see it as the tree, and each one is an `IsSized`.
pub struct SizedTy {
    ty: Ty,
    size: u32,
}

impl Drop for SizedTy {
    fn drop(self) {
        let SizedTy { ty, size: _ } = self;
        drop(ty);
    }
}

impl Model for SizedTy {
    ghost use Rattle.std.specs.Prelude.{◌≡◌};
    ghost use Rattle.cl_types.specs.Types.{PlainType, size_of};
    ghost use Rattle.cl_types.specs.TypeCode.{type_code};
    ghost use Rattle.cl_types.specs.Sized.{IsSized};

    ghost Value = { PlainType };

    ghost coded = { type_code };

    ghost view = { λ t. t.ty };

    ghost invariant = { λ t. record {
      sized : IsSized t.ty;
      counted : t.size ≡ size_of t.ty;
    } };
}

impl SizedTy {
    /// The greatest depth of a type.
    pub const MOST_DEPTH: u32 = 32;

    /// The greatest size of a type, and the greatest length of a list, buffer or string.
    pub const MOST_SIZE: u32 = 1_048_576;

    /// The type of a tree, its keys put in order, or the first refusal that holds anywhere in it, in
    /// the order `EmptyTuple`, `KeyTwice`, `TooDeep`, `TooLarge`. The depth of the tree is at most 128.
    pub fn make(alloc: Global, mut ty: Ty) -> Result<SizedTy, Fault<TyRefusal>>
        requires { depth_of ty ≤ 128 }
        ensures found { IfOk result (λ t. made ty ≡ Ok t) }
        ensures broken { IfRefused result (λ r. made ty ≡ Err r) }
    {
        if !has_keys(&ty) {
            return Err(Fault::Refused(TyRefusal::EmptyTuple));
        }
        sort(alloc, &mut ty)?;
        if !has_rising_keys(&ty) {
            return Err(Fault::Refused(TyRefusal::KeyTwice));
        }
        if depth_of(&ty) > SizedTy::MOST_DEPTH {
            return Err(Fault::Refused(TyRefusal::TooDeep));
        }
        match measured(&ty) {
            None => Err(Fault::Refused(TyRefusal::TooLarge)),
            Some(size) => Ok(SizedTy { ty, size }),
        }
    }

    /// The type of a tree whose keys are in order, unless it or a part of it is too large.
    pub(crate) fn of_ordered(ty: Ty) -> Option<SizedTy>
        requires keys { everywhere keys_rise ty ≡ true }
        requires depth { depth_of ty ≤ most_depth }
        ensures { result ≡ (if everywhere is_within ty then Some ty else None) }
    {
        let size = measured(&ty)?;
        Some(SizedTy { ty, size })
    }

    /// The tree.
    pub fn ty(&self) -> &Ty
        ensures tree { result.now ≡ self.now }
        ensures sized { IsSized result.now }
    {
        &self.ty
    }

    /// The tree, given away.
    pub fn into_ty(self) -> Ty
        ensures tree { result ≡ self }
        ensures sized { IsSized result }
    {
        let SizedTy { ty, size: _ } = self;
        ty
    }

    /// A copy of the type.
    pub fn copy(&self, alloc: Global) -> Result<SizedTy, NoMemory>
        ensures { IfOk result (λ t. t ≡ self.now) }
    {
        let ty = self.ty.copy(alloc)?;
        Ok(SizedTy {
            ty,
            size: self.size,
        })
    }
}

/// The size of a type, in bytes: no value of it has a longer wire form (SIP-005). This takes no walk.
pub fn size(t: &SizedTy) -> u32
    ensures counted { result ≡ size_of t.now }
    ensures within { result ≤ most_size }
{
    t.size
}
