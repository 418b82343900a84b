//! Typed trees.

use crate::op::Op;
use cl_sexpr::Span;
use cl_types::SizedTy;
use std::marker::Model;

/// A typed tree: what the node does with the values of its parts, its type, and the bytes of the
/// text that its expression is spelled by. It has fewer than 1,048,576 parts, as many as its native
/// takes, and its names are its own: no keyword is a binding or a constant, and no key of a tuple
/// stands twice. Contracts see the expression that it stands for, its type, the versions of the
/// language in which the node can stand, and its parts.
pub struct Code {
    pub op: Op,
    pub parts: Vec<Code>,
    pub ty: SizedTy,
    pub span: Span,
}

impl Drop for Code {
    fn drop(self) {
        let Code {
            op,
            parts,
            ty,
            span: _,
        } = self;
        drop(op);
        drop(parts);
        drop(ty);
    }
}

impl Model for Code {
    ghost use Rattle.std.specs.Prelude.{◌≡◌, ◌<◌, length, map, true};
    ghost use Rattle.cl_code.specs.Typed.{Typed, TypedAs, typeds, expression_of, weight_of};
    ghost use Rattle.cl_code.specs.TypedCode.{typed_code};
    ghost use Rattle.cl_code.specs.Expression.{expression};
    ghost use Rattle.cl_code.specs.Nodes.{has_own_name, has_parts, versions_of};
    ghost use Rattle.std.proofs.Common.{arith};
    ghost use Rattle.cl_code.specs.TypedFalls.{most_le};

    ghost Value = { Typed };

    ghost coded = { typed_code };

    ghost view = { λ c. TypedAs (expression c.op (map expression_of c.parts.items) c.span) c.ty (versions_of c.op) (typeds c.parts.items) };

    ghost invariant = { λ c. record {
      few : length c.parts.items < 1048576;
      fit : has_parts c.op (length c.parts.items) ≡ true;
      named : has_own_name c.op ≡ true;
    } };

    ghost size = { weight_of };

    ghost size_decreases = { λ c h. omega (arith, most_le c.parts.items) };
}

impl Code {
    ghost use Rattle.std.specs.Prelude.{◌≡◌, ◌<◌, map, length, true};
    ghost use Rattle.cl_code.specs.Typed.{TypedAs, typeds, expression_of, type_of};
    ghost use Rattle.cl_code.specs.Expression.{expression};
    ghost use Rattle.cl_code.specs.Nodes.{has_own_name, has_parts, versions_of};

    /// No node has as many parts.
    pub const TOO_MANY_PARTS: usize = 1_048_576;

    /// The node with these parts. This takes no memory.
    pub fn make(op: Op, parts: Vec<Code>, ty: SizedTy, span: Span) -> Code
        requires few { length parts.items < 1048576 }
        requires fit { has_parts op (length parts.items) ≡ true }
        requires named { has_own_name op ≡ true }
        ensures { result ≡ TypedAs (expression op (map expression_of parts.items) span) ty
            (versions_of op) (typeds parts.items) }
    {
        Code {
            op,
            parts,
            ty,
            span,
        }
    }

    /// The type of the expression.
    pub fn result(&self) -> &SizedTy
        ensures { result.now ≡ type_of self.now }
    {
        &self.ty
    }
}
