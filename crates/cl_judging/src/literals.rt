//! Literals.
ghost use Rattle.std.specs.Prelude.{◌≡◌, length, IfOk};
ghost use Rattle.cl_types.specs.Types.{AsciiType, BuffType, IntType, PrincipalType, UintType, Utf8Type};
ghost use Rattle.cl_sexpr.specs.Tree.{LeafAt, Ascii as AsciiLeaf, Bytes, Local as LocalLeaf, Signed, Standing as StandingLeaf, Unicode, Unsigned};
ghost use Rattle.cl_code.specs.Typed.{expression_of};
ghost use Rattle.cl_rules.specs.NativeTypes.{made};
ghost use Rattle.cl_judging.specs.Walking.{FineAs, RuledAs};

use crate::leaves::{typed, value};
use cl_c32::{ContractName, Principal};
use cl_code::Op;
use cl_sexpr::{Break, Span};
use cl_types::{Fault, TyKind};
use cl_typing::{Checked, ascii_of, buffer_of, of, utf8_of};
use std::alloc::Global;

/// An int.
#[tactic(auto, unfolding(cl_code::specs::Nodes::has_own_name, cl_code::specs::Nodes::goes_op))]
pub(crate) fn int(alloc: Global, z: i128, span: Span) -> Result<Checked, Fault<Break>>
    ensures found { FineAs IntType span result }
    ensures text { IfOk result (λ c. expression_of c.code ≡ LeafAt (Signed z) span) }
{
    let ty = of(alloc, TyKind::Int)?;
    typed(alloc, Op::Int(z), ty, span)
}

/// A uint.
#[tactic(auto, unfolding(cl_code::specs::Nodes::has_own_name, cl_code::specs::Nodes::goes_op))]
pub(crate) fn uint(alloc: Global, n: u128, span: Span) -> Result<Checked, Fault<Break>>
    ensures found { FineAs UintType span result }
    ensures text { IfOk result (λ c. expression_of c.code ≡ LeafAt (Unsigned n) span) }
{
    let ty = of(alloc, TyKind::Uint)?;
    typed(alloc, Op::Uint(n), ty, span)
}

/// A principal that is written out.
#[tactic(auto, unfolding(cl_code::specs::Nodes::has_own_name, cl_code::specs::Nodes::goes_op))]
pub(crate) fn standing(alloc: Global, p: &Principal, span: Span) -> Result<Checked, Fault<Break>>
    ensures found { FineAs PrincipalType span result }
    ensures text { IfOk result (λ c. expression_of c.code ≡ LeafAt (StandingLeaf p.now) span) }
{
    let ty = of(alloc, TyKind::Principal)?;
    typed(alloc, Op::Standing(*p), ty, span)
}

/// A contract under the address of the contract that is checked.
#[tactic(auto, unfolding(cl_code::specs::Nodes::has_own_name, cl_code::specs::Nodes::goes_op))]
pub(crate) fn local(alloc: Global, c: &ContractName, span: Span) -> Result<Checked, Fault<Break>>
    ensures found { FineAs PrincipalType span result }
    ensures text { IfOk result (λ k. expression_of k.code ≡ LeafAt (LocalLeaf c.now) span) }
{
    let ty = of(alloc, TyKind::Principal)?;
    typed(alloc, Op::Local(*c), ty, span)
}

/// A buffer.
#[tactic(auto, unfolding(cl_code::specs::Nodes::has_own_name, cl_code::specs::Nodes::goes_op))]
pub(crate) fn buff(alloc: Global, bytes: &[u8], span: Span) -> Result<Checked, Fault<Break>>
    ensures found { RuledAs (made (BuffType (length bytes.now))) span result }
    ensures text { IfOk result (λ c. expression_of c.code ≡ LeafAt (Bytes bytes.now) span) }
{
    let ruled = buffer_of(alloc, bytes.len() as u128);
    let copy = bytes.to_vec(alloc)?;
    value(alloc, Op::Buff(copy), ruled, span)
}

/// A string of ASCII characters.
#[tactic(auto, unfolding(cl_code::specs::Nodes::has_own_name, cl_code::specs::Nodes::goes_op))]
pub(crate) fn ascii(alloc: Global, text: &[u8], span: Span) -> Result<Checked, Fault<Break>>
    ensures found { RuledAs (made (AsciiType (length text.now))) span result }
    ensures text { IfOk result (λ c. expression_of c.code ≡ LeafAt (AsciiLeaf text.now) span) }
{
    let ruled = ascii_of(alloc, text.len() as u128);
    let copy = text.to_vec(alloc)?;
    value(alloc, Op::Ascii(copy), ruled, span)
}

/// A string of Unicode characters.
#[tactic(auto, unfolding(cl_code::specs::Nodes::has_own_name, cl_code::specs::Nodes::goes_op))]
pub(crate) fn utf8(alloc: Global, text: &[char], span: Span) -> Result<Checked, Fault<Break>>
    ensures found { RuledAs (made (Utf8Type (length text.now))) span result }
    ensures text { IfOk result (λ c. expression_of c.code ≡ LeafAt (Unicode text.now) span) }
{
    let ruled = utf8_of(alloc, text.len() as u128);
    let copy = text.to_vec(alloc)?;
    value(alloc, Op::Utf8(copy), ruled, span)
}
