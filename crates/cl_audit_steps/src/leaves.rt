//! Literals, keywords, bound names and constants.
ghost use Rattle.std.specs.Prelude.{◌≡◌, [], IfOk};
ghost use Rattle.cl_c32.specs.declared.principal.Principal.{Principal};
ghost use Rattle.cl_forms.specs.Keywords.{keyword_cost};
ghost use Rattle.cl_values.specs.Tree.{BuffV, AsciiV, Utf8V, PrincipalV, depth_of};
ghost use Rattle.cl_values.specs.View.{tree_of};
ghost use Rattle.cl_values.specs.Valid.{made};
ghost use Rattle.cl_meaning.specs.Names.{name_form, keyword_form, known_form, keyword_value, standing, literal};
ghost use Rattle.cl_meaning.specs.Scope.{Scope as Around, home};
ghost use Rattle.cl_meaning.specs.Answers.{with_known};
ghost use Rattle.cl_meaning.specs.Deployed.{constant_of};
ghost use Rattle.cl_shapes.specs.declared.name.CostName.TheVariants.{Literal, Lookup};
ghost use Rattle.cl_forms.specs.Shapes.{beside};
ghost use Rattle.cl_audit_steps.specs.Seen.{seen};
ghost use Rattle.cl_audit_steps.specs.Steps.{IsStart, StartsSo};

use crate::charge::Charge;
use crate::control::wrong;
use crate::names::{Names, keyword_of};
use crate::scope::{Scope, beside};
use crate::step::{Last, Part, Start};
use cl_c32::{ContractName, Principal};
use cl_forms::Keyword;
use cl_seq::{bool_value, none, uint_value};
use cl_shapes::CostName;
use cl_types::{Name, NoMemory};
use cl_values::{Kind, Val, Value};
use std::alloc::Global;

/// A value that is known at once, charged by its size.
pub(crate) fn value_start<'a>(cost: CostName, value: Val) -> Start<'a>
    ensures { (S : Around) → StartsSo S (λ take enter s. standing cost value s) result }
{
    Start {
        charge: Some(Charge::of(cost, &value)),
        part: Part::Ends(Last::Give(value)),
    }
}

/// A literal of bytes or characters, where they are a value.
pub(crate) fn literal<'a>(kind: Kind) -> Start<'a>
    requires { depth_of (tree_of kind) ≡ 1 }
    ensures { (S : Around) → StartsSo S (λ take enter s. literal (made (tree_of kind)) s) result }
{
    match Val::make(Value { kind }) {
        Ok(value) => value_start(CostName::Literal, value),
        Err(_) => Start {
            charge: None,
            part: Part::Ends(Last::Wrong),
        },
    }
}

/// A buffer.
pub(crate) fn buff_start<'a>(alloc: Global, bytes: &[u8]) -> Result<Start<'a>, NoMemory>
    ensures { (S : Around) → IsStart S (λ take enter s. literal (made (BuffV bytes.now)) s) result }
{
    let bytes = bytes.to_vec(alloc)?;
    Ok(literal(Kind::Buff(bytes)))
}

/// A string of ASCII characters.
pub(crate) fn ascii_start<'a>(alloc: Global, bytes: &[u8]) -> Result<Start<'a>, NoMemory>
    ensures { (S : Around) →
        IsStart S (λ take enter s. literal (made (AsciiV bytes.now)) s) result }
{
    let bytes = bytes.to_vec(alloc)?;
    Ok(literal(Kind::Ascii(bytes)))
}

/// A string of Unicode characters.
pub(crate) fn utf8_start<'a>(alloc: Global, text: &[char]) -> Result<Start<'a>, NoMemory>
    ensures { (S : Around) → IsStart S (λ take enter s. literal (made (Utf8V text.now)) s) result }
{
    let text = text.to_vec(alloc)?;
    Ok(literal(Kind::Utf8(text)))
}

/// A principal as a value.
pub(crate) fn principal_value(principal: Principal) -> Val
    ensures { result ≡ PrincipalV principal }
{
    match Val::make(Value {
        kind: Kind::Principal(principal),
    }) {
        Ok(value) => value,
        Err(_) => unreachable!(),
    }
}

/// A principal that is written out.
pub(crate) fn principal_start<'a>(principal: Principal) -> Start<'a>
    ensures { (S : Around) →
        StartsSo S (λ take enter s. standing Literal (PrincipalV principal) s) result }
{
    value_start(CostName::Literal, principal_value(principal))
}

/// The name of a contract beside this one.
pub(crate) fn local_start<'a>(scope: &Scope, name: ContractName) -> Start<'a>
    ensures { (S : Around) → StartsSo S
        (λ take enter s. standing Literal
        (PrincipalV (beside scope.now.frame.now.contract name)) s) result }
{
    principal_start(beside(&scope.frame.contract, name))
}

/// The value of a keyword.
fn keyword_value(scope: &Scope, keyword: Keyword) -> Val
    ensures { result ≡ keyword_value (seen scope.now []) keyword }
{
    match keyword {
        Keyword::True => bool_value(true),
        Keyword::False => bool_value(false),
        Keyword::None => none(),
        Keyword::TxSender => principal_value(scope.frame.sender),
        Keyword::ContractCaller => principal_value(scope.frame.caller),
        Keyword::BlockHeight => uint_value(scope.frame.height),
    }
}

/// The cost of a keyword.
fn keyword_cost(keyword: Keyword) -> CostName
    ensures { result ≡ keyword_cost keyword }
{
    match keyword {
        Keyword::True | Keyword::False | Keyword::None => CostName::Literal,
        Keyword::TxSender | Keyword::ContractCaller | Keyword::BlockHeight => CostName::Context,
    }
}

/// A keyword.
pub(crate) fn keyword_start<'a>(scope: &Scope, keyword: Keyword) -> Start<'a>
    ensures { (S : Around) →
        StartsSo S (λ take enter s. keyword_form (seen scope.now []) keyword s) result }
{
    value_start(keyword_cost(keyword), keyword_value(scope, keyword))
}

/// A copy of a known value, charged by its size.
fn reads<'a>(scope: &Scope, value: &Val) -> Result<Start<'a>, NoMemory>
    ensures { (S : Around) → IsStart S (λ take enter s. standing Lookup value.now s) result }
{
    Ok(value_start(CostName::Lookup, value.copy(scope.alloc)?))
}

/// A bound name, or else a constant.
fn known_start<'a>(scope: &Scope, names: &Names, name: &Name) -> Result<Start<'a>, NoMemory>
    ensures { (S : Around) →
        IsStart S (λ take enter s. known_form (seen scope.now names.now.values) name.now s) result }
{
    match names.find(name) {
        Some(value) => reads(scope, value),
        None => constant_start(scope, name),
    }
}

/// A constant.
fn constant_start<'a>(scope: &Scope, name: &Name) -> Result<Start<'a>, NoMemory>
    ensures { (S : Around) →
        IsStart S (λ take enter s. with_known (constant_of name.now (home (seen scope.now [])))
        (standing Lookup) s) result }
{
    match scope.constant(name) {
        Some(value) => reads(scope, value),
        None => Ok(wrong()),
    }
}

/// A keyword, or else a bound name or a constant.
pub(crate) fn name_start<'a>(
    scope: &Scope,
    names: &Names,
    name: &Name,
) -> Result<Start<'a>, NoMemory>
    ensures { (S : Around) →
        IsStart S (λ take enter s. name_form (seen scope.now names.now.values) name.now s) result }
{
    match keyword_of(name) {
        Some(keyword) => Ok(keyword_start(scope, keyword)),
        None => known_start(scope, names, name),
    }
}
