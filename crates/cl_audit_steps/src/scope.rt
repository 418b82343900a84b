//! The surroundings of an expression.
ghost use Rattle.std.specs.Prelude.{◌≡◌, ◌∷◌, [], option_and_then, option_copied, option_map, Option, Some};
ghost use Rattle.cl_forms.specs.NativeRows.{row_seen};
ghost use Rattle.cl_forms.specs.Shapes.{beside};
ghost use Rattle.cl_meaning.specs.Calls.{callable, other_contract, target_of};
ghost use Rattle.cl_meaning.specs.Deployed.{as_function, contract_at, constant_of, form_of, function_in, function_of, has_map, is_map, native_of, Function as Meant};
ghost use Rattle.cl_meaning.specs.Scope.{home};
ghost use Rattle.cl_meaning.specs.Sequences.{by_row, callee_of, own};
ghost use Rattle.cl_audit_steps.specs.Seen.{contract_seen, contracts_seen, seen, some_callee, some_contract, some_function};

use crate::forms::Forms;
use crate::named_values::NamedValues;
use crate::table::ContractTable;
use cl_c32::{ContractName, Principal};
use cl_costs::CostTable;
use cl_forms::{Form, FormKind, NativeRow, Version, native};
use cl_operands::is_same;
use cl_sexpr::{Node, Sexpr, Span};
use cl_types::{Access, Name, SizedTy};
use cl_values::Val;
use std::alloc::Global;

/// Where code is evaluated.
#[derive(Clone, Copy)]
pub struct Frame {
    /// The contract whose code it is.
    pub contract: Principal,
    /// Who sent the transaction.
    pub sender: Principal,
    /// Who called the contract.
    pub caller: Principal,
    /// The height of the block.
    pub height: u128,
}

/// A contract as the auditor keeps it: its forms, with the items of their expressions.
pub struct Contract {
    pub principal: Principal,
    /// The version of its text.
    pub version: Version,
    pub forms: Forms,
    /// The length of its text, in bytes.
    pub source_length: u32,
    /// The values of its constants so far.
    pub constants: NamedValues,
}

impl Drop for Contract {
    fn drop(self) {
        let Contract {
            principal: _,
            version: _,
            forms,
            source_length: _,
            constants,
        } = self;
        drop(forms);
        drop(constants);
    }
}

/// The surroundings of an expression but for the bound names: the contracts, the frame, and the
/// costs of what is charged.
#[derive(Clone, Copy)]
pub struct Scope<'a> {
    /// Where memory comes from.
    pub alloc: Global,
    /// The contract that is being deployed, if one is.
    pub opening: Option<&'a Contract>,
    /// The deployed contracts.
    pub contracts: &'a ContractTable,
    pub frame: &'a Frame,
    pub costs: &'a CostTable,
}

/// A function of a contract.
#[derive(Clone, Copy)]
pub struct Function<'a> {
    pub name: &'a Name,
    pub access: Access,
    pub params: &'a [(Name, SizedTy)],
    pub body: &'a Sexpr,
}

/// What is given by name to `map`, `filter` and `fold`.
#[derive(Clone, Copy)]
pub enum Callee<'a> {
    /// A function of the contract.
    Function(Function<'a>),
    /// A native, with the span of its name.
    Native(NativeRow, Span),
}

/// The contract of a principal among one and others.
fn contract_with<'a>(
    opening: &'a Contract,
    contracts: &'a ContractTable,
    principal: &Principal,
) -> Option<&'a Contract>
    ensures { some_contract result ≡ contract_at principal.now
        (contract_seen opening.now ∷ contracts_seen contracts.now.contracts) }
{
    if is_same(&opening.principal, principal) {
        return Some(opening);
    }
    contracts.find(principal)
}

/// The function that a form defines.
fn as_function<'a>(name: &'a Name, form: &'a Form) -> Option<Function<'a>>
    ensures { some_function result ≡ as_function name.now form.now.kind }
{
    match &form.kind {
        FormKind::Function {
            access,
            params,
            body,
        } => Some(Function {
            name,
            access: *access,
            params,
            body,
        }),
        _ => None,
    }
}

/// Whether a form defines a map.
fn is_map(form: Option<&Form>) -> bool
    ensures { result ≡ is_map (option_map (λ f. f.kind) (option_copied form.entry)) }
{
    match form {
        Some(form) => match &form.kind {
            FormKind::MapOf(_, _) => true,
            _ => false,
        },
        None => false,
    }
}

/// A function that other contracts may call.
fn callable<'a>(function: Option<Function<'a>>) -> Option<Function<'a>>
    ensures { some_function result ≡ option_and_then callable (some_function function.entry) }
{
    match function {
        Some(function) => match function.access {
            Access::Public | Access::ReadOnly => Some(function),
            Access::Private => None,
        },
        None => None,
    }
}

/// A native, where it can be given by name.
fn native_given<'a>(row: NativeRow, span: Span) -> Option<Callee<'a>>
    ensures { (function : Option Meant) →
        some_callee result ≡ by_row span (Some (row_seen row)) function }
{
    if row.by_name {
        Some(Callee::Native(row, span))
    } else {
        None
    }
}

/// The contract of a name beside another.
pub(crate) fn beside(contract: &Principal, name: ContractName) -> Principal
    ensures { result ≡ beside contract.now name }
{
    Principal {
        address: contract.address,
        contract: Some(name),
    }
}

impl Contract {
    /// The function of a name.
    pub fn function<'a>(&'a self, name: &'a Name) -> Option<Function<'a>>
        ensures { some_function result ≡ function_in name.now (contract_seen self.now).forms }
    {
        match self.forms.find(name) {
            Some(form) => as_function(name, form),
            None => None,
        }
    }

    /// The function of a name, where other contracts may call it.
    pub fn callable<'a>(&'a self, name: &'a Name) -> Option<Function<'a>>
        ensures { some_function result ≡
            option_and_then callable (function_in name.now (contract_seen self.now).forms) }
    {
        callable(self.function(name))
    }

    /// Whether the contract has a map of a name.
    fn has_map(&self, name: &Name) -> bool
        ensures { result ≡ is_map (form_of name.now (contract_seen self.now).forms) }
    {
        is_map(self.forms.find(name))
    }
}

impl<'a> Scope<'a> {
    /// The contract of a principal: the one that is being deployed, or a deployed one.
    fn contract(&self, principal: &Principal) -> Option<&'a Contract>
        ensures { some_contract result ≡ contract_at principal.now (seen self.now []).deployed }
    {
        match self.opening {
            Some(opening) => contract_with(opening, self.contracts, principal),
            None => self.contracts.find(principal),
        }
    }

    /// The contract whose code is evaluated.
    pub fn home(&self) -> Option<&'a Contract>
        ensures { some_contract result ≡ home (seen self.now []) }
    {
        self.contract(&self.frame.contract)
    }

    /// The value of a constant of the contract.
    pub fn constant(&self, name: &Name) -> Option<&'a Val>
        ensures { option_copied result ≡ constant_of name.now (home (seen self.now [])) }
    {
        match self.home() {
            Some(contract) => contract.constants.find(name),
            None => None,
        }
    }

    /// The native of a name, by the version of the contract's text.
    pub fn native(&self, name: &Name) -> Option<NativeRow>
        ensures { option_map row_seen result ≡ native_of name.now (home (seen self.now [])) }
    {
        match self.home() {
            Some(contract) => native(name, contract.version),
            None => None,
        }
    }

    /// The function of the contract.
    pub fn function(&self, name: &'a Name) -> Option<Function<'a>>
        ensures { some_function result ≡ function_of name.now (home (seen self.now [])) }
    {
        match self.home() {
            Some(contract) => contract.function(name),
            None => None,
        }
    }

    /// Whether the contract has a map of a name.
    pub fn has_map(&self, name: &Name) -> bool
        ensures { result ≡ has_map name.now (home (seen self.now [])) }
    {
        match self.home() {
            Some(contract) => contract.has_map(name),
            None => false,
        }
    }

    /// The function of the contract, to be given by name.
    fn own(&self, name: &'a Name) -> Option<Callee<'a>>
        ensures { some_callee result ≡ own (function_of name.now (home (seen self.now []))) }
    {
        match self.function(name) {
            Some(function) => Some(Callee::Function(function)),
            None => None,
        }
    }

    /// What is given under a name: a native that can be, or else a function of the contract.
    pub fn callee(&self, name: &'a Name, span: Span) -> Option<Callee<'a>>
        ensures { some_callee result ≡ callee_of (seen self.now []) name.now span }
    {
        match self.native(name) {
            Some(row) => native_given(row, span),
            None => self.own(name),
        }
    }

    /// The principal that an item names as a literal.
    fn target(&self, item: &Sexpr) -> Option<Principal>
        ensures { result ≡ target_of (seen self.now []) item.now }
    {
        match &item.node {
            Node::Standing(principal) => Some(*principal),
            Node::Local(name) => Some(beside(&self.frame.contract, *name)),
            _ => None,
        }
    }

    /// The contract of a principal, where it is another than the one whose code is evaluated.
    fn other(&self, principal: &Principal) -> Option<&'a Contract>
        ensures { some_contract result ≡ other_contract (seen self.now []) principal.now }
    {
        if is_same(principal, &self.frame.contract) {
            return None;
        }
        self.contract(principal)
    }

    /// The other contract that an item names as a literal.
    pub fn other_named(&self, item: &Sexpr) -> Option<&'a Contract>
        ensures { some_contract result ≡ option_and_then
            (other_contract (seen self.now [])) (target_of (seen self.now []) item.now) }
    {
        match self.target(item) {
            Some(principal) => self.other(&principal),
            None => None,
        }
    }
}
