//! Definitions.
use crate::code::Code;
use cl_sexpr::Span;
use cl_types::{Access, Name, SizedTy};

/// A constant of a contract, and the bytes of the text that its definition is spelled by.
#[derive(Drop)]
pub struct Constant {
    pub name: Name,
    pub value: Code,
    pub span: Span,
}

/// A variable of a contract: its type, its first value, and the bytes of the text that its
/// definition is spelled by.
pub struct Variable {
    pub name: Name,
    pub ty: SizedTy,
    pub value: Code,
    pub span: Span,
}

impl Drop for Variable {
    fn drop(self) {
        let Variable {
            name: _,
            ty,
            value,
            span: _,
        } = self;
        drop(ty);
        drop(value);
    }
}

/// A map of a contract: the types of its keys and its values, and the bytes of the text that its
/// definition is spelled by.
pub struct MapOf {
    pub name: Name,
    pub key: SizedTy,
    pub value: SizedTy,
    pub span: Span,
}

impl Drop for MapOf {
    fn drop(self) {
        let MapOf {
            name: _,
            key,
            value,
            span: _,
        } = self;
        drop(key);
        drop(value);
    }
}

/// A fungible token with its greatest supply, if it has one, and the bytes of the text that its
/// definition is spelled by.
#[derive(Drop)]
pub struct Fungible {
    pub name: Name,
    pub supply: Option<Code>,
    pub span: Span,
}

/// A non-fungible token with the type of an asset's id, and the bytes of the text that its
/// definition is spelled by.
#[derive(Drop)]
pub struct NonFungible {
    pub name: Name,
    pub id: SizedTy,
    pub span: Span,
}

/// A function of a contract: its parameters with their types, the type that it gives, the height of
/// its application, its body, and the bytes of the text that its definition is spelled by.
pub struct Function {
    pub name: Name,
    pub access: Access,
    pub params: Vec<(Name, SizedTy)>,
    pub returns: SizedTy,
    pub height: u32,
    pub body: Code,
    pub span: Span,
}

impl Drop for Function {
    fn drop(self) {
        let Function {
            name: _,
            access: _,
            params,
            returns,
            height: _,
            body,
            span: _,
        } = self;
        drop(params);
        drop(returns);
        drop(body);
    }
}

/// An expression at the top of a contract, and the bytes of the text that it is spelled by.
#[derive(Drop)]
pub struct TopLevel {
    pub value: Code,
    pub span: Span,
}

/// A definition of a contract, or an expression at its top, with typed trees for the expressions.
pub enum Definition {
    Constant(Constant),
    Variable(Variable),
    MapOf(MapOf),
    Fungible(Fungible),
    NonFungible(NonFungible),
    Function(Function),
    TopLevel(TopLevel),
}

impl Drop for Definition {
    fn drop(self) {
        match self {
            Definition::Constant(constant) => drop(constant),
            Definition::Variable(variable) => drop(variable),
            Definition::MapOf(map) => drop(map),
            Definition::Fungible(token) => drop(token),
            Definition::NonFungible(token) => drop(token),
            Definition::Function(function) => drop(function),
            Definition::TopLevel(expression) => drop(expression),
        }
    }
}
