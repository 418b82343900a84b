//! The definitions of a contract.
use cl_sexpr::{Sexpr, Span};
use cl_types::{Access, Name, SizedTy};
use std::marker::Model;

/// What a form is (SIP-002).
pub enum FormKind {
    /// A constant, whose value is that of the expression.
    Constant(Sexpr),
    /// A variable with its type and the expression of its first value.
    Variable(SizedTy, Sexpr),
    /// A map with the types of its keys and its values.
    MapOf(SizedTy, SizedTy),
    /// A fungible token with the expression of its greatest supply, if it has one.
    Fungible(Option<Sexpr>),
    /// A non-fungible token with the type of an asset's id.
    NonFungible(SizedTy),
    /// A function.
    Function {
        access: Access,
        params: Vec<(Name, SizedTy)>,
        body: Sexpr,
    },
    /// A top-level expression.
    Expression(Sexpr),
}

impl Drop for FormKind {
    fn drop(self) {
        match self {
            FormKind::Constant(value) => drop(value),
            FormKind::Variable(ty, value) => {
                drop(ty);
                drop(value);
            }
            FormKind::MapOf(key, value) => {
                drop(key);
                drop(value);
            }
            FormKind::Fungible(supply) => drop(supply),
            FormKind::NonFungible(id) => drop(id),
            FormKind::Function {
                access: _,
                params,
                body,
            } => {
                drop(params);
                drop(body);
            }
            FormKind::Expression(expression) => drop(expression),
        }
    }
}

/// A definition with the name that it defines, or a top-level expression, which has none; and the bytes of the text that
/// it is spelled by. Contracts see it as plain data, with trees for items and types.
#[derive(Drop)]
pub struct Form {
    pub name: Option<Name>,
    pub kind: FormKind,
    pub span: Span,
}

impl Model for Form {
    ghost use Rattle.cl_forms.specs.Forms.{Form};
    ghost use Rattle.cl_forms.specs.FormCode.{form_code};

    ghost Value = { Form };

    ghost coded = { form_code };

    ghost use Rattle.cl_forms.specs.FormView.{plain_kind};

    ghost view = { λ f. record { name = f.name; kind = plain_kind f.kind; span = f.span } };
}
