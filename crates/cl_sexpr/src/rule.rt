//! The rules of a source, and what says that one is broken.
ghost use Rattle.std.specs.Prelude.{◌≡◌, []};
ghost use Rattle.cl_sexpr.specs.Leaf.{refusal};
ghost use Rattle.cl_sexpr.specs.Rules.{rule_text};

use crate::sexpr::Span;
use cl_shapes::Dimension;
use cl_types::Name;
use std::alloc::Global;

/// A rule that a source may break. The comments tell where it is broken, and the span if it isn't that of the
/// expression (from `C1` on), the item (`F1` to `F5`) or the token.
#[derive(Clone, Copy)]
pub enum Rule {
    /// T1: a byte that no text may hold, or in a string a tab, LF or CR.
    BadByte,
    /// T2: a run of bytes that is no token, or a single `;`.
    BadToken,
    /// T3: an int or uint beyond 128 bits.
    NumberTooWide,
    /// T4: the text ends within a list, tuple or string; the span is that of its opening byte.
    Unclosed,
    /// T5: a closing byte that doesn't match the innermost open one.
    StrayClose,
    /// T6: an opening byte with 64 brackets open already.
    TooNested,
    /// T7: a `\` that begins no escape; the span is that of two bytes, or up to the end of the text.
    BadEscape,
    /// T8: a token that can't stand there in a tuple, or `,` or `:` outside of one.
    BadTuple,
    /// T9: a run that begins with `'` and is no principal.
    BadAddress,
    /// T10: more than 1,048,576 bytes; the span is empty, at the beginning.
    SourceTooLong,
    /// F1: an item begins with a define word and hasn't its shape.
    BadDefinition,
    /// F2: a type isn't one, has an empty tuple or a key twice, or is above a limit.
    BadType,
    /// F3: a defined name or a parameter is reserved.
    BadName,
    /// F4: a name that this profile of the language leaves out; the span is that of the name.
    NotInProfile,
    /// F5: a name that is used already.
    NameUsed,
    /// O1: definitions name each other in a ring; the span is that of the first of them.
    Cycle,
    /// C1: an atom names nothing, or an operator is no native and no function.
    UnknownName,
    /// C2: not as many arguments as the native or the function takes.
    ArgumentCount,
    /// C3: an argument isn't of the type that is wanted.
    ArgumentKind,
    /// C4: types that have to be one have no common supertype.
    NotSame,
    /// C5: a type, or a part of one, of more than 1,048,576 bytes or entries.
    TooLarge,
    /// C6: a type deeper than 32.
    TooDeep,
    /// C7: a part that isn't determined is unwrapped, tried or matched.
    Undetermined,
    /// C8: the values that are thrown have no common supertype.
    ThrownDiffer,
    /// C9: a public function answers no response; the span is that of the function.
    NotResponse,
    /// C10: a response in the middle isn't used.
    UnusedResponse,
    /// C11: a bound name is used already, or reserved.
    ShadowedName,
    /// C12: a tuple hasn't the key.
    NoSuchKey,
    /// C13: no such variable.
    NoSuchVariable,
    /// C14: no such map.
    NoSuchMap,
    /// C15: no such token of that kind.
    NoSuchToken,
    /// C16: no such contract is deployed.
    NoSuchContract,
    /// C17: the contract hasn't the function, or it is private.
    NoSuchFunction,
    /// C18: what is mapped, filtered or folded with is no function.
    NotAFunction,
    /// C19: a literal has to stand there.
    LiteralExpected,
    /// C20: an empty list, or an operator that is no name.
    EmptyForm,
    /// C21: a name, a binding or a pair has to stand there.
    BadBinding,
    /// C22: calls deeper than 256; the span is that of the definition.
    TooDeepCalls,
    /// C23: a tuple has a key twice.
    KeyTwice,
    /// C24: a name that stands for no value.
    NotAValue,
    /// C25: a read-only function writes; the span is that of the function.
    WritesInReadOnly,
    /// B1: a bound is above 2^128-1 in this dimension; the span is that of the function, or empty at the beginning.
    BoundTooLarge(Dimension),
}

impl Rule {
    /// The number and the name of the rule, as a refusal prints them.
    pub fn text(self) -> &'static str
        ensures { result.now ≡ rule_text self }
    {
        match self {
            Rule::BadByte => "T1 BadByte",
            Rule::BadToken => "T2 BadToken",
            Rule::NumberTooWide => "T3 NumberTooWide",
            Rule::Unclosed => "T4 Unclosed",
            Rule::StrayClose => "T5 StrayClose",
            Rule::TooNested => "T6 TooNested",
            Rule::BadEscape => "T7 BadEscape",
            Rule::BadTuple => "T8 BadTuple",
            Rule::BadAddress => "T9 BadAddress",
            Rule::SourceTooLong => "T10 SourceTooLong",
            Rule::BadDefinition => "F1 BadDefinition",
            Rule::BadType => "F2 BadType",
            Rule::BadName => "F3 BadName",
            Rule::NotInProfile => "F4 NotInProfile",
            Rule::NameUsed => "F5 NameUsed",
            Rule::Cycle => "O1 Cycle",
            Rule::UnknownName => "C1 UnknownName",
            Rule::ArgumentCount => "C2 ArgumentCount",
            Rule::ArgumentKind => "C3 ArgumentKind",
            Rule::NotSame => "C4 NotSame",
            Rule::TooLarge => "C5 TooLarge",
            Rule::TooDeep => "C6 TooDeep",
            Rule::Undetermined => "C7 Undetermined",
            Rule::ThrownDiffer => "C8 ThrownDiffer",
            Rule::NotResponse => "C9 NotResponse",
            Rule::UnusedResponse => "C10 UnusedResponse",
            Rule::ShadowedName => "C11 ShadowedName",
            Rule::NoSuchKey => "C12 NoSuchKey",
            Rule::NoSuchVariable => "C13 NoSuchVariable",
            Rule::NoSuchMap => "C14 NoSuchMap",
            Rule::NoSuchToken => "C15 NoSuchToken",
            Rule::NoSuchContract => "C16 NoSuchContract",
            Rule::NoSuchFunction => "C17 NoSuchFunction",
            Rule::NotAFunction => "C18 NotAFunction",
            Rule::LiteralExpected => "C19 LiteralExpected",
            Rule::EmptyForm => "C20 EmptyForm",
            Rule::BadBinding => "C21 BadBinding",
            Rule::TooDeepCalls => "C22 TooDeepCalls",
            Rule::KeyTwice => "C23 KeyTwice",
            Rule::NotAValue => "C24 NotAValue",
            Rule::WritesInReadOnly => "C25 WritesInReadOnly",
            Rule::BoundTooLarge(_) => "B1 BoundTooLarge",
        }
    }
}

/// A rule that is broken, and where.
#[derive(Clone, Copy)]
pub struct Break {
    pub rule: Rule,
    pub span: Span,
}

/// Why a source is refused: the rule that it breaks first, where, and for a cycle the names of its definitions, each of
/// which names the next. There are no names with any other rule.
#[derive(Drop)]
pub struct Refusal {
    pub rule: Rule,
    pub span: Span,
    pub names: Vec<Name>,
}

impl Refusal {
    /// The refusal of a source that breaks a rule without names.
    pub fn of(alloc: Global, broken: Break) -> Refusal
        ensures rule { result.rule ≡ broken.rule }
        ensures span { result.span ≡ broken.span }
        ensures names { result.names.items ≡ [] }
    {
        Refusal {
            rule: broken.rule,
            span: broken.span,
            names: Vec::new(alloc),
        }
    }
}

/// The rule that is broken, from a place up to another.
pub(crate) fn broken(rule: Rule, start: u32, end: u32) -> Break
    ensures { result ≡ refusal rule start end }
{
    Break {
        rule,
        span: Span { start, end },
    }
}
