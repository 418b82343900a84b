//! Why a text is no value.
use cl_sexpr::{Refusal, Span};

/// Why a text is no value. The first that holds is answered.
#[derive(Drop)]
pub enum TextRefusal {
    /// The text breaks a rule of texts.
    Syntax(Refusal),
    /// The text isn't one item: the span is the whole text. Or this part, the first from the left,
    /// is no literal while all around it are.
    NotALiteral { span: Span },
    /// The value is deeper than 32; the span is the whole item.
    TooDeep { span: Span },
    /// The value's wire form is above 1,048,576 bytes; the span is the whole item.
    TooLarge { span: Span },
}
