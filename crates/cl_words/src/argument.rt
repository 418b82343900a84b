//! The arguments of a call.
ghost use Rattle.std.specs.Prelude.{Ok, Err, IfOk};
ghost use Rattle.cl_types.specs.Fault.{IfRefused};
ghost use Rattle.cl_text.specs.Parsed.{outcome_of};
ghost use Rattle.cl_words.specs.Argument.{Spell};
ghost use Rattle.cl_words.specs.Words.{texts};

use cl_text::{TextRefusal, parse};
use cl_types::Fault;
use cl_values::Val;
use std::alloc::Global;

/// The values that the words spell, or why the first that spells none doesn't.
pub fn values(alloc: Global, words: &[String]) -> Result<Vec<Val>, Fault<TextRefusal>>
    ensures found { IfOk result (λ values. Spell (texts words.now) (Ok values.items)) }
    ensures broken { IfRefused result (λ r. Spell (texts words.now) (Err (outcome_of r))) }
{
    let mut values = Vec::new(alloc);
    for word in words {
        match parse(alloc, word.as_bytes()) {
            Ok(value) => values.push(value)?,
            Err(fault) => return Err(fault),
        }
    }
    Ok(values)
}
