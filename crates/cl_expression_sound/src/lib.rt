//! What is typed is sound: an expression gives a value of its type, throws one of its thrown type,
//! or aborts; it costs at most its bound, and the state stays kept. Each function here is a law,
//! and does nothing.
#![tactic(auto)]

ghost use Rattle.cl_expression_sound.specs.Laws.{TypedIsSound, TypedFits};

/// In deployed contracts that hold what the contexts of their code say, a typed expression gives a
/// value of its type, throws one of its thrown type, or aborts, at each depth that is no less than
/// its height: it is never wrong and never needs more depth. The state after it is kept, and it
/// costs at most its bound in each dimension, also where it aborts. So it is with the application
/// of a function, which throws nothing.
pub fn typed_is_sound()
    ensures sound { TypedIsSound }
    ensures fits { TypedFits }
{}
