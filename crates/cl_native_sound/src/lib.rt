//! Natives on values, and the other forms that take all their arguments, give what their types say. Each function here is a
//! law, and does nothing.
#![tactic(auto)]

ghost use Rattle.cl_native_sound.specs.Laws.{NativesAreSmall, NativesEnd, NumbersAreWithin};
ghost use Rattle.cl_native_sound.specs.ValuesFit.{ValuesFit};

/// A native at values of types at which its row breaks no rule gives a value of the row's type, within the limits and no larger
/// than the type; or it aborts by arithmetic or panics, where it may. It is never undefined. It is charged by no greater a number
/// than at the types.
pub fn natives_are_sound()
    ensures ends { NativesEnd }
    ensures small { NativesAreSmall }
    ensures numbers { NumbersAreWithin }
{}

/// What natives, tuples, parts of tuples and shortened sequences come to is of the types of their rows; sequences have entries of
/// their entry types, some of which, joined again, are a value of the same type; and values of one type are a list, where its type
/// can be made.
pub fn values_fit_types()
    ensures { ValuesFit }
{}
