//! The laws of typing, of the first break, and of the plain program that judges. Each function here is a law, and does
//! nothing.
ghost use Rattle.cl_rules.specs.Laws.{AcceptedIsClean, OneDefined, OneFirstOf, OneOrder, OrderedIsClean, OneFirstUnordered, TextDecided, TextWalkIsFirst, OneType, TypedIsClean, NeverBoth, OneFirst, WalkIsFirst, Decided, OneEnd, TypedFormsAreClean, FormsNeverBoth, OneFirstForm, FormsWalkIsFirst, FormsDecided, JudgedIsTyped, JudgedIsStop, FormsJudgedAreTyped, FormsJudgedStop, BoundStopIsFirst, NoStopIsBounded};

/// An expression has one type, thrown type, height and bound, or one first break, and not both.
pub fn one_answer()
    ensures one_type { OneType }
    ensures clean { TypedIsClean }
    ensures never_both { NeverBoth }
    ensures one_first { OneFirst }
    ensures decided { Decided }
{}

/// Forms in the order of evaluation define one thing, or have one first break, and not both.
pub fn forms_have_one_answer()
    ensures one_end { OneEnd }
    ensures clean { TypedFormsAreClean }
    ensures never_both { FormsNeverBoth }
    ensures one_first { OneFirstForm }
    ensures decided { FormsDecided }
{}

/// A walk that looks at each expression's shape, at its parts from the left and then at what is found of them stops at the
/// first break.
pub fn a_walk_stops_at_the_first_break()
    ensures expressions { WalkIsFirst }
    ensures forms { FormsWalkIsFirst }
{}

/// What the plain program finds is so, and it stops where a walk does.
pub fn the_plain_program_is_right()
    ensures typed { JudgedIsTyped }
    ensures stops { JudgedIsStop }
    ensures forms_typed { FormsJudgedAreTyped }
    ensures forms_stop { FormsJudgedStop }
{}

/// A text has forms in one order, or one first break by a rule of texts, of forms or of their order, and not both.
pub fn texts_have_one_order()
    ensures order { OneOrder }
    ensures clean { OrderedIsClean }
    ensures first { OneFirstUnordered }
{
    cl_sexpr::one_reading();
    cl_sexpr::items_stand_in_order();
    cl_forms::expressions_are_placed();
}

/// An accepted text has no first break, and defines one thing; the first break of a text is one.
pub fn texts_have_one_answer()
    ensures clean { AcceptedIsClean }
    ensures one_defined { OneDefined }
    ensures one_first { OneFirstOf }
{
    cl_sexpr::one_reading();
    cl_sexpr::items_stand_in_order();
    cl_forms::expressions_are_placed();
}

/// The forms of a text in their order are typed or have a first break, and a walk over them stops there.
pub fn forms_of_texts_are_decided()
    ensures decided { TextDecided }
    ensures walk { TextWalkIsFirst }
{
    cl_sexpr::items_stand_in_order();
    cl_forms::expressions_are_placed();
}

/// A look at the bounds of forms in their order stops at the first that is above the limit, if one is.
pub fn the_first_bound_is_found()
    ensures first { BoundStopIsFirst }
    ensures none { NoStopIsBounded }
{}
