//! Each source has an answer. Each function here is a law, and does nothing.
#![tactic(auto)]

ghost use Rattle.cl_answers.specs.Laws.{EachHasOrder, EachWritesOrNot, EachHasAnswer};

/// Each text has forms in an order, or a first break by a rule of texts, of forms or of their
/// order.
pub fn each_text_has_an_order()
    ensures { EachHasOrder }
{
    cl_sexpr::each_text_has_an_answer();
}

/// Which functions write is decided: of any forms, and whatever is told of other contracts, each
/// name is that of a function that writes, or it is not.
pub fn each_function_writes_or_not()
    ensures { EachWritesOrNot }
{}

/// Each source is accepted, or has a first break: as a contract of any principal, after any
/// deployed contracts and under any table of costs. By [`cl_rules::texts_have_one_answer`] it is
/// one of the two alone, what an accepted source defines is one thing, and the first break is one.
pub fn each_source_has_an_answer()
    ensures { EachHasAnswer }
{
    each_text_has_an_order();
    each_function_writes_or_not();
    cl_order::orders_are_good();
    cl_rules::forms_of_texts_are_decided();
    cl_rules::the_first_bound_is_found();
}
