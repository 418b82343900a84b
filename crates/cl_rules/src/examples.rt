//! Small contracts with their types, bounds and first breaks, computed. Each function here states examples, and does nothing.
ghost use Rattle.cl_rules.specs.Examples.{OneLineContracts, Bounds};
ghost use Rattle.cl_rules.specs.TokenExamples.{TokenBounds};
ghost use Rattle.cl_rules.specs.CallExamples.{CallOfAnother, BreaksOfCalls, WritesByAnother};
ghost use Rattle.cl_rules.specs.FirstBreakExamples.{FirstBreaks};
ghost use Rattle.cl_rules.specs.Chains.{BoundsOfChains, HeightsOfChains};
ghost use Rattle.cl_rules.specs.RowExamples.{LiteralRows, NumberRows, HashAndWrapRows, MakeRows, StateRows, ControlRows, BindRows, IterationRows};
ghost use Rattle.cl_rules.specs.LaterExamples.{LaterLines, LaterRows, LaterBreaks, ReservedNames};
ghost use Rattle.cl_rules.specs.BreakExamples.{BreaksByShape, BreaksByTypes, BreaksInMatch, BreaksOfForms, BreaksInOrder, AcceptedExamples};

/// Types and bounds.
pub fn bounds_of_examples()
    ensures one_line { OneLineContracts }
    ensures counter { Bounds }
    ensures token { TokenBounds }
{}

/// Each row of the table of natives: its type and its charge.
pub fn rows_of_the_table()
    ensures literals { LiteralRows }
    ensures numbers { NumberRows }
    ensures hashes { HashAndWrapRows }
    ensures made { MakeRows }
    ensures state { StateRows }
    ensures control { ControlRows }
    ensures bound { BindRows }
    ensures iterations { IterationRows }
{}

/// The rows that texts of version 2 alone have, and what the same texts are as version 1.
pub fn rows_of_version_two()
    ensures lines { LaterLines }
    ensures rows { LaterRows }
    ensures breaks { LaterBreaks }
    ensures reserved { ReservedNames }
{}

/// Chains of functions, each of which applies the one before.
pub fn chains_of_functions()
    ensures bounds { BoundsOfChains }
    ensures heights { HeightsOfChains }
{}

/// Calls of deployed contracts, and a read-only function that writes by way of a private one.
pub fn calls_of_examples()
    ensures called { CallOfAnother }
    ensures breaks { BreaksOfCalls }
    ensures writes { WritesByAnother }
{}

/// A first break by each rule, and contracts that break none.
pub fn breaks_of_examples()
    ensures first { FirstBreaks }
    ensures by_shape { BreaksByShape }
    ensures by_types { BreaksByTypes }
    ensures in_match { BreaksInMatch }
    ensures of_forms { BreaksOfForms }
    ensures in_order { BreaksInOrder }
    ensures none { AcceptedExamples }
{}
