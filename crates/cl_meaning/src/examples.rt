//! What whole contracts mean, by example: each function here says what some calls come to, and does nothing.
ghost use Rattle.std.specs.Prelude.{◌≡◌, ◌-◌, ◌^◌, [], ◌∷◌, ◌++◌, replicate, true, false, pos, codes, map};
ghost use Rattle.cl_arith.specs.declared.ArithRefusal.TheVariants.{Overflow};
ghost use Rattle.cl_shapes.specs.Costs.{cost5, in_each};
ghost use Rattle.cl_values.specs.Tree.{IntV, UintV, BoolV, BuffV, NoneV, SomeV, ResponseV, ListV, items_of};
ghost use Rattle.cl_events.specs.declared.event.EventKind.TheVariants.{FtMint, FtTransfer, Print};
ghost use Rattle.cl_events.specs.State.{empty_state, at_rest};
ghost use Rattle.cl_meaning.specs.Answers.{Given, Aborted, Wrong, ByArithmetic, BySupply};
ghost use Rattle.cl_meaning.specs.Limits.{charges_of, cost, limited};
ghost use Rattle.cl_meaning.specs.Trace.{trace_of};
ghost use Rattle.cl_meaning.specs.Samples.{P0, P1, unit, purse};
ghost use Rattle.cl_meaning.specs.Add1Row.{add1_deployed, add1_contract, add1_of, add1_charges, placed_of, add1_trace};
ghost use Rattle.cl_meaning.specs.FoldRow.{fold_of};
ghost use Rattle.cl_meaning.specs.AcrossRow.{go, v_and_w};
ghost use Rattle.cl_meaning.specs.VersionRow.{at_ints, part_of, spelled};
ghost use Rattle.cl_meaning.specs.LimitRow.{n_deployed, n_is, inc, enough, too_little, inc_within, inc_over};
ghost use Rattle.cl_meaning.specs.ConcatRow.{dear_make, both_of};
ghost use Rattle.cl_meaning.specs.PayRow.{pay, paid};
ghost use Rattle.cl_meaning.specs.InsertRow.{entry_is, ins, minted_one, no_asset, tok_deployed, mk};
ghost use Rattle.cl_meaning.specs.MapRow.{v_is, all};
ghost use Rattle.cl_meaning.specs.NodeRows.{said, meant, leaf_examples, control_examples, value_examples, data_examples, token_examples, sequence_examples, call_examples, wrong_examples, wrong_outcomes};
ghost use Rattle.cl_meaning.specs.TokenRow.{token, token_deployed, no_coins, after_mint, after_transfer, mint, transfer, told, hi};

/// A read-only function that adds 1: its deployment, its charges in their order, an overflow, and its trace.
pub fn add1_row()
    ensures deployed { add1_deployed.outcome ≡ Given add1_contract }
    ensures deploy_state { add1_deployed.state ≡ empty_state }
    ensures deploy_cost { cost unit add1_deployed ≡ cost5 2 0 0 2 41 }
    ensures value { (add1_of 41).outcome ≡ Given (IntV (pos 42)) }
    ensures charges { charges_of (add1_of 41).log ≡ add1_charges }
    ensures cost { cost unit (add1_of 41) ≡ cost5 5 0 0 0 0 }
    ensures overflow { (add1_of (2 ^ 127 - 1)).outcome ≡ Aborted (ByArithmetic Overflow) }
    ensures overflow_cost { cost unit (add1_of (2 ^ 127 - 1)) ≡ cost5 5 0 0 0 0 }
    ensures trace { trace_of unit (purse (in_each 5)) (placed_of 41) ≡ add1_trace }
{}

/// A fold gives its initial value over an empty list, and else what the last application gives.
pub fn fold_row()
    ensures empty { (fold_of []).outcome ≡ Given (BuffV (1 ∷ 2 ∷ [])) }
    ensures empty_cost { cost unit (fold_of []) ≡ cost5 5 0 0 0 0 }
    ensures one { (fold_of (BuffV (5 ∷ []) ∷ [])).outcome ≡ Given (BuffV (5 ∷ [])) }
    ensures one_cost { cost unit (fold_of (BuffV (5 ∷ []) ∷ [])) ≡ cost5 9 0 0 0 0 }
    ensures state { (fold_of (BuffV (5 ∷ []) ∷ [])).state ≡ empty_state }
{}

/// A public function that answers err undoes its changes, and those of the calls in it.
pub fn across_row()
    ensures mine_errs { (go true false).outcome ≡ Given (ResponseV false (BoolV false)) }
    ensures all_undone { (go true false).state ≡ v_and_w 0 0 }
    ensures other_errs { (go false true).outcome ≡ Given (ResponseV true (BoolV true)) }
    ensures other_undone { (go false true).state ≡ v_and_w 0 9 }
    ensures none_errs { (go true true).outcome ≡ Given (ResponseV true (BoolV true)) }
    ensures all_stands { (go true true).state ≡ v_and_w 7 9 }
    ensures cost { cost unit (go true false) ≡ cost5 25 1 119 2 34 }
{}

/// Contracts of both versions call each other, and each goes by the natives of its own version.
pub fn version_row()
    ensures new { (at_ints (codes "new") (codes "both") 12 10).outcome ≡ Given (IntV (pos 8)) }
    ensures old { (at_ints (codes "old") (codes "both") 12 10).outcome ≡ Given (IntV (pos 22)) }
    ensures old_asks { (at_ints (codes "old") (codes "ask") 12 10).outcome ≡ Given (IntV (pos 8)) }
    ensures later_asks { (at_ints (codes "later") (codes "ask") 12 10).outcome ≡ Given (IntV (pos 22)) }
    ensures part { (part_of (1 ∷ 2 ∷ 3 ∷ 4 ∷ [])).outcome ≡ Given (SomeV (BuffV (2 ∷ 3 ∷ []))) }
    ensures part_cost { cost unit (part_of (1 ∷ 2 ∷ 3 ∷ 4 ∷ [])) ≡ cost5 6 0 0 0 0 }
    ensures no_part { (part_of (1 ∷ [])).outcome ≡ Given NoneV }
    ensures spelled { (spelled 1).outcome ≡ Given (SomeV (BuffV (1 ∷ replicate 15 0 ++ 1 ∷ []))) }
    ensures spelled_cost { cost unit (spelled 1) ≡ cost5 4 0 0 0 0 }
{}

/// A counter under a limit that is just enough, and under one that is one byte too small.
pub fn limit_row()
    ensures deploy_state { n_deployed.state ≡ n_is 0 }
    ensures deploy_cost { cost unit n_deployed ≡ cost5 4 0 0 3 121 }
    ensures value { inc.outcome ≡ Given (ResponseV true (UintV 1)) }
    ensures within { limited unit (purse enough) inc ≡ inc_within }
    ensures over { limited unit (purse too_little) inc ≡ inc_over }
{}

/// A concatenation whose cost rises with its arguments' sizes.
pub fn concat_row()
    ensures full { cost dear_make (both_of (1 ∷ 2 ∷ 3 ∷ 4 ∷ []) (5 ∷ 6 ∷ 7 ∷ 8 ∷ [])) ≡ cost5 42 0 0 0 0 }
    ensures empty { cost dear_make (both_of [] []) ≡ cost5 26 0 0 0 0 }
{}

/// A payment of STX: balances, event and move.
pub fn pay_row()
    ensures value { pay.outcome ≡ Given (ResponseV true (BoolV true)) }
    ensures state { pay.state ≡ paid }
    ensures cost { cost unit pay ≡ cost5 7 0 0 1 61 }
{}

/// A map's entry isn't inserted twice, and an asset isn't minted twice.
pub fn insert_row()
    ensures inserts { (ins 5 empty_state).outcome ≡ Given (ResponseV true (BoolV true)) }
    ensures inserted { (ins 5 empty_state).state ≡ entry_is 5 }
    ensures insert_cost { cost unit (ins 5 empty_state) ≡ cost5 7 0 0 1 34 }
    ensures keeps { (ins 6 (entry_is 5)).outcome ≡ Given (ResponseV true (BoolV false)) }
    ensures kept { (ins 6 (entry_is 5)).state ≡ entry_is 5 }
    ensures token { tok_deployed.state ≡ no_asset }
    ensures mints { (mk no_asset).outcome ≡ Given (ResponseV true (BoolV true)) }
    ensures minted { (mk no_asset).state ≡ minted_one }
    ensures mint_cost { cost unit (mk no_asset) ≡ cost5 5 0 0 1 39 }
    ensures refuses { (mk minted_one).outcome ≡ Given (ResponseV false (UintV 1)) }
    ensures unchanged { (mk minted_one).state ≡ minted_one }
{}

/// A map over a public function undoes the one application that answers err.
pub fn map_row()
    ensures value { all.outcome ≡ Given (ResponseV true (ListV (items_of (ResponseV true (UintV 1) ∷ ResponseV false (UintV 2) ∷ ResponseV true (UintV 4) ∷ [])))) }
    ensures state { all.state ≡ v_is 5 }
    ensures cost { cost unit all ≡ cost5 46 3 51 3 51 }
{}

/// The sample token: its deployment, a mint and transfers.
pub fn token_row()
    ensures deployed { token_deployed.outcome ≡ Given token }
    ensures deploy_state { token_deployed.state ≡ no_coins }
    ensures deploy_cost { cost unit token_deployed ≡ cost5 22 0 0 15 1185 }
    ensures mint { (mint P0 500 no_coins).outcome ≡ Given (ResponseV true (BoolV true)) }
    ensures mint_cost { cost unit (mint P0 500 no_coins) ≡ cost5 11 0 0 1 39 }
    ensures mint_state { at_rest (mint P0 500 no_coins).state ≡ after_mint }
    ensures mint_events { (mint P0 500 no_coins).state.events ≡ told (FtMint (codes "coin") 500 P1) ∷ [] }
    ensures mint_moves { (mint P0 500 no_coins).state.moves ≡ [] }
    ensures transfer { (transfer 200 NoneV after_mint).outcome ≡ Given (ResponseV true (BoolV true)) }
    ensures transfer_cost { cost unit (transfer 200 NoneV after_mint) ≡ cost5 20 0 0 1 61 }
    ensures transfer_state { at_rest (transfer 200 NoneV after_mint).state ≡ after_transfer }
    ensures note { (transfer 100 (SomeV hi) after_transfer).outcome ≡ Given (ResponseV true (BoolV true)) }
    ensures note_cost { cost unit (transfer 100 (SomeV hi) after_transfer) ≡ cost5 22 0 0 1 61 }
    ensures note_events { (transfer 100 (SomeV hi) after_transfer).state.events ≡ told (FtTransfer (codes "coin") 100 P1 P0) ∷ told (Print hi) ∷ [] }
{}

/// The sample token: what is refused, and leaves the state as it was.
pub fn token_refusals()
    ensures too_much { (transfer 400 NoneV after_transfer).outcome ≡ Given (ResponseV false (UintV 1)) }
    ensures too_much_cost { cost unit (transfer 400 NoneV after_transfer) ≡ cost5 15 0 0 1 61 }
    ensures too_much_state { (transfer 400 NoneV after_transfer).state ≡ after_transfer }
    ensures past_supply { (mint P0 1000000000001 after_mint).outcome ≡ Aborted BySupply }
    ensures past_supply_cost { cost unit (mint P0 1000000000001 after_mint) ≡ cost5 11 0 0 1 39 }
    ensures by_another { (mint P1 1 after_mint).outcome ≡ Given (ResponseV false (UintV 100)) }
{}

/// Each kind of node: outcomes, and charges in their order, as they were computed apart from the definitions.
pub fn node_rows()
    ensures leaves { meant leaf_examples ≡ said leaf_examples }
    ensures control { meant control_examples ≡ said control_examples }
    ensures values { meant value_examples ≡ said value_examples }
    ensures state { meant data_examples ≡ said data_examples }
    ensures tokens { meant token_examples ≡ said token_examples }
    ensures sequences { meant sequence_examples ≡ said sequence_examples }
    ensures calls { meant call_examples ≡ said call_examples }
    ensures wrong { wrong_outcomes ≡ map (λ e. Wrong) wrong_examples }
{}
