//! Steps by example: each function here says what some entries come to, and does nothing. The costs
//! and bounds are those of the unit table, worked out by hand from the table of charges.
ghost use Rattle.std.specs.Prelude.{◌≡◌, ◌-◌, ◌^◌, [], ◌∷◌, true, false, pos, codes, Some, None};
ghost use Rattle.cl_types.specs.Types.{NoType, IntType, UintType, ResponseType};
ghost use Rattle.cl_shapes.specs.Costs.{cost5};
ghost use Rattle.cl_values.specs.Tree.{IntV, UintV, BoolV, PrincipalV};
ghost use Rattle.cl_events.specs.declared.event.EventKind.TheVariants.{FtMint, StxTransfer};
ghost use Rattle.cl_events.specs.State.{empty_state, at_rest};
ghost use Rattle.cl_meaning.specs.Samples.{P0, P1, of_P0};
ghost use Rattle.cl_meaning.specs.Add1Row.{add1_contract};
ghost use Rattle.cl_meaning.specs.AcrossRow.{both, v_and_w};
ghost use Rattle.cl_meaning.specs.LimitRow.{n_contract, n_is};
ghost use Rattle.cl_meaning.specs.PayRow.{paid};
ghost use Rattle.cl_meaning.specs.TokenRow.{token, no_coins, after_mint, told};
ghost use Rattle.cl_tx.specs.declared.outcome.Outcome.TheVariants.{Done, Good, Bad, Plain, Aborted, Refused};
ghost use Rattle.cl_tx.specs.declared.outcome.Stop.TheVariants.{Overflow, SupplyOverflow, EarlyTop, CostLimit, PostCondition};
ghost use Rattle.cl_tx.specs.declared.outcome.EntryRefusal.TheVariants.{NoContract, NoFunction, NotPublic, ArgumentCount, Argument, NoBound};
ghost use Rattle.cl_tx.specs.declared.outcome.Reach.TheVariants.{Bound, Over};
ghost use Rattle.cl_tx.specs.Nodes.{nothing_told, result_of};
ghost use Rattle.cl_shapes.specs.declared.cost.Dimension.TheVariants.{Runtime, WriteLength};
ghost use Rattle.cl_post.specs.declared.condition.Mode.TheVariants.{Allow, Deny};
ghost use Rattle.cl_post.specs.declared.condition.Code5.TheVariants.{Eq, Lt, Le};
ghost use Rattle.cl_tx.specs.StepRows.{called, ran, not_run, hidden, terms, on_stx, called_on, payer, rich, pays, deployed, result_in, told_at, called_at, inc};

/// Calls of the contract of `(define-read-only (add1 (x int)) (+ x 1))`.
pub fn calls_of_a_function()
    ensures value { called (add1_contract ∷ []) empty_state P0 (codes "main") (codes "add1")
        (IntV (pos 41) ∷ [])
        ≡ ran (add1_contract ∷ []) empty_state (Plain (IntV (pos 42))) (cost5 5 0 0 0 0) [] }
    ensures overflow { called (add1_contract ∷ []) empty_state P0 (codes "main") (codes "add1")
        (IntV (pos (2 ^ 127 - 1)) ∷ [])
        ≡ ran (add1_contract ∷ []) empty_state (Aborted Overflow) (cost5 5 0 0 0 0) [] }
    ensures no_contract { called (add1_contract ∷ []) empty_state P0 (codes "other") (codes "add1") []
        ≡ not_run (add1_contract ∷ []) empty_state NoContract }
    ensures no_function { called (add1_contract ∷ []) empty_state P0 (codes "main") (codes "sub1") []
        ≡ not_run (add1_contract ∷ []) empty_state NoFunction }
    ensures count { called (add1_contract ∷ []) empty_state P0 (codes "main") (codes "add1") []
        ≡ not_run (add1_contract ∷ []) empty_state ArgumentCount }
    ensures misfit { called (add1_contract ∷ []) empty_state P0 (codes "main") (codes "add1")
        (UintV 41 ∷ [])
        ≡ not_run (add1_contract ∷ []) empty_state (Argument 0) }
    ensures private { called hidden empty_state P0 (codes "p") (codes "h") (UintV 41 ∷ [])
        ≡ not_run hidden empty_state NotPublic }
{}

/// Calls that change the state, and one whose err undoes what it changed.
pub fn calls_of_public_functions()
    ensures good { called (n_contract ∷ []) (n_is 0) P0 (codes "n") (codes "inc") []
        ≡ ran (n_contract ∷ []) (n_is 1) (Good (UintV 1)) (cost5 8 2 34 1 17) [] }
    ensures bad { called both (v_and_w 0 0) P0 (codes "b") (codes "set-it") (UintV 7 ∷ BoolV false ∷ [])
        ≡ ran both (v_and_w 0 0) (Bad (UintV 7)) (cost5 10 0 0 1 17) [] }
    ensures told { called (token ∷ []) no_coins P0 (codes "token") (codes "mint")
        (UintV 500 ∷ PrincipalV P1 ∷ [])
        ≡ ran (token ∷ []) after_mint (Good (BoolV true)) (cost5 11 0 0 1 39) (told (FtMint (codes "coin") 500 P1) ∷ []) }
    ensures aborted { called (token ∷ []) after_mint P0 (codes "token") (codes "mint")
        (UintV 1000000000001 ∷ PrincipalV P1 ∷ [])
        ≡ ran (token ∷ []) after_mint (Aborted SupplyOverflow) (cost5 11 0 0 1 39) [] }
{}

/// Calls under a limit that is just enough and one that is one byte too small; and payments that
/// conditions let pass or not.
pub fn calls_on_terms()
    ensures enough { called_on (terms P0 (8 ∷ 2 ∷ 34 ∷ 1 ∷ 17 ∷ []) Allow []) (n_contract ∷ [])
        (n_is 0) (codes "n") (codes "inc") []
        ≡ ran (n_contract ∷ []) (n_is 1) (Good (UintV 1)) (cost5 8 2 34 1 17) [] }
    ensures too_little { called_on (terms P0 (8 ∷ 2 ∷ 34 ∷ 1 ∷ 16 ∷ []) Allow []) (n_contract ∷ [])
        (n_is 0) (codes "n") (codes "inc") []
        ≡ ran (n_contract ∷ []) (n_is 0)
        (Aborted (CostLimit (record {
          dimension = WriteLength;
          attempted = cost5 6 1 17 1 17;
          limit = 16;
        }))) (cost5 6 1 17 1 17) [] }
    ensures allowed { pays Allow []
        ≡ ran payer (at_rest paid) (Good (BoolV true)) (cost5 7 0 0 1 61) (record { contract = of_P0 (codes "main"); kind = StxTransfer 300 P1 P0 } ∷ []) }
    ensures denied { pays Deny []
        ≡ ran payer rich (Aborted (PostCondition 0)) (cost5 7 0 0 1 61) [] }
    ensures named { pays Deny (on_stx P1 Le 300 ∷ [])
        ≡ ran payer (at_rest paid) (Good (BoolV true)) (cost5 7 0 0 1 61) (record { contract = of_P0 (codes "main"); kind = StxTransfer 300 P1 P0 } ∷ []) }
    ensures other { pays Deny (on_stx P0 Eq 0 ∷ [])
        ≡ ran payer rich (Aborted (PostCondition 1)) (cost5 7 0 0 1 61) [] }
    ensures failing { pays Allow (on_stx P1 Eq 300 ∷ on_stx P1 Lt 300 ∷ [])
        ≡ ran payer rich (Aborted (PostCondition 1)) (cost5 7 0 0 1 61) [] }
{}

/// Deployments: their costs, and the bounds and return types in the order of the text. The last one
/// aborts, and has them too.
pub fn deployments()
    ensures add1 { result_in (deployed (codes "main")
        (codes "(define-read-only (add1 (x int)) (+ x 1))"))
        ≡ Some (record {
          outcome = Done;
          cost = Some (cost5 2 0 0 2 41);
          bounds = Some (record { deploy = cost5 2 0 0 2 41; functions = (codes "add1", cost5 5 0 0 0 0) ∷ [] });
          types = IntType ∷ [];
          events = [];
          rebounds = [];
        }) }
    ensures counter { result_in (deployed (codes "n")
        (codes "(define-data-var n uint u0)(define-public (inc) (begin (var-set n (+ (var-get n) u1)) (ok (var-get n))))"))
        ≡ Some (record {
          outcome = Done;
          cost = Some (cost5 4 0 0 3 121);
          bounds = Some (record { deploy = cost5 4 0 0 3 121; functions = (codes "inc", cost5 8 2 34 1 17) ∷ [] });
          types = ResponseType UintType NoType ∷ [];
          events = [];
          rebounds = [];
        }) }
    ensures in_order { result_in (deployed (codes "a")
        (codes "(define-private (a) (b))(define-private (b) 1)"))
        ≡ Some (record {
          outcome = Done;
          cost = Some (cost5 3 0 0 3 46);
          bounds = Some (record { deploy = cost5 3 0 0 3 46; functions = (codes "a", cost5 3 0 0 0 0) ∷ (codes "b", cost5 2 0 0 0 0) ∷ [] });
          types = IntType ∷ IntType ∷ [];
          events = [];
          rebounds = [];
        }) }
    ensures early { result_in (deployed (codes "e") (codes "(asserts! false u1)"))
        ≡ Some (record {
          outcome = Aborted EarlyTop;
          cost = Some (cost5 4 0 0 1 19);
          bounds = Some (record { deploy = cost5 4 0 0 1 19; functions = [] });
          types = [];
          events = [];
          rebounds = [];
        }) }
{}

/// Epochs that begin at heights 10 and 20: the rebounds of a block before the first, at it and at the
/// second, where a bound is above the limit; and calls at these heights, where E5 comes before E8.
pub fn steps_in_epochs()
    ensures before { told_at 9 inc ≡ Some [] }
    ensures begins { told_at 10 inc
        ≡ Some (record {
          contract = of_P0 (codes "inc");
          name = codes "add1";
          reach = Bound (cost5 9 0 0 0 0);
          returns = IntType;
        } ∷ []) }
    ensures above { told_at 20 inc
        ≡ Some (record {
          contract = of_P0 (codes "inc");
          name = codes "add1";
          reach = Over Runtime;
          returns = IntType;
        } ∷ []) }
    ensures cheap { called_at 9 inc (codes "inc") (codes "add1") (IntV (pos 41) ∷ [])
        ≡ Some (result_of nothing_told (Plain (IntV (pos 42))) (Some (cost5 5 0 0 0 0)) []) }
    ensures dear { called_at 10 inc (codes "inc") (codes "add1") (IntV (pos 41) ∷ [])
        ≡ Some (result_of nothing_told (Plain (IntV (pos 42))) (Some (cost5 9 0 0 0 0)) []) }
    ensures no_bound { called_at 20 inc (codes "inc") (codes "add1") (IntV (pos 41) ∷ [])
        ≡ Some (result_of nothing_told (Refused (NoBound Runtime)) None []) }
    ensures misfit { called_at 20 inc (codes "inc") (codes "add1") (UintV 41 ∷ [])
        ≡ Some (result_of nothing_told (Refused (Argument 0)) None []) }
{}
