//! Laws of the order and of cycles: each function here is a law, and does nothing.
ghost use Rattle.std.specs.Prelude.{◌≡◌, ℕ, List, Ok, Err};
ghost use Rattle.cl_forms.specs.Forms.{Form};
ghost use Rattle.cl_forms.specs.Order.{IsGoodOrder, IsCycle, ordered, names_at};

/// Each order that is found is good: each form stands in it once, after all that it names.
pub fn orders_are_good()
    ensures { (forms : List Form) (order : List ℕ) → ordered forms ≡ Ok order → IsGoodOrder forms order }
{}

/// Each cycle that is found is one: each of its forms names the next, and the last names the first.
pub fn cycles_are_rings()
    ensures { (forms : List Form) (places : List ℕ) → ordered forms ≡ Err places → IsCycle forms (names_at forms places) }
{}

/// Forms have a good order or a cycle, and not both. So an order is found exactly where there is a good one, and a cycle
/// exactly where there is one.
pub fn good_order_or_cycle()
    ensures either { (forms : List Form) (order : List ℕ) (cycle : List (List ℕ)) → IsGoodOrder forms order → IsCycle forms cycle → ⊥ }
    ensures order { (forms : List Form) (order : List ℕ) → IsGoodOrder forms order → (found : List ℕ) × (ordered forms ≡ Ok found) }
    ensures cycle { (forms : List Form) (cycle : List (List ℕ)) → IsCycle forms cycle → (places : List ℕ) × (ordered forms ≡ Err places) }
{}
