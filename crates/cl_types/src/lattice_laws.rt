//! What holds of admission and of least supertypes.
ghost use Rattle.std.specs.Prelude.{◌≡◌, ◌↔◌, ◌⊎◌, max, true, Ok, Err};
ghost use Rattle.cl_types.specs.declared.sized.TyRefusal.{TyRefusal};
ghost use Rattle.cl_types.specs.declared.sized.TyRefusal.TheVariants.{Differ, TooLarge};
ghost use Rattle.cl_types.specs.Types.{PlainType, admits, IsLeastSupertype, HaveNoSupertype, depth_of};
ghost use Rattle.cl_types.specs.Sized.{IsSized};
ghost use Rattle.cl_types.specs.Lattice.{least_supertype, HaveLargeSupertype};

/// Admission is an order on types: each type admits itself, what admits a type admits all that it
/// admits, and two types that admit each other are one.
pub fn admission_orders()
    ensures reflexive { (a : PlainType) → admits a a ≡ true }
    ensures transitive { (a b c : PlainType) → admits a b ≡ true → admits b c ≡ true → admits a c ≡ true }
    ensures antisymmetric { (a b : PlainType) → admits a b ≡ true → admits b a ≡ true → a ≡ b }
{}

/// Two types have one least supertype or none, and not both. It is no deeper than the deeper of the two.
pub fn one_least_supertype()
    ensures one { (a b c d : PlainType) → IsLeastSupertype a b c → IsLeastSupertype a b d → c ≡ d }
    ensures never_both { (a b c : PlainType) → IsLeastSupertype a b c → HaveNoSupertype a b → ⊥ }
    ensures decided { (a b : PlainType) → ((c : PlainType) × IsLeastSupertype a b c) ⊎ HaveNoSupertype a b }
    ensures depth { (a b c : PlainType) → IsLeastSupertype a b c → depth_of c ≡ max (depth_of a) (depth_of b) }
{}

/// The answer that is computed for two types is their least supertype, or says why there is none
/// within the limits.
pub fn least_supertype_is()
    ensures least { (a b c : PlainType) → least_supertype a b ≡ Ok c → IsLeastSupertype a b c }
    ensures sized { (a b c : PlainType) → IsSized a → IsSized b → least_supertype a b ≡ Ok c → IsSized c }
    ensures found { (a b c : PlainType) → IsLeastSupertype a b c → IsSized c → least_supertype a b ≡ Ok c }
    ensures differ { (a b : PlainType) → (least_supertype a b ≡ Err Differ) ↔ HaveNoSupertype a b }
    ensures too_large { (a b : PlainType) → (least_supertype a b ≡ Err TooLarge) ↔ HaveLargeSupertype a b }
    ensures no_other { (a b : PlainType) (r : TyRefusal) → least_supertype a b ≡ Err r → (r ≡ Differ) ⊎ (r ≡ TooLarge) }
{}
