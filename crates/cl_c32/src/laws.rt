//! What holds of addresses, of their texts and of principals.
ghost use Rattle.std.specs.Prelude.{◌≡◌, ◌≢◌, ◌<◌, ◌≤◌, ℕ, List, length, true, Ok, Err};
ghost use Rattle.std.specs.List.{All};
ghost use Rattle.cl_c32.specs.Address.{AddressParts, IsAddress};
ghost use Rattle.cl_c32.specs.Codec.{address_text, decoded};
ghost use Rattle.cl_c32.specs.Digits.{number_in, regrouped_digits};
ghost use Rattle.cl_c32.specs.Principals.{same_principal};
ghost use Rattle.cl_c32.specs.declared.principal.Principal.{Principal};
ghost use Rattle.cl_c32.specs.declared.codec.C32Refusal.TheVariants.{BadChecksum};

/// Digits in another base stand for the same number, and give the first ones back, with each zero in
/// front.
pub fn one_number()
    ensures number { (from to : ℕ) (digits : List ℕ) → 2 ≤ to →
        number_in to (regrouped_digits from to digits) ≡ number_in from digits }
    ensures digits { (from to : ℕ) (digits : List ℕ) → 2 ≤ to →
        All (λ d. d < to) (regrouped_digits from to digits) }
    ensures back { (from to : ℕ) (digits : List ℕ) → 2 ≤ from → 2 ≤ to → All (λ d. d < from) digits →
        regrouped_digits to from (regrouped_digits from to digits) ≡ digits }
{}

/// Each address has one text, and each text is that of one address at most: the definitions that
/// [`crate::encode`] and [`crate::decode`] meet undo each other.
pub fn one_text()
    ensures back { (a : AddressParts) → IsAddress a → decoded (address_text a) ≡ Ok a }
    ensures unique { (text : List ℕ) (a : AddressParts) →
        decoded text ≡ Ok a → IsAddress a × (text ≡ address_text a) }
    ensures apart { (a b : AddressParts) → IsAddress a → IsAddress b →
        address_text a ≡ address_text b → a ≡ b }
    ensures short { (a : AddressParts) → IsAddress a → length (address_text a) ≤ 48 }
    ensures differ { (text stated computed : List ℕ) →
        decoded text ≡ Err (BadChecksum stated computed) → stated ≢ computed }
{}

/// Principals are one where they have the same version, the same hash, and the same contract's name or none.
pub fn one_principal()
    ensures equal { (p q : Principal) → same_principal p q ≡ true → p ≡ q }
    ensures itself { (p : Principal) → same_principal p p ≡ true }
    ensures turned { (p q : Principal) → same_principal p q ≡ same_principal q p }
{}
