//! What exact quotients are: the quotient times the divisor is the dividend.

ghost use Rattle.std.specs.Prelude.{◌≡◌, Ok, Err, false};
ghost use Rattle.qvm_ring.specs.Ring.{is_zero};
ghost use Rattle.quil_value.specs.declared.lack.Lack.TheVariants.{NotExact};
ghost use Rattle.quil_value.specs.Exact.{Exact, numerator, exact_product, exact_quotient};
ghost use Rattle.quil_value.specs.Forms.{IsForm};

/// The quotient times the divisor is the dividend; where any number of the four kinds does that, it is the quotient; and
/// where none does, no quotient is exact.
pub fn products_of_quotients()
    ensures product { (x y w : Exact) → IsForm x → IsForm y → exact_quotient x y ≡ Ok w → exact_product w y ≡ Ok x }
    ensures quotient { (x y w : Exact) → IsForm x → IsForm y → IsForm w → is_zero (numerator y) ≡ false → exact_product w y ≡ Ok x → exact_quotient x y ≡ Ok w }
    ensures none { (x y : Exact) → IsForm x → IsForm y → is_zero (numerator y) ≡ false → ((w : Exact) → IsForm w → exact_product w y ≡ Ok x → ⊥) → exact_quotient x y ≡ Err NotExact }
{}
