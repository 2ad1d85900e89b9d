//! Examples worked by hand, which the check computes by the definitions.

ghost use Rattle.std.specs.Prelude.{◌≡◌, ◌+◌, ◌^◌, nat_lt, true, false, pos, negsuc, [], ◌∷◌};
ghost use Rattle.qvm_ring.specs.Ring.{Element, unit, nought, whole_number, negated};
ghost use Rattle.qvm_ring.specs.Ray.{Ray, weight, weight_limit, reduced};
ghost use Rattle.qvm_ring.specs.Gate.{x_gate, h_gate, cnot_gate, applied, zero_ray};
ghost use Rattle.qvm_ring.specs.Measure.{Norm, norm_of, exceeds, outcome, projected};
ghost use Rattle.qvm_ring.specs.Examples.{element, h_of_zero, bell_pair, h_t_h_of_zero};

/// Reduced forms.
#[tactic(auto, unfolding(crate::specs::Ray::reduced))]
pub fn rays_by_hand()
    // 2 and 2 are divided by √2 twice.
    ensures twice { reduced ((0, whole_number 2) ∷ (1, whole_number 2) ∷ []) ≡ (0, unit) ∷ (1, unit) ∷ [] }
    // 1 + i = √2 ω, and 1 - i = -√2 ω³.
    ensures once { reduced ((0, element (pos 1) (pos 0) (pos 1) (pos 0)) ∷ (1, element (pos 1) (pos 0) (negsuc 0) (pos 0)) ∷ [])
        ≡ (0, element (pos 0) (pos 1) (pos 0) (pos 0)) ∷ (1, element (pos 0) (pos 0) (pos 0) (negsuc 0)) ∷ [] }
    ensures not_at_all { reduced ((0, whole_number 2) ∷ (1, unit) ∷ []) ≡ (0, whole_number 2) ∷ (1, unit) ∷ [] }
    ensures lone { reduced ((5, whole_number 7) ∷ []) ≡ (5, unit) ∷ [] }
{}

/// Products of gates.
#[tactic(auto, unfolding(crate::specs::Ray::reduced, crate::specs::Gate::applied))]
pub fn gates_by_hand()
    ensures x { applied 2 x_gate (1 ∷ []) zero_ray ≡ (2, unit) ∷ [] }
    ensures h { applied 1 h_gate (0 ∷ []) zero_ray ≡ h_of_zero }
    ensures h_twice { applied 1 h_gate (0 ∷ []) h_of_zero ≡ zero_ray }
    ensures h_of_one { applied 1 h_gate (0 ∷ []) ((1, unit) ∷ []) ≡ (0, unit) ∷ (1, negated unit) ∷ [] }
    ensures bell { applied 2 cnot_gate (0 ∷ 1 ∷ []) h_of_zero ≡ bell_pair }
    // The first qubit is the control: qubit 1 is 1 in state 2, and 0 in state 1.
    ensures control_is_one { applied 2 cnot_gate (1 ∷ 0 ∷ []) ((2, unit) ∷ []) ≡ (3, unit) ∷ [] }
    ensures control_is_zero { applied 2 cnot_gate (1 ∷ 0 ∷ []) ((1, unit) ∷ []) ≡ (1, unit) ∷ [] }
    // 2^46 + 1 and 2^46 become 2^47 + 1 and 1, which no √2 divides, and which weigh too much.
    ensures limit { nat_lt weight_limit (weight (applied 1 h_gate (0 ∷ []) ((0, whole_number (2 ^ 46 + 1)) ∷ (1, whole_number (2 ^ 46)) ∷ []))) ≡ true }
{}

/// Outcomes by the word: H on 0 has N = 2 and N1 = 1; H, T, H on 0 has N = 4 and N1 = 2 - √2.
#[tactic(auto, unfolding(crate::specs::Ray::reduced, crate::specs::Measure::projected))]
pub fn measurements_by_hand()
    ensures h_below { outcome h_of_zero 0 2147483647 ≡ true }
    ensures h_above { outcome h_of_zero 0 2147483648 ≡ false }
    ensures t_norm { norm_of h_t_h_of_zero ≡ record { u = 4; v = pos 0 } }
    ensures t_below { outcome h_t_h_of_zero 0 628983398 ≡ true }
    ensures t_above { outcome h_t_h_of_zero 0 628983399 ≡ false }
    ensures bell_same { outcome bell_pair 1 2917185654 ≡ false }
    ensures bell_kept { projected bell_pair 0 0 ≡ (0, unit) ∷ [] }
    ensures bell_other { projected bell_pair 0 1 ≡ (3, unit) ∷ [] }
{}
