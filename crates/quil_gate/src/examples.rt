//! Examples worked by hand, which the check computes.

ghost use Rattle.std.specs.Prelude.{◌≡◌, ◌^◌, pos, [], ◌∷◌, Ok, Err};
ghost use Rattle.qvm_ring.specs.Ring.{nought, unit, root_two, whole_number, negated};
ghost use Rattle.qvm_ring.specs.Examples.{element};
ghost use Rattle.quil_gate.specs.declared.gate_fault.GateFault.TheVariants.{Arity, EntryTooLarge, NotUnitary};
ghost use Rattle.quil_gate.specs.Definitions.{padded, matrix_of_entries, matrix_of_permutation};

/// Permutations: column k has its 1 in row p_k.
#[tactic(auto, unfolding(quil_code::specs::Unitary::is_unitary))]
pub fn permutations_by_hand()
    // 0 goes to 1, 1 to 2, 2 to 3 and 3 to 0.
    ensures cycle { matrix_of_permutation (1 ∷ 2 ∷ 3 ∷ 0 ∷ []) ≡ Ok (record {
      arity = 2;
      root_twos = 0;
      entries = padded (
          nought ∷ nought ∷ nought ∷ unit ∷
          unit ∷ nought ∷ nought ∷ nought ∷
          nought ∷ unit ∷ nought ∷ nought ∷
          nought ∷ nought ∷ unit ∷ nought ∷ []);
    }) }
    ensures twice { matrix_of_permutation (1 ∷ 1 ∷ []) ≡ Err NotUnitary }
    ensures beyond { matrix_of_permutation (0 ∷ 2 ∷ []) ≡ Err NotUnitary }
    ensures three { matrix_of_permutation (0 ∷ 1 ∷ 2 ∷ []) ≡ Err Arity }
{}

/// Matrices of entries z/√2^m, row by row.
#[tactic(auto, unfolding(quil_code::specs::Unitary::is_unitary))]
pub fn matrices_by_hand()
    // [1, 1 / 1, -1] over √2, and with 1 for -1
    ensures signed { matrix_of_entries 1 ((unit, 1) ∷ (unit, 1) ∷ (unit, 1) ∷ (negated unit, 1) ∷ [])
        ≡ Ok (record { arity = 1; root_twos = 1; entries = padded (unit ∷ unit ∷ unit ∷ negated unit ∷ []) }) }
    ensures unsigned { matrix_of_entries 1 ((unit, 1) ∷ (unit, 1) ∷ (unit, 1) ∷ (unit, 1) ∷ []) ≡ Err NotUnitary }
    // diag(1, (1 + i)/√2), whose 1 is √2 over √2
    ensures raised { matrix_of_entries 1 ((unit, 0) ∷ (nought, 0) ∷ (nought, 0) ∷ (element (pos 1) (pos 0) (pos 1) (pos 0), 1) ∷ [])
        ≡ Ok (record { arity = 1; root_twos = 1; entries = padded (root_two ∷ nought ∷ nought ∷ element (pos 1) (pos 0) (pos 1) (pos 0) ∷ []) }) }
    // √2^40 is 2^20, and √2^41 is √2 times that
    ensures light { matrix_of_entries 1 ((whole_number (2 ^ 20), 40) ∷ (nought, 0) ∷ (nought, 0) ∷ (unit, 0) ∷ [])
        ≡ Ok (record { arity = 1; root_twos = 40; entries = padded (whole_number (2 ^ 20) ∷ nought ∷ nought ∷ whole_number (2 ^ 20) ∷ []) }) }
    ensures heavy { matrix_of_entries 1 ((unit, 41) ∷ (unit, 0) ∷ (unit, 0) ∷ (unit, 0) ∷ []) ≡ Err EntryTooLarge }
{}
