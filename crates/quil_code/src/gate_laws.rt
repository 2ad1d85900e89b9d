//! Laws of the standard gates, and of gates under modifiers.

ghost use Rattle.std.specs.Prelude.{◌≡◌, ◌≢◌, ◌<◌, ℕ, pos, negsuc, true, List, ◌++◌, length, AllPairs};
ghost use Rattle.qvm_ring.specs.Ring.{nought, unit};
ghost use Rattle.qvm_ring.specs.Ray.{Ray};
ghost use Rattle.qvm_ring.specs.Gate.{Gate, IsUnitary, local_state, product_at};
ghost use Rattle.qvm_ring.specs.Examples.{element};
ghost use Rattle.quil_code.specs.Acts.{Act, IsAct, qubits_of, act_gate, matrix_at, piece_product};
ghost use Rattle.quil_code.specs.Controls.{Modification, modified, controls_of, is_dagger_of, daggered_if, under, IsFamily, block_at, block_product};
ghost use Rattle.quil_code.specs.StandardGates.{standard, entry_of};
ghost use Rattle.quil_code.specs.Unitary.{is_unitary};
ghost use Rattle.quil_code.specs.declared.standard_gate.StandardGate.{StandardGate};
ghost use Rattle.quil_code.specs.declared.standard_gate.StandardGate.TheVariants.{H, Rx, Ry, Rz, Cphase01, Ccnot, Cswap, Iswap, Pswap};

/// Each standard gate at each angle is unitary.
#[tactic(auto, using(crate::proofs::Unitary::standard_unitary))]
pub fn standard_gates_are_unitary()
    ensures { (g : StandardGate) (k : ℕ) → k < 16 → IsUnitary (standard g k) }
{}

/// A gate is unitary exactly where its test says so.
#[tactic(auto, using(crate::proofs::Computed::unitary_if, crate::proofs::Computed::tested_if))]
pub fn unitarity_is_tested()
    ensures yes { (g : Gate) → is_unitary g ≡ true → IsUnitary g }
    ensures no { (g : Gate) → IsUnitary g → is_unitary g ≡ true }
{}

/// Entries as the Quil specification has them: at angles of π, π/2 and 2π those of RX, RY and RZ, and at π/4 those times e^{iπ/8}.
pub fn standard_gates_by_hand()
    // RX(π) is [0, -i / -i, 0], over √2^2
    ensures rx_half { entry_of Rx 4 0 0 ≡ nought }
    ensures rx_half_beside { entry_of Rx 4 1 0 ≡ element (pos 0) (pos 0) (negsuc 1) (pos 0) }
    // RX(π/2) is (1/√2) [1, -i / -i, 1]
    ensures rx_quarter { entry_of Rx 2 1 1 ≡ element (pos 0) (pos 1) (pos 0) (negsuc 0) }
    ensures rx_quarter_beside { entry_of Rx 2 0 1 ≡ element (pos 0) (negsuc 0) (pos 0) (negsuc 0) }
    // RY(π/2) is (1/√2) [1, -1 / 1, 1]
    ensures ry_below { entry_of Ry 2 1 0 ≡ element (pos 0) (pos 1) (pos 0) (negsuc 0) }
    ensures ry_beside { entry_of Ry 2 0 1 ≡ element (pos 0) (negsuc 0) (pos 0) (pos 1) }
    // RY(2π) is -1
    ensures ry_turn { entry_of Ry 8 0 0 ≡ element (negsuc 1) (pos 0) (pos 0) (pos 0) }
    // RZ(π) is diag(-i, i)
    ensures rz_first { entry_of Rz 4 0 0 ≡ element (pos 0) (pos 0) (negsuc 0) (pos 0) }
    ensures rz_second { entry_of Rz 4 1 1 ≡ element (pos 0) (pos 0) (pos 1) (pos 0) }
    // at π/4 ½[1+ω, 1-ω / 1-ω, 1+ω], ½[1+ω, i(ω-1) / -i(ω-1), 1+ω] and diag(1, ω)
    ensures rx_eighth { entry_of Rx 1 0 0 ≡ element (pos 1) (pos 1) (pos 0) (pos 0) }
    ensures rx_eighth_beside { entry_of Rx 1 0 1 ≡ element (pos 1) (negsuc 0) (pos 0) (pos 0) }
    ensures ry_eighth_below { entry_of Ry 1 1 0 ≡ element (pos 0) (pos 0) (pos 1) (negsuc 0) }
    ensures ry_eighth_beside { entry_of Ry 1 0 1 ≡ element (pos 0) (pos 0) (negsuc 0) (pos 1) }
    ensures rz_eighth_first { entry_of Rz 1 0 0 ≡ unit }
    ensures rz_eighth_second { entry_of Rz 1 1 1 ≡ element (pos 0) (pos 1) (pos 0) (pos 0) }
    // the others
    ensures h { entry_of H 0 1 1 ≡ element (negsuc 0) (pos 0) (pos 0) (pos 0) }
    ensures cphase01 { entry_of Cphase01 2 1 1 ≡ element (pos 0) (pos 0) (pos 1) (pos 0) }
    ensures cphase01_other { entry_of Cphase01 2 3 3 ≡ unit }
    ensures ccnot { entry_of Ccnot 0 7 6 ≡ unit }
    ensures cswap { entry_of Cswap 0 5 6 ≡ unit }
    ensures iswap { entry_of Iswap 0 1 2 ≡ element (pos 0) (pos 0) (pos 1) (pos 0) }
    ensures pswap { entry_of Pswap 4 2 1 ≡ element (negsuc 0) (pos 0) (pos 0) (pos 0) }
    ensures pswap_kept { entry_of Pswap 4 1 1 ≡ nought }
{}

/// A gate under modifiers is its controls over the gate or its conjugate transpose, by whether the DAGGERs are odd in number.
#[tactic(auto, using(crate::proofs::Modifications::modified_is_under))]
pub fn modifiers_are_controls()
    ensures { (ms : List Modification) (f : List ℕ → Gate) (xs : List ℕ) →
        modified ms f xs ≡ under (controls_of ms) (λ ys. daggered_if (is_dagger_of ms) (f ys)) xs }
{}

/// The product of a gate under modifiers on different qubits is, at each basis state, that of the block that its control qubits
/// choose, and √2^m times the amplitude where a control is 0.
#[tactic(auto, using(crate::proofs::Blocks::product_by_blocks))]
pub fn controls_choose_blocks()
    ensures { (ms : List Modification) (n m : ℕ) (f : List ℕ → Gate) → IsFamily n m f → (xs ds qs : List ℕ) (ray : Ray) (x : ℕ) →
        length ds ≡ length (controls_of ms) → length qs ≡ n → AllPairs (λ p q. p ≢ q) (ds ++ qs) →
        product_at (modified ms f xs) (ds ++ qs) ray x ≡ block_product (block_at (controls_of ms) ds x xs) m (λ ys. daggered_if (is_dagger_of ms) (f ys)) qs ray x }
{}

/// Modifiers keep a gate unitary, whatever its parameters are.
#[tactic(auto, using(crate::proofs::KeptUnitary::modified_unitary))]
pub fn modifiers_keep_unitary()
    ensures { (ms : List Modification) (n m : ℕ) (f : List ℕ → Gate) → IsFamily n m f → ((xs : List ℕ) → IsUnitary (f xs)) → (xs : List ℕ) → IsUnitary (modified ms f xs) }
{}

/// The product of an act on different qubits is, at each basis state, that of the matrix at its control bits, and √2^m times the
/// amplitude where there is none.
#[tactic(auto, using(crate::proofs::Acts::product_of_act))]
pub fn acts_are_blocks()
    ensures { (a : Act) (ray : Ray) (x : ℕ) → AllPairs (λ p q. p ≢ q) (qubits_of a) →
        product_at (act_gate a) (qubits_of a) ray x ≡ piece_product a.root_twos (matrix_at a.pieces (local_state a.controls x)) a.targets ray x }
{}

/// Each act's gate is unitary.
#[tactic(auto, using(crate::proofs::UnitaryActs::act_unitary))]
pub fn acts_are_unitary()
    ensures { (a : Act) → IsAct a → IsUnitary (act_gate a) }
{}
