//! Laws of the product of a gate with a ray.

ghost use Rattle.std.specs.Prelude.{◌≡◌, ◌≢◌, ◌+◌, ◌^◌, ◌<◌, ℕ, List, [], length, All, AllPairs};
ghost use Rattle.qvm_ring.specs.Ray.{Ray, IsFiniteMap, ray_of};
ghost use Rattle.qvm_ring.specs.Gate.{Gate, IsUnitary, product_at, x_gate, h_gate, cnot_gate};

/// The product of a unitary gate on different qubits with a ray that isn't empty isn't empty.
#[tactic(auto, using(crate::proofs::KeptRays::product_some))]
pub fn unitary_gates_keep_some()
    ensures { (n : ℕ) (g : Gate) (qs : List ℕ) (ray : Ray) → IsUnitary g → g.arity ≡ length qs → AllPairs (λ p q. p ≢ q) qs → All (λ q. q < n) qs →
        IsFiniteMap 0 (2 ^ n) ray → ray ≢ [] → ray_of (2 ^ n) (product_at g qs ray) ≢ [] }
{}

/// The gates X, H and CNOT are unitary.
#[tactic(auto, using(crate::proofs::UnitaryGates::unitary_x, crate::proofs::UnitaryGates::unitary_h, crate::proofs::UnitaryGates::unitary_cnot))]
pub fn gates_are_unitary()
    ensures x { IsUnitary x_gate }
    ensures h { IsUnitary h_gate }
    ensures cnot { IsUnitary cnot_gate }
{}
