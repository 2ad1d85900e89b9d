//! Gates on a ray.

ghost use Rattle.std.specs.Prelude.{◌≡◌, ◌≢◌, ◌^◌, ◌<◌, ◌≤◌, [], length, All, AllPairs, IfOk, OnOk, Err};
ghost use Rattle.qvm_ring.specs.Ray.{ray_of, weight, weight_limit};
ghost use Rattle.qvm_ring.specs.Gate.{product_at, applied};
ghost use Rattle.qvm_ring.specs.Views.{elements_of, wide_elements_of, map_of, IsBelow};
ghost use Rattle.qvm_ring.specs.Vector.{IsVector};
ghost use Rattle.qvm_ring.specs.Table.{standard_gate};

use crate::amp::Amp;
use crate::fault::ApplyFault;
use crate::product::product;
use crate::ray::Ray;
use crate::settle::settled;
use crate::table::{StandardGate, table_of};
use crate::wide::Wide;
use std::alloc::{AllocError, Global};

// The product of a gate with a vector of 2^width amplitudes, as sums that aren't all 0.
fn sums(
    alloc: Global,
    amplitudes: &[Amp],
    width: u32,
    gate: StandardGate,
    qubits: &[u32],
) -> Result<Vec<Wide>, AllocError>
    requires vector { IsVector width (elements_of amplitudes.now) }
    requires arity { length qubits.now ≡ (standard_gate gate).arity }
    requires below { All (λ q. q < width) qubits.now }
    requires apart { AllPairs (λ p q. p ≢ q) qubits.now }
    ensures value { IfOk result (λ v. map_of (wide_elements_of v.items) ≡ ray_of (2 ^ width) (product_at (standard_gate gate) qubits.now (map_of (elements_of amplitudes.now)))) }
    ensures some { IfOk result (λ v. map_of (wide_elements_of v.items) ≢ []) }
    ensures length { IfOk result (λ v. length v.items ≡ 2 ^ width) }
    ensures bound { IfOk result (λ v. All (IsBelow (2 ^ 125)) (wide_elements_of v.items)) }
{
    let table = table_of(gate);
    let sums = product(alloc, amplitudes, width, &table, qubits)?;
    Ok(sums)
}

// The vector after a gate, in reduced form.
fn applied(
    alloc: Global,
    amplitudes: &[Amp],
    width: u32,
    gate: StandardGate,
    qubits: &[u32],
) -> Result<Vec<Amp>, ApplyFault>
    requires vector { IsVector width (elements_of amplitudes.now) }
    requires arity { length qubits.now ≡ (standard_gate gate).arity }
    requires below { All (λ q. q < width) qubits.now }
    requires apart { AllPairs (λ p q. p ≢ q) qubits.now }
    ensures value { IfOk result (λ v. map_of (elements_of v.items) ≡ applied width (standard_gate gate) qubits.now (map_of (elements_of amplitudes.now))) }
    ensures vector { IfOk result (λ v. IsVector width (elements_of v.items)) }
    ensures light { OnOk result (weight (applied width (standard_gate gate) qubits.now (map_of (elements_of amplitudes.now))) ≤ weight_limit) }
    ensures heavy { result ≡ Err ApplyFault.AmplitudeLimit → weight_limit < weight (applied width (standard_gate gate) qubits.now (map_of (elements_of amplitudes.now))) }
{
    let sums = sums(alloc, amplitudes, width, gate, qubits)?;
    let amplitudes = settled(alloc, sums)?;
    Ok(amplitudes)
}

impl Ray {
    ghost use Rattle.std.specs.Prelude.{◌≡◌, ◌≢◌, ◌^◌, ◌<◌, ◌≤◌, [], ◌∷◌, length, All, AllPairs, OnOk, OnErr, Err};
    ghost use Rattle.qvm_ring.specs.Ray.{State, weight, weight_limit};
    ghost use Rattle.qvm_ring.specs.Gate.{applied, x_gate, h_gate, cnot_gate};
    ghost use Rattle.qvm_ring.specs.Table.{standard_gate};

    // A standard gate on different qubits.
    fn apply(&mut self, alloc: Global, gate: StandardGate, qubits: &[u32]) -> Result<(), ApplyFault>
        requires arity { length qubits.now ≡ (standard_gate gate).arity }
        requires below { All (λ q. q < self.old.qubits) qubits.now }
        requires apart { AllPairs (λ p q. p ≢ q) qubits.now }
        ensures ok { OnOk result (self.new ≡ record self.old { amplitudes = applied self.old.qubits (standard_gate gate) qubits.now self.old.amplitudes }) }
        ensures light { OnOk result (weight (applied self.old.qubits (standard_gate gate) qubits.now self.old.amplitudes) ≤ weight_limit) }
        ensures heavy { result ≡ Err ApplyFault.AmplitudeLimit → weight_limit < weight (applied self.old.qubits (standard_gate gate) qubits.now self.old.amplitudes) }
        ensures err { OnErr result (self.new ≡ self.old) }
    {
        self.amplitudes = applied(alloc, &self.amplitudes, self.qubits, gate, qubits)?;
        Ok(())
    }

    /// X on a qubit: the amplitudes of 0 and 1 change places.
    ///
    /// AmplitudeLimit comes exactly where the reduced product weighs more than 2^94. After a fault the ray is as it was.
    pub fn apply_x(&mut self, alloc: Global, qubit: u32) -> Result<(), ApplyFault>
        requires { qubit < self.old.qubits }
        ensures ok { OnOk result (self.new ≡ record self.old { amplitudes = applied self.old.qubits x_gate (qubit ∷ []) self.old.amplitudes }) }
        ensures light { OnOk result (weight (applied self.old.qubits x_gate (qubit ∷ []) self.old.amplitudes) ≤ weight_limit) }
        ensures heavy { result ≡ Err ApplyFault.AmplitudeLimit → weight_limit < weight (applied self.old.qubits x_gate (qubit ∷ []) self.old.amplitudes) }
        ensures err { OnErr result (self.new ≡ self.old) }
    {
        self.apply(alloc, StandardGate::X, &[qubit])
    }

    /// H on a qubit: over √2, 0 gets the sum of the amplitudes of 0 and 1, and 1 their difference.
    ///
    /// AmplitudeLimit comes exactly where the reduced product weighs more than 2^94. After a fault the ray is as it was.
    pub fn apply_h(&mut self, alloc: Global, qubit: u32) -> Result<(), ApplyFault>
        requires { qubit < self.old.qubits }
        ensures ok { OnOk result (self.new ≡ record self.old { amplitudes = applied self.old.qubits h_gate (qubit ∷ []) self.old.amplitudes }) }
        ensures light { OnOk result (weight (applied self.old.qubits h_gate (qubit ∷ []) self.old.amplitudes) ≤ weight_limit) }
        ensures heavy { result ≡ Err ApplyFault.AmplitudeLimit → weight_limit < weight (applied self.old.qubits h_gate (qubit ∷ []) self.old.amplitudes) }
        ensures err { OnErr result (self.new ≡ self.old) }
    {
        self.apply(alloc, StandardGate::H, &[qubit])
    }

    /// CNOT: X on the target where the control is 1.
    ///
    /// AmplitudeLimit comes exactly where the reduced product weighs more than 2^94. After a fault the ray is as it was.
    pub fn apply_cnot(&mut self, alloc: Global, control: u32, target: u32) -> Result<(), ApplyFault>
        requires first { control < self.old.qubits }
        requires second { target < self.old.qubits }
        requires apart { control ≢ target }
        ensures ok { OnOk result (self.new ≡ record self.old { amplitudes = applied self.old.qubits cnot_gate (control ∷ target ∷ []) self.old.amplitudes }) }
        ensures light { OnOk result (weight (applied self.old.qubits cnot_gate (control ∷ target ∷ []) self.old.amplitudes) ≤ weight_limit) }
        ensures heavy { result ≡ Err ApplyFault.AmplitudeLimit → weight_limit < weight (applied self.old.qubits cnot_gate (control ∷ target ∷ []) self.old.amplitudes) }
        ensures err { OnErr result (self.new ≡ self.old) }
    {
        self.apply(alloc, StandardGate::Cnot, &[control, target])
    }
}
