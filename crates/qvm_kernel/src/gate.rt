//! An act applied to a ray.

ghost use Rattle.std.specs.Prelude.{◌≡◌, ◌≢◌, ◌^◌, ◌<◌, ◌≤◌, [], length, All, IfOk, OnOk, OnErr, Err};
ghost use Rattle.qvm_ring.specs.Ray.{State, ray_of, weight, weight_limit};
ghost use Rattle.qvm_ring.specs.Gate.{product_at, applied};
ghost use Rattle.qvm_ring.specs.Views.{wide_elements_of, map_of, IsBelow};
ghost use Rattle.quil_code.specs.Acts.{act_gate, qubits_of};

use crate::product::product;
use quil_code::Act;
use qvm_ring::{ApplyFault, Ray};
use std::alloc::Global;

/// Applies an act to a ray: the product of the act's matrix with the ray, in reduced form.
///
/// AmplitudeLimit comes exactly where that weighs more than 2^94. After a fault the ray is as it was.
pub fn apply(alloc: Global, ray: &mut Ray, act: &Act) -> Result<(), ApplyFault>
    requires qubits { All (λ q. q < ray.old.qubits) (qubits_of act.now) }
    ensures ok { OnOk result (ray.new ≡ record ray.old { amplitudes = applied ray.old.qubits (act_gate act.now) (qubits_of act.now) ray.old.amplitudes }) }
    ensures light { OnOk result (weight (applied ray.old.qubits (act_gate act.now) (qubits_of act.now) ray.old.amplitudes) ≤ weight_limit) }
    ensures heavy { result ≡ Err ApplyFault.AmplitudeLimit → weight_limit < weight (applied ray.old.qubits (act_gate act.now) (qubits_of act.now) ray.old.amplitudes) }
    ensures err { OnErr result (ray.new ≡ ray.old) }
{
    let product = product(alloc, ray, act)?;
    ray.settle(alloc, product)
}
