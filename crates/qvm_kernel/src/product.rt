//! The product of an act with a ray, as sums that aren't reduced.

ghost use Rattle.std.specs.Prelude.{◌≡◌, ◌≢◌, ◌+◌, ◌*◌, ◌^◌, ◌<◌, ◌≤◌, ℕ, [], length, All, IfOk};
ghost use Rattle.qvm_ring.specs.Ring.{plus, times, is_zero};
ghost use Rattle.qvm_ring.specs.Ray.{ray_of, amplitude_at};
ghost use Rattle.qvm_ring.specs.Gate.{product_at};
ghost use Rattle.qvm_ring.specs.Views.{element_of, wide_element, wide_elements_of, map_of, IsBelow};
ghost use Rattle.qvm_ring.specs.Multiply.{IsWithin};
ghost use Rattle.quil_code.specs.Matrices.{matrix_gate};
ghost use Rattle.quil_code.specs.Acts.{IsAct, act_gate, qubits_of};

use crate::root::root_two_to;
use quil_code::{Act, Matrix};
use qvm_ring::{Amp, Ray, Wide, local_state, mul, plus, with_local};
use std::alloc::{AllocError, Global};

fn is_zero(z: Amp) -> bool
    ensures { result ≡ is_zero (element_of z) }
{
    z.a == 0 && z.b == 0 && z.c == 0 && z.d == 0
}

// The product of an entry and an amplitude.
fn term(entry: Amp, amplitude: Amp) -> Wide
    requires entry { IsWithin (2 ^ 20) (element_of entry) }
    requires amplitude { IsBelow (2 ^ 48) (element_of amplitude) }
    ensures value { wide_element result ≡ times (element_of entry) (element_of amplitude) }
    ensures bound { IsWithin (2 ^ 71) (wide_element result) }
{
    mul(entry, amplitude)
}

// Adds the product of an entry and an amplitude, if neither is 0.
#[tactic(auto, using(qvm_ring::proofs::ProductBounds::within_more))]
fn plus_product(so_far: Wide, entry: Amp, amplitude: Amp) -> Wide
    requires so_far { IsWithin (2 ^ 80) (wide_element so_far) }
    requires entry { IsWithin (2 ^ 20) (element_of entry) }
    requires amplitude { IsBelow (2 ^ 48) (element_of amplitude) }
    ensures value { wide_element result ≡ plus (wide_element so_far) (times (element_of entry) (element_of amplitude)) }
    ensures bound { (n : ℕ) → IsWithin n (wide_element so_far) → IsWithin (n + 2 ^ 71) (wide_element result) }
{
    if is_zero(entry) {
        return so_far;
    }
    if is_zero(amplitude) {
        return so_far;
    }
    plus(so_far, term(entry, amplitude))
}

// The number of columns of a matrix on so many qubits.
fn size(qubits: u32) -> u8
    requires { qubits ≤ 3 }
    ensures { result ≡ 2 ^ qubits }
{
    1 << qubits
}

fn amplitude_at(ray: &Ray, basis: usize) -> Amp
    requires few { ray.now.qubits ≤ 16 }
    requires basis { basis < 2 ^ ray.now.qubits }
    ensures value { element_of result ≡ amplitude_at ray.now.amplitudes basis }
    ensures bound { IsBelow (2 ^ 48) (element_of result) }
{
    ray.amp(basis as u32)
}

// The product's amplitude of one basis state, after a matrix: a sum over the columns.
fn row_sum(ray: &Ray, matrix: &Matrix, qubits: &[u32], basis: usize) -> Wide
    requires few { ray.now.qubits ≤ 16 }
    requires arity { matrix.now.arity ≡ length qubits.now }
    requires qubits { All (λ q. q < ray.now.qubits) qubits.now }
    requires basis { basis < 2 ^ ray.now.qubits }
    ensures value { wide_element result ≡ product_at (matrix_gate matrix.now) qubits.now ray.now.amplitudes basis }
    ensures bound { IsBelow (2 ^ 125) (wide_element result) }
{
    let size = size(matrix.arity());
    let row = local_state(basis, qubits) as u8;
    let mut so_far = Wide::ZERO;
    for column in 0..size {
        let other = with_local(basis, qubits, usize::from(column));
        let amplitude = amplitude_at(ray, other);
        so_far = plus_product(so_far, matrix.entry(row, column), amplitude);
    }
    so_far
}

// The product's amplitude of one basis state: after the matrix at its control bits, and √2^m times its own where there is none.
fn sum_at(ray: &Ray, act: &Act, controls: &[u32], basis: usize) -> Wide
    requires few { ray.now.qubits ≤ 16 }
    requires act { IsAct act.now }
    requires controls { controls.now ≡ act.now.controls }
    requires qubits { All (λ q. q < ray.now.qubits) (qubits_of act.now) }
    requires basis { basis < 2 ^ ray.now.qubits }
    ensures value { wide_element result ≡ product_at (act_gate act.now) (qubits_of act.now) ray.now.amplitudes basis }
    ensures bound { IsBelow (2 ^ 125) (wide_element result) }
{
    let pattern = local_state(basis, controls) as u32;
    match act.matrix_at(pattern) {
        None => term(root_two_to(act.root_twos()), amplitude_at(ray, basis)),
        Some(matrix) => row_sum(ray, matrix, act.targets(), basis),
    }
}

// The number of basis states of so many qubits.
fn count(qubits: u32) -> usize
    requires { qubits ≤ 16 }
    ensures { result ≡ 2 ^ qubits }
{
    1 << qubits
}

/// The product of an act with a ray.
pub(crate) fn product(alloc: Global, ray: &Ray, act: &Act) -> Result<Vec<Wide>, AllocError>
    requires { All (λ q. q < ray.now.qubits) (qubits_of act.now) }
    ensures value { IfOk result (λ v. map_of (wide_elements_of v.items) ≡ ray_of (2 ^ ray.now.qubits) (product_at (act_gate act.now) (qubits_of act.now) ray.now.amplitudes)) }
    ensures some { IfOk result (λ v. map_of (wide_elements_of v.items) ≢ []) }
    ensures count { IfOk result (λ v. length v.items ≡ 2 ^ ray.now.qubits) }
    ensures bound { IfOk result (λ v. All (IsBelow (2 ^ 125)) (wide_elements_of v.items)) }
{
    let controls = act.controls();
    let size = count(ray.qubits());
    let mut sums = Vec::with_capacity(alloc, size)?;
    for basis in 0..size {
        sums.push(sum_at(ray, act, controls, basis))?;
    }
    Ok(sums)
}
