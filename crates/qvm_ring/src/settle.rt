//! The product of a gate in reduced form, where it isn't too heavy.

ghost use Rattle.std.specs.Prelude.{◌≡◌, ◌≢◌, ◌+◌, ◌*◌, ◌^◌, ◌<◌, ◌≤◌, true, false, [], length, unsigned_abs, All, IfOk, OnOk, Err};
ghost use Rattle.qvm_ring.specs.Ring.{norm_whole};
ghost use Rattle.qvm_ring.specs.Ray.{weight, weight_limit, reduced};
ghost use Rattle.qvm_ring.specs.Views.{element_of, elements_of, wide_element, wide_elements_of, map_of, IsBelow};

use crate::amp::Amp;
use crate::fault::ApplyFault;
use crate::reduce::reduce;
use crate::wide::Wide;
use std::alloc::{AllocError, Global};

// The weight that a ray may have at most.
const WEIGHT_LIMIT: u128 = 1 << 94;

fn square(x: i128) -> u128
    requires { unsigned_abs x < 2 ^ 48 }
    ensures value { result ≡ unsigned_abs x * unsigned_abs x }
    ensures bound { result < 2 ^ 96 }
{
    x.unsigned_abs() * x.unsigned_abs()
}

// a² + b² + c² + d².
fn weight(z: Wide) -> u128
    requires { IsBelow (2 ^ 48) (wide_element z) }
    ensures value { result ≡ norm_whole (wide_element z) }
    ensures bound { result < 2 ^ 98 }
{
    square(z.a) + square(z.b) + square(z.c) + square(z.d)
}

// Whether every coefficient is below 2^48. One that isn't weighs too much alone.
#[tactic(auto, using(crate::proofs::Settling::heavy_a, crate::proofs::Settling::heavy_b, crate::proofs::Settling::heavy_c, crate::proofs::Settling::heavy_d))]
fn is_small(z: Wide) -> bool
    ensures small { result ≡ true → IsBelow (2 ^ 48) (wide_element z) }
    ensures heavy { result ≡ false → weight_limit < norm_whole (wide_element z) }
{
    let bound = 1 << 48;
    if z.a.unsigned_abs() >= bound {
        return false;
    }
    if z.b.unsigned_abs() >= bound {
        return false;
    }
    if z.c.unsigned_abs() >= bound {
        return false;
    }
    z.d.unsigned_abs() < bound
}

/// Whether they weigh at most 2^94.
pub(crate) fn is_light(list: &[Wide]) -> bool
    ensures light { result ≡ true → weight (map_of (wide_elements_of list.now)) ≤ weight_limit }
    ensures heavy { result ≡ false → weight_limit < weight (map_of (wide_elements_of list.now)) }
{
    let mut total = 0;
    for z in list {
        if !is_small(*z) {
            return false;
        }
        total += weight(*z);
        if total > WEIGHT_LIMIT {
            return false;
        }
    }
    true
}

fn narrow(z: Wide) -> Amp
    requires { IsBelow (2 ^ 62) (wide_element z) }
    ensures { element_of result ≡ wide_element z }
{
    Amp {
        a: z.a as i64,
        b: z.b as i64,
        c: z.c as i64,
        d: z.d as i64,
    }
}

/// The list with coefficients of 64 bits.
pub(crate) fn narrowed(alloc: Global, list: &[Wide]) -> Result<Vec<Amp>, AllocError>
    requires { All (IsBelow (2 ^ 62)) (wide_elements_of list.now) }
    ensures { IfOk result (λ v. elements_of v.items ≡ wide_elements_of list.now) }
{
    let mut amplitudes = Vec::with_capacity(alloc, list.len())?;
    for z in list {
        amplitudes.push(narrow(*z))?;
    }
    Ok(amplitudes)
}

/// The reduced product, unless it weighs more than 2^94.
pub(crate) fn settled(alloc: Global, mut product: Vec<Wide>) -> Result<Vec<Amp>, ApplyFault>
    requires small { All (IsBelow (2 ^ 125)) (wide_elements_of product.items) }
    requires some { map_of (wide_elements_of product.items) ≢ [] }
    ensures ok { IfOk result (λ v. map_of (elements_of v.items) ≡ reduced (map_of (wide_elements_of product.items))) }
    ensures length { IfOk result (λ v. length v.items ≡ length product.items) }
    ensures light { OnOk result (weight (reduced (map_of (wide_elements_of product.items))) ≤ weight_limit) }
    ensures heavy { result ≡ Err ApplyFault.AmplitudeLimit → weight_limit < weight (reduced (map_of (wide_elements_of product.items))) }
{
    reduce(&mut product);
    if !is_light(&product) {
        return Err(ApplyFault::AmplitudeLimit);
    }
    let amplitudes = narrowed(alloc, &product)?;
    Ok(amplitudes)
}
