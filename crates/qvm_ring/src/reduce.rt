//! The reduced form of a list of amplitudes, in place.

ghost use Rattle.std.specs.Prelude.{◌≡◌, ◌≢◌, ◌^◌, ◌<◌, true, false, None, Some, [], ◌∷◌, length, map, All, IfSome};
ghost use Rattle.std.specs.List.{list_all};
ghost use Rattle.qvm_ring.specs.Ring.{is_divisible, quotient};
ghost use Rattle.qvm_ring.specs.Ray.{lone_is_unit, reduced};
ghost use Rattle.qvm_ring.specs.Views.{at, map_of, wide_elements_of, IsBelow};

use crate::number::Number;
use crate::wide::Wide;

// Whether √2 divides every number.
fn is_divisible<Z: Number>(list: &[Z]) -> bool
    ensures { result ≡ list_all is_divisible (map Z.element list.now) }
{
    for z in list {
        if !z.is_divisible() {
            return false;
        }
    }
    true
}

// Divides every number by √2, where √2 divides them all.
fn divide<Z: Number>(list: &mut [Z])
    requires { All (IsBelow Z.limit) (map Z.element list.old) }
    ensures { map Z.element list.new ≡ map quotient (map Z.element list.old) }
{
    for z in list.iter_mut() {
        *z = z.quotient();
    }
}

// The place of the only number that isn't 0.
fn lone<Z: Number>(list: &[Z]) -> Option<usize>
    ensures one { IfSome result (λ place. map_of (map Z.element list.now) ≡ (place, at (map Z.element list.now) place) ∷ []) }
    ensures bound { IfSome result (λ place. place < length list.now) }
    ensures other { result ≡ None → lone_is_unit (map_of (map Z.element list.now)) ≡ map_of (map Z.element list.now) }
{
    let mut lone = None;
    for place in 0..list.len() {
        if !list[place].is_zero() {
            if lone.is_some() {
                return None;
            }
            lone = Some(place);
        }
    }
    lone
}

// A lone amplitude becomes 1.
fn set_lone_to_one<Z: Number>(list: &mut [Z])
    ensures value { map_of (map Z.element list.new) ≡ lone_is_unit (map_of (map Z.element list.old)) }
    ensures length { length list.new ≡ length list.old }
{
    if let Some(place) = lone(list) {
        list[place] = Z::one();
    }
}

/// The reduced form: divided by √2 while every amplitude is divisible, and then a lone amplitude becomes 1.
pub(crate) fn reduce<Z: Number>(list: &mut [Z])
    requires small { All (IsBelow Z.limit) (map Z.element list.old) }
    requires some { map_of (map Z.element list.old) ≢ [] }
    ensures value { map_of (map Z.element list.new) ≡ reduced (map_of (map Z.element list.old)) }
    ensures length { length list.new ≡ length list.old }
{
    while is_divisible(list) {
        divide(list);
    }
    set_lone_to_one(list);
}

/// Divides every number by √2 where √2 divides them all, and else none; answers whether it did.
///
/// Every coefficient is below 2^125 in absolute value.
pub fn halve(list: &mut [Wide]) -> bool
    requires { All (IsBelow (2 ^ 125)) (wide_elements_of list.old) }
    ensures all { result ≡ list_all is_divisible (wide_elements_of list.old) }
    ensures divided { result ≡ true → wide_elements_of list.new ≡ map quotient (wide_elements_of list.old) }
    ensures left { result ≡ false → list.new ≡ list.old }
{
    let all = is_divisible(list);
    if all {
        divide(list);
    }
    all
}
