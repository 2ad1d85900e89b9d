//! Norms of rays, and what a measurement leaves of one.

ghost use Rattle.std.specs.Prelude.{◌≡◌, ◌≢◌, ℕ, ◌^◌, ◌<◌, ◌≤◌, [], length};
ghost use Rattle.qvm_ring.specs.Ray.{weight, weight_limit};
ghost use Rattle.qvm_ring.specs.Measure.{kept, projected};
ghost use Rattle.qvm_ring.specs.Views.{elements_of, map_of};
ghost use Rattle.qvm_ring.specs.Vector.{IsVector};

use crate::amp::Amp;
use crate::ray::Ray;
use crate::reduce::reduce;
use crate::signed_norm::Norm;
use crate::sums::{bit_of, norm, part_norm};

// Sets the amplitudes to 0 in which the qubit isn't `bit`.
fn keep(list: &mut [Amp], qubit: u32, bit: u32)
    requires few { length list.old ≤ 2 ^ 16 }
    requires one { qubit < 16 }
    ensures value { map_of (elements_of list.new) ≡ kept (map_of (elements_of list.old)) qubit bit }
    ensures length { length list.new ≡ length list.old }
{
    for basis in 0..list.len() {
        if bit_of(basis, qubit) != bit {
            list[basis] = Amp::ZERO;
        }
    }
}

// Keeps the part in which the qubit is `bit`, in reduced form.
fn project(list: &mut [Amp], qubit: u32, bit: u32)
    requires few { length list.old ≤ 2 ^ 16 }
    requires one { qubit < 16 }
    requires some { kept (map_of (elements_of list.old)) qubit bit ≢ [] }
    requires light { weight (map_of (elements_of list.old)) ≤ weight_limit }
    ensures value { map_of (elements_of list.new) ≡ projected (map_of (elements_of list.old)) qubit bit }
    ensures vector { (n : ℕ) → IsVector n (elements_of list.old) → IsVector n (elements_of list.new) }
{
    keep(list, qubit, bit);
    reduce(list);
}

impl Ray {
    ghost use Rattle.std.specs.Prelude.{◌≡◌, ◌≢◌, ◌<◌, []};
    ghost use Rattle.qvm_ring.specs.Ray.{State, IsState};
    ghost use Rattle.qvm_ring.specs.Measure.{norm_of, kept, projected};
    ghost use Rattle.qvm_ring.specs.NormViews.{norm_seen, IsNorm, bit_number};

    /// The sum of |amplitude|² over all basis states.
    pub fn norm(&self) -> Norm
        ensures value { norm_seen result ≡ norm_of self.now.amplitudes }
        ensures bounds { IsNorm result }
        ensures kept { IsState self.now }
    {
        norm(&self.amplitudes)
    }

    /// The sum of |amplitude|² over the basis states in which the qubit is `bit`.
    pub fn norm_where(&self, qubit: u32, bit: bool) -> Norm
        requires { qubit < self.now.qubits }
        ensures value { norm_seen result ≡ norm_of (kept self.now.amplitudes qubit (bit_number bit)) }
        ensures bounds { IsNorm result }
    {
        part_norm(&self.amplitudes, qubit, u32::from(bit))
    }

    /// The measurement of the qubit gave `bit`: keeps the amplitudes with that bit, in reduced form. Takes no memory.
    pub fn project(&mut self, qubit: u32, bit: bool)
        requires one { qubit < self.old.qubits }
        requires some { kept self.old.amplitudes qubit (bit_number bit) ≢ [] }
        ensures { self.new ≡ record self.old { amplitudes = projected self.old.amplitudes qubit (bit_number bit) } }
    {
        project(&mut self.amplitudes, qubit, u32::from(bit));
    }
}
