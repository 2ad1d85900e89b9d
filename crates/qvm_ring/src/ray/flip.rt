//! X on a ray, in place.

ghost use Rattle.std.specs.Prelude.{◌≡◌, ◌^◌, ◌<◌, ◌≤◌, [], ◌∷◌, length};
ghost use Rattle.qvm_ring.specs.Ray.{ray_of};
ghost use Rattle.qvm_ring.specs.Gate.{x_gate, product_at, applied};
ghost use Rattle.qvm_ring.specs.Views.{elements_of, map_of};
ghost use Rattle.qvm_ring.specs.Vector.{IsVector};

use crate::amp::Amp;
use crate::ray::Ray;
use crate::reduce::reduce;
use crate::sums::bit_of;

// Exchanges the amplitudes of each two states that differ in the qubit alone.
fn exchange(list: &mut [Amp], qubits: u32, qubit: u32)
    requires size { length list.old ≡ 2 ^ qubits }
    requires few { qubits ≤ 16 }
    requires one { qubit < qubits }
    ensures value { map_of (elements_of list.new) ≡ ray_of (2 ^ qubits) (product_at x_gate (qubit ∷ []) (map_of (elements_of list.old))) }
    ensures length { length list.new ≡ length list.old }
{
    for basis in 0..list.len() {
        if bit_of(basis, qubit) == 0 {
            list.swap(basis, basis + (1 << qubit));
        }
    }
}

// X in reduced form.
fn flip(list: &mut [Amp], qubits: u32, qubit: u32)
    requires vector { IsVector qubits (elements_of list.old) }
    requires one { qubit < qubits }
    ensures value { map_of (elements_of list.new) ≡ applied qubits x_gate (qubit ∷ []) (map_of (elements_of list.old)) }
    ensures vector { IsVector qubits (elements_of list.new) }
{
    exchange(list, qubits, qubit);
    reduce(list);
}

impl Ray {
    ghost use Rattle.std.specs.Prelude.{◌≡◌, ◌<◌, [], ◌∷◌};
    ghost use Rattle.qvm_ring.specs.Ray.{State};
    ghost use Rattle.qvm_ring.specs.Gate.{applied, x_gate};

    /// X on a qubit: the amplitudes of 0 and 1 change places. Takes no memory.
    pub fn flip(&mut self, qubit: u32)
        requires { qubit < self.old.qubits }
        ensures { self.new ≡ record self.old { amplitudes = applied self.old.qubits x_gate (qubit ∷ []) self.old.amplitudes } }
    {
        flip(&mut self.amplitudes, self.qubits, qubit);
    }
}
