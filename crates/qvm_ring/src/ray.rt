//! Rays: exact states of at most 16 qubits up to a factor.

ghost use Rattle.std.specs.Prelude.{◌≡◌, ◌<◌, length};
ghost use Rattle.qvm_ring.specs.Gate.{zero_ray};
ghost use Rattle.qvm_ring.specs.Views.{elements_of, map_of};

use crate::amp::Amp;
use std::alloc::{AllocError, Global};
use std::marker::Model;

mod amplitudes;
mod flip;
mod gates;
mod measure;
mod settle;
#[cfg(test)]
mod tests;

/// The state of up to 16 qubits, up to a factor.
///
/// It keeps an amplitude for each of its 2^qubits basis states, in order; they aren't all 0. Qubit q is the bit of weight
/// 2^q in the number of a basis state. The weight, the sum of a² + b² + c² + d² over all amplitudes, is at most 2^94.
#[derive(Drop)]
pub struct Ray {
    qubits: u32,
    amplitudes: Vec<Amp>,
}

impl Model for Ray {
    ghost use Rattle.qvm_ring.specs.Ray.{State};
    ghost use Rattle.qvm_ring.specs.Views.{elements_of, map_of};
    ghost use Rattle.qvm_ring.specs.Vector.{IsVector};

    ghost Value = { State };

    ghost view = { λ r. record { qubits = r.qubits; amplitudes = map_of (elements_of r.amplitudes.items) } };

    ghost invariant = { λ r. IsVector r.qubits (elements_of r.amplitudes.items) };
}

// Leaves basis state 0 alone, with amplitude 1.
fn keep_zero(list: &mut [Amp])
    requires { 0 < length list.old }
    ensures value { map_of (elements_of list.new) ≡ zero_ray }
    ensures length { length list.new ≡ length list.old }
{
    for amplitude in list.iter_mut() {
        *amplitude = Amp::ZERO;
    }
    list[0] = Amp::ONE;
}

impl Ray {
    ghost use Rattle.std.specs.Prelude.{◌≡◌, ◌≤◌, IfOk};
    ghost use Rattle.qvm_ring.specs.Ray.{State, IsState};
    ghost use Rattle.qvm_ring.specs.Gate.{zero_ray};

    /// All of so many qubits at 0: amplitude 1 at basis state 0.
    pub fn zero(alloc: Global, qubits: u32) -> Result<Ray, AllocError>
        requires { qubits ≤ 16 }
        ensures { IfOk result (λ ray. ray ≡ record { qubits = qubits; amplitudes = zero_ray }) }
    {
        let mut amplitudes = Vec::from_elem(alloc, Amp::ZERO, 1 << qubits)?;
        keep_zero(&mut amplitudes);
        Ok(Ray { qubits, amplitudes })
    }

    /// All of its qubits at 0 again: amplitude 1 at basis state 0. Takes no memory.
    pub fn restart(&mut self)
        ensures { self.new ≡ record self.old { amplitudes = zero_ray } }
    {
        keep_zero(&mut self.amplitudes);
    }

    /// The number of qubits.
    pub fn qubits(&self) -> u32
        ensures value { result ≡ self.now.qubits }
        ensures kept { IsState self.now }
    {
        self.qubits
    }
}
