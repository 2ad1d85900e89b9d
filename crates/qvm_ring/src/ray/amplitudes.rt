//! Rays from amplitudes, and amplitudes of rays.

ghost use Rattle.std.specs.Prelude.{◌≡◌, ℕ, ◌^◌, ◌<◌, ◌≤◌, length};
ghost use Rattle.qvm_ring.specs.Ray.{amplitude_at};
ghost use Rattle.qvm_ring.specs.Views.{element_of, elements_of, map_of};

use crate::amp::Amp;
use crate::ray::Ray;
use crate::reduce::reduce;
use std::alloc::{AllocError, Global};

// The number of qubits of a ray with so many basis states.
fn qubits_of(count: usize) -> u32
    requires { (n : ℕ) × (n ≤ 16) × (count ≡ 2 ^ n) }
    ensures few { result ≤ 16 }
    ensures exact { count ≡ 2 ^ result }
{
    let mut qubits = 0;
    while (1usize << qubits) < count {
        qubits += 1;
    }
    qubits
}

// The amplitude of a basis state.
fn amp_of(list: &[Amp], basis: u32) -> Amp
    requires { basis < length list.now }
    ensures { element_of result ≡ amplitude_at (map_of (elements_of list.now)) basis }
{
    list[basis as usize]
}

impl Ray {
    ghost use Rattle.std.specs.Prelude.{◌≡◌, ◌≢◌, ℕ, ◌^◌, ◌<◌, ◌≤◌, [], length, IfOk};
    ghost use Rattle.qvm_ring.specs.Ray.{State, amplitude_at, weight, weight_limit, reduced};
    ghost use Rattle.qvm_ring.specs.Views.{element_of, elements_of, map_of, IsBelow};

    /// The ray of 2^n amplitudes, for n qubits at most 16, in reduced form.
    ///
    /// Amplitude x is that of basis state x. They aren't all 0, and weigh at most 2^94.
    pub fn of(alloc: Global, amplitudes: &[Amp]) -> Result<Ray, AllocError>
        requires count { (n : ℕ) × (n ≤ 16) × (length amplitudes.now ≡ 2 ^ n) }
        requires some { map_of (elements_of amplitudes.now) ≢ [] }
        requires light { weight (map_of (elements_of amplitudes.now)) ≤ weight_limit }
        ensures qubits { IfOk result (λ ray. length amplitudes.now ≡ 2 ^ ray.qubits) }
        ensures value { IfOk result (λ ray. ray.amplitudes ≡ reduced (map_of (elements_of amplitudes.now))) }
    {
        let qubits = qubits_of(amplitudes.len());
        let mut amplitudes = Vec::from_slice(alloc, amplitudes)?;
        reduce(&mut amplitudes);
        Ok(Ray { qubits, amplitudes })
    }

    /// The amplitude of a basis state. Its coefficients are below 2^48 in absolute value, since the ray weighs at most 2^94.
    pub fn amp(&self, basis: u32) -> Amp
        requires { basis < 2 ^ self.now.qubits }
        ensures value { element_of result ≡ amplitude_at self.now.amplitudes basis }
        ensures bound { IsBelow (2 ^ 48) (element_of result) }
    {
        amp_of(&self.amplitudes, basis)
    }
}
