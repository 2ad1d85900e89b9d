//! The outcome of a measurement, and what it leaves of the ray.

ghost use Rattle.std.specs.Prelude.{◌≡◌, ◌≢◌, ◌<◌, []};
ghost use Rattle.qvm_ring.specs.Measure.{outcome, kept, projected};
ghost use Rattle.qvm_ring.specs.NormViews.{bit_number};

use crate::sign::exceeds;
use qvm_ring::{Ray, outcomes_keep_some};

/// Whether the measurement of the qubit with this random word gives 1: exactly where word · N < 2^32 · N1, for the norm N of
/// the ray and the norm N1 of the part in which the qubit is 1.
pub fn outcome(ray: &Ray, qubit: u32, word: u32) -> bool
    requires { qubit < ray.now.qubits }
    ensures value { result ≡ outcome ray.now.amplitudes qubit word }
    ensures some { kept ray.now.amplitudes qubit (bit_number result) ≢ [] }
{
    let one = ray.norm_where(qubit, true);
    let all = ray.norm();
    outcomes_keep_some();
    exceeds(one, all, word)
}

/// The measurement of the qubit gave `bit`: keeps the amplitudes with that bit, in reduced form.
pub fn project(ray: &mut Ray, qubit: u32, bit: bool)
    requires one { qubit < ray.old.qubits }
    requires some { kept ray.old.amplitudes qubit (bit_number bit) ≢ [] }
    ensures { ray.new ≡ record ray.old { amplitudes = projected ray.old.amplitudes qubit (bit_number bit) } }
{
    ray.project(qubit, bit);
}
