//! A gate's own bits of a basis state: those of the qubits that it acts on.

ghost use Rattle.std.specs.Prelude.{◌≡◌, ℕ, ◌^◌, ◌<◌, ◌≤◌, length, All};
ghost use Rattle.qvm_ring.specs.Gate.{bit_of, with_bit, local_state, with_local};

// The value of a qubit in a basis state.
fn bit_of(basis: usize, qubit: u32) -> usize
    requires { qubit < 16 }
    ensures value { result ≡ bit_of basis qubit }
    ensures bound { result < 2 }
{
    basis / (1 << qubit) % 2
}

// The basis state with that qubit set.
fn with_bit(basis: usize, qubit: u32, bit: usize) -> usize
    requires state { basis < 2 ^ 16 }
    requires one { qubit < 16 }
    requires value { bit < 2 }
    ensures { result ≡ with_bit basis qubit bit }
{
    let step = 1usize << qubit;
    basis - bit_of(basis, qubit) * step + bit * step
}

/// The values of the qubits in a basis state as a number, the first qubit the most significant.
#[tactic(auto, using(crate::proofs::LocalLoops::local_begun, crate::proofs::LocalLoops::local_step, crate::proofs::LocalLoops::local_done))]
pub fn local_state(basis: usize, qubits: &[u32]) -> usize
    requires few { length qubits.now ≤ 16 }
    requires all { All (λ q. q < 16) qubits.now }
    ensures value { result ≡ local_state qubits.now basis }
    ensures bound { result < 2 ^ length qubits.now }
{
    let mut state = 0;
    for qubit in qubits {
        state = 2 * state + bit_of(basis, *qubit);
    }
    state
}

/// The basis state with the qubits set to the bits of `local`, the first qubit to the most significant.
#[tactic(auto, using(crate::proofs::LocalLoops::with_local_begun, crate::proofs::LocalLoops::with_local_step, crate::proofs::LocalLoops::with_local_done, crate::proofs::LocalLoops::set_below))]
pub fn with_local(basis: usize, qubits: &[u32], local: usize) -> usize
    requires state { basis < 2 ^ 16 }
    requires few { length qubits.now ≤ 16 }
    requires all { All (λ q. q < 16) qubits.now }
    ensures value { result ≡ with_local qubits.now local basis }
    ensures bound { (n : ℕ) → All (λ q. q < n) qubits.now → basis < 2 ^ n → result < 2 ^ n }
{
    let mut state = basis;
    for place in 0..qubits.len() {
        let qubit = qubits[qubits.len() - 1 - place];
        let bit = bit_of(local, place as u32);
        state = with_bit(state, qubit, bit);
    }
    state
}
