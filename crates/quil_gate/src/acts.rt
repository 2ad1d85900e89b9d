//! The act of a gate at given angles.

ghost use Rattle.std.specs.Prelude.{◌≡◌, ℕ, ◌+◌, ◌-◌, ◌<◌, ◌≤◌, ◌^◌, ◌%◌, ◌==◌, length, map, [], ◌∷◌, All, IfOk, IfErr, IfSome, OnOk, Some, None};
ghost use Rattle.std.specs.List.{find, range_with_len};
ghost use Rattle.qvm_ring.specs.Gate.{Gate};
ghost use Rattle.quil_code.specs.Acts.{qubits_of, act_gate, matrix_at};
ghost use Rattle.quil_code.specs.GateCodes.{IsGateCode, base_arity, base_gate, base_root_twos, base_numbers, by_16, forks, gate_at, inexact_angle, is_base_over_half, is_odd, is_over_half};
ghost use Rattle.quil_code.specs.Matrices.{matrix_gate, IsMatrix, IsGate};
ghost use Rattle.quil_gate.specs.Pieces.{leaf_gate, number_limit, AreNumbers, AddsPieces};

use arrayvec::ArrayVec;
use quil_code::{Act, Base, Control, GateCode, Matrix, Piece, StandardGate};

/// RX, RY or RZ under CONTROLLED or FORKED at an odd number of eighths of a turn.
#[derive(Clone, Copy, Debug, PartialEq, Eq)]
pub struct AngleInexact {
    pub eighths: i64,
}

// k modulo 16.
fn by_16(k: i64) -> u8
    ensures value { result ≡ by_16 k }
    ensures bound { result < 16 }
{
    k.rem_euclid(16) as u8
}

fn is_odd(k: i64) -> bool
    ensures { result ≡ is_odd k }
{
    k.unsigned_abs() % 2 == 1
}

fn is_over_half(gate: StandardGate) -> bool
    ensures { result ≡ is_over_half gate }
{
    matches!(gate, StandardGate::Rx | StandardGate::Ry | StandardGate::Rz)
}

fn is_base_over_half(base: &Base) -> bool
    ensures { result ≡ is_base_over_half base.now }
{
    match base {
        Base::Standard(gate) => is_over_half(*gate),
        Base::Defined(_) => false,
    }
}

fn first_odd(angles: &[i64]) -> Option<i64>
    ensures { result ≡ find is_odd angles.now }
{
    angles.iter().copied().find(|angle| is_odd(*angle))
}

// The first angle that the gate can't take.
fn inexact_angle(gate: &GateCode, angles: &[i64]) -> Option<i64>
    ensures { result ≡ inexact_angle gate.now angles.now }
{
    if is_base_over_half(gate.base()) && !gate.controls().is_empty() {
        first_odd(angles)
    } else {
        None
    }
}

// The numbers that FORKED halves.
fn base_numbers(base: &Base, angles: &[i64]) -> ArrayVec<u8, 16>
    requires angles { length angles.now ≤ 16 }
    requires matrices { number_limit base.now ≤ 16 }
    ensures { result.items ≡ base_numbers base.now angles.now }
{
    match base {
        Base::Standard(_) => remainders(angles),
        Base::Defined(matrices) => numbers_below(matrices.len()),
    }
}

fn remainders(angles: &[i64]) -> ArrayVec<u8, 16>
    requires { length angles.now ≤ 16 }
    ensures { result.items ≡ map by_16 angles.now }
{
    let mut numbers = ArrayVec::new();
    for angle in angles {
        numbers.push(by_16(*angle));
    }
    numbers
}

fn numbers_below(count: usize) -> ArrayVec<u8, 16>
    requires { count ≤ 16 }
    ensures { result.items ≡ range_with_len 0 count }
{
    let mut numbers = ArrayVec::new();
    for number in 0..count {
        numbers.push(number as u8);
    }
    numbers
}

fn base_matrix(base: &Base, number: u8) -> Matrix
    requires { number < number_limit base.now }
    ensures { IsGate (base_gate base.now (number ∷ [])) (matrix_gate result) }
{
    match base {
        Base::Standard(gate) => gate.matrix(number),
        Base::Defined(matrices) => match matrices.get(usize::from(number)) {
            Some(matrix) => matrix.copied(),
            None => Matrix::default(),
        },
    }
}

// The matrix of the gate under the controls, for the numbers of one list that FORKED makes.
fn leaf(gate: &GateCode, numbers: &[u8]) -> Matrix
    requires some { 0 < number_limit gate.now.base }
    requires numbers { AreNumbers gate.now.base numbers.now }
    ensures { IsGate (leaf_gate gate.now numbers.now) (matrix_gate result) }
{
    let number = match numbers {
        [number, ..] => *number,
        [] => 0,
    };
    let matrix = base_matrix(gate.base(), number);
    if gate.is_dagger() {
        matrix.dagger()
    } else {
        matrix
    }
}

// The outermost control, and those inside it.
fn outermost(controls: &[Control]) -> Option<(Control, &[Control])>
    ensures some { IfSome result (λ p. controls.now ≡ p.0 ∷ p.1.now) }
    ensures none { result ≡ None → controls.now ≡ [] }
{
    match controls {
        [control, rest @ ..] => Some((*control, rest)),
        [] => None,
    }
}

// The pattern with the bit of the control outside of these.
fn raised(pattern: u32, controls: &[Control]) -> u32
    requires { pattern + 2 ^ length controls.now ≤ 2 ^ 16 }
    ensures { result ≡ pattern + 2 ^ length controls.now }
{
    pattern + (1 << controls.len())
}

// Adds the pieces of the gate under these controls, of which there are at most 16, so deep at most is the recursion. The patterns
// of the pieces begin at `pattern`.
fn add_pieces(
    gate: &GateCode,
    controls: &[Control],
    numbers: &[u8],
    pattern: u32,
    pieces: &mut ArrayVec<Piece, 16>,
)
    requires room { length pieces.old.items + 2 ^ forks controls.now ≤ 16 }
    requires patterns { pattern + 2 ^ length controls.now ≤ 2 ^ 16 }
    requires some { 0 < number_limit gate.now.base }
    requires numbers { AreNumbers gate.now.base numbers.now }
    requires free { (p : ℕ) → pattern ≤ p → p < pattern + 2 ^ length controls.now → matrix_at pieces.old.items p ≡ None }
    ensures { AddsPieces (leaf_gate gate.now) controls.now pattern numbers.now pieces.old.items pieces.new.items }
{
    let Some((control, rest)) = outermost(controls) else {
        let matrix = leaf(gate, numbers);
        // Each matrix is unitary and small.
        let _arity = matrix.arity();
        pieces.push(Piece { pattern, matrix });
        return;
    };
    match control {
        Control::Controlled => add_pieces(gate, rest, numbers, raised(pattern, rest), pieces),
        Control::Forked => {
            let (first, second) = numbers.split_at(numbers.len() / 2);
            add_pieces(gate, rest, first, pattern, pieces);
            add_pieces(gate, rest, second, raised(pattern, rest), pieces);
        }
    }
}

// The qubits, in an array.
fn listed<const CAP: usize>(qubits: &[u32]) -> ArrayVec<u32, CAP>
    requires { length qubits.now ≤ CAP }
    ensures { result.items ≡ qubits.now }
{
    let mut list = ArrayVec::new();
    for qubit in qubits {
        list.push(*qubit);
    }
    list
}

fn base_root_twos(base: &Base) -> u32
    requires { 0 < number_limit base.now }
    ensures value { result ≡ base_root_twos base.now }
    ensures light { result ≤ 40 }
    ensures few { base_arity base.now ≤ 3 }
{
    match base {
        Base::Standard(gate) => gate.root_twos(),
        Base::Defined(matrices) => match matrices.get(0) {
            Some(matrix) => matrix.root_twos(),
            None => 0,
        },
    }
}

/// The act of a gate at these angles, one for each of its parameters, in eighths of a turn.
///
/// AngleInexact names the first angle of RX, RY or RZ under CONTROLLED or FORKED that is an odd number of eighths.
pub fn act(gate: &GateCode, angles: &[i64]) -> Result<Act, AngleInexact>
    requires form { IsGateCode gate.now }
    requires few { length gate.now.qubits ≤ 16 }
    requires angles { length angles.now ≡ length gate.now.angles }
    ensures ok { IfOk result (λ a. IsGate (gate_at gate.now angles.now) (act_gate a)) }
    ensures qubits { IfOk result (λ a. qubits_of a ≡ gate.now.qubits) }
    ensures exact { OnOk result (inexact_angle gate.now angles.now ≡ None) }
    ensures inexact { IfErr result (λ e. inexact_angle gate.now angles.now ≡ Some e.eighths) }
{
    if let Some(eighths) = inexact_angle(gate, angles) {
        return Err(AngleInexact { eighths });
    }
    let base = gate.base();
    let controls = gate.controls();
    let root_twos = base_root_twos(base);
    let numbers = base_numbers(base, angles);
    let mut pieces = ArrayVec::new();
    add_pieces(gate, controls, numbers.as_slice(), 0, &mut pieces);
    let (controls, targets) = gate.qubits().split_at(controls.len());
    Ok(Act::new(listed(controls), listed(targets), root_twos, pieces))
}
