//! Parameters of gates, as programs keep them: angles in eighths of a turn.

ghost use Rattle.std.specs.Prelude.{◌≡◌, ◌<◌, ◌≤◌, ◌^◌, ◌*◌, ◌*ℤ◌, ◌+ℤ◌, nat_abs, length, All, option_map};
ghost use Rattle.quil_memory.specs.declared.cell_type.CellType.TheVariants.{Real};
ghost use Rattle.quil_memory.specs.Cells.{value_at};
ghost use Rattle.quil_code.specs.Angles.{sum_at, whole_quotient, angle_at, angles_at, AngleFits};
ghost use Rattle.quil_code.specs.Program.{CellFits};

use crate::classic::Cell;
use arrayvec::ArrayVec;
use quil_memory::{CellType, Memory};
use std::marker::Model;

/// A REAL cell, and the whole number that it is multiplied by.
#[derive(Clone, Copy, Debug, PartialEq, Eq)]
pub struct AngleTerm {
    pub cell: Cell,
    pub factor: i64,
}

/// (f1·r1 + .. + fn·rn + own) / common, where each cell r, and the sum, is a count of eighths of a turn.
///
/// It keeps that `common` is from 1 to 2^20, that there are at most 16 cells, and that each factor and `own` are at most 2^31 in
/// absolute value.
#[derive(Drop)]
pub struct LinearAngle {
    common: u32,
    terms: Vec<AngleTerm>,
    own: i64,
}

impl Model for LinearAngle {
    ghost use Rattle.quil_code.specs.LinearAngles as angles;
    ghost use Rattle.quil_code.specs.LinearAngles.{IsLinearAngle};

    ghost Value = { angles.LinearAngle };

    ghost view = { λ a. record { common = a.common; terms = a.terms.items; own = a.own } };

    ghost invariant = { λ a. IsLinearAngle (record { common = a.common; terms = a.terms.items; own = a.own }) };
}

impl LinearAngle {
    ghost use Rattle.std.specs.Prelude.{◌≡◌};
    ghost use Rattle.quil_code.specs.LinearAngles.{IsLinearAngle};

    /// The angle of these numbers.
    pub fn new(common: u32, terms: Vec<AngleTerm>, own: i64) -> LinearAngle
        requires { IsLinearAngle (record { common = common; terms = terms.items; own = own }) }
        ensures { result ≡ record { common = common; terms = terms.items; own = own } }
    {
        LinearAngle { common, terms, own }
    }

    /// The denominator.
    pub fn common(&self) -> u32
        ensures value { result ≡ self.now.common }
        ensures form { IsLinearAngle self.now }
    {
        self.common
    }

    /// The cells with their factors.
    pub fn terms(&self) -> &[AngleTerm]
        ensures value { result.now ≡ self.now.terms }
        ensures form { IsLinearAngle self.now }
    {
        &self.terms
    }

    /// The number that stands alone.
    pub fn own(&self) -> i64
        ensures value { result ≡ self.now.own }
        ensures form { IsLinearAngle self.now }
    {
        self.own
    }
}

/// A parameter of a gate.
#[derive(Drop)]
pub enum Angle {
    /// So many eighths of a turn.
    Whole(i64),
    /// A whole number of eighths of a turn that 64 bits don't hold.
    Outside,
    /// What memory says when the gate is done.
    Linear(LinearAngle),
}

fn product(factor: i64, value: i64) -> i128
    requires left { nat_abs factor ≤ 2 ^ 31 }
    requires right { nat_abs value ≤ 2 ^ 63 }
    ensures value { result ≡ factor *ℤ value }
    ensures bound { nat_abs result ≤ 2 ^ 94 }
{
    i128::from(factor) * i128::from(value)
}

// A cell's value times its factor.
fn term_at(memory: &Memory, term: AngleTerm) -> i128
    requires cell { CellFits Real term.cell (length memory.now) }
    requires factor { nat_abs term.factor ≤ 2 ^ 31 }
    ensures value { result ≡ term.factor *ℤ value_at Real term.cell.first memory.now }
    ensures bound { nat_abs result ≤ 2 ^ 94 }
{
    product(term.factor, memory.value(CellType::Real, term.cell.first))
}

fn sum_at(memory: &Memory, terms: &[AngleTerm]) -> i128
    requires few { length terms.now ≤ 16 }
    requires cells { All (λ t. CellFits Real t.cell (length memory.now)) terms.now }
    requires factors { All (λ t. nat_abs t.factor ≤ 2 ^ 31) terms.now }
    ensures value { result ≡ sum_at memory.now terms.now }
    ensures bound { nat_abs result ≤ 2 ^ 98 }
{
    let mut sum = 0;
    for term in terms {
        sum += term_at(memory, *term);
    }
    sum
}

fn with_own(sum: i128, own: i64) -> i128
    requires sum { nat_abs sum ≤ 2 ^ 98 }
    requires own { nat_abs own ≤ 2 ^ 31 }
    ensures { result ≡ sum +ℤ own }
{
    sum + i128::from(own)
}

// sum/common, where that is a whole number that 64 bits hold.
fn whole_quotient(sum: i128, common: u32) -> Option<i64>
    requires { 0 < common }
    ensures { result ≡ whole_quotient sum common }
{
    let quotient = sum / i128::from(common);
    let is_whole = sum.unsigned_abs() % u128::from(common) == 0;
    if is_whole && i128::from(i64::MIN) <= quotient && quotient <= i128::from(i64::MAX) {
        Some(quotient as i64)
    } else {
        None
    }
}

impl LinearAngle {
    // The angle in a memory.
    fn eighths(&self, memory: &Memory) -> Option<i64>
        requires { AngleFits (Angle.Linear self.now) (length memory.now) }
        ensures { result ≡ angle_at memory.now (Angle.Linear self.now) }
    {
        let sum = with_own(sum_at(memory, self.terms()), self.own());
        whole_quotient(sum, self.common())
    }
}

impl Angle {
    /// The angle that it is in a memory, in eighths of a turn, if it is a whole number of them that 64 bits hold.
    pub fn eighths(&self, memory: &Memory) -> Option<i64>
        requires { AngleFits self.now (length memory.now) }
        ensures { result ≡ angle_at memory.now self.now }
    {
        match self {
            Angle::Whole(eighths) => Some(*eighths),
            Angle::Outside => None,
            Angle::Linear(angle) => angle.eighths(memory),
        }
    }
}

/// The angles that these parameters are in a memory, in eighths of a turn, where each is a whole number of them in 64 bits.
pub fn angles_at(memory: &Memory, angles: &[Angle]) -> Option<ArrayVec<i64, 16>>
    requires few { length angles.now ≤ 16 }
    requires cells { All (λ a. AngleFits a (length memory.now)) angles.now }
    ensures { option_map (λ ks. ks.items) result ≡ angles_at memory.now angles.now }
{
    let mut eighths = ArrayVec::new();
    for angle in angles {
        eighths.push(angle.eighths(memory)?);
    }
    Some(eighths)
}
