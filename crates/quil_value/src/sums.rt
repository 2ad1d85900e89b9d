//! Rational sums of memory cells.

ghost use Rattle.std.specs.Prelude.{◌≡◌, ◌<◌, [], ◌∷◌, nat_abs, Ok, IfOk, IfErr};
ghost use Rattle.quil_value.specs.Sums.{sum_of_sums, scaled_sum, opposite_sum, cell_sum, zero_ratio};
ghost use Rattle.quil_value.specs.SumForms.{IsRatio, IsSum};
ghost use Rattle.quil_value.specs.Worked.{IsLackOf};

use crate::lack::Lack;
use crate::ratio_arithmetic::{opposite, ratio_product, ratio_sum};
use crate::sum_fault::SumFault;
use crate::terms::{add_terms, negate_terms, scale_terms};
use quil_number::Fraction;
use std::alloc::{AllocError, Global};
use std::marker::Model;

const NONE: Fraction = Fraction { p: 0, q: 1 };

const ONE: Fraction = Fraction { p: 1, q: 1 };

/// A cell of memory: the number of its region, from 0 in order of declaration, and its index there.
#[derive(Clone, Copy, Debug, PartialEq, Eq)]
pub struct Cell {
    pub region: u32,
    pub index: u64,
}

/// A cell and its factor.
#[derive(Clone, Copy, Debug, PartialEq, Eq)]
pub struct Term {
    pub cell: Cell,
    pub factor: Fraction,
}

/// The sum of cells times their factors, and of π times a factor of its own. No two terms have one cell.
#[derive(Drop)]
pub struct CellSum {
    terms: Vec<Term>,
    own: Fraction,
}

impl Model for CellSum {
    ghost use Rattle.quil_value.specs.Sums.{Sum};
    ghost use Rattle.quil_value.specs.SumForms.{IsSum};

    ghost Value = { Sum };

    ghost view = { λ s. record { terms = s.terms.items; own = s.own } };

    ghost invariant = { λ s. IsSum (record { terms = s.terms.items; own = s.own }) };
}

impl CellSum {
    /// The sum that is a cell.
    pub fn of_cell(alloc: Global, cell: Cell) -> Result<CellSum, AllocError>
        ensures { IfOk result (λ s. s ≡ cell_sum cell) }
    {
        let mut terms = Vec::with_capacity(alloc, 1)?;
        terms.push(Term { cell, factor: ONE })?;
        Ok(CellSum { terms, own: NONE })
    }

    /// π times a factor, without a cell. Takes no memory.
    #[tactic(auto, using(crate::proofs::CellSums::pi_form))]
    pub fn of_pi(alloc: Global, factor: Fraction) -> CellSum
        requires { IsRatio factor }
        ensures { result ≡ record { terms = []; own = factor } }
    {
        CellSum {
            terms: Vec::new(alloc),
            own: factor,
        }
    }

    /// 0. Takes no memory.
    #[tactic(auto, using(crate::proofs::CellSums::zero_form))]
    pub fn zero(alloc: Global) -> CellSum
        ensures { result ≡ record { terms = []; own = zero_ratio } }
    {
        CellSum::of_pi(alloc, NONE)
    }

    /// The cells with their factors: at most 16, and none twice.
    pub fn terms(&self) -> &[Term]
        ensures terms { result.now ≡ self.now.terms }
        ensures form { IsSum self.now }
    {
        &self.terms
    }

    /// The factor of π.
    pub fn own(&self) -> Fraction
        ensures own { result ≡ self.now.own }
        ensures form { IsSum self.now }
    {
        self.own
    }

    /// The same sum.
    pub fn copied(&self, alloc: Global) -> Result<CellSum, AllocError>
        ensures { IfOk result (λ s. s ≡ self.now) }
    {
        let terms = Vec::from_slice(alloc, &self.terms)?;
        Ok(CellSum {
            terms,
            own: self.own,
        })
    }

    /// The sum of both, or that a number is too wide or there are more than 16 cells.
    pub fn plus(self, other: &CellSum) -> Result<CellSum, SumFault>
        ensures ok { IfOk result (λ s. sum_of_sums self other.now ≡ Ok s) }
        ensures err { IfErr result (λ f. IsLackOf f (sum_of_sums self other.now)) }
    {
        let CellSum { mut terms, own } = self;
        add_terms(&mut terms, &other.terms)?;
        let own = ratio_sum(own, other.own)?;
        Ok(CellSum { terms, own })
    }

    /// Each factor times a rational, or that one is too wide. A factor that becomes 0 stays.
    pub fn times(self, factor: Fraction) -> Result<CellSum, Lack>
        requires { IsRatio factor }
        ensures { result ≡ scaled_sum self factor }
    {
        let CellSum { mut terms, own } = self;
        scale_terms(&mut terms, factor)?;
        let own = ratio_product(own, factor)?;
        Ok(CellSum { terms, own })
    }

    /// Each factor with the other sign.
    pub fn opposite(self) -> CellSum
        ensures { result ≡ opposite_sum self }
    {
        let CellSum { mut terms, own } = self;
        negate_terms(&mut terms);
        let own = opposite(own);
        CellSum { terms, own }
    }
}
