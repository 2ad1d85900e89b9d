//! Terms of sums: at most 16, no two with one cell.

ghost use Rattle.std.specs.Prelude.{◌≡◌, [], ◌∷◌, ◌++◌, Ok, Err, OnOk, IfErr, map, position};
ghost use Rattle.quil_value.specs.Results.{and_then};
ghost use Rattle.quil_value.specs.Sums.{is_same_cell, with_term, limited, with_terms, scaled_terms, opposite_term};
ghost use Rattle.quil_value.specs.SumForms.{IsRatio, AreTerms};
ghost use Rattle.quil_value.specs.Worked.{IsLackOf};

use crate::lack::Lack;
use crate::ratio_arithmetic::{opposite, ratio_product, ratio_sum};
use crate::sum_fault::SumFault;
use crate::sums::{Cell, Term};
use quil_number::Fraction;

const MOST_CELLS: usize = 16;

fn place_of(terms: &[Term], cell: Cell) -> Option<usize>
    ensures { result ≡ position (λ t. is_same_cell t.cell cell) terms.now }
{
    terms.iter().position(|term| term.cell == cell)
}

// Adds a term of another cell.
fn push_new(terms: &mut Vec<Term>, term: Term) -> Result<(), SumFault>
    ensures ok { OnOk result (limited (terms.old.items ++ term ∷ []) ≡ Ok terms.new.items) }
    ensures err { IfErr result (λ f. IsLackOf f (limited (terms.old.items ++ term ∷ []))) }
{
    if terms.len() >= MOST_CELLS {
        return Err(SumFault::Lack(Lack::NumberTooWide));
    }
    terms.push(term)?;
    Ok(())
}

// Adds a term.
fn add_term(terms: &mut Vec<Term>, term: Term) -> Result<(), SumFault>
    requires terms { AreTerms terms.old.items }
    requires factor { IsRatio term.factor }
    ensures ok { OnOk result (and_then (with_term terms.old.items term) limited ≡ Ok terms.new.items) }
    ensures form { OnOk result (AreTerms terms.new.items) }
    ensures err { IfErr result (λ f. IsLackOf f (and_then (with_term terms.old.items term) limited)) }
{
    let Some(place) = place_of(terms, term.cell) else {
        return push_new(terms, term);
    };
    let known = terms[place];
    let factor = ratio_sum(known.factor, term.factor)?;
    terms[place] = Term {
        cell: known.cell,
        factor,
    };
    Ok(())
}

/// Adds terms one after another.
pub(crate) fn add_terms(terms: &mut Vec<Term>, others: &[Term]) -> Result<(), SumFault>
    requires terms { AreTerms terms.old.items }
    requires others { AreTerms others.now }
    ensures ok { OnOk result (with_terms terms.old.items others.now ≡ Ok terms.new.items) }
    ensures form { OnOk result (AreTerms terms.new.items) }
    ensures err { IfErr result (λ f. IsLackOf f (with_terms terms.old.items others.now)) }
{
    for term in others {
        add_term(terms, *term)?;
    }
    Ok(())
}

/// Multiplies each factor.
pub(crate) fn scale_terms(terms: &mut [Term], factor: Fraction) -> Result<(), Lack>
    requires terms { AreTerms terms.old }
    requires factor { IsRatio factor }
    ensures ok { OnOk result (scaled_terms terms.old factor ≡ Ok terms.new) }
    ensures form { OnOk result (AreTerms terms.new) }
    ensures err { IfErr result (λ e. scaled_terms terms.old factor ≡ Err e) }
{
    for term in terms.iter_mut() {
        term.factor = ratio_product(term.factor, factor)?;
    }
    Ok(())
}

/// Changes the sign of each factor.
pub(crate) fn negate_terms(terms: &mut [Term])
    requires { AreTerms terms.old }
    ensures value { terms.new ≡ map opposite_term terms.old }
    ensures form { AreTerms terms.new }
{
    for term in terms.iter_mut() {
        term.factor = opposite(term.factor);
    }
}
