//! Laws of the definitions: functions that do nothing, each with its statement as its contract.

ghost use Rattle.std.specs.Prelude.{◌≡◌, ◌≢◌, ◌⊎◌, ℕ, List, IsTrue, true};
ghost use Rattle.quil_shape.specs.Condition.{is_decided_by_one_token};
ghost use Rattle.quil_shape.specs.Shape.Shape.{Rule};
ghost use Rattle.quil_tree.specs.declared.expr.Step.{Step};
ghost use Rattle.quil_grammar.specs.Sort.{is_sort};
ghost use Rattle.quil_grammar.specs.Grammar.{quil, Sum};
ghost use Rattle.quil_grammar.specs.Tables.{tables};
ghost use Rattle.quil_grammar.specs.Statements.{top_level, statement, matrix_row, permutation_row, nowhere, nothing};
ghost use Rattle.quil_grammar.specs.Written.{Written, events};
ghost use Rattle.quil_grammar.specs.Parts.{Part, parts_events};
ghost use Rattle.quil_grammar.specs.Answer.{IsExpressionOf, IsFault};
ghost use Rattle.quil_grammar.specs.declared.fault.ReadFault as fault;
ghost use Rattle.quil_grammar.specs.declared.fault.ReadFault.TheVariants.{OutOfMemory};

use crate::sort::Sort;

/// The test of two sorts says whether they are the same.
pub fn sorts_are_told_apart(a: Sort, b: Sort)
    ensures same { is_sort a b ≡ true → a ≡ b }
    ensures told { a ≡ b → is_sort a b ≡ true }
{}

/// One token decides each choice in the grammar of expressions, so no tokens are read in two ways.
#[tactic(auto, unfolding(crate::specs::Grammar::quil, crate::specs::Tables::tables))]
pub fn one_token_decides()
    ensures { IsTrue (is_decided_by_one_token quil tables (Rule (Sum true))) }
{}

/// One token decides each choice in the statements of Quil, in its definitions and in their rows.
pub fn one_token_decides_statements()
    ensures top_level { IsTrue (is_decided_by_one_token quil tables top_level) }
    ensures statement { IsTrue (is_decided_by_one_token quil tables statement) }
    ensures matrix_row { IsTrue (is_decided_by_one_token quil tables matrix_row) }
    ensures permutation_row { IsTrue (is_decided_by_one_token quil tables permutation_row) }
    ensures nowhere { IsTrue (is_decided_by_one_token quil tables nowhere) }
    ensures nothing { IsTrue (is_decided_by_one_token quil tables nothing) }
{}

/// What reading makes is that of one written expression alone.
#[tactic(auto, using(crate::proofs::Writings::same_written))]
pub fn one_writing()
    ensures { (w v : Written) → events w ≡ events v → w ≡ v }
{}

/// What reading a line makes is that of one list of parts alone.
#[tactic(auto, using(crate::proofs::Parts::same_parts))]
pub fn one_list_of_parts()
    ensures { (ps qs : List Part) → parts_events ps ≡ parts_events qs → ps ≡ qs }
{}

/// A text is at most one expression, and has at most one fault beside want of memory, never both.
pub fn one_expression()
    ensures expression { (text : List ℕ) (ss ts : List Step) → IsExpressionOf text ss → IsExpressionOf text ts → ss ≡ ts }
    ensures fault { (text : List ℕ) (f g : fault.ReadFault) → f ≢ OutOfMemory → g ≢ OutOfMemory → IsFault text f → IsFault text g → f ≡ g }
    ensures not_both { (text : List ℕ) (ss : List Step) (f : fault.ReadFault) → f ≢ OutOfMemory → IsExpressionOf text ss → ¬ (IsFault text f) }
{}

/// Each text is an expression, or has a fault beside want of memory.
pub fn expression_or_fault()
    ensures { (text : List ℕ) → ((steps : List Step) × IsExpressionOf text steps) ⊎ ((f : fault.ReadFault) × (f ≢ OutOfMemory) × IsFault text f) }
{}
