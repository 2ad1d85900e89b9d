//! The theory as laws: functions that do nothing, each with its statement as its contract.

ghost use Rattle.std.specs.Prelude.{◌≡◌, ◌≢◌, ◌↔◌, List, [], ◌∷◌, ◌++◌, true, false, IsTrue, IsFalse};
ghost use Rattle.quil_shape.specs.Shape.{Shape, Grammar};
ghost use Rattle.quil_shape.specs.Shape.Shape.{Seq, Or, Many, Rule};
ghost use Rattle.quil_shape.specs.Whole.{Whole};
ghost use Rattle.quil_shape.specs.Front.{Front};
ghost use Rattle.quil_shape.specs.Expects.{Expects};
ghost use Rattle.quil_shape.specs.Verdict.{IsOnlyVerdict, Verdict};
ghost use Rattle.quil_shape.specs.Condition.{Tables, is_decided_by_one_token};
ghost use Rattle.quil_shape.specs.Outcome.{Outcome, verdict_of};
ghost use Rattle.quil_shape.specs.Reads.{Reads, Advances, Halts, Exceeds, GoesOn, StopsAt, ExceedsAt, starts, is_barred};
ghost use Rattle.quil_shape.specs.Nested.{nested, tables};
ghost use Rattle.quil_shape.specs.Ambiguous.{with_commas, maybe_comma, twice_repeated, empty_repeated, alike, both_empty, nothing_before};

/// Under the condition no tokens are a whole in two ways.
pub fn only_reading<C, O, R, K, T>()
    ensures { (g : Grammar C O R K T) (tables : Tables R K) (s : Shape C O R) → IsTrue (is_decided_by_one_token g tables s) → (ts : List T) (os ps : List O) → Whole g s ts os → Whole g s ts ps → os ≡ ps }
{}

/// A grammar in which some tokens are a whole in two ways fails the condition, whatever its tables.
pub fn ambiguous_fails<C, O, R, K, T>()
    ensures { (g : Grammar C O R K T) (tables : Tables R K) (s : Shape C O R) (ts : List T) (os ps : List O) → Whole g s ts os → Whole g s ts ps → os ≢ ps → IsFalse (is_decided_by_one_token g tables s) }
{}

/// Under the condition reading from left to right comes to an outcome on any tokens, and the verdict that it means
/// is the only true one: a reading of all of them, or where they are refused, or the first that is too large.
pub fn left_to_right<C, O, R, K, T>()
    ensures ends { (g : Grammar C O R K T) (tables : Tables R K) (s : Shape C O R) → IsTrue (is_decided_by_one_token g tables s) → (ts : List T) → ((out : Outcome O T) × Reads g tables s ts out) }
    ensures decides { (g : Grammar C O R K T) (tables : Tables R K) (s : Shape C O R) → IsTrue (is_decided_by_one_token g tables s) → (ts : List T) (out : Outcome O T) → Reads g tables s ts out → IsOnlyVerdict g s ts (verdict_of out) }
{}

/// A front goes on with a token exactly where a class is expected that accepts it.
pub fn front_goes_on<C, O, R, K, T>()
    ensures { (g : Grammar C O R K T) (s : Shape C O R) (before : List T) (t : T) → (Front g s (before ++ t ∷ []) ↔ ((c : C) × Expects g s before c × (g.accepts c (g.kind t) ≡ true))) }
{}

/// How a reader that keeps a list of the shapes still to read goes on: a part that advances is done, a choice looks
/// at one token, a repetition goes on where a token opens a part and else ends, a rule is its body.
pub fn list_goes_on<C, O, R, K, T>()
    ensures next { (g : Grammar C O R K T) (tables : Tables R K) (a : Shape C O R) (todo : List (Shape C O R)) (us vs : List T) (os ps : List O) → Advances g tables a us vs ps → GoesOn g tables (a ∷ todo) us os todo vs (os ++ ps) }
    ensures sequence { (g : Grammar C O R K T) (tables : Tables R K) (a b : Shape C O R) (todo : List (Shape C O R)) (us : List T) (os : List O) → GoesOn g tables (Seq a b ∷ todo) us os (a ∷ b ∷ todo) us os }
    ensures first { (g : Grammar C O R K T) (tables : Tables R K) (a b : Shape C O R) (todo : List (Shape C O R)) (us : List T) (os : List O) → IsTrue (starts g tables a us) → GoesOn g tables (Or a b ∷ todo) us os (a ∷ todo) us os }
    ensures not_first { (g : Grammar C O R K T) (tables : Tables R K) (a b : Shape C O R) (todo : List (Shape C O R)) (us : List T) (os : List O) → IsTrue (is_barred g tables a us) → GoesOn g tables (Or a b ∷ todo) us os (b ∷ todo) us os }
    ensures repeats { (g : Grammar C O R K T) (tables : Tables R K) (a : Shape C O R) (todo : List (Shape C O R)) (us : List T) (os : List O) → IsTrue (starts g tables a us) → GoesOn g tables (Many a ∷ todo) us os (a ∷ Many a ∷ todo) us os }
    ensures ends { (g : Grammar C O R K T) (tables : Tables R K) (a : Shape C O R) (todo : List (Shape C O R)) (us : List T) (os : List O) → IsFalse (starts g tables a us) → GoesOn g tables (Many a ∷ todo) us os todo us os }
    ensures rule { (g : Grammar C O R K T) (tables : Tables R K) (r : R) (todo : List (Shape C O R)) (us : List T) (os : List O) → GoesOn g tables (Rule r ∷ todo) us os (g.body r ∷ todo) us os }
{}

/// Where such a reader, begun with one shape, comes to the end of its list or stops, reading the shape does.
pub fn list_ends<C, O, R, K, T>()
    ensures advances { (g : Grammar C O R K T) (tables : Tables R K) (s : Shape C O R) (ts us : List T) (os : List O) → GoesOn g tables (s ∷ []) ts [] [] us os → Advances g tables s ts us os }
    ensures halts { (g : Grammar C O R K T) (tables : Tables R K) (s a : Shape C O R) (todo : List (Shape C O R)) (ts us vs : List T) (os : List O) → GoesOn g tables (s ∷ []) ts [] (a ∷ todo) us os → Halts g tables a us vs → Halts g tables s ts vs }
    ensures exceeds { (g : Grammar C O R K T) (tables : Tables R K) (s a : Shape C O R) (todo : List (Shape C O R)) (ts us vs : List T) (os : List O) → GoesOn g tables (s ∷ []) ts [] (a ∷ todo) us os → Exceeds g tables a us vs → Exceeds g tables s ts vs }
{}

/// Two shapes that meet the condition, and five that don't: a repetition that may be followed by itself, one of a part
/// that may be empty, a choice whose members begin alike, one whose members may both be empty, and one of nothing
/// before what its other member begins with.
#[tactic(auto, unfolding(crate::specs::Nested::nested, crate::specs::Nested::tables))]
pub fn ambiguous_examples()
    ensures with_commas { IsTrue (is_decided_by_one_token nested tables with_commas) }
    ensures maybe_comma { IsTrue (is_decided_by_one_token nested tables maybe_comma) }
    ensures twice_repeated { IsFalse (is_decided_by_one_token nested tables twice_repeated) }
    ensures empty_repeated { IsFalse (is_decided_by_one_token nested tables empty_repeated) }
    ensures alike { IsFalse (is_decided_by_one_token nested tables alike) }
    ensures both_empty { IsFalse (is_decided_by_one_token nested tables both_empty) }
    ensures nothing_before { IsFalse (is_decided_by_one_token nested tables nothing_before) }
{}

#[cfg(test)]
mod tests {
    use super::*;

    // Each law holds at concrete types.
    #[test]
    fn laws_at_concrete_types() {
        only_reading::<u8, u16, u32, bool, char>();
        ambiguous_fails::<u8, u16, u32, bool, char>();
        left_to_right::<u8, u16, u32, bool, char>();
        front_goes_on::<u8, u16, u32, bool, char>();
        list_goes_on::<u8, u16, u32, bool, char>();
        list_ends::<u8, u16, u32, bool, char>();
    }
}
