//! Laws above the definitions of the ring, of rays and of gates.

ghost use Rattle.std.specs.Prelude.{◌≡◌, ◌≢◌, ◌+◌, ◌*◌, ◌^◌, ◌<◌, ◌≤◌, ℕ, true, false, ℤ, pos, neg_ℤ, ◌+ℤ◌, ◌*ℤ◌, [], ◌∷◌};
ghost use Rattle.qvm_ring.specs.Ring.{Element, unit, times, conjugate, root_two, norm_whole, norm_root, is_positive, is_divisible, quotient};
ghost use Rattle.qvm_ring.specs.Ray.{Ray, IsFiniteMap, weight, all_divisible, all_divided, reduced};
ghost use Rattle.qvm_ring.specs.Gate.{applied, x_gate};

/// The norm u + v√2 of an amplitude is the amplitude times its complex conjugate, where √2 is ω - ω³.
#[tactic(auto, using(crate::proofs::RingLemmas::times_conjugate))]
pub fn norm_is_product_with_conjugate()
    ensures { (z : Element) → times z (conjugate z) ≡ record { a = pos (norm_whole z); b = norm_root z; c = pos 0; d = neg_ℤ (norm_root z) } }
{}

/// Division by √2: the quotient times √2 is the element, and has half its weight.
#[tactic(auto, using(crate::proofs::RingLemmas::root_two_times_quotient, crate::proofs::RingLemmas::norm_whole_quotient, crate::proofs::RayLemmas::weight_all_divided))]
pub fn quotient_times_root_two()
    ensures product { (z : Element) → is_divisible z ≡ true → times root_two (quotient z) ≡ z }
    ensures weight_of_one { (z : Element) → is_divisible z ≡ true → 2 * norm_whole (quotient z) ≡ norm_whole z }
    ensures weight_of_all { (ray : Ray) → all_divisible ray ≡ true → 2 * weight (all_divided ray) ≡ weight ray }
{}

/// A reduced ray isn't divisible by √2, and one with a single amplitude has the amplitude 1.
#[tactic(auto, using(crate::proofs::RayLemmas::all_divisible_reduced, crate::proofs::RayLemmas::reduced_lone))]
pub fn reduced_rays()
    ensures not_divisible { (ray : Ray) → 0 < weight ray → all_divisible (reduced ray) ≡ false }
    ensures lone { (ray : Ray) (x : ℕ) (z : Element) → reduced ray ≡ (x, z) ∷ [] → z ≡ unit }
{}

/// X makes no ray heavier, so its product never passes the limit.
#[tactic(auto, using(crate::proofs::Flips::x_no_heavier))]
pub fn x_never_passes_the_limit()
    ensures { (n qubit : ℕ) (ray : Ray) → qubit < n → IsFiniteMap 0 (2 ^ n) ray → ray ≢ [] → weight (applied n x_gate (qubit ∷ []) ray) ≤ weight ray }
{}

/// The sign test of u + v√2: a factor √2 doesn't change it, and the sum of two positive numbers is positive.
#[tactic(auto, using(crate::proofs::SignLemmas::is_positive_root_two, crate::proofs::SignLemmas::is_positive_sum))]
pub fn sign_of_norms()
    ensures root_two { (u v : ℤ) → is_positive (pos 2 *ℤ v) u ≡ is_positive u v }
    ensures sum { (u v s t : ℤ) → is_positive u v ≡ true → is_positive s t ≡ true → is_positive (u +ℤ s) (v +ℤ t) ≡ true }
{}
