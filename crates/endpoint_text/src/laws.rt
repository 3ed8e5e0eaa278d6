//! What it is for arms to stand in ascending order of their labels.

ghost use Rattle.std.specs.Prelude.{ℕ, List};
ghost use Rattle.std.specs.Ordering.{nat_cmp};
ghost use Rattle.std.specs.Cmp.Lexicographic.{slice_cmp};
ghost use Rattle.std.specs.List.Sorted.{IsPermutation, IsSortedByKey, IsStableByKey};
ghost use Rattle.endpoint_text.specs.Ascending.{ascending};

/// The arms of a branch are all printed, by ascending bytes of their labels, and arms of one label
/// in the order in which they stand in the code.
pub fn labels_ascend()
    ensures all { (arms : List (List ℕ × List ℕ)) → IsPermutation arms (ascending (λ arm. arm.0) arms) }
    ensures sorted { (arms : List (List ℕ × List ℕ)) → IsSortedByKey (λ arm. arm.0) (slice_cmp nat_cmp) (ascending (λ arm. arm.0) arms) }
    ensures stable { (arms : List (List ℕ × List ℕ)) → IsStableByKey (λ arm. arm.0) (slice_cmp nat_cmp) arms (ascending (λ arm. arm.0) arms) }
{}
