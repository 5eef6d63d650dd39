ghost use Rattle.std.specs.Prelude.{◌≡◌, ◌≢◌, ◌↔◌, ℕ, List, Some, None, take, slice_get};
ghost use Rattle.trace_check.specs.Verdict.{first_difference};

/// There is no difference exactly where two lists are equal. Before the first difference both are the same, and there
/// one has another item or ends.
pub fn difference_law()
    ensures same { (xs ys : List ℕ) → (first_difference xs ys ≡ None) ↔ (xs ≡ ys) }
    ensures before { (xs ys : List ℕ) (place : ℕ) → first_difference xs ys ≡ Some place → take place xs ≡ take place ys }
    ensures there { (xs ys : List ℕ) (place : ℕ) → first_difference xs ys ≡ Some place → slice_get xs place ≢ slice_get ys place }
{}
