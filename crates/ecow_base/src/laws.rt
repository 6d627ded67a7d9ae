// rust: no file: laws alone
//! What holds of the definitions.
ghost use Rattle.std.specs.Prelude.{◌≡◌, ℕ, List, true};
ghost use Rattle.ecow_base.specs.Utf8.{IsBoundary, is_boundary};

/// The test of a boundary passes at the boundaries of a text, and nowhere else.
pub fn boundaries_are_tested()
    ensures passes { (cs : List ℕ) (index : ℕ) → IsBoundary cs index → is_boundary cs index ≡ true }
    ensures is { (cs : List ℕ) (index : ℕ) → is_boundary cs index ≡ true → IsBoundary cs index }
{}
