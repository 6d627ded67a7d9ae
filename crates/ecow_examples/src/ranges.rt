//! Where ranges start and end.
ghost use Rattle.std.specs.Prelude.{◌≡◌, Some, None};
ghost use Rattle.std.specs.declared.ops.Bound.TheVariants.{Included, Excluded, Unbounded};
ghost use Rattle.ecow_base.specs.Range.{range_of};

/// Where ranges start and end in a list of three items.
pub fn ranges_of_three()
    ensures to_included { range_of (Unbounded, Included 2) 3 ≡ Some (0, 3) }
    ensures to_included_past_the_end { range_of (Unbounded, Included 3) 3 ≡ None }
    ensures nothing_at_the_end { range_of (Included 3, Excluded 3) 3 ≡ Some (3, 3) }
    ensures backwards { range_of (Included 2, Excluded 1) 3 ≡ None }
    ensures after_excluded_to_excluded { range_of (Excluded 2, Excluded 3) 3 ≡ Some (3, 3) }
    ensures after_excluded_past_the_last { range_of (Excluded 3, Unbounded) 3 ≡ None }
{}

/// Where ranges start and end in an empty list.
pub fn ranges_of_nothing()
    ensures to_included { range_of (Unbounded, Included 0) 0 ≡ None }
    ensures all { range_of (Unbounded, Unbounded) 0 ≡ Some (0, 0) }
{}
