//! Patterns of a text that are replaced.
ghost use Rattle.std.specs.Prelude.{◌≡◌, [], ◌∷◌, codes};
ghost use Rattle.ecow_base.specs.Replaced.{replacen, replace_all};

/// Patterns of some characters, and their replacements. 233 is é and 128512 is 😀.
#[tactic(auto, unfolding(ecow_base::specs::Replaced::replacen, ecow_base::specs::Replaced::first_split))]
pub fn replaced_patterns()
    ensures leftmost_first { replace_all (codes "aa") (codes "b") (codes "aaa") ≡ codes "ba" }
    ensures at_the_end { replace_all (codes "a") [] (233 ∷ 97 ∷ []) ≡ 233 ∷ [] }
    ensures each_occurrence { replace_all (128512 ∷ []) (codes "ab") (128512 ∷ 128512 ∷ [])
        ≡ codes "abab" }
    ensures all_of_it { replace_all (codes "abc") [] (codes "abc") ≡ [] }
{}

/// The empty pattern, which occurs at every boundary.
#[tactic(auto, unfolding(ecow_base::specs::Replaced::replacen, ecow_base::specs::Replaced::first_split))]
pub fn replaced_boundaries()
    ensures all { replace_all [] (codes "-") (codes "ab") ≡ codes "-a-b-" }
    ensures two { replacen 2 [] (codes "-") (codes "ab") ≡ codes "-a-b" }
    ensures none { replacen 0 [] (codes "-") (codes "ab") ≡ codes "ab" }
    ensures of_long_characters { replace_all [] (codes "-") (97 ∷ 128512 ∷ [])
        ≡ 45 ∷ 97 ∷ 45 ∷ 128512 ∷ 45 ∷ [] }
    ensures of_nothing { replace_all [] (codes "-") [] ≡ codes "-" }
{}
