//! The law that a printed value is read again as the same value.
ghost use Rattle.std.specs.Prelude.{◌≡◌, ◌<◌, ◌^◌, ◌++◌, [], ℕ, ℤ, List, Ok, true};
ghost use Rattle.std.specs.Fmt.{decimal, signed_decimal};
ghost use Rattle.std.specs.List.{All};
ghost use Rattle.std.specs.Char.{IsScalar};
ghost use Rattle.ecow_script.specs.Answers.{list_text, text_form};
ghost use Rattle.ecow_script.specs.Numbers.{IsI64};
ghost use Rattle.ecow_script.specs.Words.{place, count, integer, byte, integers, bytes, text, ends_word};

/// A number, a list or a text in an answer means the same as an argument, whatever names were read
/// before. So what `contents` answers can be given to `from_list` or `from_str`.
pub fn answers_are_arguments()
    ensures counts { (n : ℕ) (names : List (List ℕ)) → n < 2 ^ 64
        → count (place (decimal n) names) ≡ Ok (n, place [] names) }
    ensures integers { (z : ℤ) (names : List (List ℕ)) → IsI64 z
        → integer (place (signed_decimal z) names) ≡ Ok (z, place [] names) }
    ensures bytes { (b : ℕ) (names : List (List ℕ)) → b < 256
        → byte (place (decimal b) names) ≡ Ok (b, place [] names) }

    // Lists and texts.
    ensures lists { (xs : List ℤ) (names : List (List ℕ)) → All IsI64 xs
        → integers (place (list_text signed_decimal xs) names) ≡ Ok (xs, place [] names) }
    ensures lists_of_bytes { (xs : List ℕ) (names : List (List ℕ)) → All (λ b. b < 256) xs
        → bytes (place (list_text decimal xs) names) ≡ Ok (xs, place [] names) }
    ensures texts { (cs rest : List ℕ) (names : List (List ℕ)) → All IsScalar cs
        → ends_word rest ≡ true
        → text (place (text_form cs ++ rest) names) ≡ Ok (cs, place rest names) }
{}
