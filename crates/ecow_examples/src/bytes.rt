//! Which changes of bytes take no memory.
ghost use Rattle.std.specs.Prelude.{◌≡◌, true, false};
ghost use Rattle.ecow_model.specs.Bytes.{bytes_edit_is_free};
ghost use Rattle.ecow_model.specs.declared.bytes.BytesEdit.TheVariants.{Pop, Push, Reserve};
ghost use Rattle.ecow_examples.specs.Memory.{bytes_of_number};

/// Inline bytes that stay inline take no memory: fourteen bytes and one more, or fifteen and none
/// more.
pub fn free_of_memory()
    ensures the_fifteenth_push { bytes_edit_is_free 15 (Push 7) (bytes_of_number 14 true) ≡ true }
    ensures not_the_sixteenth { bytes_edit_is_free 15 (Push 7) (bytes_of_number 15 true) ≡ false }
    ensures a_reserve_of_nothing { bytes_edit_is_free 15 (Reserve 0) (bytes_of_number 15 true)
        ≡ true }
    ensures a_pop { bytes_edit_is_free 15 Pop (bytes_of_number 15 true) ≡ true }
    ensures no_push_of_spilled_bytes { bytes_edit_is_free 15 (Push 7) (bytes_of_number 1 false)
        ≡ false }
{}
