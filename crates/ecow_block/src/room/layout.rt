//! The size and the alignment of a head with the places behind it.
ghost use Rattle.std.specs.Prelude.{◌≡◌, ◌*◌, ◌^◌, ◌<◌, ◌≤◌, ◌+◌};
ghost use prog.Memory.{up};
ghost use Rattle.std.specs.Mem.{type_size};
ghost use Rattle.ecow_block.specs.Heads.{item_align, whole_size, whole_align};

use std::mem::{align_of, size_of};

/// The alignment of an element.
#[inline]
fn align<T>() -> usize
    ensures { (result ≡ item_align T.row) × (0 < result) × (result ≤ 16) }
{
    align_of::<T>()
}

/// The number of bytes from `at` to the next multiple of `align`.
#[inline]
fn padding(at: usize, align: usize) -> usize
    requires { (0 < align) × (align ≤ 16) }
    ensures { (at + result ≡ up align at) × (result < 16) }
{
    (align - at % align) % align
}

/// The size and the alignment of a head with `places` places behind it.
#[inline]
pub(crate) fn layout_of<T>(places: usize) -> (usize, usize)
    requires { places * type_size T.row < 2 ^ 63 }
    ensures { (result.0 ≡ whole_size T.row places) × (result.1 ≡ whole_align T.row) }
{
    let align = align::<T>();
    let whole = align.max(8);
    let offset = 32 + padding(32, align);
    let end = offset + places * size_of::<T>();
    (end + padding(end, whole), whole)
}
