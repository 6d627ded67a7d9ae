//! Allocates, reads, writes and frees a head, with the places behind it.
ghost use Rattle.std.specs.Prelude.{◌≡◌, ◌⊎◌, ◌*◌, ◌^◌, ◌<◌, [], IfOk, MatchBool};
ghost use Rattle.std.specs.Borrow.{sem};
ghost use Rattle.std.specs.Mem.{type_size};
ghost use denote.RawPtr.{InBlock, Testable, null_ptr};
ghost use Rattle.ecow_block.specs.Heads.{whole_size, whole_align};
ghost use Rattle.ecow_block.specs.TitleLends.{lends_fields};
ghost use Rattle.ecow_block.specs.Whole.{IsTopOf, IsBehind};

use super::{Base, Fields, Head, Room, Title, Top};
use std::alloc::{AllocError, Allocator, Global};
use std::marker::PhantomData;
use std::ptr;

/// Asks `alloc` for `size` bytes: a head, and `places` places behind it.
pub(crate) fn make_head<T, A: Allocator>(
    alloc: &A,
    places: usize,
    size: usize,
    align: usize,
) -> Result<(Top<T>, Room<T>, Title<T, A>), AllocError>
    requires { (size ≡ whole_size T.row places) × (align ≡ whole_align T.row)
        × (places * type_size T.row < 2 ^ 63) }
    ensures { IfOk result (λ r. IsTopOf r.0 r.2 alloc.now × IsBehind r.1 r.2 × (r.1.items ≡ [])
        × (r.2.places ≡ places) × (r.2.fields.base.ptr ≡ r.1.at) × (r.2.fields.len ≡ 0)
        × (r.2.fields.capacity ≡ places)) }
{
    match alloc.allocate(size, align) {
        Ok(block) => {
            let ptr = block as *mut Head<T>;
            unsafe {
                let base = Base {
                    // rust: ptr: block.add(32_usize.next_multiple_of(align_of::<T>())) as *mut T,
                    ptr: block.add(32) as *mut T,
                };
                (*ptr).count = 1;
                (*ptr).fields = Fields {
                    base,
                    len: 0,
                    capacity: places,
                };
            }
            Ok((
                Top { ptr },
                Room { mark: PhantomData },
                Title { mark: PhantomData },
            ))
        }
        Err(error) => Err(error),
    }
}

/// Frees a head, and the places behind it, which hold no items.
pub(crate) fn give_back_head<T, A: Allocator>(
    alloc: &A,
    top: Top<T>,
    size: usize,
    align: usize,
    room: Room<T>,
    title: Title<T, A>,
)
    requires head { IsTopOf top title alloc.now }
    requires places { (title.places ≡ 0) ⊎ (IsBehind room title × (room.items ≡ [])) }
    requires memory { (size ≡ whole_size T.row title.places) × (align ≡ whole_align T.row) }
{
    let Room { mark: _ } = room;
    let Title { mark: _ } = title;
    unsafe {
        alloc.deallocate(top.ptr as *mut u8, size, align);
    }
}

/// The fields of a head.
pub(crate) fn fields<T, A: Allocator>(title: &Title<T, A>, top: Top<T>) -> &Fields<T>
    requires { (top.ptr ≡ title.now.at) × InBlock top.ptr }
    ensures { result.now ≡ title.now.fields }
{
    let ptr = top.ptr;
    unsafe { &(*ptr).fields }
}

/// Borrows the fields of a head to write them.
pub(crate) fn fields_mut<T, A: Allocator>(title: &mut Title<T, A>, top: Top<T>) -> &mut Fields<T>
    requires { (top.ptr ≡ title.old.at) × InBlock top.ptr }
    ensures* writes_back { sem 𝓛 (lends_fields T.row A.row A.Allocator title.entry result) }
    ensures value { result.now ≡ title.old.fields }
{
    let ptr = top.ptr;
    unsafe { &mut (*ptr).fields }
}

/// Stands for the head of a block that has none. Its places begin at `_base`.
// rust: const
pub(crate) fn no_head<T, A: Allocator>(_alloc: &A, _base: Base<T>) -> (Top<T>, Title<T, A>)
    ensures { (result.0.ptr ≡ null_ptr) × (result.1.at ≡ null_ptr) × (result.1.alloc ≡ _alloc.now)
        × (result.1.fields.base.ptr ≡ _base.ptr) × (result.1.fields.len ≡ 0)
        × (result.1.fields.capacity ≡ 0) }
{
    let ptr = ptr::null::<Head<T>>().cast_mut();
    (Top { ptr }, Title { mark: PhantomData })
}

/// Whether there is no head.
pub(crate) fn is_none<T>(top: Top<T>) -> bool
    requires { Testable top.ptr }
    ensures { MatchBool result (top.ptr ≡ null_ptr) (InBlock top.ptr) }
{
    top.ptr.is_null()
}

/// Returns the title as it is, and shows that its head's address may be compared with null, as that
/// of each allocation of `Global` may.
pub(crate) fn tested<T>(title: Title<T, Global>) -> Title<T, Global>
    ensures { (result ≡ title) × Testable title.at }
{
    title
}
