//! The changes of a block that has the capacity for them. They are never refused, since the memory
//! and the clones that they need are taken before.
ghost use Rattle.std.specs.Prelude.{◌≡◌, ◌+◌, ◌-◌, ◌≤◌, ◌++◌, [], false, length, IsSome, IsOk, IfOk, IfSome, Ok, vec_capacity, slice_range};
ghost use Rattle.std.specs.List.{splice, items_where_true};
ghost use Rattle.ecow_base.specs.Clones.{ClonesAreEqual};
ghost use Rattle.ecow_base.specs.Range.{range_of, items_in_range};
ghost use Rattle.ecow_block.specs.Contents.{contents};
ghost use Rattle.ecow_model.specs.Vecs.{edit_vec};
ghost use Rattle.ecow_model.specs.Refusing.{OnRefused, verdict};
ghost use Rattle.ecow_counted.specs.Edits.{asked_length, length_after, new_items, spare_room, taken_out, takes_spare};

use ecow_base::{MAX_LEN, resolve};
use ecow_block::Block;
use ecow_model::vecs::VecEdit;
use ecow_model::{Bounds, Items, Outcome};
use std::alloc::{AllocError, Global};

/// What is taken before a change is made: a block with the clones that are appended, or with
/// capacity for the elements that change places, and capacity for the elements that are returned.
#[derive(Drop)]
pub(crate) struct Spare<T> {
    pub block: Block<T>,
    pub answer: Vec<T>,
}

impl<T: Clone> Spare<T> {
    /// Takes all that a change of a list of `len` elements needs.
    pub fn new(alloc: Global, edit: &VecEdit<T>, len: usize) -> Result<Self, AllocError>
        requires bounded { len ≤ MAX_LEN }
        requires length { asked_length edit.now len ≤ MAX_LEN }

        // The clones that the change appends, and capacity for the elements that change places.
        ensures items { ClonesAreEqual T.is_clone
            → IfOk result (λ spare. spare.block.items ≡ new_items edit.now) }
        ensures len { IfOk result
            (λ spare. length spare.block.items ≡ length (new_items edit.now)) }
        ensures room { IfOk result (λ spare. spare_room edit.now len ≤ spare.block.capacity) }

        // Capacity for the elements that it returns.
        ensures empty { IfOk result (λ spare. spare.answer.items ≡ []) }
        ensures answer { IfOk result (λ spare. taken_out edit.now len ≤ vec_capacity spare.answer) }
        ensures free { takes_spare edit.now ≡ false → IsOk result }
    {
        let taken = answer_len(edit, len);
        let answer = Vec::with_capacity(alloc, taken)?;
        let block = match edit {
            VecEdit::Extend(items) if items.len() > 0 => {
                Block::from_clones(alloc, items.as_slice(), items.len())?
            }
            VecEdit::Splice(_, items) => Block::with_capacity(alloc, taken.max(items.len()))?,
            _ => Block::with_capacity(alloc, taken)?,
        };
        Ok(Spare { block, answer })
    }
}

/// How many elements a change returns.
fn answer_len<T>(edit: &VecEdit<T>, len: usize) -> usize
    ensures taken { result ≡ taken_out edit.now len }
    ensures bounded { result ≤ len }
{
    match edit {
        VecEdit::Drain(bounds) => count_in(bounds, len),
        VecEdit::Splice(bounds, _) => count_in(bounds, len),
        _ => 0,
    }
}

/// How many elements of a list of `len` elements are in a range. There are none if the bounds are
/// not a range of the list.
fn count_in(bounds: &Bounds, len: usize) -> usize
    ensures count { result ≡ items_in_range bounds.now len }
    ensures bounded { result ≤ len }
{
    match resolve(bounds, len) {
        Some((start, end)) => end - start,
        None => 0,
    }
}

/// Replaces the elements within bounds with those of another block, and returns them in `answer`,
/// which must be empty. Both have the capacity for it.
fn replace<T: Drop>(
    block: &mut Block<T>,
    bounds: Bounds,
    replacement: Block<T>,
    answer: Vec<T>,
) -> Items<T>
    requires found { IsSome (range_of bounds (length block.old.items)) }
    requires room { length block.old.items - items_in_range bounds (length block.old.items)
        + length replacement.items ≤ block.old.capacity }
    requires places { items_in_range bounds (length block.old.items) ≤ replacement.capacity }
    requires empty { answer.items ≡ [] }
    requires answer { items_in_range bounds (length block.old.items) ≤ vec_capacity answer }

    // The elements that are taken out, and the block afterwards.
    ensures taken { IfSome (range_of bounds (length block.old.items))
        (λ range. result ≡ slice_range block.old.items range.0 range.1) }
    ensures block { IfSome (range_of bounds (length block.old.items)) (λ range. block.new
        ≡ contents (splice block.old.items range.0 range.1 replacement.items) block.old.capacity) }
{
    let (start, end) = resolve(&bounds, block.len()).unwrap();
    let mut answer = answer;
    let removed = block.splice_within_capacity(start, end, replacement);
    removed.collect_into(&mut answer);
    Items::new(answer)
}

/// Keeps the elements whose mark is true. There must be a mark for each element.
fn retain_by_marks<T: Drop>(block: &mut Block<T>, marks: &[bool])
    requires { length marks.now ≡ length block.old.items }
    ensures { block.new ≡ contents (items_where_true marks.now block.old.items) block.old.capacity }
{
    let mut rest = marks;
    block.retain(|_| match rest.split_first() {
        Some((mark, tail)) => {
            rest = tail;
            *mark
        }
        None => false,
    });
}

/// Appends the elements of another block. There must be capacity for them.
fn append<T: Drop>(block: &mut Block<T>, other: Block<T>)
    requires { length block.old.items + length other.items ≤ block.old.capacity }
    ensures { block.new ≡ contents (block.old.items ++ other.items) block.old.capacity }
{
    let mut other = other;
    let len = block.len();
    block.insert_from(len, &mut other, 0);
}

/// Makes a change in a block that has the capacity for it.
pub(crate) fn apply<T: Drop>(block: &mut Block<T>, edit: VecEdit<T>, spare: Spare<T>) -> Outcome<T>
    requires allowed { verdict (edit_vec edit block.old.items) ≡ Ok tt }
    requires room { length_after edit (length block.old.items) ≤ block.old.capacity }
    requires brought { length spare.block.items ≡ length (new_items edit) }
    requires places { spare_room edit (length block.old.items) ≤ spare.block.capacity }
    requires empty { spare.answer.items ≡ [] }
    requires answer { taken_out edit (length block.old.items) ≤ vec_capacity spare.answer }

    // It does what the definition says, in the same block.
    ensures change { spare.block.items ≡ new_items edit
        → edit_vec edit block.old.items ≡ Ok (result, block.new.items) }
    ensures capacity { block.new.capacity ≡ block.old.capacity }
    ensures accepted { OnRefused result ⊥ }
{
    let Spare {
        block: mut beside,
        answer,
    } = spare;
    match edit {
        VecEdit::Pop => return Outcome::Popped(block.pop()),
        VecEdit::Remove(index) => return Outcome::Element(block.remove(index)),
        VecEdit::Drain(bounds) => {
            return Outcome::Elements(replace(block, bounds, beside, answer));
        }
        VecEdit::Splice(bounds, items) => {
            beside.fill_within_capacity(items.into_vec());
            return Outcome::Elements(replace(block, bounds, beside, answer));
        }
        VecEdit::Push(value) => block.push_within_capacity(value),
        VecEdit::Insert(index, value) => block.insert_within_capacity(index, value),
        VecEdit::Write(index, value) => block.set(index, value),
        VecEdit::Truncate(target) => block.truncate(target),
        VecEdit::Clear => block.truncate(0),
        VecEdit::Retain(marks) => retain_by_marks(block, marks.as_slice()),
        VecEdit::Extend(_items) => append(block, beside),
        VecEdit::Reserve(_) => {}
    }
    Outcome::Done
}
