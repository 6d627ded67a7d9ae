//! What is done with the places.
ghost use Rattle.std.specs.Prelude.{◌≡◌, ◌+◌, ◌*◌, ◌^◌, ◌<◌, ◌≤◌, [], ◌∷◌, ◌++◌, length, take, drop};
ghost use Rattle.std.specs.Borrow.{sem};
ghost use Rattle.std.specs.Mem.{type_size};
ghost use Rattle.std.specs.Mem.Slots.{slots_items, slots_ptr, slots_len, IsFull};
ghost use Rattle.ecow_block.specs.Ownership.{place};
ghost use Rattle.ecow_block.specs.Rooms.{SamePlaces, Follows};

use super::{Base, CHUNK, Room};
use core::slots::Slots;
use std::marker::PhantomData;
use std::ptr::copy_nonoverlapping;
use std::slice;

impl<T> Room<T> {
    ghost use Rattle.ecow_block.specs.Lends.{lends_items};

    /// Says how many bytes the places end at, at most.
    pub(crate) fn is_small(&self)
        ensures { (self.now.start + self.now.capacity) * type_size T.row < 2 ^ 63 }
    {}

    /// Puts an item into the first empty place, numbered `at`.
    pub(crate) fn put(&mut self, base: Base<T>, at: usize, item: T)
        requires { (base.ptr ≡ self.old.at) × (at ≡ self.old.start + length self.old.items)
            × (length self.old.items < self.old.capacity) }
        ensures items { self.new.items ≡ self.old.items ++ item ∷ [] }
        ensures places { SamePlaces self.old self.new }
    {
        unsafe { base.ptr.add(at).write(item) }
    }

    /// Puts an item, as an array of one, into the first empty place, numbered `at`. The compiler
    /// moves an array as memory, and not part by part.
    pub(crate) fn put_one(&mut self, base: Base<T>, at: usize, item: [T; 1])
        requires { (base.ptr ≡ self.old.at) × (at ≡ self.old.start + length self.old.items)
            × (length self.old.items < self.old.capacity) }
        ensures items { self.new.items ≡ self.old.items ++ item }
        ensures places { SamePlaces self.old self.new }
    {
        unsafe { base.ptr.add(at).cast::<[T; 1]>().write(item) }
    }

    /// Puts items into the first empty places, of which the first is numbered `at`.
    pub(crate) fn put_chunk(&mut self, base: Base<T>, at: usize, items: [T; CHUNK])
        requires { (base.ptr ≡ self.old.at) × (at ≡ self.old.start + length self.old.items)
            × (length self.old.items + CHUNK ≤ self.old.capacity) }
        ensures items { self.new.items ≡ self.old.items ++ items }
        ensures places { SamePlaces self.old self.new }
    {
        unsafe { base.ptr.add(at).cast::<[T; CHUNK]>().write(items) }
    }

    /// Moves all items, of which there are `count`, behind those of `other`, whose first empty
    /// place is numbered `to`, in one move of memory. Their own first place is numbered `from`.
    pub(crate) fn move_run(
        &mut self,
        base: Base<T>,
        from: usize,
        count: usize,
        other: &mut Room<T>,
        other_base: Base<T>,
        to: usize,
    )
        requires { (base.ptr ≡ self.old.at) × (from ≡ self.old.start)
            × (count ≡ length self.old.items) × (other_base.ptr ≡ other.old.at)
            × (to ≡ other.old.start + length other.old.items)
            × (length other.old.items + count ≤ other.old.capacity) }
        ensures left { (self.new.items ≡ []) × SamePlaces self.old self.new }
        ensures moved { (other.new.items ≡ other.old.items ++ self.old.items)
            × SamePlaces other.old other.new }
    {
        unsafe { copy_nonoverlapping(base.ptr.add(from), other_base.ptr.add(to), count) }
    }

    /// Takes the last item, from the place numbered `at`.
    pub(crate) fn take_last(&mut self, base: Base<T>, at: usize) -> T
        requires { (base.ptr ≡ self.old.at) × (at + 1 ≡ self.old.start + length self.old.items)
            × (0 < length self.old.items) }
        ensures items { self.old.items ≡ self.new.items ++ result ∷ [] }
        ensures places { SamePlaces self.old self.new }
    {
        unsafe { base.ptr.add(at).read() }
    }

    /// Takes the last item, as an array of one, from the place numbered `at`, by a move of memory.
    pub(crate) fn take_last_one(&mut self, base: Base<T>, at: usize) -> [T; 1]
        requires { (base.ptr ≡ self.old.at) × (at + 1 ≡ self.old.start + length self.old.items)
            × (0 < length self.old.items) }
        ensures items { self.old.items ≡ self.new.items ++ result }
        ensures one { length result ≡ 1 }
        ensures places { SamePlaces self.old self.new }
    {
        unsafe { base.ptr.add(at).cast::<[T; 1]>().read() }
    }

    /// The items, of which there are `len`, from the place numbered `start` on.
    pub(crate) fn as_slice(&self, base: Base<T>, start: usize, len: usize) -> &[T]
        requires { (base.ptr ≡ self.now.at) × (start ≡ self.now.start)
            × (len ≡ length self.now.items) }
        ensures { result.now ≡ self.now.items }
    {
        unsafe { slice::from_raw_parts(base.ptr.add(start), len) }
    }

    /// The items for writing, of which there are `len`, from the place numbered `start` on.
    pub(crate) fn as_mut_slice(&mut self, base: Base<T>, start: usize, len: usize) -> &mut [T]
        requires { (base.ptr ≡ self.old.at) × (start ≡ self.old.start)
            × (len ≡ length self.old.items) }
        ensures* writes_back { sem 𝓛 (lends_items T.row self.entry result) }
        ensures value { result.now ≡ self.old.items }
    {
        unsafe { slice::from_raw_parts_mut(base.ptr.add(start), len) }
    }

    /// Cuts off all places but the first `count`.
    pub(crate) fn split_off(&mut self, _count: usize) -> Room<T>
        requires { _count ≤ self.old.capacity }
        ensures places { (self.new.at ≡ self.old.at) × (self.new.start ≡ self.old.start)
            × (self.new.capacity ≡ _count) }
        ensures items { self.new.items ≡ take _count self.old.items }
        ensures rest { (result.at ≡ self.old.at) × (result.start ≡ self.old.start + _count)
            × (result.capacity + _count ≡ self.old.capacity) }
        ensures rest_items { result.items ≡ drop _count self.old.items }
    {
        Room { mark: PhantomData }
    }

    /// Puts back what was cut off behind places that all hold items.
    pub(crate) fn append(&mut self, rest: Room<T>)
        requires { Follows self.old rest × (length self.old.items ≡ self.old.capacity) }
        ensures items { self.new.items ≡ self.old.items ++ rest.items }
        ensures places { (self.new.at ≡ self.old.at) × (self.new.start ≡ self.old.start)
            × (self.new.capacity ≡ self.old.capacity + rest.capacity) }
    {
        let Room { mark: _ } = rest;
    }

    /// Puts back empty places.
    pub(crate) fn widen(&mut self, spare: Room<T>)
        requires { Follows self.old spare × (spare.items ≡ []) }
        ensures items { self.new.items ≡ self.old.items }
        ensures places { (self.new.at ≡ self.old.at) × (self.new.start ≡ self.old.start)
            × (self.new.capacity ≡ self.old.capacity + spare.capacity) }
    {
        let Room { mark: _ } = spare;
    }

    /// Empty places, the first of them numbered `at`, as slots. There are as many as `like` has
    /// items, which stand for what they hold.
    pub(crate) fn into_slots(self, base: Base<T>, at: usize, like: &[T]) -> Slots<T>
        requires { (base.ptr ≡ self.at) × (at ≡ self.start) × (self.items ≡ [])
            × (self.capacity ≡ length like.now) }
        ensures items { (slots_items result ≡ like.now) × (slots_len result ≡ length like.now) }
        ensures places { (slots_ptr result ≡ place T.row base.ptr at)
            × ((at + slots_len result) * type_size T.row < 2 ^ 63) }
    {
        let Room { mark: _ } = self;
        unsafe { Slots::from_raw_parts(base.ptr.add(at), like.len()) }
    }

    /// The places of slots that are all filled, the first of them numbered `_at`.
    pub(crate) fn of_slots(slots: Slots<T>, _base: Base<T>, _at: usize) -> Room<T>
        requires { (slots_ptr slots ≡ place T.row _base.ptr _at)
            × ((_at + slots_len slots) * type_size T.row < 2 ^ 63) × IsFull slots }
        ensures items { result.items ≡ slots_items slots }
        ensures places { (result.at ≡ _base.ptr) × (result.start ≡ _at)
            × (result.capacity ≡ slots_len slots) }
    {
        let _parts = unsafe { slots.into_raw_parts() };
        Room { mark: PhantomData }
    }

    /// Numbers the places from 0 on, as if the block began with them, and returns where that is.
    /// Before, the first was numbered `start`.
    pub(crate) fn begin_here(&mut self, base: Base<T>, start: usize) -> Base<T>
        requires { (base.ptr ≡ self.old.at) × (start ≡ self.old.start) }
        ensures items { self.new.items ≡ self.old.items }
        ensures places { (result.ptr ≡ place T.row base.ptr start) × (self.new.at ≡ result.ptr)
            × (self.new.start ≡ 0) × (self.new.capacity ≡ self.old.capacity)
            × ((start + self.old.capacity) * type_size T.row < 2 ^ 63) }
    {
        unsafe {
            Base {
                ptr: base.ptr.add(start),
            }
        }
    }

    /// Numbers the places from `start` on, as before `begin_here`.
    pub(crate) fn begin_back(&mut self, _base: Base<T>, _start: usize)
        requires { (self.old.at ≡ place T.row _base.ptr _start) × (self.old.start ≡ 0)
            × ((_start + self.old.capacity) * type_size T.row < 2 ^ 63) }
        ensures items { self.new.items ≡ self.old.items }
        ensures places { (self.new.at ≡ _base.ptr) × (self.new.start ≡ _start)
            × (self.new.capacity ≡ self.old.capacity) }
    {}
}
