//! Commands on lists, carried out on handles. Each `match` is one table of the definitions.
ghost use Rattle.std.specs.Prelude.{◌≡◌, Ok, length, OnOk, OnErr, IfErr};
ghost use Rattle.std.specs.List.{items_where_true};
ghost use Rattle.ecow_base.specs.Clones.{ClonesAreEqual};
ghost use Rattle.ecow_list.specs.declared.error.EcoError.{EcoError};
ghost use Rattle.ecow_model.specs.Vecs.{edit_vec, vec_rules};
ghost use Rattle.ecow_model.specs.Refusing.{OnRefused, verdict};
ghost use Rattle.ecow_model.specs.Uses.{IsEdit, IsEditVerdict};
ghost use Rattle.ecow_model.specs.declared.command.Outcome.{Outcome};
ghost use Rattle.ecow_model.specs.declared.command.Refusal.{Refusal};
ghost use Rattle.ecow_model.specs.declared.vecs.VecEdit.{VecEdit};
ghost use Rattle.ecow_model.proofs.Uses.{vec_wraps};

use crate::answers::{answer_change, answer_given, answer_make};
use crate::kinds::ValueKind;
use crate::store::Stored;
use ecow_base::resolve;
use ecow_list::{EcoError, EcoVec};
use ecow_model::usage::NewValue;
use ecow_model::value::Value;
use ecow_model::vecs::{VecAsk, VecDerive, VecEdit, VecMake};
use ecow_model::{Bounds, Items, Outcome, Refusal};
use std::alloc::{AllocError, Global};

/// The kind of lists, which are handles of shared blocks.
pub(crate) struct VecKind;

impl<T: Clone, const N: usize> ValueKind<T, Stored<T, N>> for VecKind {
    type Payload = EcoVec<T>;

    type Make = VecMake<T>;

    type Derive = VecDerive;

    type Edit = VecEdit<T>;

    type Ask = VecAsk;

    ghost rules = { vec_rules };

    ghost premise = { ClonesAreEqual T.is_clone };

    fn make(alloc: Global, how: VecMake<T>) -> Result<NewValue<EcoVec<T>>, Refusal> {
        answer_make(match how {
            VecMake::New => Ok(EcoVec::new(alloc)),
            VecMake::WithCapacity(capacity) => EcoVec::with_capacity(alloc, capacity),
            VecMake::FromList(items) => match EcoVec::from_vec(alloc, items.into_vec()) {
                Ok(list) => Ok(list),
                Err(rejected) => Err(rejected.error),
            },
            VecMake::FromElem(value, n) => match EcoVec::from_elem(alloc, value, n) {
                Ok(list) => Ok(list),
                Err(rejected) => Err(rejected.error),
            },
        })
    }

    fn derive(_alloc: Global, how: VecDerive, source: &Stored<T, N>) -> Result<EcoVec<T>, Refusal> {
        match (how, source) {
            (VecDerive::Clone, Value::Vec(list)) => {
                let copy: Result<EcoVec<T>, AllocError> = list.clone();
                match copy {
                    Ok(copy) => Ok(copy),
                    Err(_) => Err(Refusal::Memory),
                }
            }
            (VecDerive::Clone, _) => Err(Refusal::Kind),
        }
    }

    #[tactic(auto, using(ecow_model::proofs::Lengths::edits, std::proofs::lemmas::Option::slice_get_cases))]
    fn edit(alloc: Global, list: &mut EcoVec<T>, edit: VecEdit<T>) -> Outcome<T> {
        if let Err(refusal) = edit.check(list.len()) {
            return Outcome::Refused(refusal);
        }
        match edit {
            VecEdit::Push(value) => answer_change(list.push(value)),
            VecEdit::Pop => answer_given!(Popped, list.pop()),
            VecEdit::Insert(index, value) => answer_change(list.insert(index, value)),
            VecEdit::Remove(index) => answer_given!(Element, list.remove(index)),
            VecEdit::Truncate(target) => answer_change(list.truncate(target)),
            VecEdit::Clear => {
                list.clear();
                Outcome::Done
            }
            VecEdit::Retain(marks) => answer_change(retain_by_marks(list, marks.as_slice())),
            VecEdit::Drain(bounds) => drain(alloc, list, bounds),
            VecEdit::Splice(bounds, items) => splice(alloc, list, bounds, items),
            VecEdit::Extend(items) => answer_change(list.extend_from_slice(items.as_slice())),
            VecEdit::Reserve(additional) => answer_change(list.reserve(additional)),
            VecEdit::Write(index, value) => answer_change(list.set(index, value)),
        }
    }

    fn ask(alloc: Global, list: &mut EcoVec<T>, question: VecAsk) -> Outcome<T> {
        match question {
            VecAsk::Read(index) => match list.as_slice().get(index) {
                None => Outcome::Refused(Refusal::Index),
                Some(item) => answer_given!(Element, item.clone()),
            },
            VecAsk::Len => Outcome::Count(list.len()),
            VecAsk::Contents => answer_given!(Elements, Items::from_slice(alloc, list.as_slice())),
            VecAsk::Capacity => Outcome::Count(list.capacity()),
            VecAsk::Unique => Outcome::Flag(list.is_unique()),
        }
    }

    fn payload_mut(value: &mut Stored<T, N>) -> Result<&mut EcoVec<T>, Refusal> {
        match value {
            Value::Vec(list) => Ok(list),
            Value::Bytes(_) => Err(Refusal::Kind),
            Value::Text(_) => Err(Refusal::Kind),
        }
    }

    fn wrap(list: EcoVec<T>) -> Stored<T, N> {
        Value::Vec(list)
    }

    ghost wraps = { vec_wraps };
}

/// Keeps the elements that are marked true.
fn retain_by_marks<T: Clone>(list: &mut EcoVec<T>, marks: &[bool]) -> Result<(), EcoError>
    requires { length marks.now ≡ length list.old }
    ensures ok { ClonesAreEqual T.is_clone
        → OnOk result (list.new ≡ items_where_true marks.now list.old) }
    ensures memory { IfErr result (λ error. error ≡ EcoError.Memory) }
    ensures unchanged { OnErr result (list.new ≡ list.old) }
{
    let mut rest = marks;
    list.retain(|_| match rest.split_first() {
        Some((mark, tail)) => {
            rest = tail;
            *mark
        }
        None => false,
    })
}

/// Removes the elements within bounds from a list, and answers them.
#[tactic(auto, using(ecow_model::proofs::Lengths::edits))]
fn drain<T: Clone>(alloc: Global, list: &mut EcoVec<T>, bounds: Bounds) -> Outcome<T>
    ensures step { ClonesAreEqual T.is_clone
        → IsEdit vec_rules (VecEdit.Drain bounds) list.old result list.new }
    ensures verdict { IsEditVerdict vec_rules (VecEdit.Drain bounds) list.old result }
    ensures unchanged { OnRefused result (list.new ≡ list.old) }
{
    let Some((start, end)) = resolve(&bounds, list.len()) else {
        return Outcome::Refused(Refusal::Range);
    };
    let Ok(mut elements) = Vec::with_capacity(alloc, end - start) else {
        return Outcome::Refused(Refusal::Memory);
    };
    match list.drain(bounds) {
        Ok(removed) => {
            removed.collect_into(&mut elements);
            Outcome::Elements(Items::new(elements))
        }
        Err(_) => Outcome::Refused(Refusal::Memory),
    }
}

/// Replaces the elements of a list within bounds by items, and answers the old ones.
#[tactic(auto, using(ecow_model::proofs::Lengths::edits))]
fn splice<T: Clone>(
    alloc: Global,
    list: &mut EcoVec<T>,
    bounds: Bounds,
    items: Items<T>,
) -> Outcome<T>
    requires { verdict (edit_vec (VecEdit.Splice bounds items) list.old) ≡ Ok tt }
    ensures step { ClonesAreEqual T.is_clone
        → IsEdit vec_rules (VecEdit.Splice bounds items) list.old result list.new }
    ensures verdict { IsEditVerdict vec_rules (VecEdit.Splice bounds items) list.old result }
    ensures unchanged { OnRefused result (list.new ≡ list.old) }
{
    let Some((start, end)) = resolve(&bounds, list.len()) else {
        return Outcome::Refused(Refusal::Range);
    };
    let Ok(mut elements) = Vec::with_capacity(alloc, end - start) else {
        return Outcome::Refused(Refusal::Memory);
    };
    match list.splice(bounds, items.into_vec()) {
        Ok(removed) => {
            removed.collect_into(&mut elements);
            Outcome::Elements(Items::new(elements))
        }
        Err(_) => Outcome::Refused(Refusal::Memory),
    }
}
