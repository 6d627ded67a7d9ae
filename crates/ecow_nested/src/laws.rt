// rust: no file: laws alone
//! The laws of equality, of paths, and of fields by name.
ghost use Rattle.std.specs.Prelude.{◌≡◌, ◌≢◌, ◌≤◌, ◌++◌, ◌∷◌, ℕ, List, None, Some, true, if◌then◌else◌};
ghost use Rattle.std.specs.Option.{option_or};
ghost use Rattle.std.specs.Str.{IsUtf8};
ghost use Rattle.ecow_nested.specs.Names.{has_name, how_many};
ghost use Rattle.ecow_nested.specs.Paths.{value_at, IsApart, IsSet};
ghost use Rattle.ecow_nested.specs.Values.{look_up, value_eq, with_field, without_field};
ghost use Rattle.ecow_nested.specs.declared.fields.Field.{Field};
ghost use Rattle.ecow_nested.specs.declared.value.paths.Step.{Step};
ghost use Rattle.ecow_nested.specs.declared.value.Value.{Value};

/// A value equals itself, and so it equals each of its clones.
#[tactic(auto, using(crate::proofs::Reflexive::value_eq_self))]
pub fn values_equal_themselves()
    ensures { (value : Value) → value_eq value value ≡ true }
{}

/// After a set, its path leads to the new value. A path that leaves this path before its end leads
/// where it led before.
#[tactic(auto, using(crate::proofs::Paths::set_there, crate::proofs::Paths::set_elsewhere))]
pub fn paths_lead_to_what_was_set()
    ensures there { (path : List Step) (value : Value) (old : Value) (new : Value)
        → IsSet path value old new → value_at new path ≡ Some value }
    ensures elsewhere { (path : List Step) (other : List Step)
        (value : Value) (old : Value) (new : Value)
        → IsSet path value old new → IsApart path other
        → value_at new other ≡ value_at old other }
{}

/// What a name means in fields, which is the value of the first field that has it. A name is given
/// by its bytes, as a `str` is.
#[tactic(auto, using(crate::proofs::ByName::meanings))]
pub fn names_mean_what_was_set()
    // The first field of the name decides.
    ensures first { (name : List ℕ) (field : Field Value) (others : List (Field Value))
        → look_up name (field ∷ others)
        ≡ (if has_name name field then Some field.value else look_up name others) }
    ensures appended { (name : List ℕ) (fields : List (Field Value)) (others : List (Field Value))
        → look_up name (fields ++ others) ≡ option_or (look_up name fields) (look_up name others) }

    // After `set_field`, the name means the new value, and another name what it meant before.
    ensures there { (name : List ℕ) (value : Value) (fields : List (Field Value)) → IsUtf8 name
        → look_up name (with_field name value fields) ≡ Some value }
    ensures elsewhere { (name : List ℕ) (other : List ℕ) (value : Value)
        (fields : List (Field Value)) → IsUtf8 name → name ≢ other
        → look_up other (with_field name value fields) ≡ look_up other fields }

    // After `remove_field`, a name that one field had means nothing.
    ensures gone { (name : List ℕ) (fields : List (Field Value)) → how_many name fields ≤ 1
        → look_up name (without_field name fields) ≡ None }
    ensures left { (name : List ℕ) (other : List ℕ) (fields : List (Field Value)) → name ≢ other
        → look_up other (without_field name fields) ≡ look_up other fields }

    // `set_field` adds no second field of a name.
    ensures once { (name : List ℕ) (other : List ℕ) (value : Value) (fields : List (Field Value))
        → IsUtf8 name → how_many other fields ≤ 1
        → how_many other (with_field name value fields) ≤ 1 }
{}
