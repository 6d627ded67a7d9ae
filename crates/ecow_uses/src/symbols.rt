//! A symbol table: the names of a program are interned as texts, and scopes bind them. An inner
//! scope shares the bindings of the outer scope until it binds a name of its own.
ghost use Rattle.std.specs.Prelude.{◌≡◌, ◌⊎◌, ℕ, List, [], ◌∷◌, ◌++◌, length, Contains, IfOk, OnOk, OnErr, Some, false};
ghost use Rattle.std.specs.Str.{chars, encode_utf8_all};
ghost use Rattle.ecow_uses.specs.Scopes.{meaning, same_name};

use ecow_list::{EcoError, EcoVec};
use ecow_string::EcoString;
use std::alloc::{AllocError, Global};
use std::marker::Model;

/// The names of a program. A name that is interned again shares the bytes of the known one.
#[derive(Drop)]
pub struct Interner {
    names: EcoVec<EcoString>,
}

impl Model for Interner {
    ghost use Rattle.std.specs.Prelude.{List};
    ghost use Rattle.ecow_base.specs.declared.plain.PlainText.{PlainText};

    ghost Value = { List PlainText };

    ghost view = { λ a. a.names };
}

impl Interner {
    /// Makes an empty interner. Takes no memory.
    pub fn new(alloc: Global) -> Self
        ensures { result ≡ [] }
    {
        Interner {
            names: EcoVec::new(alloc),
        }
    }

    /// The number of known names.
    pub fn len(&self) -> usize
        ensures { result ≡ length self.now }
    {
        self.names.len()
    }

    /// The text of a name, which is known from now on. If it is refused, nothing changes.
    pub fn intern(&mut self, name: &str) -> Result<EcoString, EcoError>
        ensures text { IfOk result (λ symbol. symbol.chars ≡ chars name.now) }
        ensures there { IfOk result (λ symbol. Contains self.new symbol) }
        ensures kept { IfOk result (λ symbol. (self.new ≡ self.old)
            ⊎ (self.new ≡ self.old ++ symbol ∷ [])) }
        ensures unchanged { OnErr result (self.new ≡ self.old) }
    {
        for known in &self.names {
            if known.as_str() == name {
                return Ok(known.clone()?);
            }
        }
        let symbol = EcoString::from_str(self.names.allocator(), name)?;
        self.names.push(symbol.clone()?)?;
        Ok(symbol)
    }
}

/// A name with its value.
#[derive(Drop)]
pub struct Binding {
    name: EcoString,
    value: u64,
}

impl Clone for Binding {
    ghost is_clone = { λ binding copy. copy ≡ binding };

    fn clone(&self) -> Result<Self, AllocError> {
        Ok(Binding {
            name: self.name.clone()?,
            value: self.value,
        })
    }
}

/// What the names of a scope mean.
#[derive(Drop)]
pub struct Scope {
    bindings: EcoVec<Binding>,
}

impl Model for Scope {
    ghost use Rattle.std.specs.Prelude.{List};
    ghost use Rattle.ecow_uses.specs.declared.symbols.Binding.{Binding};

    ghost Value = { List Binding };

    ghost view = { λ scope. scope.bindings };
}

impl Scope {
    /// Makes a scope without bindings. Takes no memory.
    pub fn new(alloc: Global) -> Self
        ensures { result ≡ [] }
    {
        Scope {
            bindings: EcoVec::new(alloc),
        }
    }

    /// A scope within this one, in which all names mean the same. It shares the bindings, and takes
    /// no memory.
    pub fn inner(&self) -> Result<Self, AllocError>
        ensures { IfOk result (λ inner. inner ≡ self.now) }
    {
        Ok(Scope {
            bindings: self.bindings.clone()?,
        })
    }

    /// What a name means; `None` if it isn't bound.
    pub fn lookup(&self, name: &str) -> Option<u64>
        ensures { result ≡ meaning self.now name.now }
    {
        let mut value = None;
        for binding in &self.bindings {
            if binding.name.as_str() == name {
                value = Some(binding.value);
            }
        }
        value
    }

    /// Binds a name to a value in this scope, whatever it means outside. If it is refused, nothing
    /// changes.
    #[tactic(auto, using(crate::proofs::Meanings::bound, crate::proofs::Meanings::others))]
    pub fn bind(&mut self, name: EcoString, value: u64) -> Result<(), EcoError>
        ensures bound { OnOk result (meaning self.new (encode_utf8_all name.chars) ≡ Some value) }
        ensures others { OnOk result ((other : List ℕ)
            → same_name (encode_utf8_all name.chars) other ≡ false
            → meaning self.new other ≡ meaning self.old other) }
        ensures unchanged { OnErr result (self.new ≡ self.old) }
    {
        self.bindings.push(Binding { name, value })?;
        Ok(())
    }
}

/// The law: a name that is bound in an inner scope has its value there, and means in the outer
/// scope what it meant before.
pub fn shadow(
    outer: &Scope,
    name: &EcoString,
    value: u64,
) -> Result<(Option<u64>, Option<u64>), EcoError>
    ensures inside { IfOk result (λ seen. seen.0 ≡ Some value) }
    ensures outside { IfOk result
        (λ seen. seen.1 ≡ meaning outer.now (encode_utf8_all name.now.chars)) }
{
    let mut inner = outer.inner()?;
    inner.bind(name.clone()?, value)?;
    Ok((inner.lookup(name.as_str()), outer.lookup(name.as_str())))
}
