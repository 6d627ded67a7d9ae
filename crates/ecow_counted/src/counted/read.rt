//! Reading the list of a name without a command.
ghost use Rattle.std.specs.Prelude.{◌≡◌};
ghost use Rattle.std.specs.Option.{option_copied};
ghost use Rattle.ecow_model.specs.Names.{list_of};

use crate::counted::Counted;
use ecow_model::Name;

impl<T> Counted<T> {
    /// The elements of the list of `name`, borrowed from its block; `None` if the name doesn't
    /// exist. Takes no memory.
    pub fn get(&self, name: Name) -> Option<&[T]>
        ensures { option_copied result ≡ list_of self.now.names name }
    {
        if !self.blocks.contains(name) {
            return None;
        }
        Some(self.blocks.elements(name))
    }
}
