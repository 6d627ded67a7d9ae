//! Settings in layers: what a layer says wins over the settings that it is laid over.
ghost use Rattle.std.specs.Prelude.{◌≡◌, ℕ, List, OnErr, OnOk};
ghost use Rattle.std.specs.Option.{option_or};
ghost use Rattle.ecow_nested.specs.Values.{field_of, look_up};

use ecow_nested::{Fields, Refusal, Value};

/// Lays a layer over settings. The law: each name means what it means in the layer, and if it means
/// nothing there, what it meant in the settings. A refusal changes nothing.
pub fn merge(settings: &mut Value, layer: &Fields<Value>) -> Result<(), Refusal>
    ensures meaning { OnOk result ((name : List ℕ) → field_of settings.new name
        ≡ option_or (look_up name layer.now) (field_of settings.old name)) }
    ensures unchanged { OnErr result (settings.new ≡ settings.old) }
{
    let mut changed = settings.clone()?;
    // The first field of a name decides, so it is set last.
    for index in (0..layer.len()).rev() {
        let field = layer.field_at(index);
        changed.set_field(&field.name, field.value.clone()?)?;
    }
    *settings = changed;
    Ok(())
}
