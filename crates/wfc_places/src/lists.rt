//! Lists of the values that may stand beside one.

ghost use Rattle.std.specs.Prelude.{◌≡◌, ◌++◌, ◌∷◌, [], if◌then◌else◌, OnOk};

use wfc_outside::NoMemory;

/// Puts a value behind the others, if it fits.
pub fn push_if(list: &mut Vec<u16>, value: u16, fit: bool) -> Result<(), NoMemory>
    ensures pushed { OnOk result (list.new.items
        ≡ list.old.items ++ (if fit then value ∷ [] else [])) }
{
    if fit {
        list.push(value)?;
    }
    Ok(())
}
