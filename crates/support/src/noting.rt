//! Maps in which the first thing that is noted of a key stays.

ghost use Rattle.std.specs.Prelude.{◌≡◌, OnOk, Some, None, if◌then◌else◌};
ghost use Rattle.std.specs.HashMap.{get};
ghost use Rattle.support.specs.Options.{or_else};

use std::alloc::AllocError;
use std::collections::HashMap;
use std::hash::Hash;

/// Notes a value of a key, where none was noted.
pub fn note<K: Eq + Hash + Drop, V: Drop>(
    map: &mut HashMap<K, V>,
    key: K,
    value: V,
) -> Result<(), AllocError>
    ensures { OnOk result ((q : K) → get K.eq map.new q ≡ or_else (get K.eq map.old q) (if K.eq key q then Some value else None)) }
{
    map.entry(key)?.or_insert(value);
    Ok(())
}
