//! The numbers that values and blocks have in the text of a module.

ghost use Rattle.std.specs.Prelude.{◌≡◌, None};
ghost use Rattle.dialect_core.specs.Numbering.{value_at, block_at};

use crate::numbers::BlockRef;
use crate::ops::Value;
use crate::value_map::ValueMap;
use std::alloc::Global;
use support::number_map::NumberMap;

/// The numbers of values and blocks that were met.
#[derive(Drop)]
pub struct Numbering {
    pub values: ValueMap<u64>,
    pub blocks: NumberMap<u64>,
}

impl Numbering {
    /// No numbers.
    pub fn new(alloc: Global) -> Numbering
        ensures no_values { (v : Value) → value_at result v ≡ None }
        ensures no_blocks { (b : BlockRef) → block_at result b ≡ None }
    {
        Numbering {
            values: ValueMap::new(alloc),
            blocks: NumberMap::new(alloc),
        }
    }

    /// The number of a value.
    pub fn value(&self, value: Value) -> Option<u64>
        ensures { result ≡ value_at self.now value }
    {
        self.values.get(value)
    }

    /// The number of a block.
    pub fn block(&self, block: BlockRef) -> Option<u64>
        ensures { result ≡ block_at self.now block }
    {
        self.blocks.get(block.0)
    }
}
