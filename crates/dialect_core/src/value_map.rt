//! A map from values.

ghost use Rattle.std.specs.Prelude.{◌≡◌, None, Some, OnOk, if◌then◌else◌};
ghost use Rattle.support.specs.Options.{or_else};
ghost use Rattle.dialect_core.specs.Text.{same_value};
ghost use Rattle.dialect_core.specs.ValueMaps.{mapped};

use crate::argument_map::ArgumentMap;
use crate::ops::Value;
use std::alloc::{AllocError, Global};
use support::number_map::NumberMap;

/// A map from values, quick for results of operations whose numbers lie near each other.
#[derive(Drop)]
pub struct ValueMap<V> {
    pub results: NumberMap<V>,
    pub arguments: ArgumentMap<V>,
}

impl<V> ValueMap<V> {
    /// No value is mapped.
    pub fn new(alloc: Global) -> ValueMap<V>
        ensures { (v : Value) → mapped result v ≡ None }
    {
        ValueMap {
            results: NumberMap::new(alloc),
            arguments: ArgumentMap::new(alloc),
        }
    }
}

impl<V: Copy + Drop> ValueMap<V> {
    /// What a value is mapped to.
    pub fn get(&self, value: Value) -> Option<V>
        ensures { result ≡ mapped self.now value }
    {
        match value {
            Value::Result(op) => self.results.get(op.0),
            Value::Argument(block, place) => self.arguments.get(block, place),
        }
    }

    /// Maps a value, whatever it was mapped to.
    pub fn set(&mut self, value: Value, to: V) -> Result<(), AllocError>
        ensures { OnOk result ((q : Value) → mapped self.new q ≡ (if same_value value q then Some to else mapped self.old q)) }
    {
        match value {
            Value::Result(op) => self.results.set(op.0, to),
            Value::Argument(block, place) => self.arguments.set(block, place, to),
        }
    }

    /// Maps a value, where it is not mapped.
    pub fn note(&mut self, value: Value, to: V) -> Result<(), AllocError>
        ensures { OnOk result ((q : Value) → mapped self.new q ≡ or_else (mapped self.old q) (if same_value value q then Some to else None)) }
    {
        match value {
            Value::Result(op) => self.results.note(op.0, to),
            Value::Argument(block, place) => self.arguments.note(block, place, to),
        }
    }
}
