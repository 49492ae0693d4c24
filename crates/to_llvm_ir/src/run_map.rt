//! A map from values, quick where results count on from one to the next, and for the arguments of one block.

ghost use Rattle.std.specs.Prelude.{◌≡◌, ◌+◌, None, Some, IfSome, IfNone, OnOk, length, if◌then◌else◌};
ghost use Rattle.dialect_core.specs.Text.{same_value};
ghost use Rattle.dialect_core.specs.declared.ops.Value.{Value};
ghost use Rattle.dialect_core.specs.declared.ops.Value.TheVariants as values;
ghost use Rattle.to_llvm_ir.specs.RunMaps.{looked_up, run_at};

use dialect_core::numbers::{BlockRef, OpRef};
use dialect_core::ops::Value;
use dialect_core::value_map::ValueMap;
use std::alloc::{AllocError, Global};

/// A map from values. Results of operations whose numbers count on from that of the first one lie behind each other, and so
/// do the arguments of the block of which one was mapped first.
#[derive(Drop)]
pub struct RunMap<V> {
    /// The number of the operation with whose result the run begins.
    first: u32,
    /// What the results of the run are mapped to.
    run: Vec<V>,
    /// The block whose arguments lie behind each other.
    block: BlockRef,
    /// What its first arguments are mapped to.
    arguments: Vec<V>,
    /// What lies in neither of the two.
    others: ValueMap<V>,
}

impl<V> RunMap<V> {
    /// No value is mapped.
    #[tactic(auto, using(crate::proofs::RunLaws::none_looked_up))]
    pub fn new(alloc: Global) -> RunMap<V>
        ensures { (v : Value) → looked_up result v ≡ None }
    {
        RunMap {
            first: 0,
            run: Vec::new(alloc),
            block: BlockRef(0),
            arguments: Vec::new(alloc),
            others: ValueMap::new(alloc),
        }
    }
}

impl<V: Copy + Drop> RunMap<V> {
    /// What a value is mapped to.
    #[inline(always)]
    pub fn get(&self, value: Value) -> Option<V>
        ensures { result ≡ looked_up self.now value }
    {
        match value {
            Value::Result(op) => self.result(op),
            Value::Argument(block, place) => self.argument(block, place),
        }
    }

    /// What the result of an operation is mapped to.
    #[inline(always)]
    fn result(&self, op: OpRef) -> Option<V>
        ensures { result ≡ looked_up self.now (values.Result op) }
    {
        match self.place(op) {
            Some(at) if at < self.run.len() => Some(self.run[at]),
            _ => self.others.get(Value::Result(op)),
        }
    }

    /// What an argument of a block is mapped to.
    #[inline(always)]
    fn argument(&self, block: BlockRef, place: u32) -> Option<V>
        ensures { result ≡ looked_up self.now (values.Argument block place) }
    {
        if block.0 == self.block.0 && (place as usize) < self.arguments.len() {
            return Some(self.arguments[place as usize]);
        }
        self.others.get(Value::Argument(block, place))
    }

    /// How far behind the first of the run an operation is.
    #[inline(always)]
    fn place(&self, op: OpRef) -> Option<usize>
        ensures some { IfSome result (λ at. op.0 ≡ self.now.first + at) }
        ensures none { IfNone result (run_at self.now.first self.now.run.items op.0 ≡ None) }
    {
        if op.0 < self.first {
            return None;
        }
        Some((op.0 - self.first) as usize)
    }

    /// Maps a value, whatever it was mapped to.
    #[inline(always)]
    pub fn set(&mut self, value: Value, to: V) -> Result<(), AllocError>
        ensures { OnOk result ((q : Value) → looked_up self.new q ≡ (if same_value value q then Some to else looked_up self.old q)) }
    {
        match value {
            Value::Result(op) => self.set_result(op, to),
            Value::Argument(block, place) => self.set_argument(block, place, to),
        }
    }

    /// Maps the result of an operation, whatever it was mapped to.
    #[inline(always)]
    fn set_result(&mut self, op: OpRef, to: V) -> Result<(), AllocError>
        ensures { OnOk result ((q : Value) → looked_up self.new q ≡ (if same_value (values.Result op) q then Some to else looked_up self.old q)) }
    {
        self.start(op);
        match self.place(op) {
            Some(at) if at == self.run.len() => self.append(op, to),
            Some(at) if at < self.run.len() => {
                self.run[at] = to;
                Ok(())
            }
            _ => self.others.set(Value::Result(op), to),
        }
    }

    /// Lets the run begin with an operation, where it is empty.
    #[inline(always)]
    fn start(&mut self, op: OpRef)
        ensures { (q : Value) → looked_up self.new q ≡ looked_up self.old q }
    {
        if self.run.is_empty() {
            self.first = op.0;
        }
    }

    /// Lets the run go on with the result of an operation.
    #[inline(always)]
    fn append(&mut self, op: OpRef, to: V) -> Result<(), AllocError>
        requires { op.0 ≡ self.old.first + length self.old.run.items }
        ensures { OnOk result ((q : Value) → looked_up self.new q ≡ (if same_value (values.Result op) q then Some to else looked_up self.old q)) }
    {
        self.run.push(to)?;
        Ok(())
    }

    /// Maps an argument of a block, whatever it was mapped to.
    fn set_argument(&mut self, block: BlockRef, place: u32, to: V) -> Result<(), AllocError>
        ensures { OnOk result ((q : Value) → looked_up self.new q ≡ (if same_value (values.Argument block place) q then Some to else looked_up self.old q)) }
    {
        self.start_block(block);
        if block.0 != self.block.0 || (place as usize) > self.arguments.len() {
            return self.others.set(Value::Argument(block, place), to);
        }
        if place as usize == self.arguments.len() {
            return self.append_argument(place, to);
        }
        self.arguments[place as usize] = to;
        Ok(())
    }

    /// Lets the block be that of an argument, where none of a block lie behind each other.
    fn start_block(&mut self, block: BlockRef)
        ensures { (q : Value) → looked_up self.new q ≡ looked_up self.old q }
    {
        if self.arguments.is_empty() {
            self.block = block;
        }
    }

    /// Maps the next argument of the block.
    fn append_argument(&mut self, place: u32, to: V) -> Result<(), AllocError>
        requires { place ≡ length self.old.arguments.items }
        ensures { OnOk result ((q : Value) → looked_up self.new q ≡ (if same_value (values.Argument self.old.block place) q then Some to else looked_up self.old q)) }
    {
        self.arguments.push(to)?;
        Ok(())
    }
}
