//! Numbers of a context's operations and blocks.

/// The number of an operation in its context.
#[derive(Clone, Copy, PartialEq, Eq, Hash, Debug, Drop)]
pub struct OpRef(pub u32);

/// The number of a block in its context.
#[derive(Clone, Copy, PartialEq, Eq, Hash, Debug, Drop)]
pub struct BlockRef(pub u32);

/// An operation that is a module.
#[derive(Clone, Copy, PartialEq, Eq, Debug, Drop)]
pub struct ModuleOp(pub OpRef);

/// An operation that is a function.
#[derive(Clone, Copy, PartialEq, Eq, Debug, Drop)]
pub struct FuncOp(pub OpRef);
