//! Numbers of a module's types, constants, structs, functions, blocks and instructions.

/// The number of a type in its module.
#[derive(Clone, Copy, PartialEq, Eq, Hash, Debug, Drop)]
pub struct LLVMType(pub u32);

/// The number of a struct with a name in its module.
#[derive(Clone, Copy, PartialEq, Eq, Hash, Debug, Drop)]
pub struct LLVMStruct(pub u32);

/// The number of a function in its module.
#[derive(Clone, Copy, PartialEq, Eq, Hash, Debug, Drop)]
pub struct LLVMFunction(pub u32);

/// The number of a block in its module.
#[derive(Clone, Copy, PartialEq, Eq, Hash, Debug, Drop)]
pub struct LLVMBasicBlock(pub u32);

/// The number of an instruction in its module.
#[derive(Clone, Copy, PartialEq, Eq, Hash, Debug, Drop)]
pub struct LLVMInstRef(pub u32);

/// The number of a constant in its module.
#[derive(Clone, Copy, PartialEq, Eq, Hash, Debug, Drop)]
pub struct LLVMConst(pub u32);
