//! A module in memory: the calls that build it and those that read it.

ghost use Rattle.std.specs.Prelude.{◌≡◌, ◌<◌, ◌++◌, ◌∷◌, [], IfOk, IfSome, IfNone, OnErr, OnOk, None, Some, All, IsTrue, length, map, slice_get};
ghost use Rattle.std.specs.Option.{option_map};
ghost use Rattle.llvm_core.specs.declared.code.LLVMValue.TheVariants as values;
ghost use Rattle.support.specs.Interned.{Interned};
ghost use Rattle.llvm_core.specs.Module.{Module};
ghost use Rattle.llvm_core.specs.Code.{code_of, with_code, with_function, with_param_name, with_block, with_inst, with_operand, with_entry, with_changed_inst, param_names};
ghost use Rattle.llvm_core.specs.Parts.{IsTypeOver, HasFitParts, IsFunctionType, IsValue, IsBlock, HasValues, IsResultType, MayMake, TakesOperand, IsPhi, const_type, is_function, kind_params, type_params, value_type, result_type, shape_of};
ghost use Rattle.llvm_core.specs.Consts.{IsConstIn, IsMadeBelow, struct_named};
ghost use Rattle.llvm_core.specs.declared.structs.StructData.{StructData};
ghost use Rattle.llvm_core.specs.Sound.{AreFieldsIn, IsModule};
ghost use Rattle.llvm_core.specs.Data as lists;
ghost use Rattle.llvm_core.specs.Data.{trees_of, type_at, result_tree, operand_of, instruction_of, data_of, fields_of, AreApart, AllBlocks, AllPlaced};

use crate::code::{LLVMInst, LLVMValue, PhiEntry};
use crate::code_store::CodeStore;
use crate::consts::LLVMConstKind;
use crate::numbers::{LLVMBasicBlock, LLVMConst, LLVMFunction, LLVMInstRef, LLVMStruct, LLVMType};
use crate::structs::{StructFields, StructStore};
use crate::types::LLVMTypeKind;
use kinds::fitting::Shape;
use std::alloc::{AllocError, Global};
use std::marker::Model;
use support::interner::Interner;
use support::items::Items;
use support::text::Text;

mod adding;
mod forming;
mod holding;
mod inserting;
mod naming;
mod splats;
mod typing;

/// A module in memory.
#[derive(Drop)]
pub struct LLVMModule {
    alloc: Global,
    name: Text,
    types: Interner<LLVMTypeKind>,
    consts: Interner<LLVMConstKind>,
    structs: StructStore,
    code: CodeStore,
}

impl Model for LLVMModule {
    ghost use Rattle.llvm_core.specs.Module.{Module};
    ghost use Rattle.llvm_core.specs.Sound.{IsModule};

    ghost Value = { Module };

    ghost view = { λ m. record {
      name = m.name;
      types = m.types;
      consts = m.consts;
      structs = m.structs;
      functions = m.code.functions;
      blocks = m.code.blocks;
      insts = m.code.insts;
    } };

    ghost invariant = { λ m. IsModule (record {
      name = m.name;
      types = m.types;
      consts = m.consts;
      structs = m.structs;
      functions = m.code.functions;
      blocks = m.code.blocks;
      insts = m.code.insts;
    }) };
}

impl LLVMModule {
    /// An empty module.
    pub fn new(alloc: Global, name: &str) -> Result<LLVMModule, AllocError>
        ensures stores { IfOk result (λ m. m ≡ record { name = name.now; types = []; consts = []; structs = []; functions = []; blocks = []; insts = [] }) }
        ensures data { IfOk result (λ m. data_of m ≡ record { name = name.now; structs = []; functions = [] }) }
    {
        Ok(LLVMModule {
            alloc,
            name: Text::copy(alloc, name)?,
            types: Interner::new(alloc),
            consts: Interner::new(alloc),
            structs: StructStore::new(alloc),
            code: CodeStore::new(alloc),
        })
    }

    pub fn name(&self) -> &str
        ensures { result.now ≡ self.now.name }
    {
        self.name.as_str()
    }

    /// The number of the type equal to `kind`, new or old.
    pub fn type_get(&mut self, kind: LLVMTypeKind) -> Result<LLVMType, AllocError>
        requires parts { IsTypeOver (length self.old.types) kind }
        requires fit { HasFitParts self.old.types kind }
        ensures interned { IfOk result (λ t. Interned self.old.types self.new.types kind t.0) }
        ensures rest { self.new ≡ record self.old { types = self.new.types } }
        ensures err { OnErr result (self.new ≡ self.old) }
        ensures data { data_of self.new ≡ data_of self.old }
        ensures sound { IsModule self.new }
    {
        let at = self.types.get(kind)?;
        Ok(LLVMType(at))
    }

    /// A struct with a name; one without fields that are told is opaque. Its name is not asked whether another has it, and its
    /// fields may name structs that are not there yet.
    pub fn add_struct(
        &mut self,
        name: &str,
        body: Option<StructFields>,
    ) -> Result<LLVMStruct, AllocError>
        requires { IfSome body (AreFieldsIn self.old.types) }
        ensures number { IfOk result (λ s. s.0 ≡ length self.old.structs) }
        ensures ok { OnOk result (self.new ≡ record self.old { structs = self.old.structs ++ (record { name = name.now; body = body }) ∷ [] }) }
        ensures err { OnErr result (self.new ≡ self.old) }
        ensures data { OnOk result (data_of self.new ≡ lists.with_struct (data_of self.old) (record { name = name.now; body = option_map (fields_of (trees_of self.old).types) body })) }
        ensures sound { IsModule self.new }
    {
        let s = self.structs.add(name, body)?;
        Ok(s)
    }

    /// A function without blocks and without names of parameters: a declaration.
    pub fn add_function(
        &mut self,
        name: &str,
        ty: LLVMType,
        space: u32,
    ) -> Result<LLVMFunction, AllocError>
        requires { IsFunctionType self.old.types ty }
        ensures number { IfOk result (λ f. f.0 ≡ length self.old.functions) }
        ensures ok { OnOk result (self.new ≡ with_code self.old (with_function (code_of self.old) (record { name = name.now; ty = ty; space = space; params = map (λ _. []) (type_params self.old.types ty); blocks = [] }))) }
        ensures err { OnErr result (self.new ≡ self.old) }
        ensures data { IfOk result (λ f. data_of self.new ≡ lists.with_function (data_of self.old) (record { number = f.0; name = name.now; type = type_at (trees_of self.old).types ty; space = space; params = map (λ _. []) (type_params self.old.types ty); blocks = [] })) }
        ensures sound { IsModule self.new }
    {
        let params = unnamed(self.alloc, params_of(self.types.value(ty.0)))?;
        let f = self.code.add_function(name, ty, space, params)?;
        Ok(f)
    }

    /// Names a parameter.
    pub fn set_param_name(
        &mut self,
        f: LLVMFunction,
        place: u32,
        name: &str,
    ) -> Result<(), AllocError>
        requires { place < length (param_names self.old.functions f) }
        ensures ok { OnOk result (self.new ≡ with_code self.old (with_param_name (code_of self.old) f place name.now)) }
        ensures err { OnErr result (self.new ≡ self.old) }
        ensures data { OnOk result (data_of self.new ≡ lists.with_param (data_of self.old) f.0 place name.now) }
        ensures sound { IsModule self.new }
    {
        self.code.set_param_name(f, place, name)?;
        Ok(())
    }

    /// A new last block of a function; an empty name is none.
    pub fn append_block(
        &mut self,
        f: LLVMFunction,
        name: &str,
    ) -> Result<LLVMBasicBlock, AllocError>
        requires { f.0 < length self.old.functions }
        ensures number { IfOk result (λ b. b.0 ≡ length self.old.blocks) }
        ensures ok { IfOk result (λ b. self.new ≡ with_code self.old (with_block (code_of self.old) f b name.now)) }
        ensures err { OnErr result (self.new ≡ self.old) }
        ensures data { IfOk result (λ b. data_of self.new ≡ lists.with_block (data_of self.old) f.0 (record { number = b.0; name = name.now; instructions = [] })) }
        ensures fresh { IfOk result (λ b. AllBlocks (λ x. x.number < b.0) (data_of self.old)) }
        ensures sound { IsModule self.new }
    {
        let b = self.code.append_block(f, name)?;
        Ok(b)
    }

    /// A new last instruction of a block; an empty name is none.
    pub fn build(
        &mut self,
        block: LLVMBasicBlock,
        inst: LLVMInst,
        name: &str,
    ) -> Result<LLVMInstRef, AllocError>
        requires block { block.0 < length self.old.blocks }
        requires values { HasValues self.old inst }
        requires unnamed { result_type self.old inst ≡ None → name.now ≡ [] }
        ensures number { IfOk result (λ i. i.0 ≡ length self.old.insts) }
        ensures ok { IfOk result (λ i. (ty : _) × IsResultType (result_type self.old inst) self.old.types self.new.types ty × (self.new ≡ with_code (record self.old { types = self.new.types }) (with_inst (code_of self.old) block i name.now ty inst))) }
        ensures rest { OnErr result (self.new ≡ record self.old { types = self.new.types }) }
        ensures err { OnErr result (MayMake (result_type self.old inst) self.old.types self.new.types) }
        ensures data { IfOk result (λ i. data_of self.new ≡ lists.with_instruction (data_of self.old) block.0 (record { number = i.0; name = name.now; type = result_tree self.old inst; instruction = instruction_of (trees_of self.old) inst })) }
        ensures data_err { OnErr result (data_of self.new ≡ data_of self.old) }
        ensures fresh { IfOk result (λ i. AllPlaced (λ x. x.number < i.0) (data_of self.old)) }
        ensures sound { IsModule self.new }
    {
        let ty = self.result_number(&inst)?;
        let i = self.code.append_inst(block, name, ty, inst)?;
        Ok(i)
    }

    /// Puts a value in place of an operand of its type, so that a use can be built before its definition.
    pub fn set_operand(&mut self, inst: LLVMInstRef, place: u32, value: LLVMValue)
        requires place { TakesOperand self.old inst place value }
        requires value { IsValue self.old value }
        ensures ok { self.new ≡ with_code self.old (with_changed_inst (code_of self.old) inst (λ i. with_operand i place value)) }
        ensures data { data_of self.new ≡ lists.with_changed (data_of self.old) inst.0 (λ i. lists.with_operand i place (operand_of (trees_of self.old) value)) }
        ensures sound { IsModule self.new }
    {
        self.code.set_operand(inst, place, value);
    }

    /// Appends an entry to a phi: the value that it takes on an edge from the block.
    pub fn add_incoming(
        &mut self,
        phi: LLVMInstRef,
        value: LLVMValue,
        block: LLVMBasicBlock,
    ) -> Result<(), AllocError>
        requires phi { IsPhi self.old.insts phi }
        requires value { IsValue self.old value }
        requires block { IsBlock self.old block }
        ensures ok { OnOk result (self.new ≡ with_code self.old (with_changed_inst (code_of self.old) phi (λ i. with_entry i (record { value = value; block = block })))) }
        ensures err { OnErr result (self.new ≡ self.old) }
        ensures data { OnOk result (data_of self.new ≡ lists.with_changed (data_of self.old) phi.0 (λ i. lists.with_entry i (operand_of (trees_of self.old) value) block.0)) }
        ensures sound { IsModule self.new }
    {
        self.code.add_incoming(phi, PhiEntry { value, block })?;
        Ok(())
    }

    /// How many types there are.
    pub fn types(&self) -> u32
        ensures len { result ≡ length self.now.types }
        ensures sound { IsModule self.now }
        ensures apart { AreApart self.now }
    {
        self.types.len()
    }

    /// How many structs with a name there are.
    pub fn structs(&self) -> u32
        ensures len { result ≡ length self.now.structs }
        ensures sound { IsModule self.now }
    {
        self.structs.len()
    }

    /// The name of a struct.
    pub fn struct_name(&self, s: LLVMStruct) -> &str
        requires { s.0 < length self.now.structs }
        ensures { option_map (λ x. x.name) (slice_get self.now.structs s.0) ≡ Some result.now }
    {
        self.structs.get(s).name.as_str()
    }

    /// The fields of a struct, none where it is opaque.
    pub fn struct_body(&self, s: LLVMStruct) -> Option<&StructFields>
        requires { s.0 < length self.now.structs }
        ensures body { option_map (λ x. x.body) (slice_get self.now.structs s.0) ≡ Some (option_map (λ b. b.now) result) }
        ensures within { IfSome result (λ b. AreFieldsIn self.now.types b.now) }
    {
        self.structs.get(s).body.as_ref()
    }

    /// The first struct of that name.
    pub fn struct_named(&self, name: &str) -> Option<LLVMStruct>
        ensures found { IfSome result (λ s. (x : StructData) × (slice_get self.now.structs s.0 ≡ Some x) × (struct_named self.now.structs name.now ≡ Some x)) }
        ensures none { IfNone result (struct_named self.now.structs name.now ≡ None) }
    {
        self.structs.find(name)
    }

    /// How many functions there are.
    pub fn functions(&self) -> u32
        ensures len { result ≡ length self.now.functions }
        ensures sound { IsModule self.now }
    {
        self.code.function_count()
    }

    pub fn type_kind(&self, ty: LLVMType) -> &LLVMTypeKind
        requires { ty.0 < length self.now.types }
        ensures kind { slice_get self.now.types ty.0 ≡ Some result.now }
        ensures parts { IsTypeOver ty.0 result.now }
        ensures fit { HasFitParts self.now.types result.now }
    {
        self.types.value(ty.0)
    }

    pub fn const_kind(&self, c: LLVMConst) -> &LLVMConstKind
        requires { c.0 < length self.now.consts }
        ensures kind { slice_get self.now.consts c.0 ≡ Some result.now }
        ensures parts { IsConstIn self.now result.now }
        ensures below { IsMadeBelow c.0 result.now }
    {
        self.consts.value(c.0)
    }

    /// The type of a value.
    pub fn type_of(&self, v: LLVMValue) -> LLVMType
        requires { IsValue self.now v }
        ensures ty { value_type self.now v ≡ Some result }
        ensures within { result.0 < length self.now.types }
    {
        match v {
            LLVMValue::Const(c) => const_type(self.consts.value(c.0)),
            LLVMValue::Param(f, place) => self.param_type(f, place),
            LLVMValue::Inst(i) => self.code.inst(i).ty,
        }
    }

    pub fn function_name(&self, f: LLVMFunction) -> &str
        requires { f.0 < length self.now.functions }
        ensures { option_map (λ x. x.name) (slice_get self.now.functions f.0) ≡ Some result.now }
    {
        self.code.function(f).name.as_str()
    }

    /// The type of a function, with a type for each name of a parameter.
    pub fn function_type(&self, f: LLVMFunction) -> LLVMType
        requires { f.0 < length self.now.functions }
        ensures ty { option_map (λ x. x.ty) (slice_get self.now.functions f.0) ≡ Some result }
        ensures function { IsFunctionType self.now.types result }
        ensures params { length (type_params self.now.types result) ≡ length (param_names self.now.functions f) }
    {
        self.code.function(f).ty
    }

    pub fn function_space(&self, f: LLVMFunction) -> u32
        requires { f.0 < length self.now.functions }
        ensures { option_map (λ x. x.space) (slice_get self.now.functions f.0) ≡ Some result }
    {
        self.code.function(f).space
    }

    /// The name of a parameter, empty where it has none.
    pub fn param_name(&self, f: LLVMFunction, place: u32) -> &str
        requires { place < length (param_names self.now.functions f) }
        ensures { slice_get (param_names self.now.functions f) place ≡ Some result.now }
    {
        self.code.function(f).params.as_slice()[place as usize].as_str()
    }

    /// The blocks of a function in order.
    pub fn blocks(&self, f: LLVMFunction) -> &[LLVMBasicBlock]
        requires { f.0 < length self.now.functions }
        ensures blocks { option_map (λ x. x.blocks) (slice_get self.now.functions f.0) ≡ Some result.now }
        ensures within { All (λ b. b.0 < length self.now.blocks) result.now }
    {
        self.code.function(f).blocks.as_slice()
    }

    /// The name of a block, empty where it has none.
    pub fn block_name(&self, b: LLVMBasicBlock) -> &str
        requires { b.0 < length self.now.blocks }
        ensures { option_map (λ x. x.name) (slice_get self.now.blocks b.0) ≡ Some result.now }
    {
        self.code.block(b).name.as_str()
    }

    /// The instructions of a block in order.
    pub fn instructions(&self, b: LLVMBasicBlock) -> &[LLVMInstRef]
        requires { b.0 < length self.now.blocks }
        ensures insts { option_map (λ x. x.insts) (slice_get self.now.blocks b.0) ≡ Some result.now }
        ensures within { All (λ i. i.0 < length self.now.insts) result.now }
    {
        self.code.block(b).insts.as_slice()
    }

    pub fn inst(&self, i: LLVMInstRef) -> &LLVMInst
        requires { i.0 < length self.now.insts }
        ensures inst { option_map (λ x. x.inst) (slice_get self.now.insts i.0) ≡ Some result.now }
        ensures values { HasValues self.now result.now }
    {
        &self.code.inst(i).inst
    }

    /// The name of an instruction's result, empty where it has none.
    pub fn inst_name(&self, i: LLVMInstRef) -> &str
        requires { i.0 < length self.now.insts }
        ensures { option_map (λ x. x.name) (slice_get self.now.insts i.0) ≡ Some result.now }
    {
        self.code.inst(i).name.as_str()
    }

    pub(crate) fn allocator(&self) -> Global {
        self.alloc
    }

    /// How many constants there are.
    pub fn const_count(&self) -> u32
        ensures { result ≡ length self.now.consts }
    {
        self.consts.len()
    }

    /// How many blocks there are, in all functions together.
    pub fn block_count(&self) -> u32
        ensures { result ≡ length self.now.blocks }
    {
        self.code.block_count()
    }

    /// How many instructions there are, in all functions together.
    pub fn inst_count(&self) -> u32
        ensures { result ≡ length self.now.insts }
    {
        self.code.inst_count()
    }

    /// The names of the parameters of a function.
    pub(crate) fn params(&self, f: LLVMFunction) -> &[Text]
        requires { f.0 < length self.now.functions }
        ensures { option_map (λ x. x.params) (slice_get self.now.functions f.0) ≡ Some result.now }
    {
        self.code.function(f).params.as_slice()
    }

    /// The function that holds a block.
    pub(crate) fn block_function(&self, b: LLVMBasicBlock) -> LLVMFunction
        requires { b.0 < length self.now.blocks }
        ensures function { option_map (λ x. x.function) (slice_get self.now.blocks b.0) ≡ Some result }
        ensures within { result.0 < length self.now.functions }
    {
        self.code.block(b).function
    }

    /// The block that holds an instruction.
    pub(crate) fn inst_block(&self, i: LLVMInstRef) -> LLVMBasicBlock
        requires { i.0 < length self.now.insts }
        ensures block { option_map (λ x. x.block) (slice_get self.now.insts i.0) ≡ Some result }
        ensures within { result.0 < length self.now.blocks }
    {
        self.code.inst(i).block
    }

    fn param_type(&self, f: LLVMFunction, place: u32) -> LLVMType
        requires { place < length (param_names self.now.functions f) }
        ensures ty { value_type self.now (values.Param f place) ≡ Some result }
        ensures within { result.0 < length self.now.types }
    {
        params_of(self.types.value(self.code.function(f).ty.0))[place as usize]
    }
}

fn const_type(kind: &LLVMConstKind) -> LLVMType
    ensures { result ≡ const_type kind.now }
{
    match kind {
        LLVMConstKind::Int(ty, _) => *ty,
        LLVMConstKind::Filled(_, ty) => *ty,
        LLVMConstKind::Bytes(ty, _) => *ty,
        LLVMConstKind::List(ty, _) => *ty,
        LLVMConstKind::Splat(ty, _) => *ty,
        LLVMConstKind::Placeholder(_, ty) => *ty,
    }
}

/// What rules look at in a kind of type: a line for each.
pub fn shape_of(kind: &LLVMTypeKind) -> Shape
    ensures { result ≡ shape_of kind.now }
{
    match kind {
        LLVMTypeKind::Void => Shape::Void,
        LLVMTypeKind::Int(width) => Shape::Int(*width),
        LLVMTypeKind::Ptr(space) => Shape::Pointer(*space),
        LLVMTypeKind::Floating(_) => Shape::Other,
        LLVMTypeKind::Other(of) => Shape::Refused(*of),
        LLVMTypeKind::Array(_, _) => Shape::Made,
        LLVMTypeKind::Vector(_, _, _) => Shape::Made,
        LLVMTypeKind::Literal { .. } => Shape::Made,
        LLVMTypeKind::Named(_) => Shape::Named,
        LLVMTypeKind::Function { .. } => Shape::Function,
    }
}

/// The types of the parameters of a function type.
fn params_of(kind: &LLVMTypeKind) -> &[LLVMType]
    requires { IsTrue (is_function kind.now) }
    ensures { result.now ≡ kind_params kind.now }
{
    match kind {
        LLVMTypeKind::Function { params, .. } => params.as_slice(),
        _ => unreachable!(),
    }
}

/// An empty name for each type.
fn unnamed(alloc: Global, types: &[LLVMType]) -> Result<Items<Text>, AllocError>
    ensures { IfOk result (λ names. names ≡ map (λ _. []) types.now) }
{
    let mut names = Items::from_vec(Vec::with_capacity(alloc, types.len())?);
    for _ty in types {
        names.push(Text::empty())?;
    }
    Ok(names)
}
