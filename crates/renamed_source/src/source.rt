//! A module of LLVM under the names that the dialect gives its structs: what an import reads.

ghost use Rattle.std.specs.Prelude.{◌≡◌, ◌<◌, ℕ, List, IfOk, IfSome, Some, None, All, length, map, slice_get};
ghost use Rattle.std.specs.Option.{option_map};
ghost use Rattle.support.specs.Interned.{IsDistinctList};
ghost use Rattle.llvm_core.specs.declared.types.LLVMTypeKind.TheVariants as T;
ghost use Rattle.llvm_core.specs.Code.{param_names};
ghost use Rattle.llvm_core.specs.Consts.{IsConstIn, IsMadeBelow};
ghost use Rattle.llvm_core.specs.Parts.{IsTypeOver, HasFitParts, IsFunctionType, IsValue, HasValues, type_params, value_type};
ghost use Rattle.llvm_core.specs.Sound.{IsModule};
ghost use Rattle.llvm_core.specs.Data.{AreApart};
ghost use Rattle.dialect_types.specs.Names.{IsIdentifier};
ghost use Rattle.renamed_source.specs.Names.{AreStructNames, IsSeenKind, renamed_store, struct_name};
ghost use Rattle.renamed_source.specs.Source.{pairs_of, listed, place_in};

use dialect_types::identifier::Identifier;
use llvm_core::code::{LLVMInst, LLVMValue};
use llvm_core::consts::LLVMConstKind;
use llvm_core::module::LLVMModule;
use llvm_core::name_set::NameSet;
use llvm_core::numbers::{LLVMBasicBlock, LLVMConst, LLVMFunction, LLVMInstRef, LLVMType};
use llvm_core::types::LLVMTypeKind;
use std::alloc::{AllocError, Global};
use std::marker::Model;

/// A module with its structs under other names, seen as the module that has them under these names. It copies nothing: it
/// knows of each type where the name of its struct stands in the list.
#[derive(Drop)]
pub struct Source<'a> {
    module: &'a LLVMModule,
    pairs: &'a [(String, Identifier)],
    /// By number of type: the place of the struct that it names.
    places: Vec<Option<usize>>,
}

impl<'a> Model for Source<'a> {
    ghost use Rattle.llvm_core.specs.Module.{Module};
    ghost use Rattle.renamed_source.specs.Names.{renamed_store, struct_name};
    ghost use Rattle.renamed_source.specs.Source.{pairs_of, IsPlaced};

    ghost Value = { Module };

    ghost view = { λ s. renamed_store (struct_name (pairs_of s.pairs.now)) s.«module».now };

    ghost invariant = { λ s. IsPlaced s.«module».now.types (pairs_of s.pairs.now) s.places.items };
}

impl<'a> Source<'a> {
    /// The module under the names of a list; a struct that the list lacks is called what is no identifier.
    pub fn new(
        alloc: Global,
        module: &'a LLVMModule,
        pairs: &'a [(String, Identifier)],
    ) -> Result<Source<'a>, AllocError>
        requires names { AreStructNames (pairs_of pairs.now) }
        ensures { IfOk result (λ s. s ≡ renamed_store (struct_name (pairs_of pairs.now)) «module».now) }
    {
        let names = listed_names(alloc, pairs)?;
        let places = places_of(alloc, module, &names)?;
        Ok(Source {
            module,
            pairs,
            places,
        })
    }

    pub fn name(&self) -> &str
        ensures { result.now ≡ self.now.name }
    {
        self.module.name()
    }

    /// How many types there are.
    pub fn types(&self) -> u32
        ensures len { result ≡ length self.now.types }
        ensures sound { IsModule self.now }
        ensures apart { AreApart self.now }
    {
        self.module.types()
    }

    /// How many functions there are.
    pub fn functions(&self) -> u32
        ensures len { result ≡ length self.now.functions }
        ensures sound { IsModule self.now }
    {
        self.module.functions()
    }

    /// The kind of a type, as the module itself has it: a struct with a name has its other name.
    pub fn type_kind(&self, ty: LLVMType) -> &LLVMTypeKind
        requires { ty.0 < length self.now.types }
        ensures kind { IsSeenKind (slice_get self.now.types ty.0) result.now }
        ensures parts { IsTypeOver ty.0 result.now }
        ensures fit { HasFitParts self.now.types result.now }
    {
        self.module.type_kind(ty)
    }

    /// What the dialect calls the struct that the type names, where it is listed.
    pub fn struct_name(&self, ty: LLVMType) -> Option<&Identifier>
        requires { ty.0 < length self.now.types }
        ensures some { IfSome result (λ i. slice_get self.now.types ty.0 ≡ Some (T.Named i.now)) }
        ensures none { result ≡ None → (n : List ℕ) → slice_get self.now.types ty.0 ≡ Some (T.Named n) → ¬ IsIdentifier n }
    {
        let place = self.places[ty.0 as usize]?;
        let pair = &self.pairs[place];
        Some(&pair.1)
    }

    pub fn const_kind(&self, c: LLVMConst) -> &LLVMConstKind
        requires { c.0 < length self.now.consts }
        ensures kind { slice_get self.now.consts c.0 ≡ Some result.now }
        ensures parts { IsConstIn self.now result.now }
        ensures below { IsMadeBelow c.0 result.now }
    {
        self.module.const_kind(c)
    }

    /// The type of a value.
    pub fn type_of(&self, v: LLVMValue) -> LLVMType
        requires { IsValue self.now v }
        ensures ty { value_type self.now v ≡ Some result }
        ensures within { result.0 < length self.now.types }
    {
        self.module.type_of(v)
    }

    pub fn function_name(&self, f: LLVMFunction) -> &str
        requires { f.0 < length self.now.functions }
        ensures { option_map (λ x. x.name) (slice_get self.now.functions f.0) ≡ Some result.now }
    {
        self.module.function_name(f)
    }

    /// The type of a function, with a type for each name of a parameter.
    pub fn function_type(&self, f: LLVMFunction) -> LLVMType
        requires { f.0 < length self.now.functions }
        ensures ty { option_map (λ x. x.ty) (slice_get self.now.functions f.0) ≡ Some result }
        ensures function { IsFunctionType self.now.types result }
        ensures params { length (type_params self.now.types result) ≡ length (param_names self.now.functions f) }
    {
        self.module.function_type(f)
    }

    /// The blocks of a function in order.
    pub fn blocks(&self, f: LLVMFunction) -> &[LLVMBasicBlock]
        requires { f.0 < length self.now.functions }
        ensures blocks { option_map (λ x. x.blocks) (slice_get self.now.functions f.0) ≡ Some result.now }
        ensures within { All (λ b. b.0 < length self.now.blocks) result.now }
    {
        self.module.blocks(f)
    }

    /// The name of a block, empty where it has none.
    pub fn block_name(&self, b: LLVMBasicBlock) -> &str
        requires { b.0 < length self.now.blocks }
        ensures { option_map (λ x. x.name) (slice_get self.now.blocks b.0) ≡ Some result.now }
    {
        self.module.block_name(b)
    }

    /// The instructions of a block in order.
    pub fn instructions(&self, b: LLVMBasicBlock) -> &[LLVMInstRef]
        requires { b.0 < length self.now.blocks }
        ensures insts { option_map (λ x. x.insts) (slice_get self.now.blocks b.0) ≡ Some result.now }
        ensures within { All (λ i. i.0 < length self.now.insts) result.now }
    {
        self.module.instructions(b)
    }

    pub fn inst(&self, i: LLVMInstRef) -> &LLVMInst
        requires { i.0 < length self.now.insts }
        ensures inst { option_map (λ x. x.inst) (slice_get self.now.insts i.0) ≡ Some result.now }
        ensures values { HasValues self.now result.now }
    {
        self.module.inst(i)
    }

    /// The name of an instruction's result, empty where it has none.
    pub fn inst_name(&self, i: LLVMInstRef) -> &str
        requires { i.0 < length self.now.insts }
        ensures { option_map (λ x. x.name) (slice_get self.now.insts i.0) ≡ Some result.now }
    {
        self.module.inst_name(i)
    }

    /// How many constants there are.
    pub fn const_count(&self) -> u32
        ensures { result ≡ length self.now.consts }
    {
        self.module.const_count()
    }

    /// How many blocks there are, in all functions together.
    pub fn block_count(&self) -> u32
        ensures { result ≡ length self.now.blocks }
    {
        self.module.block_count()
    }

    /// How many instructions there are, in all functions together.
    pub fn inst_count(&self) -> u32
        ensures { result ≡ length self.now.insts }
    {
        self.module.inst_count()
    }
}

/// The names that are listed, each once, by which their places are found.
pub fn listed_names(
    alloc: Global,
    pairs: &[(String, Identifier)],
) -> Result<NameSet<'_>, AllocError>
    requires { IsDistinctList (listed (pairs_of pairs.now)) }
    ensures { IfOk result (λ s. s ≡ listed (pairs_of pairs.now)) }
{
    let mut names = NameSet::new(alloc);
    names.reserve(pairs.len())?;
    for pair in pairs {
        names.insert(pair.0.as_str())?;
    }
    Ok(names)
}

/// Of each type, where the name of its struct stands among those listed.
fn places_of(
    alloc: Global,
    module: &LLVMModule,
    names: &NameSet<'_>,
) -> Result<Vec<Option<usize>>, AllocError>
    ensures { IfOk result (λ v. v.items ≡ map (place_in names.now) «module».now.types) }
{
    let count = module.types();
    let mut places = Vec::with_capacity(alloc, count as usize)?;
    for t in 0..count {
        places.push(place_of(names, module.type_kind(LLVMType(t))))?;
    }
    Ok(places)
}

/// Where the name of a type stands, if it has one that is listed.
fn place_of(names: &NameSet<'_>, kind: &LLVMTypeKind) -> Option<usize>
    ensures { result ≡ place_in names.now kind.now }
{
    match kind {
        LLVMTypeKind::Named(name) => names.find(name.as_str()),
        _ => None,
    }
}
