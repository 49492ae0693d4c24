//! Functions of lines are added to a module, and files.

ghost use Rattle.std.specs.Prelude.{◌≡◌, false, None, Some, Err, IfOk, OnOk, [], map, length, slice_get, All};
ghost use Rattle.std.specs.Prelude.{◌≤◌};
ghost use Rattle.support.specs.Interned.{Interned};
ghost use Rattle.llvm_core.specs.Parts.{IsTypeOver, HasFitParts};
ghost use Rattle.llvm_core.specs.Code.{param_names};
ghost use Rattle.llvm_core.specs.Data.{data_of, trees_of, with_function};
ghost use Rattle.llvm_core.specs.Sound.{IsModule};
ghost use Rattle.llvm_core.specs.declared.types.LLVMTypeKind.TheVariants as kinds;
ghost use Rattle.ll_lines.specs.Views.{IsTypeIn, IsTableIn, IsFunctionIn, IsFileIn, file_view};
ghost use Rattle.ll_bodies.specs.Meaning.{file_data};
ghost use Rattle.ll_bodies.specs.AddingViews.{IsShared, AddsTypes, Renames, data_over, all_over, names_in, with_params, function_with, GivesBody, AddsFunction, AddsFunctions};
ghost use Rattle.ll_bodies.specs.Bits.{HasBits, HasNeeded, KeepsVectors, NotesBits};
ghost use Rattle.ll_bodies.specs.FunctionViews.{IsNext};

use crate::build_err::BuildErr;
use crate::constants::add_consts;
use crate::definitions::next_number;
use crate::functions::body_of;
use crate::names::{local_name, source_name};
use crate::results::Source;
use crate::structs::add_structs;
use kinds::types::Lanes;
use ll_lines::lines::{ConstLine, File, Function, Param};
use ll_literals::symbols::symbol_name;
use llvm_core::module::LLVMModule;
use llvm_core::numbers::{LLVMConst, LLVMFunction, LLVMType};
use llvm_core::types::LLVMTypeKind;
use std::alloc::{AllocError, Global};
use support::items::Items;
use support::number_map::NumberMap;

/// The types that every function needs, whatever it says: `i1`, void, and for each vector type of the module
/// the one of as many bits.
#[derive(Drop)]
struct Needed {
    bit: LLVMType,
    void: LLVMType,
    bits: NumberMap<LLVMType>,
}

/// What every function of a text is said over: its bytes, and its constants that are made of others, with the number of what each
/// means in the module.
#[derive(Clone, Copy, Drop)]
struct Shared<'a> {
    bytes: &'a [u8],
    table: &'a [ConstLine],
    consts: &'a [Option<LLVMConst>],
}

/// The types of parameters.
fn param_types(alloc: Global, params: &[Param]) -> Result<Items<LLVMType>, AllocError>
    ensures { IfOk result (λ types. types ≡ map (λ (p : Param). p.ty) params.now) }
{
    let mut types = Items::from_vec(Vec::with_capacity(alloc, params.len())?);
    for param in params {
        types.push(param.ty)?;
    }
    Ok(types)
}

/// The number of a type, new or old.
fn type_number(module: &mut LLVMModule, kind: LLVMTypeKind) -> Result<LLVMType, AllocError>
    requires parts { IsTypeOver (length module.old.types) kind }
    requires fit { HasFitParts module.old.types kind }
    ensures grows { OnOk result (AddsTypes module.old module.new) }
    ensures here { IfOk result (λ t. slice_get module.new.types t.0 ≡ Some kind) }
    ensures got { IfOk result (λ t. Interned module.old.types module.new.types kind t.0) }
    ensures sound { IsModule module.new }
{
    module.type_get(kind)
}

/// Notes the vector of as many bits as a type has lanes, where it has some.
fn note_bits(
    module: &mut LLVMModule,
    bit: LLVMType,
    ty: LLVMType,
    bits: &mut NumberMap<LLVMType>,
) -> Result<(), AllocError>
    requires sound { IsModule module.old }
    requires bit { slice_get module.old.types bit.0 ≡ Some (kinds.Int 1) }
    requires ty { IsTypeIn module.old ty }
    ensures grows { OnOk result (AddsTypes module.old module.new) }
    ensures noted { OnOk result (NotesBits module.old bits.old ty.0 module.new bits.new) }
    ensures sound { OnOk result (IsModule module.new) }
{
    let Lanes::Many(kind, count) = module.laned(ty).lanes else {
        return Ok(());
    };
    let vector = type_number(module, LLVMTypeKind::Vector(kind, count, bit))?;
    bits.set(ty.0, vector)?;
    // A vector of bits, which may be new, has itself.
    bits.set(vector.0, vector)
}

/// For each vector type of the module the one of as many bits.
fn vector_bits(
    alloc: Global,
    module: &mut LLVMModule,
    bit: LLVMType,
) -> Result<NumberMap<LLVMType>, AllocError>
    requires bit { slice_get module.old.types bit.0 ≡ Some (kinds.Int 1) }
    ensures grows { OnOk result (AddsTypes module.old module.new) }
    ensures bits { IfOk result (HasBits module.new) }
    ensures sound { OnOk result (IsModule module.new) }
{
    let mut bits = NumberMap::new(alloc);
    for at in 0..module.types() {
        note_bits(module, bit, LLVMType(at), &mut bits)?;
    }
    Ok(bits)
}

/// The types that every function needs.
fn needed_types(alloc: Global, module: &mut LLVMModule) -> Result<Needed, AllocError>
    ensures grows { OnOk result (AddsTypes module.old module.new) }
    ensures needed { IfOk result (λ t. HasNeeded module.new t.bit.0 t.void.0 t.bits) }
    ensures sound { OnOk result (IsModule module.new) }
{
    let bit = type_number(module, LLVMTypeKind::Int(1))?;
    let void = type_number(module, LLVMTypeKind::Void)?;
    let bits = vector_bits(alloc, module, bit)?;
    Ok(Needed { bit, void, bits })
}

/// The type of a function.
fn function_type(
    alloc: Global,
    module: &mut LLVMModule,
    said: &Function,
) -> Result<LLVMType, AllocError>
    requires { IsTypeIn module.old said.now.result × All (λ p. IsTypeIn module.old p.ty) said.now.params.items }
    ensures grows { OnOk result (AddsTypes module.old module.new) }
    ensures vectors { OnOk result (KeepsVectors module.old module.new) }
    ensures here { IfOk result (λ t. slice_get module.new.types t.0 ≡ Some (kinds.Function said.now.result (map (λ (p : Param). p.ty) said.now.params.items) false)) }
    ensures sound { OnOk result (IsModule module.new) }
{
    let params = param_types(alloc, said.params.as_slice())?;
    type_number(
        module,
        LLVMTypeKind::Function {
            result: said.result,
            params,
            variadic: false,
        },
    )
}

/// Names the parameters of a function.
fn name_params(
    alloc: Global,
    module: &mut LLVMModule,
    bytes: &[u8],
    f: LLVMFunction,
    params: &[Param],
) -> Result<(), BuildErr>
    requires { length params.now ≡ length (param_names module.old.functions f) }
    ensures data { OnOk result (data_of module.new ≡ with_params (data_of module.old) f.0 0 (names_in bytes.now params.now)) }
    ensures renames { OnOk result (Renames f module.old module.new) }
    ensures not_yet { ¬ (result ≡ Err BuildErr.NotYet) }
    ensures sound { OnOk result (IsModule module.old → IsModule module.new) }
{
    let mut place = 0;
    for param in params {
        let name = local_name(alloc, bytes, param.name)?;
        module.set_param_name(f, place, name.as_str())?;
        place = next_number(place)?;
    }
    Ok(())
}

/// Adds a function without blocks, whose parameters have their names.
fn declare(
    alloc: Global,
    module: &mut LLVMModule,
    bytes: &[u8],
    name: &str,
    ty: LLVMType,
    said: &Function,
) -> Result<LLVMFunction, BuildErr>
    requires sound { IsModule module.old }
    requires ty { slice_get module.old.types ty.0 ≡ Some (kinds.Function said.now.result (map (λ (p : Param). p.ty) said.now.params.items) false) }
    ensures number { IfOk result (λ f. f.0 ≡ length module.old.functions) }
    ensures data { OnOk result (data_of module.new ≡ with_function (data_of module.old) (function_with bytes.now (trees_of module.old) (length module.old.functions) name.now said.now [])) }
    ensures next { IfOk result (λ f. IsNext module.new f (length module.old.blocks) (length module.old.insts) said.now) }
    ensures rest { OnOk result (module.new ≡ record module.old { functions = module.new.functions }) }
    ensures sound { OnOk result (IsModule module.new) }
    ensures not_yet { ¬ (result ≡ Err BuildErr.NotYet) }
{
    let f = module.add_function(name, ty, 0)?;
    name_params(alloc, module, bytes, f, said.params.as_slice())?;
    Ok(f)
}

/// Gives a function that has none the blocks that are said of it.
fn give_body(
    alloc: Global,
    module: &mut LLVMModule,
    shared: &Shared<'_>,
    f: LLVMFunction,
    types: &Needed,
    said: &Function,
) -> Result<(), BuildErr>
    requires sound { IsModule module.old }
    requires made { IsShared module.old shared.now }
    requires said { IsFunctionIn module.old (length shared.now.table.now) said.now }
    requires next { IsNext module.old f (length module.old.blocks) (length module.old.insts) said.now }
    requires needed { HasNeeded module.old types.now.bit.0 types.now.void.0 types.now.bits }
    ensures ok { OnOk result (GivesBody shared.now.bytes.now shared.now.table.now f.0 said.now module.old module.new) }
    ensures not_yet { result ≡ Err BuildErr.NotYet → data_over shared.now.bytes.now shared.now.table.now module.old f.0 (length module.old.blocks) (length module.old.insts) said.now ≡ None }
    ensures sound { OnOk result (IsModule module.new) }
{
    let first_block = module.block_count();
    let first = module.inst_count();
    let source = Source {
        bytes: shared.bytes,
        module: &*module,
        bit: types.bit,
        void: types.void,
        bits: &types.bits,
        table: shared.table,
        consts: shared.consts,
    };
    let body = body_of(alloc, &source, f, first_block, first, said)?;
    module.add_body(f, body)?;
    Ok(())
}

/// Adds a function behind those that are there.
fn add_function(
    alloc: Global,
    module: &mut LLVMModule,
    shared: &Shared<'_>,
    types: &Needed,
    said: &Function,
) -> Result<(), BuildErr>
    requires sound { IsModule module.old }
    requires table { IsTableIn module.old shared.now.table.now }
    requires made { IsShared module.old shared.now }
    requires said { IsFunctionIn module.old (length shared.now.table.now) said.now }
    requires needed { HasNeeded module.old types.now.bit.0 types.now.void.0 types.now.bits }
    ensures ok { OnOk result (AddsFunction shared.now.bytes.now shared.now.table.now said.now module.old module.new) }
    ensures not_yet { result ≡ Err BuildErr.NotYet → data_over shared.now.bytes.now shared.now.table.now module.old (length module.old.functions) (length module.old.blocks) (length module.old.insts) said.now ≡ None }
{
    let written = symbol_name(alloc, said.name.text(shared.bytes))?;
    let Some(name) = written else {
        return Err(BuildErr::NotYet);
    };
    let ty = function_type(alloc, module, said)?;
    let f = declare(alloc, module, shared.bytes, name.as_str(), ty, said)?;
    give_body(alloc, module, shared, f, types, said)
}

/// Adds functions behind those that are there, in their order.
fn add_functions(
    alloc: Global,
    module: &mut LLVMModule,
    shared: &Shared<'_>,
    functions: &[Function],
) -> Result<(), BuildErr>
    requires sound { IsModule module.old }
    requires table { IsTableIn module.old shared.now.table.now }
    requires made { IsShared module.old shared.now }
    requires said { All (IsFunctionIn module.old (length shared.now.table.now)) functions.now }
    ensures ok { OnOk result (AddsFunctions shared.now.bytes.now shared.now.table.now functions.now module.old module.new) }
    ensures not_yet { result ≡ Err BuildErr.NotYet → all_over shared.now.bytes.now shared.now.table.now module.old functions.now ≡ None }
{
    let types = needed_types(alloc, module)?;
    for function in functions {
        add_function(alloc, module, shared, &types, function)?;
    }
    Ok(())
}

/// Gives a module without structs and functions the name, the structs and the functions of a file of lines.
pub fn add_file(
    alloc: Global,
    module: &mut LLVMModule,
    bytes: &[u8],
    said: &File,
) -> Result<(), BuildErr>
    requires said { IsFileIn module.old said.now }
    requires empty { ((data_of module.old).structs ≡ []) × ((data_of module.old).functions ≡ []) }
    ensures data { OnOk result (file_data (file_view bytes.now (trees_of module.old) said.now) ≡ Some (data_of module.new)) }
    ensures not_yet { result ≡ Err BuildErr.NotYet → file_data (file_view bytes.now (trees_of module.old) said.now) ≡ None }
    ensures sound { OnOk result (IsModule module.new) }
{
    let written = source_name(alloc, bytes, said.source)?;
    let Some(name) = written else {
        return Err(BuildErr::NotYet);
    };
    module.set_name(name.as_str())?;
    let structs = said.structs.as_slice();
    add_structs(alloc, module, bytes, structs)?;
    let table = said.consts.as_slice();
    let numbers = add_consts(alloc, module, bytes, table)?;
    let consts = numbers.as_slice();
    let shared = Shared {
        bytes,
        table,
        consts,
    };
    let functions = said.functions.as_slice();
    add_functions(alloc, module, &shared, functions)
}
