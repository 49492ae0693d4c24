//! Keeps what is made.

ghost use Rattle.std.specs.Prelude.{◌≡◌, ◌≤◌, length, Err, None, IfOk, OnErr};
ghost use Rattle.llvm_core.specs.Data.{trees_of};
ghost use Rattle.ll_lines.specs.Views.{const_line_view, inst_view, IsTypeIn, IsConstIn, IsConstLineIn, IsInstIn};
ghost use Rattle.ll_values.specs.declared.value.Value.TheVariants as V;
ghost use Rattle.ll_values.specs.Values.{InstV};
ghost use Rattle.ll_values.specs.Views.{table_of, made_in, entries_from, consts_from, body_from, types_from, params_from, struct_from, file_from, IsStoreIn, IsEntryIn, IsPieceIn, IsStructureIn, IsDefinitionIn};
ghost use Rattle.ll_values.specs.Growing.{Kept, KeptConst};

use crate::planned::Planned;
use crate::store::Store;
use crate::value::{Definition, Entry, Piece, Structure};
use crate::value_err::ValueErr;
use ll_lines::lines::{ConstLine, ConstPlace, Param, SaidConst};
use llvm_core::module::LLVMModule;
use llvm_core::numbers::LLVMType;

/// The number of one more instruction.
#[inline(always)]
pub fn keep_inst(
    m: &LLVMModule,
    store: &mut Store,
    bytes: &[u8],
    inst: Planned,
) -> Result<u32, ValueErr>
    requires store { IsStoreIn m.now store.old }
    requires there { IsInstIn m.now (made_in store.old) inst }
    ensures kept { IfOk result (λ n. Kept bytes.now m.now store.old store.new (InstV (inst_view bytes.now (trees_of m.now) (table_of bytes.now (trees_of m.now) store.old) inst)) (V.Inst n)) }
    ensures memory { OnErr result (result ≡ Err ValueErr.NoMemory) }
{
    let _ = m;
    let _ = bytes;
    let n = store.insts.len();
    if n > u32::MAX as usize {
        return Err(ValueErr::NoMemory);
    }
    store.insts.push(inst)?;
    Ok(n as u32)
}

/// The number of entries, the first of them before others.
#[inline(always)]
pub fn keep_entries(
    m: &LLVMModule,
    store: &mut Store,
    bytes: &[u8],
    first: Entry,
    rest: u32,
) -> Result<u32, ValueErr>
    requires store { IsStoreIn m.now store.old }
    requires there { IsEntryIn m.now store.old first }
    requires rest { rest ≤ length store.old.entries }
    ensures kept { IfOk result (λ n. Kept bytes.now m.now store.old store.new (entries_from bytes.now (trees_of m.now) store.old first rest) (V.Entries n)) }
    ensures memory { OnErr result (result ≡ Err ValueErr.NoMemory) }
{
    let _ = m;
    let _ = bytes;
    Ok(store.entries.put(first, rest)?)
}

/// The number of constants, the first of them before others.
#[inline(always)]
pub fn keep_consts(
    m: &LLVMModule,
    store: &mut Store,
    bytes: &[u8],
    first: SaidConst,
    rest: u32,
) -> Result<u32, ValueErr>
    requires store { IsStoreIn m.now store.old }
    requires there { IsConstIn m.now (made_in store.old) first }
    requires rest { rest ≤ length store.old.consts }
    ensures kept { IfOk result (λ n. Kept bytes.now m.now store.old store.new (consts_from bytes.now (trees_of m.now) store.old first rest) (V.Consts n)) }
    ensures memory { OnErr result (result ≡ Err ValueErr.NoMemory) }
{
    let _ = m;
    let _ = bytes;
    Ok(store.consts.put(first, rest)?)
}

/// One more constant that is made of others.
pub fn keep_const(
    m: &LLVMModule,
    store: &mut Store,
    bytes: &[u8],
    line: ConstLine,
) -> Result<SaidConst, ValueErr>
    requires store { IsStoreIn m.now store.old }
    requires there { IsConstLineIn m.now (made_in store.old) line }
    ensures kept { IfOk result (KeptConst bytes.now m.now store.old store.new (const_line_view bytes.now (trees_of m.now) (table_of bytes.now (trees_of m.now) store.old) line)) }
    ensures memory { OnErr result (result ≡ Err ValueErr.NoMemory) }
{
    let _ = m;
    let _ = bytes;
    let n = store.table.len();
    if n > u32::MAX as usize {
        return Err(ValueErr::NoMemory);
    }
    store.table.push(line)?;
    Ok(SaidConst::Made(ConstPlace(n as u32)))
}

/// The number of a body, its first part before others.
#[inline(always)]
pub fn keep_body(
    m: &LLVMModule,
    store: &mut Store,
    bytes: &[u8],
    first: Piece,
    rest: u32,
) -> Result<u32, ValueErr>
    requires store { IsStoreIn m.now store.old }
    requires there { IsPieceIn m.now store.old first }
    requires rest { rest ≤ length store.old.bodies }
    ensures kept { IfOk result (λ n. Kept bytes.now m.now store.old store.new (body_from bytes.now (trees_of m.now) store.old first rest) (V.Body n)) }
    ensures memory { OnErr result (result ≡ Err ValueErr.NoMemory) }
{
    let _ = m;
    let _ = bytes;
    Ok(store.bodies.put(first, rest)?)
}

/// The number of types, the first of them before others.
#[inline(always)]
pub fn keep_types(
    m: &LLVMModule,
    store: &mut Store,
    bytes: &[u8],
    first: LLVMType,
    rest: u32,
) -> Result<u32, ValueErr>
    requires store { IsStoreIn m.now store.old }
    requires there { IsTypeIn m.now first }
    requires rest { rest ≤ length store.old.types }
    ensures kept { IfOk result (λ n. Kept bytes.now m.now store.old store.new (types_from bytes.now (trees_of m.now) store.old first rest) (V.Types n)) }
    ensures memory { OnErr result (result ≡ Err ValueErr.NoMemory) }
{
    let _ = m;
    let _ = bytes;
    Ok(store.types.put(first, rest)?)
}

/// The number of parameters, the first of them before others.
#[inline(always)]
pub fn keep_params(
    m: &LLVMModule,
    store: &mut Store,
    bytes: &[u8],
    first: Param,
    rest: u32,
) -> Result<u32, ValueErr>
    requires store { IsStoreIn m.now store.old }
    requires there { IsTypeIn m.now first.ty }
    requires rest { rest ≤ length store.old.params }
    ensures kept { IfOk result (λ n. Kept bytes.now m.now store.old store.new (params_from bytes.now (trees_of m.now) store.old first rest) (V.Params n)) }
    ensures memory { OnErr result (result ≡ Err ValueErr.NoMemory) }
{
    let _ = m;
    let _ = bytes;
    Ok(store.params.put(first, rest)?)
}

/// The number of structs, the first of them before others of a file with these functions.
#[inline(always)]
pub fn keep_structs(
    m: &LLVMModule,
    store: &mut Store,
    bytes: &[u8],
    first: Structure,
    rest: u32,
    functions: u32,
) -> Result<u32, ValueErr>
    requires store { IsStoreIn m.now store.old }
    requires there { IsStructureIn m.now store.old first }
    requires rest { rest ≤ length store.old.structs }
    requires functions { functions ≤ length store.old.functions }
    ensures kept { IfOk result (λ n. Kept bytes.now m.now store.old store.new (struct_from bytes.now (trees_of m.now) store.old first rest functions) (V.File None n functions)) }
    ensures memory { OnErr result (result ≡ Err ValueErr.NoMemory) }
{
    let _ = m;
    let _ = bytes;
    let _ = functions;
    Ok(store.structs.put(first, rest)?)
}

/// The number of functions, the first of them before others of a file with these structs.
#[inline(always)]
pub fn keep_functions(
    m: &LLVMModule,
    store: &mut Store,
    bytes: &[u8],
    first: Definition,
    structs: u32,
    rest: u32,
) -> Result<u32, ValueErr>
    requires store { IsStoreIn m.now store.old }
    requires there { IsDefinitionIn m.now store.old first }
    requires structs { structs ≤ length store.old.structs }
    requires rest { rest ≤ length store.old.functions }
    ensures kept { IfOk result (λ n. Kept bytes.now m.now store.old store.new (file_from bytes.now (trees_of m.now) store.old first structs rest) (V.File None structs n)) }
    ensures memory { OnErr result (result ≡ Err ValueErr.NoMemory) }
{
    let _ = m;
    let _ = bytes;
    let _ = structs;
    Ok(store.functions.put(first, rest)?)
}
