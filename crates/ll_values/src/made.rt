//! Constants that are made of others, as a text says them.

ghost use Rattle.std.specs.Prelude.{◌≡◌, ◌≤◌, Some, Err, IfOk, OnErr, length};
ghost use Rattle.llvm_core.specs.Data.{trees_of, type_at};
ghost use Rattle.ll_lines.specs.Lines.{Const, Listed};
ghost use Rattle.ll_lines.specs.Views.{const_line_view, IsTypeIn, IsConstLineIn};
ghost use Rattle.ll_values.specs.Lists.{list_at};
ghost use Rattle.ll_values.specs.Views.{table_of, consts_at, made_in, IsStoreIn};
ghost use Rattle.ll_values.specs.Growing.{Says};

use crate::keep::keep_const;
use crate::store::Store;
use crate::value_err::ValueErr;
use ll_lines::lines::{Brackets, ConstLine, Said, SaidConst};
use llvm_core::module::LLVMModule;
use llvm_core::numbers::LLVMType;
use std::alloc::{AllocError, Global};
use support::items::Items;

/// The constants of a list.
fn elements(alloc: Global, store: &Store, list: u32) -> Result<Vec<SaidConst>, AllocError>
    requires list { list ≤ length store.now.consts }
    ensures elements { IfOk result (λ v. v.items ≡ list_at store.now.consts list) }
{
    let mut found = Vec::with_capacity(alloc, store.consts.count(list))?;
    let mut next = list;
    while let Some((c, rest)) = store.consts.first(next) {
        found.push(c)?;
        next = rest;
    }
    Ok(found)
}

/// A constant of the table.
#[inline(never)]
pub fn said_line(
    m: &LLVMModule,
    store: &mut Store,
    bytes: &[u8],
    line: ConstLine,
) -> Result<Said, ValueErr>
    requires store { IsStoreIn m.now store.old }
    requires there { IsConstLineIn m.now (made_in store.old) line }
    ensures says { IfOk result (Says bytes.now m.now m.now store.old store.new (Some (Const (const_line_view bytes.now (trees_of m.now) (table_of bytes.now (trees_of m.now) store.old) line)))) }
    ensures memory { OnErr result (result ≡ Err ValueErr.NoMemory) }
{
    Ok(Said::Const(keep_const(m, store, bytes, line)?))
}

/// The elements of a list between brackets, as a constant of a type.
#[inline(never)]
pub fn said_list(
    alloc: Global,
    m: &LLVMModule,
    store: &mut Store,
    bytes: &[u8],
    ty: LLVMType,
    brackets: Brackets,
    list: u32,
) -> Result<Said, ValueErr>
    requires store { IsStoreIn m.now store.old }
    requires there { IsTypeIn m.now ty }
    requires list { list ≤ length store.old.consts }
    ensures says { IfOk result (Says bytes.now m.now m.now store.old store.new (Some (Const (Listed (type_at (trees_of m.now).types ty) brackets (consts_at bytes.now (trees_of m.now) store.old list))))) }
    ensures memory { OnErr result (result ≡ Err ValueErr.NoMemory) }
{
    let found = Items::from_vec(elements(alloc, store, list)?);
    match said_line(m, store, bytes, ConstLine::Listed(ty, brackets, found)) {
        Ok(said) => Ok(said),
        Err(e) => Err(e),
    }
}
