//! Which struct of a module has a name, the first one where there are more.

ghost use Rattle.std.specs.Prelude.{◌<◌, ◌+◌, IfOk, OnOk, length};
ghost use Rattle.llvm_core.specs.declared.numbers.LLVMStruct.{LLVMStruct};
ghost use Rattle.held_types.specs.Table.{IsFirst, IsTable, IsTableTo};

use llvm_core::module::LLVMModule;
use llvm_core::name_set::NameSet;
use llvm_core::numbers::LLVMStruct;
use std::alloc::{AllocError, Global};

/// The names of a module's structs, each once, and for each the first struct that has it.
#[derive(Drop)]
pub struct Table<'a> {
    pub names: NameSet<'a>,
    pub firsts: Vec<LLVMStruct>,
}

/// Notes a struct after those before it, unless one of them has its name.
fn note<'a>(m: &'a LLVMModule, s: LLVMStruct, table: &mut Table<'a>) -> Result<(), AllocError>
    requires within { s.0 < length m.now.structs }
    requires table { IsTableTo m.now s.0 table.old }
    ensures { OnOk result (IsTableTo m.now (s.0 + 1) table.new) }
{
    let name = m.struct_name(s);
    match table.names.find(name) {
        Some(_) => Ok(()),
        None => {
            table.names.insert(name)?;
            table.firsts.push(s)?;
            Ok(())
        }
    }
}

/// The table of all structs of a module.
pub fn table_of<'a>(alloc: Global, m: &'a LLVMModule) -> Result<Table<'a>, AllocError>
    ensures { IfOk result (λ t. IsTable m.now t) }
{
    let mut table = Table {
        names: NameSet::new(alloc),
        firsts: Vec::new(alloc),
    };
    for s in 0..m.structs() {
        note(m, LLVMStruct(s), &mut table)?;
    }
    Ok(table)
}

/// The struct of a name that some struct has.
pub fn first(table: &Table<'_>, name: &str) -> LLVMStruct
    requires { (n : LLVMStruct) × IsFirst table.now name.now n }
    ensures { IsFirst table.now name.now result }
{
    match table.names.find(name) {
        Some(place) => table.firsts[place],
        None => unreachable!(),
    }
}
