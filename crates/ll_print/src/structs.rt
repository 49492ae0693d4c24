//! Prints structs with a name.

ghost use Rattle.std.specs.Prelude.{◌≡◌, ◌<◌, ◌++◌, length, OnOk};
ghost use Rattle.support.specs.Appended.{Keeps};
ghost use Rattle.llvm_core.specs.Sound.{IsModule};
ghost use Rattle.llvm_core.specs.Data.{data_of};
ghost use Rattle.ll_print.specs.Printing.{body_text, struct_text, structs_text};
ghost use Rattle.ll_print.specs.Parts.{struct_in, blank_text};

use crate::types::{put_named, put_struct};
use llvm_core::module::LLVMModule;
use llvm_core::numbers::LLVMStruct;
use std::alloc::AllocError;

/// What is in a struct.
fn put_body(m: &LLVMModule, s: LLVMStruct, out: &mut Vec<u8>) -> Result<(), AllocError>
    requires sound { IsModule m.now }
    requires within { s.0 < length m.now.structs }
    ensures text { OnOk result (out.new.items ≡ out.old.items ++ body_text (struct_in m.now s).body) }
    ensures kept { Keeps out.old.items out.new.items }
{
    match m.struct_body(s) {
        Some(fields) => put_struct(m, fields.layout, fields.types.as_slice(), out),
        None => out.extend_from_slice(b"opaque"),
    }
}

/// The line of a struct.
fn put_line(m: &LLVMModule, s: LLVMStruct, out: &mut Vec<u8>) -> Result<(), AllocError>
    requires sound { IsModule m.now }
    requires within { s.0 < length m.now.structs }
    ensures text { OnOk result (out.new.items ≡ out.old.items ++ struct_text (struct_in m.now s)) }
    ensures kept { Keeps out.old.items out.new.items }
{
    put_named(m.struct_name(s), out)?;
    out.extend_from_slice(b" = type ")?;
    put_body(m, s, out)?;
    out.push(b'\n')?;
    Ok(())
}

/// A blank line before so many structs.
fn put_blank(structs: u32, out: &mut Vec<u8>) -> Result<(), AllocError>
    ensures text { OnOk result (out.new.items ≡ out.old.items ++ blank_text structs) }
    ensures kept { Keeps out.old.items out.new.items }
{
    if structs > 0 {
        out.push(b'\n')?;
    }
    Ok(())
}

/// The structs, after a blank line where there are any.
pub fn put_structs(m: &LLVMModule, out: &mut Vec<u8>) -> Result<(), AllocError>
    ensures text { OnOk result (out.new.items ≡ out.old.items ++ structs_text (data_of m.now).structs) }
    ensures kept { Keeps out.old.items out.new.items }
{
    let structs = m.structs();
    put_blank(structs, out)?;
    for s in 0..structs {
        put_line(m, LLVMStruct(s), out)?;
    }
    Ok(())
}
