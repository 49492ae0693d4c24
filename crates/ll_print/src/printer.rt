//! Prints a module as LLVM text.

ghost use Rattle.std.specs.Prelude.{◌≡◌, ◌≢◌, ◌++◌, true, [], OnOk, OnErr};
ghost use Rattle.std.specs.Str.{is_utf8};
ghost use Rattle.support.specs.Appended.{Keeps};
ghost use Rattle.llvm_core.specs.Data.{data_of};
ghost use Rattle.llvm_core.specs.Form.{IsForm, HasDistinctNames, HasFew};
ghost use Rattle.ll_text.specs.Spelling.{Spells};
ghost use Rattle.ll_print.specs.Printing.{source_text, module_text, EndsLine};
ghost use Rattle.ll_print.specs.Parts.{AreNumberable};

use crate::functions::put_function;
use crate::structs::put_structs;
use ll_literals::printed::put_text;
use llvm_core::module::LLVMModule;
use llvm_core::numbers::LLVMFunction;
use std::alloc::{AllocError, Global};
use support::appending::undo_failed;

/// The line of a module's name, where it has one.
fn put_source(name: &str, out: &mut Vec<u8>) -> Result<(), AllocError>
    ensures text { OnOk result (out.new.items ≡ out.old.items ++ source_text name.now) }
    ensures kept { Keeps out.old.items out.new.items }
{
    if !name.is_empty() {
        out.extend_from_slice(b"source_filename = ")?;
        put_text(name.as_bytes(), out)?;
        out.push(b'\n')?;
    }
    Ok(())
}

/// The text of a module, or a front of it where memory is wanting.
fn put_module(alloc: Global, m: &LLVMModule, out: &mut Vec<u8>) -> Result<(), AllocError>
    requires form { IsForm (data_of m.now) }
    requires few { HasFew (data_of m.now) }
    ensures text { OnOk result (out.new.items ≡ out.old.items ++ module_text (data_of m.now)) }
    ensures kept { Keeps out.old.items out.new.items }
    // The name is a &str.
    ensures utf8 { is_utf8 m.now.name ≡ true }
    // A function with more unnamed things than there are numbers wants memory.
    ensures numbers { OnOk result (AreNumberable (data_of m.now)) }
{
    put_source(m.name(), out)?;
    put_structs(m, out)?;
    for f in 0..m.functions() {
        put_function(alloc, m, LLVMFunction(f), out)?;
    }
    Ok(())
}

/// Appends the text of a module of the form.
pub fn print_ll(alloc: Global, module: &LLVMModule, out: &mut Vec<u8>) -> Result<(), AllocError>
    requires form { IsForm (data_of «module».now) }
    requires names { HasDistinctNames (data_of «module».now) }
    requires few { HasFew (data_of «module».now) }
    ensures text { OnOk result (out.new.items ≡ out.old.items ++ module_text (data_of «module».now)) }
    ensures err { OnErr result (out.new.items ≡ out.old.items) }
    // What is printed is read again as what the data say.
    ensures spelled { OnOk result (Spells (module_text (data_of «module».now)) (data_of «module».now)) }
    // The last line of the text of a module with a name has an end.
    ensures lines { OnOk result («module».now.name ≢ [] → EndsLine (module_text (data_of «module».now))) }
{
    let len = out.len();
    let printed = put_module(alloc, module, out);
    undo_failed(printed, out, len)
}
