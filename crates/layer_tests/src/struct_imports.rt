//! Imports of values of structs with a name: modules imported into one context in turn, the names that structs get and where
//! they then stand, and an export of a context that has the struct of another module.

ghost use Rattle.std.specs.Prelude.{◌<◌, length};
ghost use Rattle.llvm_core.specs.Checked.{IsChecked};
ghost use Rattle.llvm_core.specs.Data.{data_of};
ghost use Rattle.llvm_core.specs.Form.{IsForm};
ghost use Rattle.dialect_core.specs.Data.{IsTyped};
ghost use Rattle.to_llvm_ir.specs.Held.{IsReadable};

use crate::imports::{has_text, import_text};
use crate::struct_stores::has_lines;
use crate::structs::is_printed;
use dialect_core::context::Context;
use dialect_core::numbers::ModuleOp;
use dialect_types::identifier::Identifier;
use dialect_types::struct_err::StructErr;
use from_consts::conversion_err::ConversionErr;
use from_llvm_ir::importing::{Imported, convert_module as import};
use ll_text::read::read_ll;
use llvm_core::module::LLVMModule;
use llvm_core::numbers::LLVMStruct;
use std::alloc::Global;
use to_llvm_ir::exporting::convert_module as export;
use to_llvm_ir::readable::is_readable;
use transfer::transferred::Transferred;
use transfer::transferring::transfer;

// ---- modules into one context

/// Texts, imported into one context in turn, each with the identifier that is refused, empty where it is taken; and the lines of
/// the structs that the context then has.
type Row = (&'static [(&'static str, &'static str)], &'static str);

const ROWS: &[Row] = &[
    // another field
    (
        &[
            ("%S = type { i32 } define void @f(%S %a) { ret void }", ""),
            ("%S = type { i64 } define void @f(%S %a) { ret void }", "S"),
        ],
        "  llvm.struct @S = {builtin.integer i32}\n",
    ),
    // the same body
    (
        &[
            ("%S = type { i32 } define void @f(%S %a) { ret void }", ""),
            (
                "define { %S, i8 } @g(i8) { unreachable } %S = type { i32 }",
                "",
            ),
        ],
        "  llvm.struct @S = {builtin.integer i32}\n",
    ),
    // what is refused leaves the struct as it was
    (
        &[
            ("%S = type { i32 } define %S @f(%S %a) { ret %S %a }", ""),
            ("%S = type opaque define %S @f(%S %a) { ret %S %a }", "S"),
            ("%S = type { i32 } define %S @f(%S %a) { ret %S %a }", ""),
        ],
        "  llvm.struct @S = {builtin.integer i32}\n",
    ),
    // without fields: not told, none, and none packed
    (
        &[
            ("%S = type opaque define void @f(%S %a) { ret void }", ""),
            ("%S = type {} define void @f(%S %a) { ret void }", "S"),
            ("%T = type {} define void @f(%T %a) { ret void }", ""),
            ("%T = type <{}> define void @f(%T %a) { ret void }", "T"),
        ],
        "  llvm.struct @S = opaque\n  llvm.struct @T = {}\n",
    ),
    // names that ask for one identifier
    (
        &[
            (
                "%\"a.b\" = type { i8 } define void @f(%\"a.b\" %a) { ret void }",
                "",
            ),
            (
                "%\"a-b\" = type { i8 } define void @f(%\"a-b\" %a) { ret void }",
                "",
            ),
            (
                "%a_b = type { i8, i8 } define void @f(%a_b %a) { ret void }",
                "a_b",
            ),
        ],
        "  llvm.struct @a_b = {builtin.integer i8}\n",
    ),
    // a field that is another struct: those in it are made first
    (
        &[
            (
                "%S = type { %T } %T = type { i8 } define void @f(%S %a) { ret void }",
                "",
            ),
            (
                "%S = type { %U } %U = type { i8 } define void @f(%S %a) { ret void }",
                "S",
            ),
        ],
        "  llvm.struct @T = {builtin.integer i8}
  llvm.struct @S = {llvm.struct <@T>}
  llvm.struct @U = {builtin.integer i8}
",
    ),
    // a struct that no value holds
    (
        &[
            (
                "%S = type { i32 } %T = type { %S, %S } define void @f(%S %a) { ret void }",
                "",
            ),
            (
                "%S = type { i64 } %T = type {} define void @f(%T %a) { ret void }",
                "",
            ),
        ],
        "  llvm.struct @S = {builtin.integer i32}\n  llvm.struct @T = {}\n",
    ),
];

/// Whether this is what an import answers: the identifier of the struct that is refused, or nothing.
fn is_answer(answer: Result<Imported, ConversionErr>, want: &str) -> bool {
    match answer {
        Ok(_imported) => want.is_empty(),
        Err(ConversionErr::Struct(StructErr::DifferentBody(name))) => name.as_str() == want,
        Err(_error) => false,
    }
}

/// Whether the import of a text into a context answers this.
fn answers(alloc: Global, ctx: &mut Context, text: &str, want: &str) -> bool {
    match read_ll(alloc, text.as_bytes()) {
        Ok(module) => is_answer(import(alloc, ctx, &module), want),
        Err(_) => false,
    }
}

/// Whether the imports of texts into a context answer these in turn.
fn all_answer(alloc: Global, ctx: &mut Context, texts: &[(&str, &str)]) -> bool {
    for (text, want) in texts {
        if !answers(alloc, ctx, text, want) {
            return false;
        }
    }
    true
}

/// What is wrong with the imports of a row into a context, if anything.
fn fault_in(alloc: Global, ctx: &mut Context, row: &Row) -> &'static str {
    if !all_answer(alloc, ctx, row.0) {
        "an answer"
    } else if !has_lines(alloc, ctx.types(), row.1) {
        "the structs"
    } else {
        ""
    }
}

/// The same of an empty context.
fn fault(alloc: Global, row: &Row) -> &'static str {
    let mut ctx = Context::new(alloc);
    fault_in(alloc, &mut ctx, row)
}

/// The number of the first row of which something is wrong, and what that is.
fn first_fault(alloc: Global, rows: &[Row]) -> (usize, &'static str) {
    for (i, row) in rows.iter().enumerate() {
        let fault = fault(alloc, row);
        if !fault.is_empty() {
            return (i, fault);
        }
    }
    (rows.len(), "")
}

#[test]
fn one_context_has_one_struct_of_a_name(rt: HostRuntime) {
    let (row, fault) = first_fault(rt.alloc(), ROWS);
    assert!(rt; fault.is_empty(), "{fault} of row {row}");
}

// ---- names

/// Structs whose names need others, one named as the function is, and one that no value holds.
const NAMED: &str = "%\"a b\" = type { i8, [2 x %0] }
%unheld = type { ptr }
%f = type opaque
%0 = type <{ i32 }>
%_0 = type {}
define %_0 @f(%\"a b\" %x, %f %y) {
  unreachable
}
";

/// The names that are matched, in the order of the source. `_0` was met as the identifier of `0` first.
const PAIRS: &[(&str, &str)] = &[("a b", "a_b"), ("f", "f"), ("0", "_0"), ("_0", "_0_1")];

/// The dialect text, with the structs in the order in which values hold them, each behind those in it.
const NAMED_DIALECT: &str = "builtin.module @_ {
  llvm.struct @_0_1 = {}
  llvm.struct @_0 = packed {builtin.integer i32}
  llvm.struct @a_b = {builtin.integer i8, llvm.array [2 x llvm.struct <@_0>]}
  llvm.struct @f = opaque
  llvm.func @f : llvm.func <llvm.struct <@_0_1> (llvm.struct <@a_b>, llvm.struct <@f>) variadic = false> {linkage = ExternalLinkage} {
  ^0:entry(%0: llvm.struct <@a_b>, %1: llvm.struct <@f>):
    llvm.unreachable()
  }
}
";

/// The module back.
const NAMED_BACK: &str = "source_filename = \"_\"

%_0_1 = type {}
%_0 = type <{ i32 }>
%a_b = type { i8, [2 x %_0] }
%f = type opaque

define %_0_1 @f(%a_b %0, %f %1) {
entry_block0:
  unreachable
}
";

/// Whether these are the names that are matched.
fn are_pairs(structs: &[(String, Identifier)], want: &[(&str, &str)]) -> bool {
    for (pair, (name, identifier)) in structs.iter().zip(want.iter()) {
        if pair.0.as_str() != *name || pair.1.as_str() != *identifier {
            return false;
        }
    }
    structs.len() == want.len()
}

/// What is wrong with what the module became, if anything.
fn named_fault_in(alloc: Global, made: &Transferred) -> &'static str
    requires readable { IsReadable made.now.ctx made.now.dialect.0.0 }
    requires form { IsForm (data_of made.now.back) }
    requires checked { IsChecked made.now.back }
{
    if !are_pairs(made.structs.as_slice(), PAIRS) {
        "the names"
    } else if !has_text(alloc, &made.ctx, made.dialect, NAMED_DIALECT) {
        "the dialect"
    } else if !is_printed(alloc, &made.back, NAMED_BACK) {
        "the module back"
    } else {
        ""
    }
}

/// What is wrong with what a module becomes, if anything.
fn transfer_fault(alloc: Global, module: &LLVMModule) -> &'static str
    requires form { IsForm (data_of «module».now) }
    requires checked { IsChecked «module».now }
{
    match transfer(alloc, module) {
        Ok(made) => named_fault_in(alloc, &made),
        Err(_) => "not taken",
    }
}

/// What is wrong with what becomes of the module of those structs, if anything.
fn named_fault(alloc: Global) -> &'static str {
    match read_ll(alloc, NAMED.as_bytes()) {
        Ok(module) => transfer_fault(alloc, &module),
        Err(_) => "not read",
    }
}

#[test]
fn structs_get_identifiers(rt: HostRuntime) {
    assert_eq!(rt; named_fault(rt.alloc()), "");
}

// ---- the struct of another module

/// A module with a struct, and one with another.
const ONE: &str = "%S = type { %S.1 } %S.1 = type { ptr } define void @f(%S %a) { ret void }";

const OTHER: &str = "%T = type opaque define void @g(%T %a) { ret void }";

/// The dialect text of the second in the context of both: a module is printed with all structs of its context.
const OTHER_DIALECT: &str = "builtin.module @_ {
  llvm.struct @S_1 = {llvm.ptr (0)}
  llvm.struct @S = {llvm.struct <@S_1>}
  llvm.struct @T = opaque
  llvm.func @g : llvm.func <llvm.void (llvm.struct <@T>) variadic = false> {linkage = ExternalLinkage} {
  ^0:entry(%0: llvm.struct <@T>):
    llvm.return()
  }
}
";

/// Whether these are the names of the structs of a module.
fn are_structs(m: &LLVMModule, want: &[&str]) -> bool {
    let mut place = 0;
    for s in 0..m.structs() {
        if want.get(place).copied() != Some(m.struct_name(LLVMStruct(s))) {
            return false;
        }
        place += 1;
    }
    place == want.len()
}

/// Whether the export of a module has structs of these names.
fn export_has(alloc: Global, ctx: &Context, root: ModuleOp, want: &[&str]) -> bool
    requires typed { IsTyped ctx.now }
    requires there { root.0.0 < length ctx.now.ops }
{
    if !is_readable(ctx, root) {
        return false;
    }
    match export(alloc, ctx, root) {
        Ok(exported) => are_structs(&exported.module, want),
        Err(_) => false,
    }
}

/// What is wrong with two modules in one context, if anything.
fn other_fault_in(alloc: Global, ctx: &mut Context) -> &'static str
    requires { IsTyped ctx.old }
{
    if import_text(alloc, ctx, ONE).is_none() {
        return "the first";
    }
    let Some(second) = import_text(alloc, ctx, OTHER) else {
        return "the second";
    };
    if !has_text(alloc, ctx, second, OTHER_DIALECT) {
        "the dialect"
    } else if !export_has(alloc, ctx, second, &["S_1", "S", "T"]) {
        "the export"
    } else {
        ""
    }
}

/// The same of an empty context.
fn other_fault(alloc: Global) -> &'static str {
    let mut ctx = Context::new(alloc);
    other_fault_in(alloc, &mut ctx)
}

#[test]
fn an_export_has_the_structs_of_the_context(rt: HostRuntime) {
    assert_eq!(rt; other_fault(rt.alloc()), "");
}
