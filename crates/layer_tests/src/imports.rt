//! Two modules imported into one context: both are there, each with its own functions. And one with types that it does
//! not use and that are not translated.

ghost use Rattle.std.specs.Prelude.{◌<◌, ◌≤◌, IfSome, length};
ghost use Rattle.llvm_core.specs.Data.{data_of};
ghost use Rattle.llvm_core.specs.Form.{IsForm};
ghost use Rattle.dialect_core.specs.Data.{IsTyped};

use dialect_core::context::Context;
use dialect_core::numbers::ModuleOp;
use from_llvm_ir::importing::convert_module;
use kinds::types::OtherType;
use ll_text::read::read_ll;
use llvm_core::module::LLVMModule;
use llvm_core::types::LLVMTypeKind;
use std::alloc::Global;
use support::text::Text;

/// A module of one function.
const ONE: &str = "define i32 @f() {
entry:
  br label %exit
exit:
  ret i32 7
}
";

/// A module of two functions, of which one has the name of the other module's.
const TWO: &str = "define void @f() {
  ret void
}
define i8 @g(i8 %a) {
  ret i8 %a
}
";

/// The dialect text of the first.
const ONE_TEXT: &str = "builtin.module @_ {
  llvm.func @f : llvm.func <builtin.integer i32 () variadic = false> {linkage = ExternalLinkage} {
  ^0:entry():
    %0 = llvm.constant() {value = builtin.integer <7: i32>} : builtin.integer i32
    llvm.br()[^1()]
  ^1:exit():
    llvm.return(%0)
  }
}
";

/// The dialect text of the second.
const TWO_TEXT: &str = "builtin.module @_ {
  llvm.func @f : llvm.func <llvm.void () variadic = false> {linkage = ExternalLinkage} {
  ^0:entry():
    llvm.return()
  }
  llvm.func @g : llvm.func <builtin.integer i8 (builtin.integer i8) variadic = false> {linkage = ExternalLinkage} {
  ^0:entry(%0: builtin.integer i8):
    llvm.return(%0)
  }
}
";

/// Imports a module into a context that may hold others. None says that it is not taken.
fn import_into(alloc: Global, ctx: &mut Context, module: &LLVMModule) -> Option<ModuleOp>
    requires form { IsForm (data_of «module».now) }
    requires typed { IsTyped ctx.old }
    ensures typed { IsTyped ctx.new }
    ensures more { length ctx.old.ops ≤ length ctx.new.ops }
    ensures there { IfSome result (λ m. m.0.0 < length ctx.new.ops) }
{
    match convert_module(alloc, ctx, module) {
        Ok(imported) => Some(imported.module),
        Err(_error) => None,
    }
}

/// Imports the module of a text into a context. None says that it is not taken.
pub fn import_text(alloc: Global, ctx: &mut Context, text: &str) -> Option<ModuleOp>
    requires typed { IsTyped ctx.old }
    ensures typed { IsTyped ctx.new }
    ensures more { length ctx.old.ops ≤ length ctx.new.ops }
    ensures there { IfSome result (λ m. m.0.0 < length ctx.new.ops) }
{
    match read_ll(alloc, text.as_bytes()) {
        Ok(module) => import_into(alloc, ctx, &module),
        Err(_) => None,
    }
}

/// Whether a module of a context has this dialect text.
pub fn has_text(alloc: Global, ctx: &Context, root: ModuleOp, want: &str) -> bool
    requires there { root.0.0 < length ctx.now.ops }
    requires typed { IsTyped ctx.now }
{
    let mut text = Vec::new(alloc);
    match ctx.print_module(root, &mut text) {
        Ok(()) => text.as_slice() == want.as_bytes(),
        Err(_) => false,
    }
}

/// Whether two modules that are imported into one context are there, each as if it were alone.
fn are_both_there(alloc: Global, ctx: &mut Context) -> bool
    requires { IsTyped ctx.old }
{
    let Some(first) = import_text(alloc, ctx, ONE) else {
        return false;
    };
    let Some(second) = import_text(alloc, ctx, TWO) else {
        return false;
    };
    has_text(alloc, ctx, first, ONE_TEXT) && has_text(alloc, ctx, second, TWO_TEXT)
}

/// The same of an empty context.
fn takes_two_modules(alloc: Global) -> bool {
    let mut ctx = Context::new(alloc);
    are_both_there(alloc, &mut ctx)
}

/// Whether a module is there as ever that has types that are not translated, and no value of them.
fn is_there_with_unused(alloc: Global, ctx: &mut Context) -> bool
    requires { IsTyped ctx.old }
{
    let Ok(mut module) = read_ll(alloc, ONE.as_bytes()) else {
        return false;
    };
    if module
        .type_get(LLVMTypeKind::Other(OtherType::Token))
        .is_err()
    {
        return false;
    }
    let Ok(name) = Text::copy(alloc, "S") else {
        return false;
    };
    if module.type_get(LLVMTypeKind::Named(name)).is_err() {
        return false;
    }
    match import_into(alloc, ctx, &module) {
        Some(root) => has_text(alloc, ctx, root, ONE_TEXT),
        None => false,
    }
}

/// The same of an empty context.
fn takes_unused_type(alloc: Global) -> bool {
    let mut ctx = Context::new(alloc);
    is_there_with_unused(alloc, &mut ctx)
}

#[test]
fn a_type_of_no_value_is_taken(rt: HostRuntime) {
    assert!(rt; takes_unused_type(rt.alloc()));
}

#[test]
fn one_context_takes_two_modules(rt: HostRuntime) {
    assert!(rt; takes_two_modules(rt.alloc()));
}
