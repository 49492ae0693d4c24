//! Files, item by item from the last.

ghost use Rattle.std.specs.Prelude.{◌≡◌, [], ◌∷◌, take, None, Err, OnOk, OnErr};
ghost use Rattle.ll_values.specs.declared.form.Kind.TheVariants as K;
ghost use Rattle.ll_values.specs.declared.form.ListKind.TheVariants as L;
ghost use Rattle.ll_values.specs.declared.value.Value.TheVariants as V;
ghost use Rattle.ll_values.specs.Stack.{IsStanding, Puts, MakesNothing};

use crate::form::{Kind, ListKind};
use crate::keep::{keep_functions, keep_structs};
use crate::put::put;
use crate::stack::Stack;
use crate::store::Store;
use crate::value::{Definition, Structure, Value};
use crate::value_err::ValueErr;
use llvm_core::module::LLVMModule;
use std::alloc::Global;

/// A file in place of a struct and of the rest, which has no name.
#[rattlefmt::skip]
fn put_struct(alloc: Global, m: &LLVMModule, store: &mut Store, bytes: &[u8], stack: &mut Stack, first: Structure, rest: u32, functions: u32) -> Result<(), ValueErr>
    requires standing { IsStanding m.now store.old stack.old }
    requires parts { take 2 stack.old ≡ V.Struct first ∷ V.File None rest functions ∷ [] }
    ensures puts { OnOk result (Puts bytes.now m.now m.now store.old store.new (K.List L.FileMore) stack.old stack.new) }
    ensures memory { OnErr result (result ≡ Err ValueErr.NoMemory) }
{
    let number = keep_structs(m, store, bytes, first, rest, functions)?;
    stack.replace(alloc, 2, Value::File(None, number, functions))?;
    Ok(())
}

/// A file in place of a function and of the rest, which has no name.
#[rattlefmt::skip]
fn put_function(alloc: Global, m: &LLVMModule, store: &mut Store, bytes: &[u8], stack: &mut Stack, first: Definition, structs: u32, rest: u32) -> Result<(), ValueErr>
    requires standing { IsStanding m.now store.old stack.old }
    requires parts { take 2 stack.old ≡ V.Function first ∷ V.File None structs rest ∷ [] }
    ensures puts { OnOk result (Puts bytes.now m.now m.now store.old store.new (K.List L.FileMore) stack.old stack.new) }
    ensures memory { OnErr result (result ≡ Err ValueErr.NoMemory) }
{
    let number = keep_functions(m, store, bytes, first, structs, rest)?;
    stack.replace(alloc, 2, Value::File(None, structs, number))?;
    Ok(())
}

/// A file in place of a name, a struct or a function and of the rest, which has no name.
#[rattlefmt::skip]
pub fn put_file(alloc: Global, m: &LLVMModule, store: &mut Store, bytes: &[u8], stack: &mut Stack) -> Result<(), ValueErr>
    requires standing { IsStanding m.now store.old stack.old }
    ensures puts { OnOk result (Puts bytes.now m.now m.now store.old store.new (K.List L.FileMore) stack.old stack.new) }
    ensures not_yet { result ≡ Err ValueErr.NotYet → MakesNothing bytes.now m.now store.old (K.List L.FileMore) stack.old }
{
    match *stack.first(2) {
        [Value::Source(name), Value::File(None, structs, functions)] => put(alloc, m, store, bytes, Kind::List(ListKind::FileMore), stack, Value::File(Some(name), structs, functions)),
        [Value::Struct(first), Value::File(None, rest, functions)] => put_struct(alloc, m, store, bytes, stack, first, rest, functions),
        [Value::Function(first), Value::File(None, structs, rest)] => put_function(alloc, m, store, bytes, stack, first, structs, rest),
        _ => Err(ValueErr::NotYet),
    }
}
