//! Elements of constants, and those between brackets of which the first is written apart from its type.

ghost use Rattle.std.specs.Prelude.{◌≡◌, ◌≤◌, Some, None, Err, IfOk, OnOk, length};
ghost use Rattle.llvm_core.specs.Data.{trees_of, type_at};
ghost use Rattle.ll_lines.specs.Views.{IsTypeIn};
ghost use Rattle.ll_values.specs.declared.form.Kind.TheVariants as K;
ghost use Rattle.ll_values.specs.declared.form.ListKind.TheVariants as E;
ghost use Rattle.ll_values.specs.declared.form.TypedKind.TheVariants as T;
ghost use Rattle.ll_values.specs.Values.{listed_from};
ghost use Rattle.ll_values.specs.Views.{consts_at, literal_view, IsLiteralIn, IsStoreIn};
ghost use Rattle.ll_values.specs.Growing.{SaysList};
ghost use Rattle.ll_values.specs.Stack.{IsStanding, Puts, MakesNothing};

use crate::form::{Kind, ListKind};
use crate::keep::keep_consts;
use crate::put::put;
use crate::said::said;
use crate::stack::Stack;
use crate::store::Store;
use crate::value::{Literal, Value};
use crate::value_err::ValueErr;
use kinds::types::StructLayout;
use ll_lines::lines::{Brackets, Said};
use llvm_core::module::LLVMModule;
use llvm_core::numbers::LLVMType;
use std::alloc::Global;

/// Constants in place of the first of them, a constant, and the others.
#[rattlefmt::skip]
pub fn put_more(alloc: Global, m: &LLVMModule, store: &mut Store, bytes: &[u8], stack: &mut Stack) -> Result<(), ValueErr>
    requires standing { IsStanding m.now store.old stack.old }
    ensures puts { OnOk result (Puts bytes.now m.now m.now store.old store.new (K.List E.ConstsMore) stack.old stack.new) }
    ensures not_yet { result ≡ Err ValueErr.NotYet → MakesNothing bytes.now m.now store.old (K.List E.ConstsMore) stack.old }
{
    match *stack.first(2) {
        [Value::Typed(x), Value::Consts(rest)] => match x.said {
            Said::Const(first) => {
                let number = keep_consts(m, store, bytes, first, rest)?;
                stack.replace(alloc, 2, Value::Consts(number))?;
                Ok(())
            }
            Said::Local(_) => Err(ValueErr::NotYet),
        },
        _ => Err(ValueErr::NotYet),
    }
}

/// A literal whose type stands before it, and the constants behind it, in place of both.
#[rattlefmt::skip]
pub fn put_braced(alloc: Global, m: &LLVMModule, store: &Store, bytes: &[u8], stack: &mut Stack) -> Result<(), ValueErr>
    requires standing { IsStanding m.now store.now stack.old }
    ensures puts { OnOk result (Puts bytes.now m.now m.now store.now store.now (K.List E.Braced) stack.old stack.new) }
    ensures not_yet { result ≡ Err ValueErr.NotYet → MakesNothing bytes.now m.now store.now (K.List E.Braced) stack.old }
{
    match *stack.first(2) {
        [Value::Literal(first), Value::Consts(rest)] => put(alloc, m, store, bytes, Kind::List(ListKind::Braced), stack, Value::Braced(first, rest)),
        _ => Err(ValueErr::NotYet),
    }
}

/// A literal at a type, and the constants behind it.
#[rattlefmt::skip]
fn make_list(alloc: Global, m: &mut LLVMModule, store: &mut Store, bytes: &[u8], brackets: Brackets, ty: LLVMType, first: Literal, rest: u32) -> Result<Literal, ValueErr>
    requires store { IsStoreIn m.old store.old }
    requires there { IsTypeIn m.old ty }
    requires first { IsLiteralIn m.old store.old first }
    requires rest { rest ≤ length store.old.consts }
    ensures says { IfOk result (SaysList bytes.now m.old m.new store.old store.new (listed_from brackets (type_at (trees_of m.old).types ty) (literal_view bytes.now (trees_of m.old) store.old first) (consts_at bytes.now (trees_of m.old) store.old rest))) }
    ensures not_yet { result ≡ Err ValueErr.NotYet → listed_from brackets (type_at (trees_of m.old).types ty) (literal_view bytes.now (trees_of m.old) store.old first) (consts_at bytes.now (trees_of m.old) store.old rest) ≡ None }
{
    match said(alloc, m, store, bytes, ty, first) {
        Ok(Said::Const(c)) => {
            let number = keep_consts(m, store, bytes, c, rest)?;
            Ok(Literal::Listed(brackets, number))
        }
        Ok(Said::Local(_)) => Err(ValueErr::NotYet),
        Err(e) => Err(e),
    }
}

/// The elements of a vector in place of a type, a literal and the constants behind it.
#[rattlefmt::skip]
pub fn put_vector(alloc: Global, m: &mut LLVMModule, store: &mut Store, bytes: &[u8], stack: &mut Stack) -> Result<(), ValueErr>
    requires standing { IsStanding m.old store.old stack.old }
    ensures puts { OnOk result (Puts bytes.now m.old m.new store.old store.new (K.Typed T.InVector) stack.old stack.new) }
    ensures not_yet { result ≡ Err ValueErr.NotYet → MakesNothing bytes.now m.old store.old (K.Typed T.InVector) stack.old }
{
    match *stack.first(3) {
        [Value::Type(ty), Value::Literal(first), Value::Consts(rest)] => {
            let list = make_list(alloc, m, store, bytes, Brackets::Vector, ty, first, rest)?;
            stack.replace(alloc, 3, Value::Literal(list))?;
            Ok(())
        }
        _ => Err(ValueErr::NotYet),
    }
}

/// The elements of a packed struct in place of a type, and of a literal with the constants behind it.
#[rattlefmt::skip]
pub fn put_packed(alloc: Global, m: &mut LLVMModule, store: &mut Store, bytes: &[u8], stack: &mut Stack) -> Result<(), ValueErr>
    requires standing { IsStanding m.old store.old stack.old }
    ensures puts { OnOk result (Puts bytes.now m.old m.new store.old store.new (K.Typed T.InPacked) stack.old stack.new) }
    ensures not_yet { result ≡ Err ValueErr.NotYet → MakesNothing bytes.now m.old store.old (K.Typed T.InPacked) stack.old }
{
    match *stack.first(2) {
        [Value::Type(ty), Value::Braced(first, rest)] => {
            let list = make_list(alloc, m, store, bytes, Brackets::Struct(StructLayout::Packed), ty, first, rest)?;
            stack.replace(alloc, 2, Value::Literal(list))?;
            Ok(())
        }
        _ => Err(ValueErr::NotYet),
    }
}
