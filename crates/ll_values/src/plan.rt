//! Parts of functions and of instructions, as values: a line for each kind.

ghost use Rattle.std.specs.Prelude.{◌≡◌, Err, OnOk};
ghost use Rattle.ll_values.specs.declared.form.Kind.TheVariants as K;
ghost use Rattle.ll_values.specs.Stack.{IsStanding, Puts, MakesNothing};

use crate::form::{DetailKind, Kind};
use crate::put::put;
use crate::stack::Stack;
use crate::store::Store;
use crate::value::{Entry, Literal, Piece, Value};
use crate::value_err::ValueErr;
use crate::words::{align_said, space_of};
use kinds::op::OverflowFlags;
use ll_lines::lines::{Param, Said, Typed};
use llvm_core::module::LLVMModule;
use std::alloc::Global;

/// Parts of functions and of instructions.
#[rattlefmt::skip]
pub fn put_detail(alloc: Global, m: &LLVMModule, store: &Store, bytes: &[u8], kind: DetailKind, stack: &mut Stack) -> Result<(), ValueErr>
    requires standing { IsStanding m.now store.now stack.old }
    ensures puts { OnOk result (Puts bytes.now m.now m.now store.now store.now (K.Detail kind) stack.old stack.new) }
    ensures not_yet { result ≡ Err ValueErr.NotYet → MakesNothing bytes.now m.now store.now (K.Detail kind) stack.old }
{
    match kind {
        DetailKind::Local => match *stack.first(1) { [Value::Text(n)] => put(alloc, m, store, bytes, Kind::Detail(DetailKind::Local), stack, Value::Literal(Literal::Local(n))), _ => Err(ValueErr::NotYet) },
        DetailKind::Literal => match *stack.first(1) { [Value::Text(n)] => put(alloc, m, store, bytes, Kind::Detail(DetailKind::Literal), stack, Value::Literal(Literal::Const(n))), _ => Err(ValueErr::NotYet) },
        DetailKind::Null => put(alloc, m, store, bytes, Kind::Detail(DetailKind::Null), stack, Value::Literal(Literal::Null)),
        DetailKind::Chars => match *stack.first(1) { [Value::Text(n)] => put(alloc, m, store, bytes, Kind::Detail(DetailKind::Chars), stack, Value::Literal(Literal::Chars(n))), _ => Err(ValueErr::NotYet) },
        DetailKind::Splat => match *stack.first(1) { [Value::Typed(Typed { said: Said::Const(c), .. })] => put(alloc, m, store, bytes, Kind::Detail(DetailKind::Splat), stack, Value::Literal(Literal::Splat(c))), _ => Err(ValueErr::NotYet) },
        DetailKind::Nuw => match *stack.first(1) { [Value::Flag(nsw)] => put(alloc, m, store, bytes, Kind::Detail(DetailKind::Nuw), stack, Value::Wraps(OverflowFlags { nuw: true, nsw })), _ => Err(ValueErr::NotYet) },
        DetailKind::Nsw => put(alloc, m, store, bytes, Kind::Detail(DetailKind::Nsw), stack, Value::Wraps(OverflowFlags { nuw: false, nsw: true })),
        DetailKind::NoWraps => put(alloc, m, store, bytes, Kind::Detail(DetailKind::NoWraps), stack, Value::Wraps(OverflowFlags { nuw: false, nsw: false })),
        DetailKind::Space => match *stack.first(1) {
            [Value::Text(n)] => match space_of(n.text(bytes)) { Some(space) => put(alloc, m, store, bytes, Kind::Detail(DetailKind::Space), stack, Value::Space(space)), None => Err(ValueErr::NotYet) },
            _ => Err(ValueErr::NotYet),
        },
        DetailKind::Entry => match *stack.first(2) { [Value::Literal(literal), Value::Text(block)] => put(alloc, m, store, bytes, Kind::Detail(DetailKind::Entry), stack, Value::Entry(Entry { literal, block })), _ => Err(ValueErr::NotYet) },
        DetailKind::Inst => match *stack.first(2) { [Value::Inst(n), Value::Nothing] => put(alloc, m, store, bytes, Kind::Detail(DetailKind::Inst), stack, Value::Inst(n)), _ => Err(ValueErr::NotYet) },
        DetailKind::Named => match *stack.first(2) { [Value::Text(name), Value::Inst(n)] => put(alloc, m, store, bytes, Kind::Detail(DetailKind::Named), stack, Value::Part(Piece::Does(Some(name), n))), _ => Err(ValueErr::NotYet) },
        DetailKind::Bare => match *stack.first(1) { [Value::Inst(n)] => put(alloc, m, store, bytes, Kind::Detail(DetailKind::Bare), stack, Value::Part(Piece::Does(None, n))), _ => Err(ValueErr::NotYet) },
        DetailKind::Label => match *stack.first(1) { [Value::Text(n)] => put(alloc, m, store, bytes, Kind::Detail(DetailKind::Label), stack, Value::Part(Piece::Label(n))), _ => Err(ValueErr::NotYet) },
        DetailKind::Param => match *stack.first(3) {
            [Value::Type(ty), Value::Nothing, Value::Nothing] => put(alloc, m, store, bytes, Kind::Detail(DetailKind::Param), stack, Value::Param(Param { ty, name: None })),
            [Value::Type(ty), Value::Nothing, Value::Text(name)] => put(alloc, m, store, bytes, Kind::Detail(DetailKind::Param), stack, Value::Param(Param { ty, name: Some(name) })),
            _ => Err(ValueErr::NotYet),
        },
        DetailKind::Source => match *stack.first(1) { [Value::Text(n)] => put(alloc, m, store, bytes, Kind::Detail(DetailKind::Source), stack, Value::Source(n)), _ => Err(ValueErr::NotYet) },
        DetailKind::Opaque => put(alloc, m, store, bytes, Kind::Detail(DetailKind::Opaque), stack, Value::Fields(None)),
        DetailKind::External => match *stack.first(1) { [Value::Text(_)] => put(alloc, m, store, bytes, Kind::Detail(DetailKind::External), stack, Value::Nothing), _ => Err(ValueErr::NotYet) },
        DetailKind::NoAlign => put(alloc, m, store, bytes, Kind::Detail(DetailKind::NoAlign), stack, Value::Align(None)),
        DetailKind::Align => match *stack.first(2) {
            [Value::Text(n), Value::Nothing] => match align_said(n.text(bytes)) { Some(align) => put(alloc, m, store, bytes, Kind::Detail(DetailKind::Align), stack, Value::Align(Some(align))), None => Err(ValueErr::NotYet) },
            _ => Err(ValueErr::NotYet),
        },
    }
}
