//! Lists, and what holds them: a line for each kind.

ghost use Rattle.std.specs.Prelude.{◌≡◌, ℕ, List, [], ◌∷◌, map, None, Err, IfSome, OnOk};
ghost use Rattle.llvm_core.specs.Data.{Trees};
ghost use Rattle.ll_values.specs.declared.form.Kind.TheVariants as K;
ghost use Rattle.ll_values.specs.declared.form.ListKind.TheVariants as L;
ghost use Rattle.ll_values.specs.declared.value.Value.TheVariants as V;
ghost use Rattle.ll_values.specs.declared.store.Store.{Store};
ghost use Rattle.ll_values.specs.Values.{list_by};
ghost use Rattle.ll_values.specs.Views.{value_view};
ghost use Rattle.ll_values.specs.Stack.{IsStanding, Puts, MakesNothing};

use crate::elements::{put_braced, put_more};
use crate::files::put_file;
use crate::form::{Kind, ListKind};
use crate::keep::{keep_body, keep_entries, keep_params, keep_types};
use crate::put::put;
use crate::stack::Stack;
use crate::store::Store;
use crate::value::{Definition, Head, Literal, Structure, Value};
use crate::value_err::ValueErr;
use kinds::types::StructLayout;
use ll_lines::lines::Brackets;
use llvm_core::module::LLVMModule;
use std::alloc::Global;

/// What stands before the body of a function, where these are its parts.
fn head_of(parts: &[Value]) -> Option<Head>
    ensures parts { IfSome result (λ h. parts.now ≡ V.Nothing ∷ V.Nothing ∷ V.Type h.result ∷ V.Text h.name ∷ V.Params h.params ∷ []) }
    ensures none { result ≡ None → (bytes : List ℕ) (t : Trees) (s : Store) → list_by L.Head (map (value_view bytes t s) parts.now) ≡ None }
{
    match *parts {
        [
            Value::Nothing,
            Value::Nothing,
            Value::Type(result),
            Value::Text(name),
            Value::Params(params),
        ] => {
            Some(Head {
                result,
                name,
                params,
            })
        }
        _ => None,
    }
}

/// A function, where these are its parts.
fn definition_of(parts: &[Value]) -> Option<Definition>
    ensures parts { IfSome result (λ d. parts.now ≡ V.Nothing ∷ V.Head d.head ∷ V.Nothing ∷ V.Nothing ∷ V.Body d.body ∷ []) }
    ensures none { result ≡ None → (bytes : List ℕ) (t : Trees) (s : Store) → list_by L.Define (map (value_view bytes t s) parts.now) ≡ None }
{
    match *parts {
        [
            Value::Nothing,
            Value::Head(head),
            Value::Nothing,
            Value::Nothing,
            Value::Body(body),
        ] => { Some(Definition { head, body }) }
        _ => None,
    }
}

/// Lists, and what holds them, each put in place of the parts that it is made of.
#[rattlefmt::skip]
pub fn put_list(alloc: Global, m: &LLVMModule, store: &mut Store, bytes: &[u8], kind: ListKind, stack: &mut Stack) -> Result<(), ValueErr>
    requires standing { IsStanding m.now store.old stack.old }
    ensures puts { OnOk result (Puts bytes.now m.now m.now store.old store.new (K.List kind) stack.old stack.new) }
    ensures not_yet { result ≡ Err ValueErr.NotYet → MakesNothing bytes.now m.now store.old (K.List kind) stack.old }
{
    match kind {
        ListKind::EntriesEnd => put(alloc, m, store, bytes, Kind::List(ListKind::EntriesEnd), stack, Value::Entries(0)),
        ListKind::EntriesMore => match *stack.first(2) {
            [Value::Entry(first), Value::Entries(rest)] => {
                let number = keep_entries(m, store, bytes, first, rest)?;
                stack.replace(alloc, 2, Value::Entries(number))?;
                Ok(())
            }
            _ => Err(ValueErr::NotYet),
        },
        ListKind::BodyEnd => put(alloc, m, store, bytes, Kind::List(ListKind::BodyEnd), stack, Value::Body(0)),
        ListKind::BodyMore => match *stack.first(2) {
            [Value::Part(first), Value::Body(rest)] => {
                let number = keep_body(m, store, bytes, first, rest)?;
                stack.replace(alloc, 2, Value::Body(number))?;
                Ok(())
            }
            _ => Err(ValueErr::NotYet),
        },
        ListKind::TypesEnd => put(alloc, m, store, bytes, Kind::List(ListKind::TypesEnd), stack, Value::Types(0)),
        ListKind::TypesMore => match *stack.first(2) {
            [Value::Type(first), Value::Types(rest)] => {
                let number = keep_types(m, store, bytes, first, rest)?;
                stack.replace(alloc, 2, Value::Types(number))?;
                Ok(())
            }
            _ => Err(ValueErr::NotYet),
        },
        ListKind::ConstsEnd => put(alloc, m, store, bytes, Kind::List(ListKind::ConstsEnd), stack, Value::Consts(0)),
        ListKind::ConstsMore => put_more(alloc, m, store, bytes, stack),
        ListKind::InArray => match *stack.first(1) {
            [Value::Consts(n)] => put(alloc, m, store, bytes, Kind::List(ListKind::InArray), stack, Value::Literal(Literal::Listed(Brackets::Array, n))),
            _ => Err(ValueErr::NotYet),
        },
        ListKind::InStruct => match *stack.first(1) {
            [Value::Consts(n)] => put(alloc, m, store, bytes, Kind::List(ListKind::InStruct), stack, Value::Literal(Literal::Listed(Brackets::Struct(StructLayout::Unpacked), n))),
            _ => Err(ValueErr::NotYet),
        },
        ListKind::NonePacked => put(alloc, m, store, bytes, Kind::List(ListKind::NonePacked), stack, Value::Literal(Literal::Listed(Brackets::Struct(StructLayout::Packed), 0))),
        ListKind::Braced => put_braced(alloc, m, store, bytes, stack),
        ListKind::ParamsEnd => put(alloc, m, store, bytes, Kind::List(ListKind::ParamsEnd), stack, Value::Params(0)),
        ListKind::ParamsMore => match *stack.first(2) {
            [Value::Param(first), Value::Params(rest)] => {
                let number = keep_params(m, store, bytes, first, rest)?;
                stack.replace(alloc, 2, Value::Params(number))?;
                Ok(())
            }
            _ => Err(ValueErr::NotYet),
        },
        ListKind::Parameters => match *stack.first(3) {
            [Value::Params(n), Value::Nothing, Value::Nothing] => put(alloc, m, store, bytes, Kind::List(ListKind::Parameters), stack, Value::Params(n)),
            _ => Err(ValueErr::NotYet),
        },
        ListKind::Head => match head_of(stack.first(5)) {
            Some(head) => put(alloc, m, store, bytes, Kind::List(ListKind::Head), stack, Value::Head(head)),
            None => Err(ValueErr::NotYet),
        },
        ListKind::Define => match definition_of(stack.first(5)) {
            Some(definition) => put(alloc, m, store, bytes, Kind::List(ListKind::Define), stack, Value::Function(definition)),
            None => Err(ValueErr::NotYet),
        },
        ListKind::Structure => match *stack.first(2) {
            [Value::Text(name), Value::Fields(body)] => put(alloc, m, store, bytes, Kind::List(ListKind::Structure), stack, Value::Struct(Structure { name, body })),
            _ => Err(ValueErr::NotYet),
        },
        ListKind::FileEnd => put(alloc, m, store, bytes, Kind::List(ListKind::FileEnd), stack, Value::File(None, 0, 0)),
        ListKind::FileMore => put_file(alloc, m, store, bytes, stack),
    }
}
