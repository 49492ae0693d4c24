//! Values from events, from the last event to the first, over a stack, so that nesting costs no stack of the machine.

ghost use Rattle.std.specs.Prelude.{◌≡◌, reverse, slice_get, OnOk, IfOk, Err, None, Some};
ghost use Rattle.std.specs.Option.{option_map};
ghost use Rattle.ll_values.specs.Folding.{kind_at, make};
ghost use Rattle.ll_values.specs.Views.{IsStoreIn};
ghost use Rattle.ll_values.specs.Stack.{IsStanding, over, name_of, step_of, fold_of};
ghost use Rattle.ll_values.specs.Growing.{Interns};

use crate::form::Kind;
use crate::listed::put_list;
use crate::plan::put_detail;
use crate::row::put_row;
use crate::stack::Stack;
use crate::store::Store;
use crate::typed::put_typed;
use crate::value::Value;
use crate::value_err::ValueErr;
use grammars::packed_event::PackedEvent;
use grammars::symbols::Event;
use ll_lines::names::Name;
use ll_tokens::tokens::Token;
use llvm_core::module::LLVMModule;
use std::alloc::Global;

/// What is read and stays: the kinds of alternatives, the text, and its tokens.
#[derive(Clone, Copy)]
pub struct Source<'a> {
    pub kinds: &'a [Kind],
    pub bytes: &'a [u8],
    pub tokens: &'a [Token],
}

/// The name of the token at a place.
fn name_at(tokens: &[Token], at: u32) -> Option<Name>
    ensures { result ≡ option_map name_of (slice_get tokens.now at) }
{
    match tokens.get(at as usize) {
        Some(token) => Some(Name {
            start: token.start,
            end: token.end,
        }),
        None => None,
    }
}

/// The kind of the alternative of that number.
fn kind_of(kinds: &[Kind], alternative: u16) -> Kind
    ensures { result ≡ kind_at kinds.now alternative }
{
    match kinds.get(alternative as usize) {
        Some(&kind) => kind,
        None => Kind::Outside,
    }
}

/// Does an alternative of that kind to the values behind it. What says the same as its part leaves the stack as it is.
fn apply(
    alloc: Global,
    m: &mut LLVMModule,
    store: &mut Store,
    source: &Source<'_>,
    stack: &mut Stack,
    kind: Kind,
) -> Result<(), ValueErr>
    requires standing { IsStanding m.old store.old stack.old }
    ensures standing { OnOk result (IsStanding m.new store.new stack.new) }
    ensures interns { OnOk result (Interns m.old m.new) }
    ensures done { OnOk result (make kind (over source.now m.old store.old stack.old) ≡ Some (over source.now m.new store.new stack.new)) }
    ensures not_yet { result ≡ Err ValueErr.NotYet → make kind (over source.now m.old store.old stack.old) ≡ None }
{
    match kind {
        Kind::Same => {
            if stack.is_empty() {
                return Err(ValueErr::NotYet);
            }
            Ok(())
        }
        Kind::Nothing => {
            stack.push(alloc, Value::Nothing)?;
            Ok(())
        }
        Kind::Yes => {
            stack.push(alloc, Value::Flag(true))?;
            Ok(())
        }
        Kind::No => {
            stack.push(alloc, Value::Flag(false))?;
            Ok(())
        }
        Kind::Outside => Err(ValueErr::NotYet),
        Kind::Detail(kind) => put_detail(alloc, m, store, source.bytes, kind, stack),
        Kind::Row(kind) => put_row(alloc, m, store, source.bytes, kind, stack),
        Kind::List(kind) => put_list(alloc, m, store, source.bytes, kind, stack),
        Kind::Typed(kind) => put_typed(alloc, m, store, source.bytes, kind, stack),
    }
}

/// Does an event to the values behind it.
fn step(
    alloc: Global,
    m: &mut LLVMModule,
    store: &mut Store,
    source: &Source<'_>,
    stack: &mut Stack,
    event: Event,
) -> Result<(), ValueErr>
    requires standing { IsStanding m.old store.old stack.old }
    ensures standing { OnOk result (IsStanding m.new store.new stack.new) }
    ensures interns { OnOk result (Interns m.old m.new) }
    ensures done { OnOk result (step_of source.now event (over source.now m.old store.old stack.old) ≡ Some (over source.now m.new store.new stack.new)) }
    ensures not_yet { result ≡ Err ValueErr.NotYet → step_of source.now event (over source.now m.old store.old stack.old) ≡ None }
{
    match event {
        Event::Held(at) => {
            let Some(name) = name_at(source.tokens, at) else {
                return Err(ValueErr::NotYet);
            };
            stack.push(alloc, Value::Text(name))?;
            Ok(())
        }
        Event::Took(alternative) => {
            let kind = kind_of(source.kinds, alternative);
            apply(alloc, m, store, source, stack, kind)
        }
    }
}

/// The values of events; the first value is the last on the stack.
#[inline(never)]
pub fn fold(
    alloc: Global,
    m: &mut LLVMModule,
    store: &mut Store,
    source: &Source<'_>,
    events: &[PackedEvent],
) -> Result<Vec<Value>, ValueErr>
    requires store { IsStoreIn m.old store.old }
    ensures standing { IfOk result (λ vs. IsStanding m.new store.new (reverse vs.items)) }
    ensures interns { OnOk result (Interns m.old m.new) }
    ensures folded { IfOk result (λ vs. fold_of source.now events.now ≡ Some (over source.now m.new store.new (reverse vs.items))) }
    ensures not_yet { result ≡ Err ValueErr.NotYet → fold_of source.now events.now ≡ None }
{
    let mut stack = Stack::new(alloc);
    let count = events.len();
    // The count is last in a round, so that what an event does goes on there, without a look back at its result.
    let mut done = 0;
    while done < count {
        let left = count - done - 1;
        match step(alloc, m, store, source, &mut stack, events[left].event()) {
            Ok(()) => (),
            Err(e) => return Err(e),
        }
        done += 1;
    }
    Ok(stack.into_vec(alloc)?)
}
