//! What the events of a text say.

ghost use Rattle.std.specs.Prelude.{◌≡◌, ℕ, [], ◌∷◌, map, reverse, Option, Some, None, Err, IfOk, IfSome, OnOk};
ghost use Rattle.llvm_core.specs.Sound.{IsModule};
ghost use Rattle.llvm_core.specs.Data.{trees_of, data_of};
ghost use Rattle.ll_lines.specs.Lines as said;
ghost use Rattle.ll_lines.specs.Views.{file_view, IsFileIn};
ghost use Rattle.ll_values.specs.declared.form.TheConstants.{KINDS};
ghost use Rattle.ll_lines.specs.declared.names.Name as names;
ghost use Rattle.ll_values.specs.declared.value.Value.TheVariants as V;
ghost use Rattle.ll_values.specs.Values.{FileV};
ghost use Rattle.ll_values.specs.Folding.{fold};
ghost use Rattle.ll_values.specs.Views.{value_view, IsStoreIn};
ghost use Rattle.ll_values.specs.Stack.{IsStanding};
ghost use Rattle.ll_values.specs.Growing.{Interns};

use crate::assemble::file;
use crate::fold::{Source, fold};
use crate::form::KINDS;
use crate::store::Store;
use crate::value::Value;
use crate::value_err::ValueErr;
use grammars::packed_event::PackedEvent;
use ll_lines::lines::File;
use ll_lines::names::Name;
use ll_tokens::tokens::Token;
use llvm_core::module::LLVMModule;
use std::alloc::Global;

/// The name of the module and the numbers of the structs and of the functions, where a file is the only value.
fn file_of(values: &[Value]) -> Option<(Option<Name>, u32, u32)>
    ensures file { IfSome result (λ p. values.now ≡ V.File p.0 p.1 p.2 ∷ []) }
    ensures none { result ≡ None → (name : Option names.Name) (k n : ℕ) → values.now ≡ V.File name k n ∷ [] → ⊥ }
{
    match *values {
        [Value::File(name, structs, functions)] => Some((name, structs, functions)),
        _ => None,
    }
}

/// The values of events, which are let go with the tokens.
fn values_of(
    alloc: Global,
    m: &mut LLVMModule,
    store: &mut Store,
    bytes: &[u8],
    tokens: Vec<Token>,
    events: Vec<PackedEvent>,
) -> Result<Vec<Value>, ValueErr>
    requires store { IsStoreIn m.old store.old }
    ensures standing { IfOk result (λ vs. IsStanding m.new store.new (reverse vs.items)) }
    ensures interns { OnOk result (Interns m.old m.new) }
    ensures folded { IfOk result (λ vs. fold KINDS bytes.now tokens.items events.items ≡ Some (map (value_view bytes.now (trees_of m.new) store.new) (reverse vs.items))) }
    ensures not_yet { result ≡ Err ValueErr.NotYet → fold KINDS bytes.now tokens.items events.items ≡ None }
{
    let text = Source {
        kinds: &KINDS,
        bytes,
        tokens: tokens.as_slice(),
    };
    fold(alloc, m, store, &text, events.as_slice())
}

/// The file that events say, whose types and constants are added to the module.
pub fn read_file(
    alloc: Global,
    m: &mut LLVMModule,
    bytes: &[u8],
    tokens: Vec<Token>,
    events: Vec<PackedEvent>,
) -> Result<File, ValueErr>
    ensures file { IfOk result (λ f. fold KINDS bytes.now tokens.items events.items ≡ Some (FileV (file_view bytes.now (trees_of m.new) f) ∷ [])) }
    ensures there { IfOk result (IsFileIn m.new) }
    ensures rest { OnOk result (data_of m.new ≡ data_of m.old) }
    ensures sound { OnOk result (IsModule m.new) }
    ensures not_yet { result ≡ Err ValueErr.NotYet → (f : said.File) → fold KINDS bytes.now tokens.items events.items ≡ Some (FileV f ∷ []) → ⊥ }
{
    let _count = m.types();
    let mut store = Store::for_events(alloc, events.len())?;
    let values = match values_of(alloc, m, &mut store, bytes, tokens, events) {
        Ok(values) => values,
        Err(e) => return Err(e),
    };
    let Some((source, structs, functions)) = file_of(values.as_slice()) else {
        return Err(ValueErr::NotYet);
    };
    match file(alloc, m, store, bytes, source, structs, functions) {
        Ok(file) => Ok(file),
        Err(_) => Err(ValueErr::NoMemory),
    }
}
