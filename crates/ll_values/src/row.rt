//! Instructions that are no phi, in place of their parts.

ghost use Rattle.std.specs.Prelude.{◌≡◌, None, Err, map, All, IfOk, OnOk};
ghost use Rattle.llvm_core.specs.Data.{trees_of};
ghost use Rattle.ll_values.specs.declared.form.Kind.TheVariants as K;
ghost use Rattle.ll_values.specs.declared.value.Value.TheVariants as V;
ghost use Rattle.ll_values.specs.Values.{row_by};
ghost use Rattle.ll_values.specs.Views.{value_view, IsValueIn, IsStoreIn};
ghost use Rattle.ll_values.specs.Growing.{Makes};
ghost use Rattle.ll_values.specs.Stack.{IsStanding, Puts, MakesNothing};

use crate::form::RowKind;
use crate::keep::keep_inst;
use crate::plan_row::plan_row;
use crate::stack::Stack;
use crate::store::Store;
use crate::value::Value;
use crate::value_err::ValueErr;
use llvm_core::module::LLVMModule;
use std::alloc::Global;

/// Makes an instruction that is no phi, and gives its number.
#[inline(never)]
fn make_row(
    m: &LLVMModule,
    store: &mut Store,
    bytes: &[u8],
    kind: RowKind,
    parts: &[Value],
) -> Result<u32, ValueErr>
    requires store { IsStoreIn m.now store.old }
    requires parts { All (IsValueIn m.now store.old) parts.now }
    ensures made { IfOk result (λ n. Makes bytes.now m.now m.now store.old store.new (K.Row kind) parts.now (V.Inst n)) }
    ensures not_yet { result ≡ Err ValueErr.NotYet → row_by kind (map (value_view bytes.now (trees_of m.now) store.old) parts.now) ≡ None }
{
    match plan_row(m, store, bytes, kind, parts) {
        Some(inst) => keep_inst(m, store, bytes, inst),
        None => Err(ValueErr::NotYet),
    }
}

/// Puts an instruction that is no phi in place of its parts.
pub fn put_row(
    alloc: Global,
    m: &LLVMModule,
    store: &mut Store,
    bytes: &[u8],
    kind: RowKind,
    stack: &mut Stack,
) -> Result<(), ValueErr>
    requires standing { IsStanding m.now store.old stack.old }
    ensures puts { OnOk result (Puts bytes.now m.now m.now store.old store.new (K.Row kind) stack.old stack.new) }
    ensures not_yet { result ≡ Err ValueErr.NotYet → MakesNothing bytes.now m.now store.old (K.Row kind) stack.old }
{
    let count = kind.part_count();
    match make_row(m, store, bytes, kind, stack.first(count)) {
        Ok(n) => {
            stack.replace(alloc, count, Value::Inst(n))?;
            Ok(())
        }
        Err(e) => Err(e),
    }
}
