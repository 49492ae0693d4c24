//! Puts values in place of the parts that they are made of.

ghost use Rattle.std.specs.Prelude.{◌≡◌, Some, map, take, Err, OnOk, OnErr};
ghost use Rattle.llvm_core.specs.Data.{trees_of};
ghost use Rattle.ll_values.specs.Parts.{part_count};
ghost use Rattle.ll_values.specs.Values.{value_by};
ghost use Rattle.ll_values.specs.Views.{value_view, IsValueIn};
ghost use Rattle.ll_values.specs.Stack.{IsStanding, Puts};

use crate::form::Kind;
use crate::stack::Stack;
use crate::store::Store;
use crate::value::Value;
use crate::value_err::ValueErr;
use llvm_core::module::LLVMModule;
use std::alloc::Global;

/// Puts a value in place of the parts on top that it is made of, where nothing is kept for it.
#[inline(always)]
pub fn put(
    alloc: Global,
    m: &LLVMModule,
    store: &Store,
    bytes: &[u8],
    kind: Kind,
    stack: &mut Stack,
    value: Value,
) -> Result<(), ValueErr>
    requires standing { IsStanding m.now store.now stack.old }
    requires there { IsValueIn m.now store.now value }
    requires made { value_by kind (map (value_view bytes.now (trees_of m.now) store.now) (take (part_count kind) stack.old)) ≡ Some (value_view bytes.now (trees_of m.now) store.now value) }
    ensures puts { OnOk result (Puts bytes.now m.now m.now store.now store.now kind stack.old stack.new) }
    ensures memory { OnErr result (result ≡ Err ValueErr.NoMemory) }
{
    let _ = m;
    let _ = store;
    let _ = bytes;
    stack.replace(alloc, kind.part_count(), value)?;
    Ok(())
}
