//! Instructions that are made of parts, but for phis.

ghost use Rattle.std.specs.Prelude.{◌≡◌, map, All, IfSome};
ghost use Rattle.std.specs.Option.{option_map};
ghost use Rattle.llvm_core.specs.Data.{trees_of};
ghost use Rattle.ll_lines.specs.Views.{inst_view, IsInstIn};
ghost use Rattle.ll_values.specs.Values.{row_by, InstV};
ghost use Rattle.ll_values.specs.Words.{no_wraps};
ghost use Rattle.ll_values.specs.Views.{table_of, value_view, made_in, IsValueIn};

use crate::form::RowKind;
use crate::planned::Planned;
use crate::store::Store;
use crate::value::Value;
use crate::words::{binary_op, cast_op, predicate, three_op};
use kinds::access::Access;
use kinds::op::{Op, OverflowFlags};
use llvm_core::module::LLVMModule;

/// No flag.
fn no_wraps() -> OverflowFlags
    ensures { result ≡ no_wraps }
{
    OverflowFlags {
        nuw: false,
        nsw: false,
    }
}

/// Instructions that are no phi.
#[rattlefmt::skip]
pub fn plan_row(m: &LLVMModule, store: &Store, bytes: &[u8], kind: RowKind, parts: &[Value]) -> Option<Planned>
    requires parts { All (IsValueIn m.now store.now) parts.now }
    ensures made { option_map (λ i. InstV (inst_view bytes.now (trees_of m.now) (table_of bytes.now (trees_of m.now) store.now) i)) result ≡ row_by kind (map (value_view bytes.now (trees_of m.now) store.now) parts.now) }
    ensures there { IfSome result (IsInstIn m.now (made_in store.now)) }
{
    match kind {
        RowKind::Sum => match *parts { [Value::Text(n), Value::Wraps(flags), Value::Pair(ty, a, b)] => Some(Planned::pair(binary_op(n.text(bytes), flags)?, ty, a, b)), _ => None },
        RowKind::Quotient => match *parts { [Value::Text(n), Value::Nothing, Value::Pair(ty, a, b)] => Some(Planned::pair(binary_op(n.text(bytes), no_wraps())?, ty, a, b)), _ => None },
        RowKind::Bits => match *parts { [Value::Text(n), Value::Pair(ty, a, b)] => Some(Planned::pair(binary_op(n.text(bytes), no_wraps())?, ty, a, b)), _ => None },
        RowKind::Or => match *parts { [Value::Nothing, Value::Pair(ty, a, b)] => Some(Planned::pair(Op::Or, ty, a, b)), _ => None },
        RowKind::ICmp => match *parts { [Value::Nothing, Value::Text(n), Value::Pair(ty, a, b)] => Some(Planned::pair(Op::ICmp(predicate(n.text(bytes))?), ty, a, b)), _ => None },
        RowKind::Cast => match *parts { [Value::Text(n), Value::Typed(x), Value::Type(ty)] => Some(Planned::cast(cast_op(n.text(bytes))?, x, ty)), _ => None },
        RowKind::Trunc => match *parts { [Value::Nothing, Value::Typed(x), Value::Type(ty)] => Some(Planned::cast(Op::Trunc, x, ty)), _ => None },
        RowKind::ZExt => match *parts { [Value::Flag(nneg), Value::Typed(x), Value::Type(ty)] => Some(Planned::cast(Op::ZExt(nneg), x, ty)), _ => None },
        RowKind::Three => match *parts {
            [Value::Text(n), Value::Typed(x), Value::Typed(y), Value::Typed(z)] => Some(Planned::three(three_op(n.text(bytes))?, x, y, z)),
            _ => None,
        },
        RowKind::Freeze => match *parts { [Value::Typed(x)] => Some(Planned::one(Op::Freeze, x)), _ => None },
        RowKind::Load => match *parts {
            [Value::Flag(volatile), Value::Type(ty), Value::Typed(x), Value::Align(align)] => Some(Planned::cast(Op::Load(Access { align, volatile }), x, ty)),
            _ => None,
        },
        RowKind::Store => match *parts {
            [Value::Flag(volatile), Value::Typed(x), Value::Typed(y), Value::Align(align)] => Some(Planned::two(Op::Store(Access { align, volatile }), x, y)),
            _ => None,
        },
        RowKind::VAArg => match *parts { [Value::Typed(x), Value::Type(ty)] => Some(Planned::cast(Op::VAArg, x, ty)), _ => None },
        RowKind::Return => match *parts {
            [Value::Nothing] => Some(Planned::alone(Op::Ret)),
            [Value::Typed(x)] => Some(Planned::one(Op::Ret, x)),
            _ => None,
        },
        RowKind::Jump => match *parts { [Value::Text(n)] => Some(Planned::jump(Op::Br, n)), _ => None },
        RowKind::Branch => match *parts { [Value::Typed(x), Value::Text(n), Value::Text(o)] => Some(Planned::branch(Op::CondBr, x, n, o)), _ => None },
        RowKind::Unreachable => match *parts { [] => Some(Planned::alone(Op::Unreachable)), _ => None },
    }
}
