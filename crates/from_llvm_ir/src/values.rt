//! Which value of the dialect stands for each of a source function.

ghost use Rattle.std.specs.Prelude.{◌≡◌, IfErr, IfOk, OnOk, IsSome, is_some, All, None, Some, ◌∷◌, [], ◌<◌, false, length, map};
ghost use Rattle.llvm_core.specs.declared.code.LLVMValue.TheVariants as sources;
ghost use Rattle.llvm_core.specs.Parts.{is_phi, operands};
ghost use Rattle.llvm_core.specs.Data.{trees_of, operand_of};
ghost use Rattle.from_llvm_ir.specs.Values.{value_at, param_at, AreNoted, IsMade, IsNoted, IsForward, IsRefusalOf, IsSettled};

use crate::parts::operands_of;
use dialect_core::numbers::BlockRef;
use dialect_core::ops::Value;
use from_consts::conversion_err::ConversionErr;
use llvm_core::code::{LLVMInst, LLVMValue};
use llvm_core::numbers::{LLVMConst, LLVMFunction, LLVMInstRef};
use renamed_source::source::Source;
use std::alloc::{AllocError, Global};
use support::number_map::NumberMap;
use support::short_list::ShortList;
use support::text::Text;

/// The parameters of a source function: the arguments of a block stand for them, each for that at its place.
#[derive(Clone, Copy, Drop)]
pub struct Params {
    pub function: LLVMFunction,
    pub block: BlockRef,
    pub count: u32,
}

impl Params {
    /// The value that stands for a parameter, where there is one.
    fn get(&self, function: LLVMFunction, place: u32) -> Option<Value>
        ensures { result ≡ param_at self.now function place }
    {
        if function.0 == self.function.0 && place < self.count {
            Some(Value::Argument(self.block, place))
        } else {
            None
        }
    }
}

/// The values of the dialect that stand for parameters, constants and results of a source function.
#[derive(Drop)]
pub struct Values {
    /// The values of results, by the number of the instruction.
    pub insts: NumberMap<Value>,
    /// The values of constants, by their number.
    pub consts: NumberMap<Value>,
    pub params: Params,
}

impl Values {
    /// The values of these parameters alone. The constants of numbers below a count have slots from the first.
    pub fn new(alloc: Global, params: Params, consts: usize) -> Result<Values, AllocError>
        ensures params { IfOk result (λ v. v.params ≡ params) }
        ensures insts { IfOk result (λ v. (i : LLVMInstRef) → value_at v (sources.Inst i) ≡ None) }
        ensures consts { IfOk result (λ v. (c : LLVMConst) → value_at v (sources.Const c) ≡ None) }
    {
        Ok(Values {
            insts: NumberMap::new(alloc),
            consts: NumberMap::with_slots(alloc, consts)?,
            params,
        })
    }

    /// The value that stands for one of the source, where one was noted.
    pub fn get(&self, value: LLVMValue) -> Option<Value>
        ensures { result ≡ value_at self.now value }
    {
        match value {
            LLVMValue::Inst(i) => self.insts.get(i.0),
            LLVMValue::Const(c) => self.consts.get(c.0),
            LLVMValue::Param(function, place) => self.params.get(function, place),
        }
    }

    /// Whether a value stands for one of the source.
    pub fn has(&self, value: LLVMValue) -> bool
        ensures { result ≡ is_some (value_at self.now value) }
    {
        match value {
            LLVMValue::Inst(i) => self.insts.get(i.0).is_some(),
            LLVMValue::Const(c) => self.consts.get(c.0).is_some(),
            LLVMValue::Param(function, place) => self.params.get(function, place).is_some(),
        }
    }

    /// Notes the value that stands for one of the source that is no parameter.
    pub fn set(&mut self, value: LLVMValue, to: Value) -> Result<(), AllocError>
        requires { IsMade value }
        ensures { OnOk result (IsNoted self.old self.new value to) }
    {
        match value {
            LLVMValue::Inst(i) => self.insts.set(i.0, to),
            LLVMValue::Const(c) => self.consts.set(c.0, to),
            LLVMValue::Param(..) => unreachable!(),
        }
    }
}

/// The refusal of the result of an instruction that is used where it is not defined, or not known yet.
pub fn undefined_value(alloc: Global, source: &Source<'_>, i: LLVMInstRef) -> ConversionErr
    requires { i.0 < length source.now.insts }
    ensures { IsRefusalOf source.now i result }
{
    match Text::copy(alloc, source.inst_name(i)) {
        Ok(name) => ConversionErr::UndefinedValue(name, LLVMValue::Inst(i)),
        Err(_) => ConversionErr::NoMemory,
    }
}

/// The value that stands for one of the source.
#[inline(always)]
fn known_value(
    alloc: Global,
    source: &Source<'_>,
    values: &Values,
    value: LLVMValue,
) -> Result<Value, ConversionErr>
    requires { IsSettled source.now values.now value }
    ensures ok { IfOk result (λ w. value_at values.now value ≡ Some w) }
    ensures err { IfErr result (λ e. IsForward source.now values.now (operand_of (trees_of source.now) value ∷ []) e) }
{
    match values.get(value) {
        Some(known) => Ok(known),
        None => match value {
            LLVMValue::Inst(i) => Err(undefined_value(alloc, source, i)),
            LLVMValue::Const(_) | LLVMValue::Param(..) => unreachable!(),
        },
    }
}

/// The values that stand for those of the source, found one by one.
#[inline(never)]
fn known_each(
    alloc: Global,
    source: &Source<'_>,
    values: &Values,
    used: &[LLVMValue],
) -> Result<ShortList<Value>, ConversionErr>
    requires { All (IsSettled source.now values.now) used.now }
    ensures ok { IfOk result (λ ws. AreNoted values.now used.now ws) }
    ensures err { IfErr result (λ e. IsForward source.now values.now (map (operand_of (trees_of source.now)) used.now) e) }
{
    let mut known = ShortList::zero();
    for value in used {
        known.push(alloc, known_value(alloc, source, values, *value)?)?;
    }
    Ok(known)
}

/// The values that stand for those of the source: most instructions use one or two.
#[inline(always)]
pub fn known_values(
    alloc: Global,
    source: &Source<'_>,
    values: &Values,
    used: &[LLVMValue],
) -> Result<ShortList<Value>, ConversionErr>
    requires { All (IsSettled source.now values.now) used.now }
    ensures ok { IfOk result (λ ws. AreNoted values.now used.now ws) }
    ensures err { IfErr result (λ e. IsForward source.now values.now (map (operand_of (trees_of source.now)) used.now) e) }
{
    match used {
        [] => Ok(ShortList::zero()),
        [value] => Ok(ShortList::one(known_value(alloc, source, values, *value)?)),
        [first, second] => {
            let first = known_value(alloc, source, values, *first)?;
            let second = known_value(alloc, source, values, *second)?;
            Ok(ShortList::two(first, second))
        }
        _ => known_each(alloc, source, values, used),
    }
}

/// The values that stand for the operands of an instruction that is no phi, in order.
pub fn known_operands(
    alloc: Global,
    source: &Source<'_>,
    values: &Values,
    inst: &LLVMInst,
) -> Result<ShortList<Value>, ConversionErr>
    requires other { is_phi inst.now ≡ false }
    requires settled { All (IsSettled source.now values.now) (operands inst.now) }
    ensures ok { IfOk result (λ ws. AreNoted values.now (operands inst.now) ws) }
    ensures err { IfErr result (λ e. IsForward source.now values.now (map (operand_of (trees_of source.now)) (operands inst.now)) e) }
{
    known_values(alloc, source, values, operands_of(inst))
}
