//! The types of the results of instructions, and whether rows fit.

ghost use Rattle.std.specs.Prelude.{◌≡◌, ◌<◌, IfOk, IfSome, OnErr, Some, All, length};
ghost use Rattle.std.specs.Option.{option_map};
ghost use Rattle.llvm_core.specs.declared.types.ResultType.TheVariants as results;
ghost use Rattle.llvm_core.specs.Parts.{IsValue, HasParts, HasValues, IsResultType, IsResultOver, AreLanes, AreBits, MayMake, laned_at, bits_at, given, result_type, row_fits, row_result, type_nth, view, view_nth};
ghost use Rattle.llvm_core.specs.Data.{data_of};
ghost use Rattle.llvm_core.specs.Sound.{IsModule};

use super::{LLVMModule, shape_of};
use crate::code::{LLVMInst, LLVMValue, Row};
use crate::numbers::LLVMType;
use crate::types::{LLVMTypeKind, ResultType};
use kinds::fitting::{Laned, TypeView, fits};
use kinds::rules::Gives;
use kinds::types::Lanes;
use std::alloc::AllocError;

impl LLVMModule {
    /// The number of the type of an instruction's result.
    pub(super) fn result_number(&mut self, inst: &LLVMInst) -> Result<LLVMType, AllocError>
        requires { HasValues self.old inst.now }
        ensures ty { IfOk result (λ t. IsResultType (result_type self.old inst.now) self.old.types self.new.types t) }
        ensures within { IfOk result (λ t. t.0 < length self.new.types) }
        ensures rest { self.new ≡ record self.old { types = self.new.types } }
        ensures err { OnErr result (MayMake (result_type self.old inst.now) self.old.types self.new.types) }
        ensures data { data_of self.new ≡ data_of self.old }
        ensures kept { IsModule self.old }
        ensures sound { IsModule self.new }
    {
        match self.result_type(inst) {
            Some(ResultType::There(ty)) => Ok(ty),
            Some(ResultType::Bits(lanes)) => self.bits_number(lanes),
            None => self.type_get(LLVMTypeKind::Void),
        }
    }

    /// The number of the type of so many bits.
    fn bits_number(&mut self, lanes: Lanes) -> Result<LLVMType, AllocError>
        requires { AreLanes lanes }
        ensures ty { IfOk result (λ t. AreBits lanes self.old.types self.new.types t) }
        ensures within { IfOk result (λ t. t.0 < length self.new.types) }
        ensures rest { self.new ≡ record self.old { types = self.new.types } }
        ensures err { OnErr result (MayMake (Some (results.Bits lanes)) self.old.types self.new.types) }
        ensures data { data_of self.new ≡ data_of self.old }
        ensures sound { IsModule self.new }
    {
        let bit = self.type_get(LLVMTypeKind::Int(1))?;
        match lanes {
            Lanes::One => Ok(bit),
            Lanes::Many(kind, count) => self.type_get(LLVMTypeKind::Vector(kind, count, bit)),
        }
    }

    /// The type of an instruction's result, where its operands fit and it is not void.
    pub fn result_type(&self, inst: &LLVMInst) -> Option<ResultType>
        requires { HasValues self.now inst.now }
        ensures within { IfSome result (IsResultOver self.now.types) }
        ensures ty { result ≡ result_type self.now inst.now }
        ensures sound { IsModule self.now }
    {
        // This tells the proof of the invariant.
        let _ = &self.types;
        match inst {
            LLVMInst::Phi(ty, _) => Some(ResultType::There(*ty)),
            LLVMInst::Row(row) => self.row_result(row),
        }
    }

    /// Whether the operands of a row fit it, as far as that can be told without its function.
    pub(crate) fn row_fits(&self, row: &Row) -> bool
        requires { HasParts self.now row.now }
        ensures { result ≡ row_fits self.now row.now }
    {
        let operands = row.operands.as_slice();
        let first = self.view_nth(operands, 0);
        let second = self.view_nth(operands, 1);
        let third = self.view_nth(operands, 2);
        let written = self.view_some(row.written);
        fits(row.op.rule(), operands.len(), written, first, second, third)
    }

    /// The type of a row's result, where its operands fit and it is not void.
    fn row_result(&self, row: &Row) -> Option<ResultType>
        requires { HasParts self.now row.now }
        ensures { result ≡ row_result self.now row.now }
    {
        if !self.row_fits(row) {
            return None;
        }
        let operands = row.operands.as_slice();
        let first = self.type_nth(operands, 0);
        let second = self.type_nth(operands, 1);
        self.given(row.op.rule().gives, row.written, first, second)
    }

    /// The type of the value at a place, as rules see it.
    fn view_nth(&self, values: &[LLVMValue], place: usize) -> Option<TypeView>
        requires { All (IsValue self.now) values.now }
        ensures { result ≡ view_nth self.now values.now place }
    {
        self.view_some(self.type_nth(values, place))
    }

    /// The type of the value at a place.
    fn type_nth(&self, values: &[LLVMValue], place: usize) -> Option<LLVMType>
        requires { All (IsValue self.now) values.now }
        ensures ty { result ≡ type_nth self.now values.now place }
        ensures within { IfSome result (λ t. t.0 < length self.now.types) }
    {
        if place < values.len() {
            Some(self.type_of(values[place]))
        } else {
            None
        }
    }

    /// A type as rules see it.
    fn view_some(&self, ty: Option<LLVMType>) -> Option<TypeView>
        requires { IfSome ty (λ t. t.0 < length self.now.types) }
        ensures { result ≡ option_map (view self.now.types) ty }
    {
        match ty {
            Some(ty) => Some(TypeView {
                number: ty.0,
                laned: self.laned(ty),
            }),
            None => None,
        }
    }

    /// The lanes of a type.
    pub fn laned(&self, ty: LLVMType) -> Laned
        requires { ty.0 < length self.now.types }
        ensures { result ≡ laned_at self.now.types ty }
    {
        match self.type_kind(ty) {
            LLVMTypeKind::Vector(kind, count, element) => Laned {
                lanes: Lanes::Many(*kind, *count),
                lane: shape_of(self.type_kind(*element)),
            },
            kind => Laned {
                lanes: Lanes::One,
                lane: shape_of(kind),
            },
        }
    }

    /// The type of a result: a line for each word.
    fn given(
        &self,
        gives: Gives,
        written: Option<LLVMType>,
        first: Option<LLVMType>,
        second: Option<LLVMType>,
    ) -> Option<ResultType>
        requires { IfSome first (λ t. t.0 < length self.now.types) }
        ensures { result ≡ given self.now.types gives written first second }
    {
        match gives {
            Gives::Nothing => None,
            Gives::First => there(first),
            Gives::Second => there(second),
            Gives::Written => there(written),
            Gives::Bits => self.bits_of(first),
        }
    }

    /// Bits in as many lanes as a type has.
    fn bits_of(&self, ty: Option<LLVMType>) -> Option<ResultType>
        requires { IfSome ty (λ t. t.0 < length self.now.types) }
        ensures { result ≡ option_map (bits_at self.now.types) ty }
    {
        match ty {
            Some(ty) => Some(ResultType::Bits(self.laned(ty).lanes)),
            None => None,
        }
    }
}

fn there(ty: Option<LLVMType>) -> Option<ResultType>
    ensures { result ≡ option_map results.There ty }
{
    match ty {
        Some(ty) => Some(ResultType::There(ty)),
        None => None,
    }
}
