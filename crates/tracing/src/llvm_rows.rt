//! The instructions of a function of LLVM, as rows of a body.

ghost use Rattle.std.specs.Prelude.{◌≡◌, ◌<◌, ℕ, [], ◌++◌, List, All, IfOk, OnOk, Some, length, map, slice_get};
ghost use Rattle.std.specs.List.{cons_option};
ghost use Rattle.llvm_core.specs.declared.code.LLVMValue.TheVariants as values;
ghost use Rattle.llvm_core.specs.Sound.{IsModule};
ghost use Rattle.llvm_core.specs.Parts.{IsValue};
ghost use Rattle.llvm_core.specs.Data.{Placed, type_at, operand_of, operand_type, row_of, trees_of};
ghost use Rattle.meaning.specs.Machine as machine;
ghost use Rattle.meaning.specs.Llvm as llvm;
ghost use Rattle.tracing.specs.Types.{AllStand, Stands};
ghost use Rattle.tracing.specs.TypePlaces.{trees_in};
ghost use Rattle.tracing.specs.Tables.{AreGrown, AreTables, contents_in};
ghost use Rattle.tracing.specs.Bodies.{IsSource, AreSources, IsAction, AreRows};
ghost use Rattle.tracing.specs.Renamed.{renamed_action};
ghost use Rattle.tracing.specs.LlvmBodies.{setting_in, slot_of, origin_in, InChecked, data_in, operand_in, IsUsed, IsPlacedIn, ArePlacedIn, IsRowIn, row_in, rows_in};

use crate::body::{Action, Row, Slot, Source};
use crate::llvm_constants::constant;
use crate::llvm_typing::place;
use crate::tables::Tables;
use crate::trace::Types;
use llvm_core::code::{LLVMInst, LLVMValue, Row as TableRow};
use llvm_core::module::LLVMModule;
use llvm_core::numbers::{LLVMInstRef, LLVMType};
use std::alloc::{AllocError, Global};
use support::items::Items;

/// The place of a type.
pub fn type_place(
    alloc: Global,
    tables: &mut Tables,
    m: &LLVMModule,
    ty: LLVMType,
) -> Result<LLVMType, AllocError>
    requires sound { IsModule m.now }
    requires within { ty.0 < length m.now.types }
    requires tables { AreTables (origin_in m.now) tables.old }
    ensures stands { IfOk result (λ t. Stands (trees_in tables.new.types) t (type_at (trees_of m.now).types ty)) }
    ensures grown { OnOk result (AreGrown (origin_in m.now) tables.old tables.new) }
{
    place(alloc, &mut tables.types, m, ty)
}

/// An operand.
pub fn source(
    alloc: Global,
    tables: &mut Tables,
    m: &LLVMModule,
    v: LLVMValue,
) -> Result<Source, AllocError>
    requires sound { IsModule m.now }
    requires value { IsValue m.now v }
    requires tables { AreTables (origin_in m.now) tables.old }
    ensures is { IfOk result (λ s. IsSource (contents_in tables.new) s (operand_in m.now v)) }
    ensures grown { OnOk result (AreGrown (origin_in m.now) tables.old tables.new) }
{
    match v {
        LLVMValue::Const(c) => {
            let place = constant(alloc, tables, m, c)?;
            Ok(Source::Fixed(place))
        }
        LLVMValue::Param(f, place) => Ok(Source::At(Slot::Input(f.0, place))),
        LLVMValue::Inst(i) => Ok(Source::At(Slot::Result(i.0))),
    }
}

fn operand_type(
    alloc: Global,
    tables: &mut Tables,
    m: &LLVMModule,
    v: LLVMValue,
) -> Result<LLVMType, AllocError>
    requires used { (h : InChecked m.now) × IsUsed m.now h v }
    requires tables { AreTables (origin_in m.now) tables.old }
    ensures stands { IfOk result (λ t. (h : InChecked m.now) → IsUsed m.now h v → Stands (trees_in tables.new.types) t (operand_type (data_in m.now h) (operand_of (trees_of m.now) v))) }
    ensures grown { OnOk result (AreGrown (origin_in m.now) tables.old tables.new) }
{
    type_place(alloc, tables, m, m.type_of(v))
}

fn operand_types(
    alloc: Global,
    tables: &mut Tables,
    m: &LLVMModule,
    values: &[LLVMValue],
) -> Result<Items<LLVMType>, AllocError>
    requires used { (h : InChecked m.now) × All (IsUsed m.now h) values.now }
    requires tables { AreTables (origin_in m.now) tables.old }
    ensures stand { IfOk result (λ ts. (h : InChecked m.now) → All (IsUsed m.now h) values.now → AllStand (trees_in tables.new.types) ts (map (λ v. operand_type (data_in m.now h) (operand_of (trees_of m.now) v)) values.now)) }
    ensures grown { OnOk result (AreGrown (origin_in m.now) tables.old tables.new) }
{
    let mut places = Items::new(alloc);
    for value in values {
        let place = operand_type(alloc, tables, m, *value)?;
        places.push(place)?;
    }
    Ok(places)
}

fn sources(
    alloc: Global,
    tables: &mut Tables,
    m: &LLVMModule,
    values: &[LLVMValue],
) -> Result<Items<Source>, AllocError>
    requires sound { IsModule m.now }
    requires values { All (IsValue m.now) values.now }
    requires tables { AreTables (origin_in m.now) tables.old }
    ensures are { IfOk result (λ ss. AreSources (contents_in tables.new) ss (map (operand_in m.now) values.now)) }
    ensures grown { OnOk result (AreGrown (origin_in m.now) tables.old tables.new) }
{
    let mut sources = Items::new(alloc);
    for value in values {
        let source = source(alloc, tables, m, *value)?;
        sources.push(source)?;
    }
    Ok(sources)
}

/// What an instruction with that row does.
fn action(
    alloc: Global,
    tables: &mut Tables,
    m: &LLVMModule,
    i: LLVMInstRef,
    row: &TableRow,
) -> Result<Action, AllocError>
    requires here { (h : InChecked m.now) × (b : ℕ) × (p : Placed) × IsRowIn m.now h b i p row.now }
    requires tables { AreTables (origin_in m.now) tables.old }
    ensures is { IfOk result (λ a. (h : InChecked m.now) → (b : ℕ) → (p : Placed) → IsRowIn m.now h b i p row.now → IsAction (contents_in tables.new) a (renamed_action slot_of (llvm.action (setting_in m.now) (data_in m.now h) p.type (row_of (trees_of m.now) row.now)))) }
    ensures grown { OnOk result (AreGrown (origin_in m.now) tables.old tables.new) }
{
    let values = row.operands.as_slice();
    let operand_types = operand_types(alloc, tables, m, values)?;
    let result_type = type_place(alloc, tables, m, m.type_of(LLVMValue::Inst(i)))?;
    let operands = sources(alloc, tables, m, values)?;
    Ok(Action::Applies {
        op: row.op,
        types: Types {
            result: result_type,
            operands: operand_types,
        },
        operands,
    })
}

/// Appends the row of an instruction, unless it is a phi.
fn push_row(
    alloc: Global,
    tables: &mut Tables,
    m: &LLVMModule,
    i: LLVMInstRef,
    rows: &mut Items<Row>,
) -> Result<(), AllocError>
    requires here { (h : InChecked m.now) × (b : ℕ) × (p : Placed) × IsPlacedIn m.now h b i p }
    requires tables { AreTables (origin_in m.now) tables.old }
    ensures rows { OnOk result ((h : InChecked m.now) → (b : ℕ) → (p : Placed) → IsPlacedIn m.now h b i p → (xs : List (machine.Row Slot)) → AreRows (contents_in tables.old) rows.old xs → AreRows (contents_in tables.new) rows.new (xs ++ cons_option (row_in m.now h p) [])) }
    ensures grown { OnOk result (AreGrown (origin_in m.now) tables.old tables.new) }
{
    match m.inst(i) {
        LLVMInst::Phi(..) => Ok(()),
        LLVMInst::Row(row) => {
            let action = action(alloc, tables, m, i, row)?;
            rows.push(Row {
                action,
                result: Slot::Result(i.0),
            })
        }
    }
}

/// The rows of the instructions of a block.
pub fn rows(
    alloc: Global,
    tables: &mut Tables,
    m: &LLVMModule,
    insts: &[LLVMInstRef],
) -> Result<Items<Row>, AllocError>
    requires here { (h : InChecked m.now) × (b : ℕ) × (ps : List Placed) × ArePlacedIn m.now h b insts.now ps }
    requires tables { AreTables (origin_in m.now) tables.old }
    ensures rows { IfOk result (λ rows. (h : InChecked m.now) → (b : ℕ) → (ps : List Placed) → ArePlacedIn m.now h b insts.now ps → AreRows (contents_in tables.new) rows (rows_in m.now h ps)) }
    ensures grown { OnOk result (AreGrown (origin_in m.now) tables.old tables.new) }
{
    let mut rows = Items::new(alloc);
    for i in insts {
        push_row(alloc, tables, m, *i, &mut rows)?;
    }
    Ok(rows)
}
