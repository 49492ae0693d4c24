//! Instructions of lines to instructions of a module.

ghost use Rattle.std.specs.Prelude.{◌≡◌, None, Some, Err, IfOk, IfSome, IsTrue, OnOk, All, map};
ghost use Rattle.std.specs.Option.{option_map};
ghost use Rattle.llvm_core.specs.Data.{type_at, entry_of, instruction_of};
ghost use Rattle.ll_lines.specs.Views.{IsTypeIn, IsSaidIn, IsInstIn};
ghost use Rattle.ll_bodies.specs.Scopes as spec;
ghost use Rattle.ll_bodies.specs.Meaning as meaning;
ghost use Rattle.ll_bodies.specs.Meaning.{all_of};
ghost use Rattle.ll_bodies.specs.ScopeViews.{Knows, Refuses};
ghost use Rattle.ll_bodies.specs.SourceViews.{IsSource, IsRowIn, IsFittingRow, IsFitting, source_trees, structs_in, made_in, types_in, entry_in, inst_in, row_in, IsScopeIn};
ghost use Rattle.ll_bodies.specs.TypedViews.{IsTypedInst};
ghost use Rattle.kinds.specs.Types.{TypeTree, VoidType};
ghost use Rattle.kinds.specs.Typing.{fits_trees};
ghost use Rattle.std.specs.Option.{option_map_or};

use crate::build_err::BuildErr;
use crate::operands::{block, operand, operands, targets};
use crate::results::{Source, row_fits};
use crate::scope::Scope;
use ll_lines::lines::{Incoming, Inst, RowLine, Typed};
use llvm_core::code::{LLVMInst, PhiEntry, Row};
use llvm_core::numbers::LLVMType;
use std::alloc::Global;
use support::short_list::ShortList;

/// An entry of a phi of a type, which is refused where it means nothing.
fn entry(
    alloc: Global,
    source: &Source<'_>,
    scope: &Scope<'_>,
    ty: LLVMType,
    said: &Incoming,
) -> Result<PhiEntry, BuildErr>
    requires source { IsSource source.now }
    requires scope { IsScopeIn source.now.module.now scope.now }
    requires ty { IsTypeIn source.now.module.now ty }
    requires said { IsSaidIn source.now.module.now (made_in source.now) said.now.said }
    ensures ok { IfOk result (λ e. (s : spec.Scope) → Knows (types_in source.now) scope.now s → meaning.entry (structs_in source.now) s (type_at (types_in source.now) ty) (entry_in source.now said.now) ≡ Some (entry_of (source_trees source.now) e)) }
    ensures not_yet { result ≡ Err BuildErr.NotYet → Refuses (types_in source.now) scope.now (λ s. meaning.entry (structs_in source.now) s (type_at (types_in source.now) ty) (entry_in source.now said.now)) }
{
    let value = operand(alloc, source, scope, ty, said.said)?;
    let found = block(alloc, source, scope, said.block)?;
    Ok(PhiEntry {
        value,
        block: found,
    })
}

/// The entries of a phi of a type, of any number.
fn all_entries(
    alloc: Global,
    source: &Source<'_>,
    scope: &Scope<'_>,
    ty: LLVMType,
    said: &[Incoming],
) -> Result<ShortList<PhiEntry>, BuildErr>
    requires source { IsSource source.now }
    requires scope { IsScopeIn source.now.module.now scope.now }
    requires ty { IsTypeIn source.now.module.now ty }
    requires said { All (λ e. IsSaidIn source.now.module.now (made_in source.now) e.said) said.now }
    ensures ok { IfOk result (λ es. (s : spec.Scope) → Knows (types_in source.now) scope.now s → all_of (meaning.entry (structs_in source.now) s (type_at (types_in source.now) ty)) (map (entry_in source.now) said.now) ≡ Some (map (entry_of (source_trees source.now)) es)) }
    ensures not_yet { result ≡ Err BuildErr.NotYet → Refuses (types_in source.now) scope.now (λ s. all_of (meaning.entry (structs_in source.now) s (type_at (types_in source.now) ty)) (map (entry_in source.now) said.now)) }
{
    let mut made = ShortList::zero();
    for x in said {
        let found = entry(alloc, source, scope, ty, x)?;
        made.push(alloc, found)?;
    }
    Ok(made)
}

/// The entries of a phi of a type. Of one or two the list is made at once.
fn entries(
    alloc: Global,
    source: &Source<'_>,
    scope: &Scope<'_>,
    ty: LLVMType,
    said: &[Incoming],
) -> Result<ShortList<PhiEntry>, BuildErr>
    requires source { IsSource source.now }
    requires scope { IsScopeIn source.now.module.now scope.now }
    requires ty { IsTypeIn source.now.module.now ty }
    requires said { All (λ e. IsSaidIn source.now.module.now (made_in source.now) e.said) said.now }
    ensures ok { IfOk result (λ es. (s : spec.Scope) → Knows (types_in source.now) scope.now s → all_of (meaning.entry (structs_in source.now) s (type_at (types_in source.now) ty)) (map (entry_in source.now) said.now) ≡ Some (map (entry_of (source_trees source.now)) es)) }
    ensures not_yet { result ≡ Err BuildErr.NotYet → Refuses (types_in source.now) scope.now (λ s. all_of (meaning.entry (structs_in source.now) s (type_at (types_in source.now) ty)) (map (entry_in source.now) said.now)) }
{
    match said {
        [x] => Ok(ShortList::one(entry(alloc, source, scope, ty, x)?)),
        [x, y] => {
            let first = entry(alloc, source, scope, ty, x)?;
            let second = entry(alloc, source, scope, ty, y)?;
            Ok(ShortList::two(first, second))
        }
        _ => all_entries(alloc, source, scope, ty, said),
    }
}

/// Whether the operands fit the row, which is asked where it is not known.
fn fits_row(source: &Source<'_>, said: &RowLine, known: bool) -> bool
    requires source { IsSource source.now }
    requires said { IsRowIn source.now.module.now (made_in source.now) said.now }
    requires known { IsTrue known → IsFittingRow (source_trees source.now) said.now }
    ensures { result ≡ fits_trees said.now.op (option_map (type_at (types_in source.now)) said.now.written) (map (λ (x : Typed). type_at (types_in source.now) x.ty) said.now.operands) }
{
    known || row_fits(source, said)
}

/// A row whose operands fit it.
fn row(
    alloc: Global,
    source: &Source<'_>,
    scope: &Scope<'_>,
    said: &RowLine,
    fits: bool,
) -> Result<LLVMInst, BuildErr>
    requires source { IsSource source.now }
    requires scope { IsScopeIn source.now.module.now scope.now }
    requires said { IsRowIn source.now.module.now (made_in source.now) said.now }
    requires known { IsTrue fits → IsFittingRow (source_trees source.now) said.now }
    ensures ok { IfOk result (λ i. (s : spec.Scope) → Knows (types_in source.now) scope.now s → meaning.instruction (structs_in source.now) s (row_in source.now said.now) ≡ Some (instruction_of (source_trees source.now) i)) }
    ensures typed { IfOk result (λ i. (ty : LLVMType) → IsTypedInst source.now.module.now ty i) }
    ensures fits { OnOk result (IsFittingRow (source_trees source.now) said.now) }
    ensures not_yet { result ≡ Err BuildErr.NotYet → Refuses (types_in source.now) scope.now (λ s. meaning.instruction (structs_in source.now) s (row_in source.now said.now)) }
{
    let named = operands(alloc, source, scope, said.operands.as_slice())?;
    let blocks = targets(alloc, source, scope, said.targets.as_slice())?;
    if !fits_row(source, said, fits) {
        return Err(BuildErr::NotYet);
    }
    Ok(LLVMInst::Row(Row {
        op: said.op,
        written: said.written,
        operands: named,
        targets: blocks,
    }))
}

/// An instruction, of which it may be known that its operands fit.
pub(crate) fn instruction(
    alloc: Global,
    source: &Source<'_>,
    scope: &Scope<'_>,
    inst: &Inst,
    fits: bool,
) -> Result<LLVMInst, BuildErr>
    requires source { IsSource source.now }
    requires scope { IsScopeIn source.now.module.now scope.now }
    requires inst { IsInstIn source.now.module.now (made_in source.now) inst.now }
    requires known { IsTrue fits → IsFitting (source_trees source.now) inst.now }
    ensures ok { IfOk result (λ i. (s : spec.Scope) → Knows (types_in source.now) scope.now s → meaning.instruction (structs_in source.now) s (inst_in source.now inst.now) ≡ Some (instruction_of (source_trees source.now) i)) }
    ensures typed { IfOk result (λ i. (ty : LLVMType) → type_at (types_in source.now) ty ≡ option_map_or (λ (τ : TypeTree). τ) (meaning.result_type (inst_in source.now inst.now)) VoidType → IsTypedInst source.now.module.now ty i) }
    ensures fits { OnOk result (IsFitting (source_trees source.now) inst.now) }
    ensures not_yet { result ≡ Err BuildErr.NotYet → Refuses (types_in source.now) scope.now (λ s. meaning.instruction (structs_in source.now) s (inst_in source.now inst.now)) }
{
    match inst {
        Inst::Phi(ty, said) => {
            let made = entries(alloc, source, scope, *ty, said.as_slice())?;
            Ok(LLVMInst::Phi(*ty, made))
        }
        Inst::Row(said) => row(alloc, source, scope, said, fits),
    }
}
