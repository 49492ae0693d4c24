//! The second pass: what lines name, in the scope of their whole function.

ghost use Rattle.std.specs.Prelude.{◌≡◌, ◌<◌, nat_eq, if◌then◌else◌, List, None, Some, Err, IfOk, IfSome, All, map, length};
ghost use Rattle.std.specs.Option.{option_map};
ghost use Rattle.kinds.specs.Types.{TypeTree, same_tree};
ghost use Rattle.llvm_core.specs.Module.{Module};
ghost use Rattle.llvm_core.specs.Sound.{IsModule};
ghost use Rattle.llvm_core.specs.Data.{type_at, const_at, const_type, trees_of, operand_of};
ghost use Rattle.llvm_core.specs.Data as trees;
ghost use Rattle.ll_lines.specs.Lines as lines;
ghost use Rattle.ll_lines.specs.Views.{text_of, IsTypeIn, IsConstIn, IsSaidIn, IsTypedIn};
ghost use Rattle.ll_bodies.specs.Scopes as spec;
ghost use Rattle.ll_bodies.specs.Scopes.{local_of, value_of_type, option_block, block_of};
ghost use Rattle.ll_bodies.specs.Meaning as meaning;
ghost use Rattle.ll_bodies.specs.Meaning.{all_of};
ghost use Rattle.ll_bodies.specs.ScopeViews.{local_view, Knows, Refuses};
ghost use Rattle.ll_bodies.specs.SourceViews.{IsSource, source_trees, structs_in, made_in, constant_in, types_in, said_in, typed_in, IsLocalIn, IsScopeIn};

use crate::build_err::BuildErr;
use crate::constants::number;
use crate::names::of_local;
use crate::results::Source;
use crate::scope::{Local, Scope};
use crate::written::known;
use ll_lines::lines::{Said, SaidConst, Typed};
use ll_lines::names::Name;
use llvm_core::code::LLVMValue;
use llvm_core::numbers::{LLVMBasicBlock, LLVMConst, LLVMType};
use std::alloc::Global;
use support::short_list::ShortList;

/// The value, where the type is its own.
fn of_type(value: LLVMValue, own: LLVMType, ty: LLVMType) -> Option<LLVMValue>
    ensures { result ≡ (if nat_eq own.0 ty.0 then Some value else None) }
{
    (own == ty).then_some(value)
}

/// What is defined, where it is a value of that type.
fn value_of(local: Local, ty: LLVMType) -> Option<LLVMValue>
    ensures { (m : Module) → IsModule m → IsLocalIn m local → IsTypeIn m ty → value_of_type (type_at (trees_of m).types ty) (Some (local_view (trees_of m).types local)) ≡ option_map (operand_of (trees_of m)) result }
{
    match local {
        Local::Param(f, place, own) => of_type(LLVMValue::Param(f, place), own, ty),
        Local::Result(i, own) => of_type(LLVMValue::Inst(i), own, ty),
        Local::Block(_) => None,
    }
}

/// What a key stands for, where it is a value of that type.
fn local_value(local: Option<Local>, ty: LLVMType) -> Option<LLVMValue>
    ensures { (m : Module) → IsModule m → IfSome local (IsLocalIn m) → IsTypeIn m ty → value_of_type (type_at (trees_of m).types ty) (option_map (local_view (trees_of m).types) local) ≡ option_map (operand_of (trees_of m)) result }
{
    match local {
        Some(local) => value_of(local, ty),
        None => None,
    }
}

/// A constant, where it has that type.
fn constant(source: &Source<'_>, ty: LLVMType, c: LLVMConst) -> Option<LLVMValue>
    requires source { IsSource source.now }
    requires ty { IsTypeIn source.now.module.now ty }
    requires constant { c.0 < length source.now.module.now.consts }
    ensures { (if same_tree (const_type (const_at (source_trees source.now).consts c)) (type_at (types_in source.now) ty) then Some (trees.Constant (const_at (source_trees source.now).consts c)) else None) ≡ option_map (operand_of (source_trees source.now)) result }
{
    let value = LLVMValue::Const(c);
    of_type(value, source.module.type_of(value), ty)
}

/// What a written constant means, where it means one of that type.
fn said_constant(source: &Source<'_>, ty: LLVMType, said: SaidConst) -> Option<LLVMValue>
    requires source { IsSource source.now }
    requires ty { IsTypeIn source.now.module.now ty }
    requires said { IsConstIn source.now.module.now (made_in source.now) said }
    ensures { constant_in source.now (type_at (types_in source.now) ty) said ≡ option_map (operand_of (source_trees source.now)) result }
{
    match number(source.consts, said) {
        Some(c) => constant(source, ty, c),
        None => None,
    }
}

/// The value that a local's token says, which is refused where it is not of the type.
#[inline(always)]
fn named_value(
    alloc: Global,
    source: &Source<'_>,
    scope: &Scope<'_>,
    ty: LLVMType,
    name: Name,
) -> Result<LLVMValue, BuildErr>
    requires source { IsSource source.now }
    requires scope { IsScopeIn source.now.module.now scope.now }
    requires ty { IsTypeIn source.now.module.now ty }
    ensures ok { IfOk result (λ v. (s : spec.Scope) → Knows (types_in source.now) scope.now s → value_of_type (type_at (types_in source.now) ty) (local_of s (text_of source.now.bytes.now name)) ≡ Some (operand_of (source_trees source.now) v)) }
    ensures not_yet { result ≡ Err BuildErr.NotYet → Refuses (types_in source.now) scope.now (λ s. value_of_type (type_at (types_in source.now) ty) (local_of s (text_of source.now.bytes.now name))) }
{
    match known(alloc, scope, of_local(name.text(source.bytes))) {
        Ok(local) => local_value(local, ty).ok_or(BuildErr::NotYet),
        Err(_) => Err(BuildErr::NoMemory),
    }
}

/// What is said as an operand of a type, which is refused where it means nothing.
#[inline(always)]
pub fn operand(
    alloc: Global,
    source: &Source<'_>,
    scope: &Scope<'_>,
    ty: LLVMType,
    said: Said,
) -> Result<LLVMValue, BuildErr>
    requires source { IsSource source.now }
    requires scope { IsScopeIn source.now.module.now scope.now }
    requires ty { IsTypeIn source.now.module.now ty }
    requires said { IsSaidIn source.now.module.now (made_in source.now) said }
    ensures ok { IfOk result (λ v. (s : spec.Scope) → Knows (types_in source.now) scope.now s → meaning.operand (structs_in source.now) s (type_at (types_in source.now) ty) (said_in source.now said) ≡ Some (operand_of (source_trees source.now) v)) }
    ensures not_yet { result ≡ Err BuildErr.NotYet → Refuses (types_in source.now) scope.now (λ s. meaning.operand (structs_in source.now) s (type_at (types_in source.now) ty) (said_in source.now said)) }
{
    match said {
        Said::Const(c) => said_constant(source, ty, c).ok_or(BuildErr::NotYet),
        Said::Local(name) => named_value(alloc, source, scope, ty, name),
    }
}

/// What is defined, where it is a block.
fn local_block(local: Option<Local>) -> Option<LLVMBasicBlock>
    ensures { (types : List TypeTree) → option_block (option_map (local_view types) local) ≡ option_map (λ (b : LLVMBasicBlock). b.0) result }
{
    match local {
        Some(Local::Block(b)) => Some(b),
        _ => None,
    }
}

/// The block that a name says, which is refused where it says none.
pub fn block(
    alloc: Global,
    source: &Source<'_>,
    scope: &Scope<'_>,
    name: Name,
) -> Result<LLVMBasicBlock, BuildErr>
    ensures ok { IfOk result (λ b. (s : spec.Scope) → Knows (types_in source.now) scope.now s → block_of s (text_of source.now.bytes.now name) ≡ Some b.0) }
    ensures not_yet { result ≡ Err BuildErr.NotYet → Refuses (types_in source.now) scope.now (λ s. block_of s (text_of source.now.bytes.now name)) }
{
    match known(alloc, scope, of_local(name.text(source.bytes))) {
        Ok(local) => local_block(local).ok_or(BuildErr::NotYet),
        Err(_) => Err(BuildErr::NoMemory),
    }
}

/// The operands of a row, of any number.
fn all_operands(
    alloc: Global,
    source: &Source<'_>,
    scope: &Scope<'_>,
    typed: &[Typed],
) -> Result<ShortList<LLVMValue>, BuildErr>
    requires source { IsSource source.now }
    requires scope { IsScopeIn source.now.module.now scope.now }
    requires typed { All (IsTypedIn source.now.module.now (made_in source.now)) typed.now }
    ensures ok { IfOk result (λ vs. (s : spec.Scope) → Knows (types_in source.now) scope.now s → all_of (λ (x : lines.Typed). meaning.operand (structs_in source.now) s x.type x.said) (map (typed_in source.now) typed.now) ≡ Some (map (operand_of (source_trees source.now)) vs)) }
    ensures not_yet { result ≡ Err BuildErr.NotYet → Refuses (types_in source.now) scope.now (λ s. all_of (λ (x : lines.Typed). meaning.operand (structs_in source.now) s x.type x.said) (map (typed_in source.now) typed.now)) }
{
    let mut values = ShortList::zero();
    for x in typed {
        let value = operand(alloc, source, scope, x.ty, x.said)?;
        values.push(alloc, value)?;
    }
    Ok(values)
}

/// The operands of a row. Most rows have one or two, which make their list at once.
pub fn operands(
    alloc: Global,
    source: &Source<'_>,
    scope: &Scope<'_>,
    typed: &[Typed],
) -> Result<ShortList<LLVMValue>, BuildErr>
    requires source { IsSource source.now }
    requires scope { IsScopeIn source.now.module.now scope.now }
    requires typed { All (IsTypedIn source.now.module.now (made_in source.now)) typed.now }
    ensures ok { IfOk result (λ vs. (s : spec.Scope) → Knows (types_in source.now) scope.now s → all_of (λ (x : lines.Typed). meaning.operand (structs_in source.now) s x.type x.said) (map (typed_in source.now) typed.now) ≡ Some (map (operand_of (source_trees source.now)) vs)) }
    ensures not_yet { result ≡ Err BuildErr.NotYet → Refuses (types_in source.now) scope.now (λ s. all_of (λ (x : lines.Typed). meaning.operand (structs_in source.now) s x.type x.said) (map (typed_in source.now) typed.now)) }
{
    match typed {
        [x] => Ok(ShortList::one(operand(alloc, source, scope, x.ty, x.said)?)),
        [x, y] => {
            let first = operand(alloc, source, scope, x.ty, x.said)?;
            let second = operand(alloc, source, scope, y.ty, y.said)?;
            Ok(ShortList::two(first, second))
        }
        _ => all_operands(alloc, source, scope, typed),
    }
}

/// The blocks that a row leads to, of any number.
fn all_targets(
    alloc: Global,
    source: &Source<'_>,
    scope: &Scope<'_>,
    names: &[Name],
) -> Result<ShortList<LLVMBasicBlock>, BuildErr>
    ensures ok { IfOk result (λ bs. (s : spec.Scope) → Knows (types_in source.now) scope.now s → all_of (block_of s) (map (text_of source.now.bytes.now) names.now) ≡ Some (map (λ (b : LLVMBasicBlock). b.0) bs)) }
    ensures not_yet { result ≡ Err BuildErr.NotYet → Refuses (types_in source.now) scope.now (λ s. all_of (block_of s) (map (text_of source.now.bytes.now) names.now)) }
{
    let mut blocks = ShortList::zero();
    for name in names {
        let found = block(alloc, source, scope, *name)?;
        blocks.push(alloc, found)?;
    }
    Ok(blocks)
}

/// The blocks that a row leads to. Of one or two the list is made at once.
pub fn targets(
    alloc: Global,
    source: &Source<'_>,
    scope: &Scope<'_>,
    names: &[Name],
) -> Result<ShortList<LLVMBasicBlock>, BuildErr>
    ensures ok { IfOk result (λ bs. (s : spec.Scope) → Knows (types_in source.now) scope.now s → all_of (block_of s) (map (text_of source.now.bytes.now) names.now) ≡ Some (map (λ (b : LLVMBasicBlock). b.0) bs)) }
    ensures not_yet { result ≡ Err BuildErr.NotYet → Refuses (types_in source.now) scope.now (λ s. all_of (block_of s) (map (text_of source.now.bytes.now) names.now)) }
{
    match names {
        [x] => Ok(ShortList::one(block(alloc, source, scope, *x)?)),
        [x, y] => {
            let first = block(alloc, source, scope, *x)?;
            let second = block(alloc, source, scope, *y)?;
            Ok(ShortList::two(first, second))
        }
        _ => all_targets(alloc, source, scope, names),
    }
}
