//! Blocks of lines to blocks of a body, in the scope of their whole function.

ghost use Rattle.std.specs.Prelude.{◌≡◌, [], ◌∷◌, ℕ, List, Some, Err, IfOk, OnOk, All, map};
ghost use Rattle.std.specs.Option.{option_map_or};
ghost use Rattle.kinds.specs.Types.{TypeTree, VoidType};
ghost use Rattle.llvm_core.specs.Data.{type_at};
ghost use Rattle.ll_lines.specs.Views.{IsTypeIn, IsInstIn, IsPartIn};
ghost use Rattle.ll_bodies.specs.Scopes as spec;
ghost use Rattle.ll_bodies.specs.Scopes.{label_key, written_name};
ghost use Rattle.ll_bodies.specs.Meaning as meaning;
ghost use Rattle.ll_bodies.specs.Meaning.{all_from, blocks_data};
ghost use Rattle.ll_bodies.specs.BlockViews.{lines_of};
ghost use Rattle.ll_bodies.specs.ScopeViews.{Knows, Refuses};
ghost use Rattle.ll_bodies.specs.SourceViews.{IsSource, IsScopeIn, IsFitting, FitsIfNamed, IsSettled, HasSettled, HasLinesIn, source_trees, structs_in, made_in, types_in, inst_in, line_in, lines_in, block_in};
ghost use Rattle.ll_bodies.specs.BodyViews.{placed_one, Made, Extends, MadeBlocks};
ghost use Rattle.ll_bodies.specs.TypedViews.{IsTypedBody, AreTypedInsts, AreTypedBlocks};

use crate::blocks::SaidBlock;
use crate::build_err::BuildErr;
use crate::instructions::instruction;
use crate::names::{label_name, local_name};
use crate::results::{Source, fitting_type};
use crate::scope::Scope;
use ll_lines::lines::{Inst, Line, Part};
use llvm_core::bodies::BodyBlock;
use llvm_core::code::InstData;
use llvm_core::numbers::LLVMType;
use std::alloc::Global;
use support::items::Items;
use support::text::Text;

/// The type of the result of a line whose operands fit, void where it has none.
fn type_or_void(source: &Source<'_>, inst: &Inst) -> LLVMType
    requires source { IsSource source.now }
    requires inst { IsInstIn source.now.module.now (made_in source.now) inst.now }
    requires fits { IsFitting (source_trees source.now) inst.now }
    ensures ty { type_at (types_in source.now) result ≡ option_map_or (λ (τ : TypeTree). τ) (meaning.result_type (inst_in source.now inst.now)) VoidType }
    ensures within { IsTypeIn source.now.module.now result }
{
    match fitting_type(source, inst) {
        Some(ty) => ty,
        None => source.void,
    }
}

/// A line as an instruction of a body.
fn body_inst(
    alloc: Global,
    source: &Source<'_>,
    scope: &Scope<'_>,
    line: &Line,
) -> Result<InstData, BuildErr>
    requires source { IsSource source.now }
    requires scope { IsScopeIn source.now.module.now scope.now }
    requires line { IsInstIn source.now.module.now (made_in source.now) line.now.inst }
    requires fits { FitsIfNamed (source_trees source.now) line.now }
    ensures ok { IfOk result (λ x. (s : spec.Scope) (n : ℕ) → Knows (types_in source.now) scope.now s → meaning.placed (structs_in source.now) s n (line_in source.now line.now) ≡ Some (placed_one (source_trees source.now) n x)) }
    ensures typed { IfOk result (IsTypedBody source.now.module.now) }
    ensures not_yet { result ≡ Err BuildErr.NotYet → (n : ℕ) → Refuses (types_in source.now) scope.now (λ s. meaning.placed (structs_in source.now) s n (line_in source.now line.now)) }
{
    let written = local_name(alloc, source.bytes, line.result)?;
    let name = Text::copy(alloc, written.as_str())?;
    // the first pass has seen that a line which names its result has one
    let inst = instruction(alloc, source, scope, &line.inst, line.result.is_some())?;
    let ty = type_or_void(source, &line.inst);
    Ok(InstData::unplaced(name, ty, inst))
}

/// Puts a part behind the instructions so far, where it is a line.
fn add_part(
    alloc: Global,
    source: &Source<'_>,
    scope: &Scope<'_>,
    part: &Part,
    made: &mut Items<InstData>,
) -> Result<(), BuildErr>
    requires source { IsSource source.now }
    requires scope { IsScopeIn source.now.module.now scope.now }
    requires part { IsPartIn source.now.module.now (made_in source.now) part.now }
    requires fits { IsSettled (source_trees source.now) part.now }
    ensures ok { OnOk result (Extends source.now scope.now (lines_of (part.now ∷ [])) made.old made.new) }
    ensures typed { OnOk result (AreTypedInsts source.now.module.now made.old → AreTypedInsts source.now.module.now made.new) }
    ensures not_yet { result ≡ Err BuildErr.NotYet → (n : ℕ) → Refuses (types_in source.now) scope.now (λ s. all_from (meaning.placed (structs_in source.now) s) n (lines_in source.now (part.now ∷ []))) }
{
    match part {
        Part::Label(_) => Ok(()),
        Part::Does(line) => {
            let inst = body_inst(alloc, source, scope, line)?;
            made.push(inst)?;
            Ok(())
        }
    }
}

/// Lines as instructions of a body.
fn body_insts(
    alloc: Global,
    source: &Source<'_>,
    scope: &Scope<'_>,
    lines: &[Part],
) -> Result<Items<InstData>, BuildErr>
    requires source { IsSource source.now }
    requires scope { IsScopeIn source.now.module.now scope.now }
    requires lines { All (IsPartIn source.now.module.now (made_in source.now)) lines.now }
    requires fits { All (IsSettled (source_trees source.now)) lines.now }
    ensures ok { IfOk result (Made source.now scope.now (lines_of lines.now)) }
    ensures typed { IfOk result (AreTypedInsts source.now.module.now) }
    ensures not_yet { result ≡ Err BuildErr.NotYet → (n : ℕ) → Refuses (types_in source.now) scope.now (λ s. all_from (meaning.placed (structs_in source.now) s) n (lines_in source.now lines.now)) }
{
    let mut made = Items::from_vec(Vec::with_capacity(alloc, lines.len())?);
    for part in lines {
        add_part(alloc, source, scope, part, &mut made)?;
    }
    Ok(made)
}

/// A block as a block of a body.
fn body_block(
    alloc: Global,
    source: &Source<'_>,
    scope: &Scope<'_>,
    block: &SaidBlock<'_>,
) -> Result<BodyBlock, BuildErr>
    requires source { IsSource source.now }
    requires scope { IsScopeIn source.now.module.now scope.now }
    requires lines { HasLinesIn source.now.module.now (made_in source.now) block.now }
    requires fits { HasSettled (source_trees source.now) block.now }
    ensures name { IfOk result (λ x. x.name ≡ written_name label_key (block_in source.now block.now).label) }
    ensures insts { IfOk result (λ x. Made source.now scope.now (lines_of block.now.lines.now) x.insts) }
    ensures typed { IfOk result (λ x. AreTypedInsts source.now.module.now x.insts) }
    ensures not_yet { result ≡ Err BuildErr.NotYet → (n : ℕ) → Refuses (types_in source.now) scope.now (λ s. all_from (meaning.placed (structs_in source.now) s) n (block_in source.now block.now).lines) }
{
    let written = label_name(alloc, source.bytes, block.label)?;
    let name = Text::copy(alloc, written.as_str())?;
    let insts = body_insts(alloc, source, scope, block.lines)?;
    Ok(BodyBlock { name, insts })
}

/// Blocks as a body.
pub(crate) fn body_blocks(
    alloc: Global,
    source: &Source<'_>,
    scope: &Scope<'_>,
    blocks: &[SaidBlock<'_>],
) -> Result<Items<BodyBlock>, BuildErr>
    requires source { IsSource source.now }
    requires scope { IsScopeIn source.now.module.now scope.now }
    requires lines { All (HasLinesIn source.now.module.now (made_in source.now)) blocks.now }
    requires fits { All (HasSettled (source_trees source.now)) blocks.now }
    ensures ok { IfOk result (MadeBlocks source.now scope.now blocks.now) }
    ensures typed { IfOk result (AreTypedBlocks source.now.module.now) }
    ensures not_yet { result ≡ Err BuildErr.NotYet → (b n : ℕ) → Refuses (types_in source.now) scope.now (λ s. blocks_data (structs_in source.now) s b n (map (block_in source.now) blocks.now)) }
{
    let mut made = Items::from_vec(Vec::with_capacity(alloc, blocks.len())?);
    for block in blocks {
        let body = body_block(alloc, source, scope, block)?;
        made.push(body)?;
    }
    Ok(made)
}
