//! The first pass: what the lines of a function define, in the order of the text.

ghost use Rattle.std.specs.Prelude.{◌≡◌, ◌+◌, [], ◌∷◌, None, Some, Err, OnOk, IfOk, All, map, length};
ghost use Rattle.ll_lines.specs.Views.{IsInstIn, IsPartIn};
ghost use Rattle.ll_bodies.specs.Meaning as meaning;
ghost use Rattle.ll_bodies.specs.BlockViews.{lines_of};
ghost use Rattle.ll_bodies.specs.ScopeViews.{Takes, Refuses, Adds};
ghost use Rattle.ll_bodies.specs.SourceViews.{IsSource, made_in, types_in, lines_in, line_scope, block_scope, block_in, param_in, param_scope, HasLinesIn, IsResultAt, IsResultAmong, IsOfBlock, IsOfBlocks, IsParamAmong};
ghost use Rattle.ll_bodies.specs.declared.scope.Local.TheVariants as code_local;

use crate::blocks::SaidBlock;
use crate::build_err::BuildErr;
use crate::results::{Source, result_type};
use crate::scope::{Local, Scope};
use crate::written::{define_label, define_local};
use ll_lines::lines::{Line, Param, Part};
use llvm_core::numbers::{LLVMBasicBlock, LLVMFunction, LLVMInstRef};
use std::alloc::Global;

/// The number behind a number.
pub fn next_number(number: u32) -> Result<u32, BuildErr>
    ensures next { IfOk result (λ n. n ≡ number + 1) }
    ensures not_yet { ¬ (result ≡ Err BuildErr.NotYet) }
{
    match number.checked_add(1) {
        Some(next) => Ok(next),
        // a list of 2^32 things cannot be held
        None => Err(BuildErr::NoMemory),
    }
}

/// Defines the result of a line, where it has one. A line without a result has no name.
fn define_result<'a>(
    alloc: Global,
    source: &Source<'a>,
    scope: &mut Scope<'a>,
    number: u32,
    line: &Line,
) -> Result<(), BuildErr>
    requires source { IsSource source.now }
    requires line { IsInstIn source.now.module.now (made_in source.now) line.now.inst }
    ensures ok { OnOk result (Takes (types_in source.now) scope.old scope.new (line_scope source.now number line.now)) }
    ensures adds { OnOk result (Adds (IsResultAt source.now number line.now) scope.old scope.new) }
    ensures not_yet { result ≡ Err BuildErr.NotYet → Refuses (types_in source.now) scope.old (line_scope source.now number line.now) }
{
    match result_type(source, &line.inst) {
        Some(ty) => {
            let local = Local::Result(LLVMInstRef(number), ty);
            define_local(alloc, source.bytes, scope, local, line.result)
        }
        None => match line.result {
            Some(_) => Err(BuildErr::NotYet),
            None => Ok(()),
        },
    }
}

/// Defines the result of a part, where it is a line that has one, and answers the number behind it.
fn define_part<'a>(
    alloc: Global,
    source: &Source<'a>,
    scope: &mut Scope<'a>,
    number: u32,
    part: &Part,
) -> Result<u32, BuildErr>
    requires source { IsSource source.now }
    requires part { IsPartIn source.now.module.now (made_in source.now) part.now }
    ensures next { IfOk result (λ n. n ≡ number + length (lines_of (part.now ∷ []))) }
    ensures ok { OnOk result (Takes (types_in source.now) scope.old scope.new (λ s. meaning.lines_scope s number (lines_in source.now (part.now ∷ [])))) }
    ensures adds { OnOk result (Adds (IsResultAmong source.now number (lines_of (part.now ∷ []))) scope.old scope.new) }
    ensures not_yet { result ≡ Err BuildErr.NotYet → Refuses (types_in source.now) scope.old (λ s. meaning.lines_scope s number (lines_in source.now (part.now ∷ []))) }
{
    match part {
        Part::Label(_) => Ok(number),
        Part::Does(line) => {
            define_result(alloc, source, scope, number, line)?;
            next_number(number)
        }
    }
}

/// Defines the results of lines, which have the numbers from `first` on, and answers the number behind them.
pub fn define_lines<'a>(
    alloc: Global,
    source: &Source<'a>,
    scope: &mut Scope<'a>,
    first: u32,
    lines: &[Part],
) -> Result<u32, BuildErr>
    requires source { IsSource source.now }
    requires lines { All (IsPartIn source.now.module.now (made_in source.now)) lines.now }
    ensures next { IfOk result (λ n. n ≡ first + length (lines_of lines.now)) }
    ensures ok { OnOk result (Takes (types_in source.now) scope.old scope.new (λ s. meaning.lines_scope s first (lines_in source.now lines.now))) }
    ensures adds { OnOk result (Adds (IsResultAmong source.now first (lines_of lines.now)) scope.old scope.new) }
    ensures not_yet { result ≡ Err BuildErr.NotYet → Refuses (types_in source.now) scope.old (λ s. meaning.lines_scope s first (lines_in source.now lines.now)) }
{
    let mut number = first;
    for part in lines {
        number = define_part(alloc, source, scope, number, part)?;
    }
    Ok(number)
}

/// Defines a block, which has a number, and the results of its lines, which have the numbers from `first` on; answers the number
/// behind them.
fn define_block<'a>(
    alloc: Global,
    source: &Source<'a>,
    scope: &mut Scope<'a>,
    number: u32,
    first: u32,
    block: &SaidBlock<'a>,
) -> Result<u32, BuildErr>
    requires source { IsSource source.now }
    requires lines { All (IsPartIn source.now.module.now (made_in source.now)) block.now.lines.now }
    ensures next { IfOk result (λ n. n ≡ first + length (lines_of block.now.lines.now)) }
    ensures ok { OnOk result (Takes (types_in source.now) scope.old scope.new (block_scope source.now number first block.now)) }
    ensures adds { OnOk result (Adds (IsOfBlock source.now number first block.now) scope.old scope.new) }
    ensures not_yet { result ≡ Err BuildErr.NotYet → Refuses (types_in source.now) scope.old (block_scope source.now number first block.now) }
{
    let local = Local::Block(LLVMBasicBlock(number));
    define_label(alloc, source.bytes, scope, local, block.label)?;
    define_lines(alloc, source, scope, first, block.lines)
}

/// Defines blocks, which have the numbers from `first_block` on, and the results of their lines, which have those from `first` on.
pub fn define_blocks<'a>(
    alloc: Global,
    source: &Source<'a>,
    scope: &mut Scope<'a>,
    first_block: u32,
    first: u32,
    blocks: &[SaidBlock<'a>],
) -> Result<(), BuildErr>
    requires source { IsSource source.now }
    requires lines { All (HasLinesIn source.now.module.now (made_in source.now)) blocks.now }
    ensures ok { OnOk result (Takes (types_in source.now) scope.old scope.new (λ s. meaning.blocks_scope s first_block first (map (block_in source.now) blocks.now))) }
    ensures adds { OnOk result (Adds (IsOfBlocks source.now first_block first blocks.now) scope.old scope.new) }
    ensures not_yet { result ≡ Err BuildErr.NotYet → Refuses (types_in source.now) scope.old (λ s. meaning.blocks_scope s first_block first (map (block_in source.now) blocks.now)) }
{
    let mut number = first_block;
    let mut next = first;
    for block in blocks {
        next = define_block(alloc, source, scope, number, next, block)?;
        number = next_number(number)?;
    }
    Ok(())
}

/// Defines a parameter of a function, at its place.
fn define_param<'a>(
    alloc: Global,
    source: &Source<'a>,
    scope: &mut Scope<'a>,
    f: LLVMFunction,
    place: u32,
    param: &Param,
) -> Result<(), BuildErr>
    ensures ok { OnOk result (Takes (types_in source.now) scope.old scope.new (param_scope source.now f.0 place param.now)) }
    ensures adds { OnOk result (Adds (λ (y : Local). y ≡ code_local.Param f place param.now.ty) scope.old scope.new) }
    ensures not_yet { result ≡ Err BuildErr.NotYet → Refuses (types_in source.now) scope.old (param_scope source.now f.0 place param.now) }
{
    let local = Local::Param(f, place, param.ty);
    define_local(alloc, source.bytes, scope, local, param.name)
}

/// Defines the parameters of a function.
pub fn define_params<'a>(
    alloc: Global,
    source: &Source<'a>,
    scope: &mut Scope<'a>,
    f: LLVMFunction,
    params: &[Param],
) -> Result<(), BuildErr>
    ensures ok { OnOk result (Takes (types_in source.now) scope.old scope.new (λ s. meaning.params_scope s f.0 0 (map (param_in source.now) params.now))) }
    ensures adds { OnOk result (Adds (IsParamAmong f params.now) scope.old scope.new) }
    ensures not_yet { result ≡ Err BuildErr.NotYet → Refuses (types_in source.now) scope.old (λ s. meaning.params_scope s f.0 0 (map (param_in source.now) params.now)) }
{
    let mut place = 0;
    for param in params {
        define_param(alloc, source, scope, f, place, param)?;
        place = next_number(place)?;
    }
    Ok(())
}
