//! Bodies of functions: what the lines of a function mean, in two passes over them.

ghost use Rattle.std.specs.Prelude.{◌≡◌, None, Some, Err, IfOk, All};
ghost use Rattle.ll_lines.specs.Views.{IsTypeIn, IsFunctionIn};
ghost use Rattle.ll_bodies.specs.Scopes as spec;
ghost use Rattle.ll_bodies.specs.ScopeViews.{Knows, local_at};
ghost use Rattle.ll_bodies.specs.SourceViews.{IsSource, IsScopeIn, HasLinesIn, made_in, structs_in, types_in, source_trees};
ghost use Rattle.llvm_core.specs.Bodies.{blocks_from, IsBodyOf};
ghost use Rattle.ll_bodies.specs.FunctionViews.{function_in, function_scope, function_made, IsNamed, IsNext};
ghost use Rattle.ll_bodies.specs.Scopes.{Key};
ghost use Rattle.ll_literals.specs.Names.{symbol_name};
ghost use Rattle.ll_bodies.specs.Meaning.{function_data};
ghost use Rattle.std.specs.Option.{option_map};

use crate::blocks::{SaidBlock, blocks_of};
use crate::bodies::body_blocks;
use crate::build_err::BuildErr;
use crate::definitions::{define_blocks, define_params};
use crate::results::Source;
use crate::scope::{Local, Scope};
use ll_lines::lines::{Function, Param};
use llvm_core::bodies::BodyBlock;
use llvm_core::numbers::LLVMFunction;
use std::alloc::Global;
use support::items::Items;

/// Room for all that a function defines, as far as its length tells.
fn room(said: &Function) -> usize {
    let params = said.params.as_slice().len();
    params.saturating_add(said.body.as_slice().len())
}

/// The scope of a function, whose blocks have the numbers from `first_block` on, and its instructions those from `first` on, made
/// for about so many names.
fn scope_of<'a>(
    alloc: Global,
    room: usize,
    source: &Source<'a>,
    f: LLVMFunction,
    first_block: u32,
    first: u32,
    params: &[Param],
    blocks: &[SaidBlock<'a>],
) -> Result<Scope<'a>, BuildErr>
    requires source { IsSource source.now }
    requires params { All (λ p. IsTypeIn source.now.module.now p.ty) params.now }
    requires lines { All (HasLinesIn source.now.module.now (made_in source.now)) blocks.now }
    ensures knows { IfOk result (λ scope. (s : spec.Scope) × (function_scope source.now f.0 first_block first params.now blocks.now ≡ Some s) × Knows (types_in source.now) scope s) }
    ensures sound { IfOk result (IsScopeIn source.now.module.now) }
    ensures named { IfOk result (λ scope. (k : Key) (y : Local) → local_at scope k ≡ Some y → IsNamed source.now f first_block first params.now blocks.now y) }
    ensures not_yet { result ≡ Err BuildErr.NotYet → function_scope source.now f.0 first_block first params.now blocks.now ≡ None }
{
    let mut scope = Scope::new(alloc, room);
    define_params(alloc, source, &mut scope, f, params)?;
    define_blocks(alloc, source, &mut scope, first_block, first, blocks)?;
    Ok(scope)
}

/// The body of a function of lines, whose blocks have the numbers from `first_block` on, and its instructions those from `first`
/// on: the blocks that `function_data` gives it, whatever its name says.
pub fn body_of(
    alloc: Global,
    source: &Source<'_>,
    f: LLVMFunction,
    first_block: u32,
    first: u32,
    said: &Function,
) -> Result<Items<BodyBlock>, BuildErr>
    requires source { IsSource source.now }
    requires said { IsFunctionIn source.now.module.now (made_in source.now) said.now }
    ensures ok { IfOk result (λ body. function_data (structs_in source.now) f.0 first_block first (function_in source.now said.now) ≡ option_map (λ name. function_made source.now f.0 said.now name (blocks_from (source_trees source.now) first_block first body)) (symbol_name (function_in source.now said.now).name)) }
    ensures right { IfOk result (λ body. IsNext source.now.module.now f first_block first said.now → IsBodyOf source.now.module.now f body) }
    ensures not_yet { result ≡ Err BuildErr.NotYet → function_data (structs_in source.now) f.0 first_block first (function_in source.now said.now) ≡ None }
{
    let blocks = blocks_of(alloc, said.body.as_slice())?;
    let scope = scope_of(
        alloc,
        room(said),
        source,
        f,
        first_block,
        first,
        said.params.as_slice(),
        blocks.as_slice(),
    )?;
    body_blocks(alloc, source, &scope, blocks.as_slice())
}
