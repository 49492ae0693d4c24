//! What tests ask of a module made by hand, and the answers in words.

ghost use Rattle.std.specs.Prelude.{◌<◌, length};
ghost use Rattle.dialect_core.specs.Data.{IsTyped};

use crate::exports::export_of;
use crate::hand::{Step, make};
use crate::traces::dialect_shows;
use dialect_core::context::Context;
use dialect_core::numbers::ModuleOp;
use std::alloc::Global;
use std::marker::Brand;
use std::sync::ledger::Blank;
use to_llvm_ir::readable::is_readable;

/// What is asked of a module.
#[derive(Clone, Copy)]
pub enum Question<'a> {
    /// Whether it is well-formed.
    WellFormed,
    /// Whether it is well-formed and can be exported.
    Exportable,
    /// What the export answers.
    Export,
    /// Whether it is well-formed and the trace of its first function shows this.
    Trace(&'a str),
}

/// The answer of a question with two.
fn word(is_so: bool) -> &'static str {
    if is_so { "yes" } else { "no" }
}

fn ask(alloc: Global, ctx: &Context, root: ModuleOp, question: Question<'_>) -> &'static str
    requires typed { IsTyped ctx.now }
    requires there { root.0.0 < length ctx.now.ops }
{
    match question {
        Question::WellFormed => word(ctx.well_formed(root)),
        Question::Exportable => word(ctx.well_formed(root) && is_readable(ctx, root)),
        Question::Export => export_of(alloc, ctx, root),
        Question::Trace(want) => word(dialect_shows(alloc, ctx, root, want)),
    }
}

/// The answer of a module by the steps of two rows.
pub fn answer(
    alloc: Global,
    first: &[Step],
    then: &[Step],
    question: Question<'_>,
) -> &'static str {
    let mut ctx = Context::new(alloc);
    match make::<Brand>(alloc, &mut ctx, first, then, Blank::new(1)) {
        Some(root) => ask(alloc, &ctx, root, question),
        None => "not made",
    }
}
