//! A body cut into blocks.

ghost use Rattle.std.specs.Prelude.{◌≡◌, ◌+◌, ℕ, List, [], None, Some, Err, map, slice_get, All, OnOk, IfOk};
ghost use Rattle.llvm_core.specs.Module.{Module};
ghost use Rattle.llvm_core.specs.Data.{Trees};
ghost use Rattle.ll_lines.specs.Lines.{SaidConst};
ghost use Rattle.ll_lines.specs.declared.lines.Part.TheVariants as code_part;
ghost use Rattle.ll_lines.specs.Views.{text_of, line_view, part_view, IsPartIn};
ghost use Rattle.ll_bodies.specs.Meaning as meaning;
ghost use Rattle.ll_bodies.specs.Meaning.{ends_block, unlabelled};
ghost use Rattle.ll_bodies.specs.SourceViews.{HasLinesIn};
ghost use Rattle.ll_bodies.specs.BlockViews.{lines_view, blocks_view, block_view, behind_view, BeginsWithLine, IsBehind};

use crate::build_err::BuildErr;
use ll_lines::lines::{Inst, Line, Part};
use ll_lines::names::Name;
use std::alloc::Global;

/// A block as it is said: what is written of its name, and its lines, which are parts of the body.
#[derive(Clone, Copy, Drop)]
pub struct SaidBlock<'a> {
    pub label: Option<Name>,
    pub lines: &'a [Part],
}

/// What is said from a place of a body on: lines before the next label or behind the next end of a block, and the blocks behind
/// them, the last first.
#[derive(Drop)]
struct Behind<'a> {
    lines: &'a [Part],
    blocks: Vec<SaidBlock<'a>>,
}

/// Whether the line ends its block.
fn ends_block(line: &Line) -> bool
    ensures { (bytes : List ℕ) (t : Trees) (table : List SaidConst) → result ≡ ends_block (line_view bytes t table line.now) }
{
    match &line.inst {
        Inst::Phi(_, _) => false,
        Inst::Row(row) => row.op.rule().leads.ends(),
    }
}

impl<'a> Behind<'a> {
    /// Makes a block without a label of the lines, where there are any.
    fn put_unlabelled(&mut self) -> Result<(), BuildErr>
        requires { BeginsWithLine self.old.lines.now }
        ensures ok { OnOk result ((bytes : List ℕ) (t : Trees) (table : List SaidConst) → blocks_view bytes t table self.new.blocks.items ≡ unlabelled (lines_view bytes t table self.old.lines.now) (blocks_view bytes t table self.old.blocks.items)) }
        ensures lines { self.new.lines ≡ self.old.lines }
        ensures kept { (m : Module) (made : ℕ) → All (IsPartIn m made) self.old.lines.now → All (HasLinesIn m made) self.old.blocks.items → All (HasLinesIn m made) self.new.blocks.items }
        ensures not_yet { ¬ (result ≡ Err BuildErr.NotYet) }
    {
        if !self.lines.is_empty() {
            self.blocks.push(SaidBlock {
                label: None,
                lines: self.lines,
            })?;
        }
        Ok(())
    }

    /// Puts the line at a place of the body before what is said behind it.
    fn put_line(&mut self, parts: &'a [Part], at: usize, line: &Line) -> Result<(), BuildErr>
        requires line { slice_get parts.now at ≡ Some (code_part.Does line.now) }
        requires behind { IsBehind parts.now (at + 1) self.old.lines.now }
        ensures ok { OnOk result ((bytes : List ℕ) (t : Trees) (table : List SaidConst) → meaning.put_line (line_view bytes t table line.now) (behind_view bytes t table self.old) ≡ Some (behind_view bytes t table self.new)) }
        ensures behind { OnOk result (IsBehind parts.now at self.new.lines.now) }
        ensures kept { (m : Module) (made : ℕ) → All (IsPartIn m made) self.old.lines.now → All (HasLinesIn m made) self.old.blocks.items → All (HasLinesIn m made) self.new.blocks.items }
        ensures not_yet { result ≡ Err BuildErr.NotYet → (bytes : List ℕ) (t : Trees) (table : List SaidConst) → meaning.put_line (line_view bytes t table line.now) (behind_view bytes t table self.old) ≡ None }
    {
        if ends_block(line) {
            self.put_unlabelled()?;
            self.lines = &parts[at..at + 1];
            return Ok(());
        }
        if self.lines.is_empty() {
            return Err(BuildErr::NotYet);
        }
        self.lines = &parts[at..at + 1 + self.lines.len()];
        Ok(())
    }

    /// Puts a label before what is said behind it.
    fn put_label(&mut self, label: Name) -> Result<(), BuildErr>
        requires { BeginsWithLine self.old.lines.now }
        ensures ok { OnOk result ((bytes : List ℕ) (t : Trees) (table : List SaidConst) → meaning.put_label (text_of bytes label) (behind_view bytes t table self.old) ≡ Some (behind_view bytes t table self.new)) }
        ensures lines { OnOk result (self.new.lines.now ≡ []) }
        ensures kept { (m : Module) (made : ℕ) → All (IsPartIn m made) self.old.lines.now → All (HasLinesIn m made) self.old.blocks.items → All (HasLinesIn m made) self.new.blocks.items }
        ensures not_yet { result ≡ Err BuildErr.NotYet → (bytes : List ℕ) (t : Trees) (table : List SaidConst) → meaning.put_label (text_of bytes label) (behind_view bytes t table self.old) ≡ None }
    {
        if self.lines.is_empty() {
            return Err(BuildErr::NotYet);
        }
        self.blocks.push(SaidBlock {
            label: Some(label),
            lines: self.lines,
        })?;
        self.lines = &[];
        Ok(())
    }
}

/// The blocks of a body.
pub fn blocks_of<'a>(alloc: Global, parts: &'a [Part]) -> Result<Vec<SaidBlock<'a>>, BuildErr>
    ensures ok { IfOk result (λ bs. (bytes : List ℕ) (t : Trees) (table : List SaidConst) → meaning.blocks_of (map (part_view bytes t table) parts.now) ≡ Some (map (block_view bytes t table) bs.items)) }
    ensures lines { IfOk result (λ bs. (m : Module) (made : ℕ) → All (IsPartIn m made) parts.now → All (HasLinesIn m made) bs.items) }
    ensures not_yet { result ≡ Err BuildErr.NotYet → (bytes : List ℕ) (t : Trees) (table : List SaidConst) → meaning.blocks_of (map (part_view bytes t table) parts.now) ≡ None }
{
    let mut behind = Behind {
        lines: &[],
        blocks: Vec::new(alloc),
    };
    let mut at = parts.len();
    while at > 0 {
        at -= 1;
        match &parts[at] {
            Part::Label(label) => behind.put_label(*label)?,
            Part::Does(line) => behind.put_line(parts, at, line)?,
        }
    }
    behind.put_unlabelled()?;
    let mut blocks = behind.blocks;
    blocks.reverse();
    Ok(blocks)
}
