//! The names that stand in a function, and whether one of them stands there twice.

ghost use Rattle.std.specs.Prelude.{◌≡◌, ◌<◌, ◌++◌, [], IfOk, IsTrue, OnOk, Some, false, length, slice_get};
ghost use Rattle.std.specs.List.{flat_map};
ghost use Rattle.std.specs.Option.{option_map, option_map_or};
ghost use Rattle.llvm_core.specs.Names.{HasTwice, Stands, texts};
ghost use Rattle.llvm_core.specs.Checked.{named, inst_names, block_names, local_names};

use crate::module::LLVMModule;
use crate::name_set::NameSet;
use crate::numbers::{LLVMBasicBlock, LLVMFunction, LLVMInstRef};
use std::alloc::{AllocError, Global};
use support::items::Items;

/// Appends a name, where there is one.
fn push_named<'a>(names: &mut Items<&'a str>, name: &'a str) -> Result<(), AllocError>
    ensures { OnOk result (texts names.new ≡ texts names.old ++ named name.now) }
{
    if !name.is_empty() {
        names.push(name)?;
    }
    Ok(())
}

/// Appends the names of a block and of its results.
fn push_block<'a>(
    m: &'a LLVMModule,
    b: LLVMBasicBlock,
    names: &mut Items<&'a str>,
) -> Result<(), AllocError>
    requires { b.0 < length m.now.blocks }
    ensures { OnOk result (texts names.new ≡ texts names.old ++ block_names m.now b) }
{
    push_named(names, m.block_name(b))?;
    for inst in m.instructions(b) {
        push_named(names, m.inst_name(*inst))?;
    }
    Ok(())
}

/// Appends the names of a function to no names.
fn push_locals<'a>(
    m: &'a LLVMModule,
    f: LLVMFunction,
    names: &mut Items<&'a str>,
) -> Result<(), AllocError>
    requires within { f.0 < length m.now.functions }
    requires none { names.old ≡ [] }
    ensures { OnOk result (option_map (local_names m.now) (slice_get m.now.functions f.0) ≡ Some (texts names.new)) }
{
    for name in m.params(f) {
        push_named(names, name.as_str())?;
    }
    for block in m.blocks(f) {
        push_block(m, *block, names)?;
    }
    Ok(())
}

/// How many names a block has, its own and those of its results.
fn count_in_block(m: &LLVMModule, b: LLVMBasicBlock) -> usize
    requires { b.0 < length m.now.blocks }
{
    let mut count = usize::from(!m.block_name(b).is_empty());
    for inst in m.instructions(b) {
        if !m.inst_name(*inst).is_empty() {
            count = count.saturating_add(1);
        }
    }
    count
}

/// For how many names a function needs room.
fn room_for(m: &LLVMModule, f: LLVMFunction) -> usize
    requires { f.0 < length m.now.functions }
{
    let mut count = m.params(f).len();
    for block in m.blocks(f) {
        count = count.saturating_add(count_in_block(m, *block));
    }
    count
}

/// The names of the parameters, blocks and results of a function.
pub(crate) fn local_names<'a>(
    m: &'a LLVMModule,
    f: LLVMFunction,
) -> Result<Items<&'a str>, AllocError>
    requires { f.0 < length m.now.functions }
    ensures { IfOk result (λ names. option_map (local_names m.now) (slice_get m.now.functions f.0) ≡ Some (texts names)) }
{
    let mut names = Items::from_vec(Vec::with_capacity(m.allocator(), room_for(m, f))?);
    push_locals(m, f, &mut names)?;
    Ok(names)
}

/// So many names are compared each with each, without a set.
const FEW: usize = 16;

/// Whether a name stands in a list.
fn stands(names: &[&str], name: &str) -> bool
    ensures yes { IsTrue result → Stands (texts names.now) name.now }
    ensures no { result ≡ false → ¬ Stands (texts names.now) name.now }
{
    for other in names {
        if other.len() == name.len() && *other == name {
            return true;
        }
    }
    false
}

/// Whether one of a few names stands twice in a list.
fn finds_twice_in_few(names: &[&str]) -> bool
    ensures yes { IsTrue result → HasTwice (texts names.now) }
    ensures no { result ≡ false → ¬ HasTwice (texts names.now) }
{
    for place in 0..names.len() {
        if stands(&names[..place], names[place]) {
            return true;
        }
    }
    false
}

/// Whether a name stands twice in a list. Until then the names are noted, where none was noted before.
fn finds_twice<'a>(names: &[&'a str], seen: &mut NameSet<'a>) -> Result<bool, AllocError>
    requires { seen.old ≡ [] }
    ensures yes { IfOk result (λ twice. IsTrue twice → HasTwice (texts names.now)) }
    ensures no { IfOk result (λ twice. twice ≡ false → ¬ HasTwice (texts names.now)) }
{
    for name in names {
        if !seen.insert(*name)? {
            return Ok(true);
        }
    }
    Ok(false)
}

/// Whether a name stands twice in a list.
pub(crate) fn has_twice(alloc: Global, names: &[&str]) -> Result<bool, AllocError>
    ensures yes { IfOk result (λ twice. IsTrue twice → HasTwice (texts names.now)) }
    ensures no { IfOk result (λ twice. twice ≡ false → ¬ HasTwice (texts names.now)) }
{
    if names.len() <= FEW {
        return Ok(finds_twice_in_few(names));
    }
    let mut seen = NameSet::new(alloc);
    seen.reserve(names.len())?;
    finds_twice(names, &mut seen)
}
