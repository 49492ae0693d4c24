//! Bodies that are handed over whole: their blocks and instructions name each other by the numbers that they get.

ghost use Rattle.std.specs.Prelude.{◌≡◌, ◌⊎◌, ◌+◌, ◌<◌, ◌≤◌, ◌^◌, ◌++◌, [], IfOk, OnOk, length, map};
ghost use Rattle.std.specs.Vec.{vec_len, vec_capacity};
ghost use Rattle.llvm_core.specs.Bodies.{block_numbers, body_blocks, body_insts, inst_in, inst_numbers};

use crate::code::{BlockData, InstData};
use crate::numbers::{LLVMBasicBlock, LLVMFunction, LLVMInstRef};
use std::alloc::{AllocError, Global};
use support::items::Items;
use support::short_list::{ShortList, append_both};
use support::text::Text;

/// A block of a body; an empty name is none.
#[derive(Drop)]
pub struct BodyBlock {
    pub name: Text,
    pub insts: Items<InstData>,
}

/// What a module gets of a body: blocks, their numbers, and instructions.
#[derive(Drop)]
pub(crate) struct Numbered {
    pub numbers: ShortList<LLVMBasicBlock>,
    pub blocks: Vec<BlockData>,
    pub insts: Vec<InstData>,
}

/// Gives the blocks of a body of `f` the numbers from `first_block` on, and its instructions those from `first_inst` on.
pub(crate) fn number_body(
    alloc: Global,
    f: LLVMFunction,
    body: Items<BodyBlock>,
    first_block: u32,
    first_inst: u32,
) -> Result<Numbered, AllocError>
    ensures numbers { IfOk result (λ n. n.numbers ≡ block_numbers first_block body) }
    ensures blocks { IfOk result (λ n. n.blocks.items ≡ body_blocks f first_inst body) }
    ensures insts { IfOk result (λ n. n.insts.items ≡ body_insts first_block body) }
    ensures few_blocks { IfOk result (λ n. first_block + length n.blocks.items < 2 ^ 32) }
    ensures few_insts { IfOk result (λ n. first_inst + length n.insts.items < 2 ^ 32) }
{
    let mut next_block = first_block;
    let mut next_inst = first_inst;
    let mut numbers = ShortList::zero();
    let mut blocks = Vec::new(alloc);
    let mut insts = Vec::new(alloc);
    for block in body.into_vec() {
        let number = LLVMBasicBlock(take_number(&mut next_block)?);
        let (of_block, next) = push_insts(alloc, number, block.insts, next_inst, &mut insts)?;
        next_inst = next;
        let row = BlockData {
            name: block.name,
            function: f,
            insts: of_block,
        };
        append_both(alloc, &mut blocks, &mut numbers, row, number)?;
    }
    Ok(Numbered {
        numbers,
        blocks,
        insts,
    })
}

/// Appends the instructions of a block, under the numbers from `first` on, and answers these and the next one.
fn push_insts(
    alloc: Global,
    block: LLVMBasicBlock,
    insts: Items<InstData>,
    first: u32,
    rows: &mut Vec<InstData>,
) -> Result<(ShortList<LLVMInstRef>, u32), AllocError>
    ensures numbers { IfOk result (λ r. r.0 ≡ inst_numbers first insts) }
    ensures next { IfOk result (λ r. r.1 ≡ first + length insts) }
    ensures few { IfOk result (λ r. r.1 < 2 ^ 32) }
    ensures rows { OnOk result (rows.new.items ≡ rows.old.items ++ map (inst_in block.0) insts) }
{
    let numbered = numbers_of(alloc, insts.as_slice(), first)?;
    let mut placed = insts.into_vec();
    place(block, placed.as_mut_slice());
    append_all(rows, placed)?;
    Ok(numbered)
}

/// Appends one list to another. The first one is not copied.
fn append_all(rows: &mut Vec<InstData>, more: Vec<InstData>) -> Result<(), AllocError>
    ensures { OnOk result (rows.new.items ≡ rows.old.items ++ more.items) }
{
    if rows.is_empty() {
        *rows = more;
        return Ok(());
    }
    let mut rest = more;
    rows.append(&mut rest)
}

/// Puts instructions into a block.
fn place(block: LLVMBasicBlock, insts: &mut [InstData])
    ensures { insts.new ≡ map (inst_in block.0) insts.old }
{
    for inst in insts.iter_mut() {
        inst.block = block;
    }
}

/// The numbers of instructions, from `first` on, and the next one.
fn numbers_of(
    alloc: Global,
    insts: &[InstData],
    first: u32,
) -> Result<(ShortList<LLVMInstRef>, u32), AllocError>
    ensures numbers { IfOk result (λ r. r.0 ≡ inst_numbers first insts.now) }
    ensures next { IfOk result (λ r. r.1 ≡ first + length insts.now) }
    ensures few { IfOk result (λ r. r.1 < 2 ^ 32) }
{
    let mut next = first;
    let mut numbers = ShortList::zero();
    for _inst in insts {
        numbers.push(alloc, LLVMInstRef(take_number(&mut next)?))?;
    }
    Ok((numbers, next))
}

/// The next number, which is taken.
fn take_number(next: &mut u32) -> Result<u32, AllocError>
    ensures number { IfOk result (λ n. n ≡ next.old) }
    ensures next { OnOk result (next.new ≡ next.old + 1) }
    ensures few { OnOk result (next.new < 2 ^ 32) }
{
    let number = *next;
    if number == u32::MAX {
        return Err(AllocError);
    }
    *next = number + 1;
    Ok(number)
}

/// Makes room behind a list for so many more. An empty list needs none: it is replaced.
pub(crate) fn reserve_behind<T: Drop>(list: &mut Vec<T>, more: usize) -> Result<(), AllocError>
    ensures same { list.new.items ≡ list.old.items }
    ensures room { OnOk result ((list.new.items ≡ []) ⊎ (vec_len list.new + more ≤ vec_capacity list.new)) }
{
    if list.is_empty() {
        return Ok(());
    }
    list.reserve(more)
}

/// Appends one list to another that has the room for it, or is empty: then it becomes the other.
pub(crate) fn append_reserved<T: Drop>(list: &mut Vec<T>, more: Vec<T>)
    requires { (list.old.items ≡ []) ⊎ (vec_len list.old + vec_len more ≤ vec_capacity list.old) }
    ensures { list.new.items ≡ list.old.items ++ more.items }
{
    if list.is_empty() {
        *list = more;
        return;
    }
    let mut rest = more;
    match list.append(&mut rest) {
        Ok(()) => (),
        Err(_) => unreachable!(),
    }
}
