//! The report of a translation.

ghost use Rattle.std.specs.Prelude.{◌≡◌, ◌<◌, ◌++◌, OnErr, OnOk, codes, length};
ghost use Rattle.std.specs.Fmt.{decimal};
ghost use Rattle.llvm_core.specs.Data.{data_of};
ghost use Rattle.ll_literals.specs.Names.{printed_name};
ghost use Rattle.round_ll.specs.Report.{places_text, blocks_line, blocks_text, struct_line, structs_text, report_text, AllNamed, HoldsFront};

use dialect_types::identifier::Identifier;
use from_llvm_ir::matching::FunctionBlocks;
use itoa::Buffer;
use ll_literals::printed::{put_name, put_text};
use llvm_core::module::LLVMModule;
use std::alloc::{AllocError, Global};

/// Appends a place behind a blank.
fn print_place(place: u32, out: &mut Vec<u8>) -> Result<(), AllocError>
    ensures ok { OnOk result (out.new.items ≡ out.old.items ++ (codes " " ++ decimal place)) }
    ensures err { OnErr result (HoldsFront out.old.items out.new.items (codes " " ++ decimal place)) }
{
    out.push(b' ')?;
    let mut digits = Buffer::new();
    out.extend_from_slice(digits.format(place).as_bytes())
}

/// Appends the places of a function's blocks, each behind a blank.
fn print_places(places: &[u32], out: &mut Vec<u8>) -> Result<(), AllocError>
    ensures ok { OnOk result (out.new.items ≡ out.old.items ++ places_text places.now) }
    ensures err { OnErr result (HoldsFront out.old.items out.new.items (places_text places.now)) }
{
    for place in places {
        print_place(*place, out)?;
    }
    Ok(())
}

/// Appends a name as a text has it, all of it or nothing.
fn print_symbol(alloc: Global, name: &str, out: &mut Vec<u8>) -> Result<(), AllocError>
    ensures ok { OnOk result (out.new.items ≡ out.old.items ++ printed_name name.now) }
    ensures err { OnErr result (out.new.items ≡ out.old.items) }
{
    let mut text = Vec::new(alloc);
    put_name(name.as_bytes(), &mut text)?;
    out.extend_from_slice(text.as_slice())
}

/// Appends the line of a function: its symbol, and the dialect place of each of its blocks.
fn print_blocks(
    alloc: Global,
    module: &LLVMModule,
    blocks: &FunctionBlocks,
    out: &mut Vec<u8>,
) -> Result<(), AllocError>
    requires { blocks.now.function.0 < length «module».now.functions }
    ensures ok { OnOk result (out.new.items ≡ out.old.items ++ blocks_line (data_of «module».now) blocks.now) }
    ensures err { OnErr result (HoldsFront out.old.items out.new.items (blocks_line (data_of «module».now) blocks.now)) }
{
    out.extend_from_slice(b"blocks @")?;
    print_symbol(alloc, module.function_name(blocks.function), out)?;
    print_places(blocks.places.as_slice(), out)?;
    out.push(b'\n')?;
    Ok(())
}

/// Appends the line of a struct: its name in the source between quotes, and what the dialect calls it; all of it or nothing.
fn print_struct(
    alloc: Global,
    source: &str,
    identifier: &Identifier,
    out: &mut Vec<u8>,
) -> Result<(), AllocError>
    ensures ok { OnOk result (out.new.items ≡ out.old.items ++ struct_line source.now identifier.now) }
    ensures err { OnErr result (out.new.items ≡ out.old.items) }
{
    let mut line = Vec::new(alloc);
    line.extend_from_slice(b"struct ")?;
    put_text(source.as_bytes(), &mut line)?;
    line.extend_from_slice(b" ")?;
    line.extend_from_slice(identifier.as_str().as_bytes())?;
    line.push(b'\n')?;
    out.extend_from_slice(line.as_slice())
}

/// Appends the lines of structs in order. Where memory is wanting, a front of them may stand behind what was there.
fn print_structs(
    alloc: Global,
    structs: &[(String, Identifier)],
    out: &mut Vec<u8>,
) -> Result<(), AllocError>
    ensures ok { OnOk result (out.new.items ≡ out.old.items ++ structs_text structs.now) }
    ensures err { OnErr result (HoldsFront out.old.items out.new.items (structs_text structs.now)) }
{
    for (source, identifier) in structs {
        print_struct(alloc, source.as_str(), identifier, out)?;
    }
    Ok(())
}

/// Appends the lines of functions in order. Where memory is wanting, a front of them may stand behind what was there.
fn print_all_blocks(
    alloc: Global,
    module: &LLVMModule,
    blocks: &[FunctionBlocks],
    out: &mut Vec<u8>,
) -> Result<(), AllocError>
    requires { AllNamed (length «module».now.functions) blocks.now }
    ensures ok { OnOk result (out.new.items ≡ out.old.items ++ blocks_text (data_of «module».now) blocks.now) }
    ensures err { OnErr result (HoldsFront out.old.items out.new.items (blocks_text (data_of «module».now) blocks.now)) }
{
    for x in blocks {
        print_blocks(alloc, module, x, out)?;
    }
    Ok(())
}

/// Appends the report: a line for each struct that is matched, and then one for each function with a body. Where memory is
/// wanting, a front of it may stand behind what was there.
pub fn print_report(
    alloc: Global,
    module: &LLVMModule,
    structs: &[(String, Identifier)],
    blocks: &[FunctionBlocks],
    out: &mut Vec<u8>,
) -> Result<(), AllocError>
    requires { AllNamed (length «module».now.functions) blocks.now }
    ensures ok { OnOk result (out.new.items ≡ out.old.items ++ report_text (data_of «module».now) structs.now blocks.now) }
    ensures err { OnErr result (HoldsFront out.old.items out.new.items (report_text (data_of «module».now) structs.now blocks.now)) }
{
    print_structs(alloc, structs, out)?;
    print_all_blocks(alloc, module, blocks, out)
}
