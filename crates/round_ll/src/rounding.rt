//! What `round` makes of a text. The module that was read is let go as soon as it is imported and its part of the report is
//! written, so that it and the module back are not held at once.

ghost use Rattle.std.specs.Prelude.{◌≡◌, ◌++◌, ℕ, List, [], IfOk, IfErr, OnOk, codes, length};
ghost use Rattle.llvm_core.specs.Module.{Module};
ghost use Rattle.llvm_core.specs.Sound.{IsModule};
ghost use Rattle.llvm_core.specs.Data.{data_of, AreApart};
ghost use Rattle.dialect_types.specs.Trees.{structs_of};
ghost use Rattle.dialect_core.specs.Data as D;
ghost use Rattle.dialect_core.specs.Text.{module_text};
ghost use Rattle.to_llvm_ir.specs.Held.{IsReadable as IsExportable};
ghost use Rattle.ll_text.specs.Spelling.{IsNumbered, IsReadable, Spells};
ghost use Rattle.transfer.specs.Begun.{IsBegun};
ghost use Rattle.round_ll.specs.Headline.{Rounds};
ghost use Rattle.round_ll.specs.Report.{AllNamed, report_text};
ghost use Rattle.round_ll.specs.Rounding.{IsEnded, IsPrintable, IsStarted, TextCause};

use crate::report::print_report;
use crate::stopped::Stopped;
use ll_print::printer::print_ll;
use ll_text::read::read_ll;
use llvm_core::module::LLVMModule;
use std::alloc::{AllocError, Global};
use transfer::transferred::Transferred;
use transfer::transferring::{Begun, begin, finish};

/// The modules, and the whole output.
#[derive(Drop)]
pub struct Output {
    pub transferred: Box<Transferred>,
    pub text: Vec<u8>,
}

/// What is made of a module before it is let go: its import, the text of that, and the report.
#[derive(Drop)]
struct Started {
    begun: Begun,
    text: Vec<u8>,
    report: Vec<u8>,
}

/// The numbers of a module name what is there, and equal types have equal numbers: its type keeps that.
fn know_sound(m: &LLVMModule)
    ensures sound { IsModule m.now }
    ensures apart { AreApart m.now }
{
    let _ = m.types();
}

/// The report of an import.
fn report_of(alloc: Global, source: &LLVMModule, begun: &Begun) -> Result<Vec<u8>, AllocError>
    requires { AllNamed (length source.now.functions) begun.now.imported.blocks }
    ensures { IfOk result (λ text. text.items ≡ report_text (data_of source.now) begun.now.imported.structs.items begun.now.imported.blocks) }
{
    let mut text = Vec::new(alloc);
    let imported = &begun.imported;
    print_report(
        alloc,
        source,
        imported.structs.as_slice(),
        imported.blocks.as_slice(),
        &mut text,
    )?;
    Ok(text)
}

/// No bytes, with that much room where there is memory for it: room is a wish, and no text is refused for want of it.
fn roomy(alloc: Global, room: usize) -> Vec<u8>
    ensures { result.items ≡ [] }
{
    match Vec::with_capacity(alloc, room) {
        Ok(bytes) => bytes,
        Err(_) => Vec::new(alloc),
    }
}

/// The text of the dialect module, and the line behind it. The bytes have that much room from the first, if they can.
fn dialect_text(alloc: Global, begun: &Begun, room: usize) -> Result<Vec<u8>, AllocError>
    requires { IsExportable begun.now.ctx begun.now.imported.«module».0.0 }
    ensures { IfOk result (λ text. text.items ≡ module_text (structs_of begun.now.ctx.types) (D.data_of begun.now.ctx begun.now.imported.«module».0.0) ++ codes ";; llvm\n") }
{
    let mut text = roomy(alloc, room);
    begun.ctx.print_module(begun.imported.module, &mut text)?;
    text.extend_from_slice(b";; llvm\n")?;
    Ok(text)
}

/// All that is made of a module of the form itself. It is let go before the text of the dialect module is made, which gets
/// that much room.
fn start(alloc: Global, source: LLVMModule, room: usize) -> Result<Started, Stopped>
    requires readable { IsReadable source }
    requires numbered { IsNumbered (data_of source) }
    ensures started { IfOk result (λ s. IsStarted source s.begun s.text.items s.report.items) }
    ensures cause { (text : List ℕ) → Spells text (data_of source) → IfErr result (TextCause text) }
{
    let begun = begin(alloc, &source)?;
    let report = report_of(alloc, &source, &begun)?;
    drop(source);
    let text = dialect_text(alloc, &begun, room)?;
    Ok(Started {
        begun,
        text,
        report,
    })
}

/// Appends the text of the module back, and the report.
fn print_rest(
    alloc: Global,
    back: &LLVMModule,
    report: &[u8],
    text: &mut Vec<u8>,
) -> Result<(), AllocError>
    requires { IsPrintable back.now }
    ensures { OnOk result (IsEnded (data_of back.now) report.now text.old.items text.new.items) }
{
    print_ll(alloc, back, text)?;
    text.extend_from_slice(b";; report\n")?;
    text.extend_from_slice(report)
}

/// The modules, in a box, with the whole output, for what is written of it so far.
fn completed(
    alloc: Global,
    transferred: Transferred,
    mut text: Vec<u8>,
    report: &[u8],
) -> Result<Output, AllocError>
    requires { IsPrintable transferred.back }
    ensures modules { IfOk result (λ o. o.transferred.value ≡ transferred) }
    ensures ended { IfOk result (λ o. IsEnded (data_of transferred.back) report.now text.items o.text.items) }
{
    let transferred = Box::new(alloc, transferred)?;
    print_rest(alloc, &transferred.back, report, &mut text)?;
    Ok(Output { transferred, text })
}

/// The modules and the whole output for what was started, whatever the text that spells its module.
fn end(alloc: Global, started: Started) -> Result<Output, Stopped>
    requires { (m : Module) × IsReadable m × IsNumbered (data_of m) × IsStarted m started.begun started.text.items started.report.items }
    ensures rounds { (m : Module) → IsReadable m → IsNumbered (data_of m) → IsStarted m started.begun started.text.items started.report.items
        → (text : List ℕ) → Spells text (data_of m) → IfOk result (λ o. Rounds text o.transferred.value o.text.items) }
    ensures cause { (text : List ℕ) → IfErr result (TextCause text) }
{
    let Started {
        begun,
        text,
        report,
    } = started;
    let transferred = finish(alloc, begun)?;
    know_sound(&transferred.back);
    let output = completed(alloc, transferred, text, report.as_slice())?;
    Ok(output)
}

/// The modules and the whole output for a text of the form. It is refused only where it spells no checked
/// module of the form, or the one that it spells has a cause to be refused; printing wants nothing but memory. The text
/// is let go once it is read.
pub fn round_text(alloc: Global, bytes: Vec<u8>) -> Result<Output, Stopped>
    ensures rounds { IfOk result (λ o. Rounds bytes.items o.transferred.value o.text.items) }
    ensures cause { IfErr result (TextCause bytes.items) }
{
    let source = read_ll(alloc, bytes.as_slice())?;
    // The output of few texts is longer; room that is not written to costs no memory of the machine.
    let room = bytes.len().saturating_mul(8);
    drop(bytes);
    let started = start(alloc, source, room)?;
    end(alloc, started)
}
