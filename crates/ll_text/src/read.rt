//! Reads LLVM text to a module in memory.

ghost use Rattle.std.specs.Prelude.{◌≡◌, ℕ, [], List, Err, Some, IfOk, OnOk};
ghost use Rattle.grammars.specs.declared.symbols.Event.{Event};
ghost use Rattle.llvm_core.specs.Checked.{IsChecked};
ghost use Rattle.llvm_core.specs.Data.{ModuleData, data_of, trees_of};
ghost use Rattle.llvm_core.specs.Form.{IsForm};
ghost use Rattle.llvm_core.specs.Sound.{IsModule};
ghost use Rattle.ll_tokens.specs.declared.tokens.Token.{Token};
ghost use Rattle.ll_lines.specs.Lines.{File};
ghost use Rattle.ll_lines.specs.Views.{file_view, IsFileIn};
ghost use Rattle.ll_bodies.specs.Meaning.{file_data};
ghost use Rattle.ll_written.specs.Reading.{AreReadAs, IsReadAs};
ghost use Rattle.llvm_form.specs.Once.{AreInstsOnce};
ghost use Rattle.ll_text.specs.declared.read_err.ReadErr.TheVariants as errors;
ghost use Rattle.ll_text.specs.Spelling.{Means, Spells, IsSpelled, IsNumbered};

use crate::read_err::ReadErr;
use grammars::choices::Choices;
use ll_bodies::adding::add_file;
use ll_bodies::build_err::BuildErr;
use ll_classes::llvm_words::llvm_words;
use ll_events::event_err::EventErr;
use ll_events::reading::{Reading, events};
use ll_rules::tables::llvm;
use ll_values::read::read_file;
use ll_values::value_err::ValueErr;
use llvm_core::check_err::CheckErr;
use llvm_core::checking::check;
use llvm_core::module::LLVMModule;
use llvm_form::form::is_form;
use std::alloc::Global;

/// The tokens and the events of a text.
fn read_events(alloc: Global, bytes: &[u8]) -> Result<Reading, ReadErr>
    ensures read { IfOk result (λ r. AreReadAs bytes.now r.tokens.items r.events.items) }
    ensures not_yet { result ≡ Err errors.NotYet → (ts : List Token) (es : List Event) → ¬ AreReadAs bytes.now ts es }
{
    let grammar = llvm();
    let choices = Choices::new(alloc, &grammar)?;
    let words = llvm_words();
    match events(alloc, &grammar, &choices, &words, 0, bytes) {
        Ok(reading) => Ok(reading),
        Err(EventErr::BadToken(_)) => Err(ReadErr::NotYet),
        Err(EventErr::Refused(_)) => Err(ReadErr::NotYet),
        Err(EventErr::NoMemory) => Err(ReadErr::NoMemory),
    }
}

/// What a text says, whose types and constants are added to the module.
fn read_lines(
    alloc: Global,
    m: &mut LLVMModule,
    bytes: &[u8],
) -> Result<ll_lines::lines::File, ReadErr>
    ensures says { IfOk result (λ f. IsReadAs bytes.now (file_view bytes.now (trees_of m.new) f)) }
    ensures there { IfOk result (IsFileIn m.new) }
    ensures rest { OnOk result (data_of m.new ≡ data_of m.old) }
    ensures sound { OnOk result (IsModule m.new) }
    ensures not_yet { result ≡ Err errors.NotYet → (f : File) → ¬ IsReadAs bytes.now f }
{
    let reading = match read_events(alloc, bytes) {
        Ok(reading) => reading,
        Err(e) => return Err(e),
    };
    let Reading { tokens, events } = reading;
    match read_file(alloc, m, bytes, tokens, events) {
        Ok(file) => Ok(file),
        Err(ValueErr::NoMemory) => Err(ReadErr::NoMemory),
        Err(ValueErr::NotYet) => Err(ReadErr::NotYet),
    }
}

/// Gives an empty module what the lines of a text mean.
fn fill(alloc: Global, m: &mut LLVMModule, bytes: &[u8]) -> Result<(), ReadErr>
    requires { ((data_of m.old).structs ≡ []) × ((data_of m.old).functions ≡ []) }
    ensures means { OnOk result (Means bytes.now (data_of m.new)) }
    ensures sound { OnOk result (IsModule m.new) }
    ensures not_yet { result ≡ Err errors.NotYet → (d : ModuleData) → ¬ Means bytes.now d }
{
    let file = match read_lines(alloc, m, bytes) {
        Ok(file) => file,
        Err(e) => return Err(e),
    };
    match add_file(alloc, m, bytes, &file) {
        Ok(()) => Ok(()),
        Err(BuildErr::NoMemory) => Err(ReadErr::NoMemory),
        Err(BuildErr::NotYet) => Err(ReadErr::NotYet),
    }
}

/// The module that the lines of a text mean, which may break a rule.
fn build(alloc: Global, bytes: &[u8]) -> Result<LLVMModule, ReadErr>
    ensures means { IfOk result (λ m. Means bytes.now (data_of m)) }
    ensures sound { IfOk result IsModule }
    ensures not_yet { result ≡ Err errors.NotYet → (d : ModuleData) → ¬ Means bytes.now d }
{
    let mut m = LLVMModule::new(alloc, "")?;
    let filled = fill(alloc, &mut m, bytes);
    filled.and(Ok(m))
}

/// A module that breaks a rule is outside the form.
fn check_built(m: &LLVMModule) -> Result<(), ReadErr>
    ensures checked { OnOk result (IsChecked m.now) }
    ensures not_yet { result ≡ Err errors.NotYet → ¬ IsChecked m.now }
{
    let Err(rule) = check(m) else {
        return Ok(());
    };
    match rule {
        CheckErr::NoMemory => Err(ReadErr::NoMemory),
        _ => Err(ReadErr::NotYet),
    }
}

/// A module that the lines of a text mean has to be checked, and of the form.
fn check_form(m: &LLVMModule) -> Result<(), ReadErr>
    requires once { AreInstsOnce (data_of m.now) }
    ensures checked { OnOk result (IsChecked m.now) }
    ensures form { OnOk result (IsForm (data_of m.now)) }
    ensures not_yet { result ≡ Err errors.NotYet → IsChecked m.now → ¬ IsForm (data_of m.now) }
{
    match check_built(m) {
        Err(e) => Err(e),
        Ok(()) if is_form(m) => Ok(()),
        Ok(()) => Err(ReadErr::NotYet),
    }
}

/// The module that a text of the form spells. A text is refused only where it spells no checked module of the
/// form, however the parts of such a module are numbered.
pub fn read_ll(alloc: Global, bytes: &[u8]) -> Result<LLVMModule, ReadErr>
    ensures spelled { IfOk result (λ m. Spells bytes.now (data_of m)) }
    ensures numbered { IfOk result (λ m. IsNumbered (data_of m)) }
    ensures form { IfOk result (λ m. IsForm (data_of m)) }
    ensures checked { IfOk result IsChecked }
    ensures sound { IfOk result IsModule }
    ensures not_yet { result ≡ Err errors.NotYet → ¬ IsSpelled bytes.now }
{
    let built = build(alloc, bytes)?;
    check_form(&built).and(Ok(built))
}
