//! The rules of structs with a name, but for how deep they nest.

ghost use Rattle.std.specs.Prelude.{◌≡◌, ◌<◌, ◌+◌, ℕ, [], IfErr, IfOk, OnOk, length};
ghost use Rattle.llvm_core.specs.declared.check_err.Place.TheVariants as places;
ghost use Rattle.llvm_core.specs.declared.check_err.CheckErr.TheVariants as errors;
ghost use Rattle.llvm_core.specs.Checked.{Fails, MayAnswer, IsCheckedStruct, struct_names, struct_names_before};

use crate::check_err::{CheckErr, Place};
use crate::module::LLVMModule;
use crate::name_set::NameSet;
use crate::numbers::LLVMStruct;
use crate::operands::TOO_LONG;
use kinds::names::is_bad_name;

/// Notes the name of a struct after those before it.
fn check_name<'a>(m: &'a LLVMModule, s: LLVMStruct, seen: &mut NameSet<'a>) -> Result<(), CheckErr>
    requires within { s.0 < length m.now.structs }
    requires seen { seen.old ≡ struct_names_before m.now s.0 }
    ensures seen { OnOk result (seen.new ≡ struct_names_before m.now (s.0 + 1)) }
    ensures ok { OnOk result (¬ Fails m.now (errors.NameTwice (places.Struct s.0))) }
    ensures err { IfErr result (λ e. MayAnswer m.now e) }
{
    let name = m.struct_name(s);
    if is_bad_name(name) {
        return Err(CheckErr::NameTwice(Place::Struct(s.0)));
    }
    if !seen.insert(name)? {
        return Err(CheckErr::NameTwice(Place::Struct(s.0)));
    }
    Ok(())
}

fn check_fields(m: &LLVMModule, s: LLVMStruct) -> Result<(), CheckErr>
    requires { s.0 < length m.now.structs }
    ensures ok { OnOk result (¬ Fails m.now (errors.ListTooLong (places.Struct s.0))) }
    ensures err { IfErr result (λ e. Fails m.now e) }
{
    let Some(body) = m.struct_body(s) else {
        return Ok(());
    };
    if body.types.as_slice().len() >= TOO_LONG {
        return Err(CheckErr::ListTooLong(Place::Struct(s.0)));
    }
    Ok(())
}

/// The rules of all structs, whose names are noted where none was noted before.
fn check_each<'a>(m: &'a LLVMModule, seen: &mut NameSet<'a>) -> Result<(), CheckErr>
    requires { seen.old ≡ [] }
    ensures seen { OnOk result (seen.new ≡ struct_names m.now) }
    ensures ok { OnOk result ((s : ℕ) → s < length m.now.structs → IsCheckedStruct m.now s) }
    ensures err { IfErr result (λ e. MayAnswer m.now e) }
{
    for s in 0..m.structs() {
        check_name(m, LLVMStruct(s), seen)?;
        check_fields(m, LLVMStruct(s))?;
    }
    Ok(())
}

/// The rules of all structs, which give the set of their names.
pub(crate) fn check_structs<'a>(m: &'a LLVMModule) -> Result<NameSet<'a>, CheckErr>
    ensures names { IfOk result (λ names. names ≡ struct_names m.now) }
    ensures ok { OnOk result ((s : ℕ) → s < length m.now.structs → IsCheckedStruct m.now s) }
    ensures err { IfErr result (λ e. MayAnswer m.now e) }
{
    let mut seen = NameSet::new(m.allocator());
    seen.reserve(m.structs() as usize)?;
    check_each(m, &mut seen)?;
    Ok(seen)
}
