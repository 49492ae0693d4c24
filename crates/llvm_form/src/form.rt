//! Whether a checked module is of the form that is read today.

ghost use Rattle.std.specs.Bool.{Decides};
ghost use Rattle.llvm_core.specs.Data.{data_of};
ghost use Rattle.llvm_core.specs.Checked.{IsChecked};
ghost use Rattle.llvm_core.specs.Form.{IsForm};
ghost use Rattle.llvm_form.specs.Once.{AreInstsOnce};

use crate::functions::is_narrow;
use llvm_core::module::LLVMModule;

#[tactic(auto, using(crate::proofs::FormLaws::form_decided))]
/// Whether a checked module is of the form: each function has a body, names can be said by a text, and types of values are first
/// class. Of a constant its type alone is asked: each that a module keeps is in the one form, and made as its type asks.
pub fn is_form(m: &LLVMModule) -> bool
    requires checked { IsChecked m.now }
    requires once { AreInstsOnce (data_of m.now) }
    ensures { Decides result (IsForm (data_of m.now)) }
{
    // This tells the proof of the invariant.
    let _ = m.functions();
    is_narrow(m)
}
