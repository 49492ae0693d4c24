//! The call that names a module.

ghost use Rattle.std.specs.Prelude.{◌≡◌, OnErr, OnOk};
ghost use Rattle.llvm_core.specs.Data.{data_of};
ghost use Rattle.llvm_core.specs.Sound.{IsModule};

use super::LLVMModule;
use std::alloc::AllocError;
use support::text::Text;

impl LLVMModule {
    /// Gives the module a name in place of the one that it has.
    pub fn set_name(&mut self, name: &str) -> Result<(), AllocError>
        ensures ok { OnOk result (self.new ≡ record self.old { name = name.now }) }
        ensures err { OnErr result (self.new ≡ self.old) }
        ensures data { OnOk result (data_of self.new ≡ record (data_of self.old) { name = name.now }) }
        ensures sound { IsModule self.new }
    {
        self.name = Text::copy(self.alloc, name)?;
        Ok(())
    }
}
