//! The dialect text of a module of a context.

ghost use Rattle.std.specs.Prelude.{◌≡◌, ◌<◌, ◌++◌, OnErr, OnOk, length};
ghost use Rattle.dialect_types.specs.Trees.{structs_of};
ghost use Rattle.dialect_core.specs.Data.{data_of, IsTyped};
ghost use Rattle.dialect_core.specs.Text.{module_text};

use super::Context;
use crate::module_printing::print_module;
use crate::numbers::ModuleOp;
use std::alloc::AllocError;
use support::appending::undo_failed;

impl Context {
    /// Appends the dialect text of a module, with the structs with names of its context. Want of memory leaves `out` as it was.
    pub fn print_module(&self, root: ModuleOp, out: &mut Vec<u8>) -> Result<(), AllocError>
        requires root { root.0.0 < length self.now.ops }
        requires typed { IsTyped self.now }
        ensures ok { OnOk result (out.new.items ≡ out.old.items ++ module_text (structs_of self.now.types) (data_of self.now root.0.0)) }
        ensures err { OnErr result (out.new.items ≡ out.old.items) }
    {
        let len = out.len();
        let printed = print_module(self.alloc, self, root, out);
        undo_failed(printed, out, len)
    }
}
