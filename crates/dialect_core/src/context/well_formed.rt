//! Whether a module of a context keeps the rules of the dialect.

ghost use Rattle.std.specs.Prelude.{◌<◌, ◌↔◌, IsTrue, length};
ghost use Rattle.dialect_core.specs.Data.{IsTyped};
ghost use Rattle.dialect_core.specs.WellFormed.{IsWellFormed};

use super::Context;
use crate::numbers::ModuleOp;
use crate::well_formed::well_formed;

impl Context {
    /// Whether a module is well-formed. This takes no memory, so it compares the names of functions in pairs, in time
    /// quadratic in their number.
    pub fn well_formed(&self, root: ModuleOp) -> bool
        requires root { root.0.0 < length self.now.ops }
        requires typed { IsTyped self.now }
        ensures { IsTrue result ↔ IsWellFormed self.now root.0.0 }
    {
        well_formed(self, root)
    }
}
