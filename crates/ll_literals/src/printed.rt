//! Names and texts, as they are written.

ghost use Rattle.std.specs.Prelude.{◌≡◌, ◌++◌, OnOk};
ghost use Rattle.support.specs.Appended.{Keeps};
ghost use Rattle.ll_literals.specs.Names.{printed_text, printed_name};

use crate::escapes::escape;
use crate::names::is_bare;
use std::alloc::AllocError;

/// Appends a text between quotes.
#[inline(never)]
pub fn put_text(text: &[u8], out: &mut Vec<u8>) -> Result<(), AllocError>
    ensures text { OnOk result (out.new.items ≡ out.old.items ++ printed_text text.now) }
    ensures kept { Keeps out.old.items out.new.items }
{
    out.push(b'"')?;
    escape(text, out)?;
    out.push(b'"')?;
    Ok(())
}

/// Appends a name: as it is where it is bare, else between quotes.
pub fn put_name(name: &[u8], out: &mut Vec<u8>) -> Result<(), AllocError>
    ensures text { OnOk result (out.new.items ≡ out.old.items ++ printed_name name.now) }
    ensures kept { Keeps out.old.items out.new.items }
{
    if is_bare(name) {
        out.extend_from_slice(name)
    } else {
        put_text(name, out)
    }
}
