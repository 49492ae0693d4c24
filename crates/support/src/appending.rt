//! Bytes that are appended to, and taken back where memory was wanting.

ghost use Rattle.std.specs.Prelude.{◌≡◌, take, OnErr, OnOk};

use std::alloc::AllocError;

/// Takes back what was appended behind the first `len` bytes, where the printing failed.
pub fn undo_failed(
    printed: Result<(), AllocError>,
    out: &mut Vec<u8>,
    len: usize,
) -> Result<(), AllocError>
    ensures same { result ≡ printed }
    ensures ok { OnOk printed (out.new.items ≡ out.old.items) }
    ensures err { OnErr printed (out.new.items ≡ take len out.old.items) }
{
    if printed.is_err() {
        out.truncate(len);
    }
    printed
}
