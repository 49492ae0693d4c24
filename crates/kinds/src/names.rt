//! Tests of names.

ghost use Rattle.std.specs.Prelude.{◌≡◌};
ghost use Rattle.kinds.specs.Names.{is_bad_name, is_good_name, is_intrinsic_name, is_own_name};

/// Whether a name is none for a symbol: empty, or with a zero byte.
pub fn is_bad_name(name: &str) -> bool
    ensures { result ≡ is_bad_name name.now }
{
    name.is_empty() || name.as_bytes().contains(&0)
}

/// Whether a name is that of an intrinsic.
pub fn is_intrinsic_name(name: &str) -> bool
    ensures { result ≡ is_intrinsic_name name.now }
{
    name.as_bytes().starts_with(b"llvm.")
}

/// Whether a name is that of a symbol which is no intrinsic.
pub fn is_own_name(name: &str) -> bool
    ensures { result ≡ is_own_name name.now }
{
    !is_bad_name(name) && !is_intrinsic_name(name)
}

/// Whether a name is one that a text can say: neither empty nor with a zero byte.
pub fn is_good_name(name: &str) -> bool
    ensures { result ≡ is_good_name name.now }
{
    !is_bad_name(name)
}
