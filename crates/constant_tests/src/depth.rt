//! Constants nest at most 1,000 deep, whatever their types nest.

use dialect_parsing::parse_err::ParseErr;
use dialect_parsing::parsing::parse_attr;
use dialect_types::type_store::TypeStore;
use std::alloc::{AllocError, Global};

/// A type that nests so many arrays above `builtin.fp16`.
fn append_type(out: &mut Vec<u8>, arrays: usize) -> Result<(), AllocError> {
    for _ in 0..arrays {
        out.extend_from_slice(b"llvm.array [1 x ")?;
    }
    out.extend_from_slice(b"builtin.fp16")?;
    for _ in 0..arrays {
        out.extend_from_slice(b"]")?;
    }
    Ok(())
}

/// So many aggregates, each in the next, above the zero of such a type.
fn aggregates(alloc: Global, levels: usize, arrays: usize) -> Result<Vec<u8>, AllocError> {
    let mut text = Vec::new(alloc);
    for _ in 0..levels {
        text.extend_from_slice(b"llvm.aggregate <[")?;
    }
    text.extend_from_slice(b"llvm.zero <")?;
    append_type(&mut text, arrays)?;
    text.extend_from_slice(b">")?;
    for _ in 0..levels {
        text.extend_from_slice(b"] : builtin.fp16>")?;
    }
    Ok(text)
}

/// So many splats, each in the next.
fn splats(alloc: Global, levels: usize) -> Result<Vec<u8>, AllocError> {
    let mut text = Vec::new(alloc);
    for _ in 0..levels {
        text.extend_from_slice(b"llvm.splat <")?;
    }
    text.extend_from_slice(b"llvm.bytes <[]>")?;
    for _ in 0..levels {
        text.extend_from_slice(b" : builtin.fp16>")?;
    }
    Ok(text)
}

/// Whether a text is read, and the constant prints as it.
fn is_read(alloc: Global, text: Result<Vec<u8>, AllocError>) -> bool {
    let Ok(text) = text else {
        return false;
    };
    let mut types = TypeStore::new(alloc);
    let Ok(constant) = parse_attr(alloc, &mut types, text.as_slice()) else {
        return false;
    };
    let mut out = Vec::new(alloc);
    constant.print(&types, &mut out).is_ok() && out.as_slice() == text.as_slice()
}

/// Whether a text is refused as none of a constant.
fn is_refused(alloc: Global, text: Result<Vec<u8>, AllocError>) -> bool {
    let Ok(text) = text else {
        return false;
    };
    let mut types = TypeStore::new(alloc);
    matches!(
        parse_attr(alloc, &mut types, text.as_slice()),
        Err(ParseErr::Syntax(_))
    )
}

#[test]
fn constants_nest_at_most_1000_deep(rt: HostRuntime) {
    assert!(rt; is_read(rt.alloc(), aggregates(rt.alloc(), 999, 0)));
    assert!(rt; is_refused(rt.alloc(), aggregates(rt.alloc(), 1000, 0)));
    assert!(rt; is_read(rt.alloc(), splats(rt.alloc(), 999)));
    assert!(rt; is_refused(rt.alloc(), splats(rt.alloc(), 1000)));
}

#[test]
fn types_nest_on_their_own(rt: HostRuntime) {
    assert!(rt; is_read(rt.alloc(), aggregates(rt.alloc(), 999, 999)));
    assert!(rt; is_refused(rt.alloc(), aggregates(rt.alloc(), 0, 1000)));
}
