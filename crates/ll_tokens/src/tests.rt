//! Texts and their tokens, what is refused and where, and that long texts are quick.

use crate::kinds::Kind;
use crate::token_err::TokenErr;
use crate::tokens::tokens;
use std::alloc::Global;
use std::test::Fail;

/// Has the text these tokens, each with its kind and its places, and no others?
fn has(alloc: Global, text: &[u8], wanted: &[(Kind, u32, u32)]) -> bool {
    let Ok(found) = tokens(alloc, text) else {
        return false;
    };
    if found.len() != wanted.len() {
        return false;
    }
    for (token, &(kind, start, end)) in found.iter().zip(wanted) {
        if token.kind != kind || token.start != start || token.end != end {
            return false;
        }
    }
    true
}

/// Is the text refused at that place?
fn is_bad(alloc: Global, text: &[u8], place: usize) -> bool {
    matches!(tokens(alloc, text), Err(TokenErr::BadToken(at)) if at == place)
}

#[test]
fn reads_blanks_and_comments(rt: HostRuntime) {
    let a = rt.alloc();
    assert!(rt; has(a, b"", &[]));
    assert!(rt; has(a, b" \t\r\n", &[]));
    assert!(rt; has(a, b"; to the end", &[]));
    assert!(rt; has(a, b";\"\na", &[(Kind::Word, 3, 4)]));
    assert!(rt; has(a, b";?\ra;?", &[(Kind::Word, 3, 4)]));
}

#[test]
fn reads_names(rt: HostRuntime) {
    let a = rt.alloc();
    assert!(rt; has(a, b"@a$.b_-1", &[(Kind::Global, 0, 8)]));
    assert!(rt; has(a, b"%12", &[(Kind::Local, 0, 3)]));
    assert!(rt; has(a, b"%\"a:\\22\"", &[(Kind::Local, 0, 8)]));
    assert!(rt; has(a, b"@\"\"", &[(Kind::Global, 0, 3)]));
    assert!(rt; has(a, b"@1a", &[(Kind::Global, 0, 2), (Kind::Word, 2, 3)]));
    assert!(rt;
        has(
            a,
            b"%a,%b",
            &[
                (Kind::Local, 0, 2),
                (Kind::Comma, 2, 3),
                (Kind::Local, 3, 5)
            ]
        )
    );
    assert!(rt; has(a, b"#7", &[(Kind::Group, 0, 2)]));
    assert!(rt;
        has(
            a,
            b"#dbg_value(",
            &[(Kind::Record, 0, 10), (Kind::OpenParen, 10, 11)]
        )
    );
    assert!(rt; has(a, b"$a-b", &[(Kind::Comdat, 0, 4)]));
    assert!(rt; has(a, b"$\"a\"", &[(Kind::Comdat, 0, 1), (Kind::Str, 1, 4)]));
}

#[test]
fn reads_labels(rt: HostRuntime) {
    let a = rt.alloc();
    assert!(rt; has(a, b"a:", &[(Kind::Label, 0, 2)]));
    assert!(rt; has(a, b"-1.$:", &[(Kind::Label, 0, 5)]));
    assert!(rt; has(a, b"$a:", &[(Kind::Label, 0, 3)]));
    assert!(rt; has(a, b"...:", &[(Kind::Label, 0, 4)]));
    assert!(rt; has(a, b"12:", &[(Kind::Label, 0, 3)]));
    assert!(rt; has(a, b"0x1:", &[(Kind::Label, 0, 4)]));
    assert!(rt; has(a, b"\"a b\":", &[(Kind::Label, 0, 6)]));
    assert!(rt; has(a, b"c:\"x\"", &[(Kind::Label, 0, 2), (Kind::Str, 2, 5)]));
}

#[test]
fn reads_words_and_strings(rt: HostRuntime) {
    let a = rt.alloc();
    assert!(rt; has(a, b"llvm.a_1", &[(Kind::Word, 0, 8)]));
    assert!(rt; has(a, b"_a$b", &[(Kind::Word, 0, 2), (Kind::Comdat, 2, 4)]));
    assert!(rt;
        has(
            a,
            b"a-1-2",
            &[(Kind::Word, 0, 1), (Kind::Int, 1, 3), (Kind::Int, 3, 5)]
        )
    );
    assert!(rt; has(a, b"\"a;\nb\"", &[(Kind::Str, 0, 6)]));
    assert!(rt; has(a, b"c\"\\00\"", &[(Kind::CStr, 0, 6)]));
    assert!(rt; has(a, b"c \"\"", &[(Kind::Word, 0, 1), (Kind::Str, 2, 4)]));
    assert!(rt; has(a, b"cc\"\"", &[(Kind::Word, 0, 2), (Kind::Str, 2, 4)]));
}

#[test]
fn reads_metadata(rt: HostRuntime) {
    let a = rt.alloc();
    assert!(rt; has(a, b"!0", &[(Kind::MdNum, 0, 2)]));
    assert!(rt; has(a, b"!0a", &[(Kind::MdNum, 0, 2), (Kind::Word, 2, 3)]));
    assert!(rt; has(a, b"!a.b-$", &[(Kind::MdName, 0, 6)]));
    assert!(rt;
        has(
            a,
            b"!\\3Aa\\4b(",
            &[(Kind::MdName, 0, 8), (Kind::OpenParen, 8, 9)]
        )
    );
    assert!(rt; has(a, b"!\"a\"", &[(Kind::MdStr, 0, 4)]));
    assert!(rt; has(a, b"!{", &[(Kind::Bang, 0, 1), (Kind::OpenBrace, 1, 2)]));
    assert!(rt; has(a, b"! 0", &[(Kind::Bang, 0, 1), (Kind::Int, 2, 3)]));
}

#[test]
fn reads_numbers(rt: HostRuntime) {
    let a = rt.alloc();
    assert!(rt; has(a, b"-12", &[(Kind::Int, 0, 3)]));
    assert!(rt; has(a, b"12a", &[(Kind::Int, 0, 2), (Kind::Word, 2, 3)]));
    assert!(rt; has(a, b"1. -1.5", &[(Kind::Float, 0, 2), (Kind::Float, 3, 7)]));
    assert!(rt; has(a, b"1.5e10,", &[(Kind::Float, 0, 6), (Kind::Comma, 6, 7)]));
    assert!(rt;
        has(
            a,
            b"1.E-7)",
            &[(Kind::Float, 0, 5), (Kind::CloseParen, 5, 6)]
        )
    );
    assert!(rt; has(a, b"1.5e+07", &[(Kind::Float, 0, 7)]));
    assert!(rt; has(a, b"1.5e", &[(Kind::Float, 0, 3), (Kind::Word, 3, 4)]));
    assert!(rt; has(a, b"0xK7F_", &[(Kind::Float, 0, 5), (Kind::Word, 5, 6)]));
    assert!(rt; has(a, b"-0x1", &[(Kind::Int, 0, 2), (Kind::Word, 2, 4)]));
}

#[test]
fn reads_signs(rt: HostRuntime) {
    let a = rt.alloc();
    assert!(rt;
        has(
            a,
            b"=()[]{}|",
            &[
                (Kind::Equals, 0, 1),
                (Kind::OpenParen, 1, 2),
                (Kind::CloseParen, 2, 3),
                (Kind::OpenBracket, 3, 4),
                (Kind::CloseBracket, 4, 5),
                (Kind::OpenBrace, 5, 6),
                (Kind::CloseBrace, 6, 7),
                (Kind::Bar, 7, 8),
            ]
        )
    );
    assert!(rt; has(a, b"<4", &[(Kind::Less, 0, 1), (Kind::Int, 1, 2)]));
    assert!(rt; has(a, b">...", &[(Kind::Greater, 0, 1), (Kind::Dots, 1, 4)]));
}

#[test]
fn tells_where_it_refuses(rt: HostRuntime) {
    let a = rt.alloc();
    assert!(rt; is_bad(a, b"a ?", 2));
    assert!(rt; is_bad(a, b"\"a", 0));
    assert!(rt; is_bad(a, b" @ a", 1));
    assert!(rt; is_bad(a, b"%\"a", 0));
    assert!(rt; is_bad(a, b"#", 0));
    assert!(rt; is_bad(a, b"#dbg_ ", 0));
    assert!(rt; is_bad(a, b"#dbgvalue", 0));
    assert!(rt; is_bad(a, b"- 1", 0));
    assert!(rt; is_bad(a, b"a-b", 1));
    assert!(rt; is_bad(a, b"..", 0));
    assert!(rt; is_bad(a, b"....", 3));
    assert!(rt; is_bad(a, b"i32 0x", 4));
    assert!(rt; is_bad(a, b"1.5e+", 4));
    assert!(rt; is_bad(a, b"c\"a", 1));
    assert!(rt; is_bad(a, b"!\"a", 1));
    assert!(rt; is_bad(a, b"!\\4 ", 1));
    assert!(rt; is_bad(a, b"@\"a\":", 4));
    assert!(rt; is_bad(a, b"a*", 1));
    assert!(rt; is_bad(a, b"\xC3", 0));
}

#[test]
fn reads_long_texts(rt: HostRuntime) -> Result<(), Fail> {
    let mut text = Vec::new(rt.alloc());
    text.push(b'"')?;
    for _ in 0..1_000_000 {
        text.push(b'a')?;
    }
    assert!(rt; is_bad(rt.alloc(), &text, 0));
    text.push(b'"')?;
    assert!(rt; has(rt.alloc(), &text, &[(Kind::Str, 0, 1_000_002)]));
    Ok(())
}

#[test]
fn reads_many_tokens(rt: HostRuntime) -> Result<(), Fail> {
    let mut text = Vec::new(rt.alloc());
    for _ in 0..1_000_000 {
        text.push(b'(')?;
    }
    assert_eq!(rt; tokens(rt.alloc(), &text)?.len(), 1_000_000);
    Ok(())
}

#[test]
fn reads_a_run_of_a_name_once(rt: HostRuntime) -> Result<(), Fail> {
    // a-1-1-1 and so on, which is one bare name where a colon follows, and as many tokens where none does
    let mut text = Vec::new(rt.alloc());
    text.push(b'a')?;
    for _ in 0..500_000 {
        text.push(b'-')?;
        text.push(b'1')?;
    }
    assert_eq!(rt; tokens(rt.alloc(), &text)?.len(), 500_001);
    text.push(b':')?;
    assert!(rt; has(rt.alloc(), &text, &[(Kind::Label, 0, 1_000_002)]));
    Ok(())
}
