//! Texts that are written and cut again, and what may not be written.

ghost use Rattle.std.specs.Prelude.{◌≡◌, ℕ, IfOk, Err, codes};
ghost use Rattle.ll_tokens.specs.declared.token_err.TokenErr.TheVariants.{BadToken};
ghost use Rattle.ll_spacing.specs.Spacing.{placed};

use crate::following::may_follow;
use crate::whole::{are_blanks, is_whole};
use crate::written::Written;
use ll_tokens::kinds::Kind;
use ll_tokens::token_err::TokenErr;
use ll_tokens::tokens::{Token, tokens};
use std::alloc::{AllocError, Global};

/// What is written: the blanks asked for, the kind and the text of each token.
const LINES: [(&[u8], Kind, &[u8]); 11] = [
    (b"", Kind::Word, b"define"),
    (b"", Kind::Word, b"void"),
    (b" ", Kind::Global, b"@\"f g\""),
    (b"", Kind::OpenParen, b"("),
    (b"", Kind::CloseParen, b")"),
    (b" ", Kind::OpenBrace, b"{"),
    (b"\n", Kind::Label, b"1:"),
    (b"\n  ", Kind::Word, b"ret"),
    (b"", Kind::Float, b"-1.5e+3"),
    (b"\n", Kind::CloseBrace, b"}"),
    (b"\n", Kind::MdName, b"!a\\20b"),
];

/// All of them, one behind another.
fn written(alloc: Global) -> Option<Written> {
    let mut w = Written::new(alloc);
    for &(before, kind, text) in LINES.iter() {
        if !are_blanks(before) || !is_whole(kind, text) {
            return None;
        }
        w.put_apart(before, kind, text).ok()?;
    }
    Some(w)
}

/// Has each token the kind and the text that were written?
fn same(found: &[Token], text: &[u8]) -> bool {
    if found.len() != LINES.len() {
        return false;
    }
    for (token, &(_, kind, written)) in found.iter().zip(LINES.iter()) {
        if token.kind != kind
            || text.get(token.start as usize..token.end as usize) != Some(written)
        {
            return false;
        }
    }
    true
}

/// Known words, in which nothing is left to test.
#[tactic(auto, unfolding(ll_tokens::specs::Pieces::piece_at, ll_tokens::specs::Pieces::bare_at, ll_tokens::specs::Pieces::word_at))]
fn ret_void(alloc: Global) -> Result<Vec<u8>, AllocError>
    ensures { IfOk result (λ v. v.items ≡ codes "ret void") }
{
    let mut w = Written::new(alloc);
    w.put_apart(b"", Kind::Word, b"ret")?;
    w.put_apart(b"", Kind::Word, b"void")?;
    Ok(w.into_text())
}

/// What was written is read again, and is never refused.
fn read_again(alloc: Global, w: &Written) -> Result<Vec<Token>, TokenErr>
    ensures found { IfOk result (λ v. v.items ≡ placed 0 w.now) }
    ensures good { (place : ℕ) → result ≡ Err (BadToken place) → ⊥ }
{
    tokens(alloc, w.text())
}

#[test]
fn is_cut_as_it_was_written(rt: HostRuntime) {
    let a = rt.alloc();
    let w = written(a);
    assert!(rt; w.is_some());
    if let Some(w) = w {
        assert!(rt; w.last() == Some(Kind::MdName));
        assert!(rt;
            w.may_put(b"", Kind::Comma, b",")
                && !w.may_put(b"", Kind::Word, b"a")
                && !w.may_put(b";", Kind::Word, b"a")
        );
        let found = read_again(a, &w);
        let text = w.into_text();
        assert!(rt;
            text.as_slice() == b"define void @\"f g\"() {\n1:\n  ret -1.5e+3\n}\n!a\\20b".as_slice()
        );
        assert!(rt; found.is_ok());
        if let Ok(found) = found {
            assert!(rt; same(&found, &text));
        }
    }
}

#[test]
fn tells_what_may_follow(rt: HostRuntime) {
    assert!(rt;
        !may_follow(Kind::Word, b'a')
            && !may_follow(Kind::Word, b'"')
            && !may_follow(Kind::Int, b':')
    );
    assert!(rt;
        !may_follow(Kind::Str, b':') && may_follow(Kind::Str, b'a') && may_follow(Kind::MdStr, b':')
    );
    assert!(rt;
        !may_follow(Kind::Bang, b'0')
            && may_follow(Kind::Bang, b'{')
            && may_follow(Kind::Comma, b'a')
    );
    assert!(rt;
        !may_follow(Kind::Group, b'0')
            && may_follow(Kind::Group, b'a')
            && !may_follow(Kind::MdName, b'\\')
    );
}

#[test]
fn tells_what_is_whole(rt: HostRuntime) {
    assert!(rt;
        is_whole(Kind::Word, b"source_filename")
            && !is_whole(Kind::Word, b"a b")
            && !is_whole(Kind::Word, b"a:")
    );
    assert!(rt;
        is_whole(Kind::Int, b"-1") && !is_whole(Kind::Int, b"1.") && !is_whole(Kind::Float, b"0x")
    );
    assert!(rt;
        !is_whole(Kind::Word, b"") && !is_whole(Kind::Str, b"\"a") && !is_whole(Kind::Comma, b", ")
    );
}

#[test]
fn writes_known_words(rt: HostRuntime) {
    assert!(rt; ret_void(rt.alloc()).is_ok());
}
