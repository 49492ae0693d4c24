//! Kinds of tokens.

/// A kind of token.
#[derive(Clone, Copy, PartialEq, Eq, Debug)]
pub enum Kind {
    /// `@` and a name, digits or a string.
    Global,
    /// `%` and a name, digits or a string.
    Local,
    /// A name, digits or a string, and a colon.
    Label,
    /// A letter or `_`, then letters, digits, `_` and `.`.
    Word,
    /// Digits, behind a minus or not.
    Int,
    /// Bytes between quotes.
    Str,
    /// `c` and a string.
    CStr,
    /// `#` and digits.
    Group,
    /// `#dbg_` and letters or `_`.
    Record,
    /// `!` and digits.
    MdNum,
    /// `!` and a name, which may have escapes.
    MdName,
    /// `!` and a string.
    MdStr,
    /// A number with a point, or one in hexadecimal digits.
    Float,
    /// `$` and the bytes of a name.
    Comdat,
    /// `=`
    Equals,
    /// `,`
    Comma,
    /// `(`
    OpenParen,
    /// `)`
    CloseParen,
    /// `[`
    OpenBracket,
    /// `]`
    CloseBracket,
    /// `{`
    OpenBrace,
    /// `}`
    CloseBrace,
    /// `<`
    Less,
    /// `>`
    Greater,
    /// `!` before nothing that makes it longer.
    Bang,
    /// `|`
    Bar,
    /// `...`
    Dots,
}
