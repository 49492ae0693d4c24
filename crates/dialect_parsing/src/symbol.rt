//! What a token of the text of a type or a constant says.

use kinds::fill::Fill;
use kinds::types::Floating;
use support::text::Text;

/// What a token of the text of a type or a constant says: a word, a sign, a number or a name.
#[derive(PartialEq, Eq, Debug, Drop)]
pub enum Symbol {
    /// `llvm.void`
    Void,
    /// `builtin.integer`
    Integer,
    /// `llvm.ptr`
    Pointer,
    /// `llvm.func`
    Func,
    /// `llvm.array`
    Array,
    /// `llvm.vector`
    Vector,
    /// `llvm.struct`
    Struct,
    /// The word of a floating-point type.
    Floating(Floating),
    /// `llvm.zero`, `llvm.undef` or `llvm.poison`.
    Filled(Fill),
    /// `llvm.bytes`
    Bytes,
    /// `llvm.aggregate`
    Aggregate,
    /// `llvm.splat`
    Splat,
    /// `variadic`
    Variadic,
    /// `true` or `false`.
    Truth(bool),
    /// `vscale`
    Vscale,
    /// `x`
    Times,
    /// `packed`
    Packed,
    /// `(`
    OpenParen,
    /// `)`
    CloseParen,
    /// `[`
    OpenBracket,
    /// `]`
    CloseBracket,
    /// `{`
    OpenBrace,
    /// `}`
    CloseBrace,
    /// `<`
    Less,
    /// `>`
    Greater,
    /// `,`
    Comma,
    /// `:`
    Colon,
    /// `=`
    Equals,
    /// A number in decimal.
    Number(u64),
    /// `i` and a number of bits.
    Bits(u64),
    /// `@` and the name of a struct.
    Name(Text),
}
