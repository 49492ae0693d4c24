//! The numbers of the classes that kinds of tokens have, which `grammar/tables.py merged numbers` makes of
//! `grammar/ll.grammar`.

/// How many classes there are.
pub const CLASSES: u16 = 129;

/// GLOBAL
pub const GLOBAL: u16 = 0;
/// LOCAL
pub const LOCAL: u16 = 1;
/// LABEL
pub const LABEL: u16 = 2;
/// INT
pub const INT: u16 = 3;
/// STR
pub const STR: u16 = 4;
/// CSTR
pub const CSTR: u16 = 5;
/// GROUP
pub const GROUP: u16 = 6;
/// RECORD
pub const RECORD: u16 = 7;
/// MDNUM
pub const MDNUM: u16 = 8;
/// MDNAME
pub const MDNAME: u16 = 9;
/// MDSTR
pub const MDSTR: u16 = 10;
/// FLOAT
pub const FLOAT: u16 = 11;
/// INTTYPE
pub const INTTYPE: u16 = 12;
/// REFUSED
pub const REFUSED: u16 = 13;
/// WORD
pub const WORD: u16 = 14;
/// `=`
pub const EQUALS: u16 = 43;
/// `,`
pub const COMMA: u16 = 44;
/// `(`
pub const OPEN_PAREN: u16 = 45;
/// `)`
pub const CLOSE_PAREN: u16 = 46;
/// `[`
pub const OPEN_BRACKET: u16 = 47;
/// `]`
pub const CLOSE_BRACKET: u16 = 48;
/// `{`
pub const OPEN_BRACE: u16 = 49;
/// `}`
pub const CLOSE_BRACE: u16 = 50;
/// `<`
pub const LESS: u16 = 51;
/// `>`
pub const GREATER: u16 = 52;
/// `!`
pub const BANG: u16 = 53;
/// `|`
pub const BAR: u16 = 54;
/// `...`
pub const DOTS: u16 = 55;
