//! A grammar in flat tables, which passes the check.

ghost use Rattle.std.specs.Prelude.{IsTrue};
ghost use Rattle.grammars.specs.Flat.{check_flat, all_within};

use crate::rows::{Alternative, Row};
use crate::symbols::Symbol;

/// A grammar of which the next token tells how to go on. Of the tables, `mores` is read by no code.
#[derive(Clone, Copy)]
pub struct Grammar<'g> {
    /// The symbols of all alternatives, those of each with the last first.
    pub symbols: &'g [Symbol],
    pub alternatives: &'g [Alternative],
    pub rows: &'g [Row],
    /// The classes that may begin alternatives.
    pub firsts: &'g [u16],
    /// The classes that might go on with rules.
    pub mores: &'g [u16],
    /// The symbols of each alternative lie within the table.
    pub ghost within: { IsTrue (all_within symbols.now alternatives.now) },
    pub ghost right: { IsTrue (check_flat symbols.now alternatives.now rows.now firsts.now mores.now) },
}
