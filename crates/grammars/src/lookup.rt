//! What a grammar says, looked up in its tables.

ghost use Rattle.std.specs.Prelude.{◌≡◌, ◌≤◌, ℕ, Option, Some, None, length, reverse};
ghost use Rattle.grammars.specs.Numbers.{some_number};
ghost use Rattle.grammars.specs.FlatGrammar.{grammar_of};

use crate::grammar::Grammar;
use crate::symbols::Symbol;

impl<'g> Grammar<'g> {
    /// The symbols of an alternative that a rule goes on with, the last first.
    #[inline(always)]
    pub(crate) fn symbols_of(&self, alternative: u16) -> &'g [Symbol]
        requires some { 1 ≤ alternative }
        requires within { alternative ≤ length self.now.alternatives.now }
        ensures { (r : ℕ) (n : Option ℕ) → some_number alternative ≡ (grammar_of self.now).choose r n → Some (reverse result.now) ≡ (grammar_of self.now).symbols r alternative }
    {
        let found = self.alternatives[alternative as usize - 1];
        &self.symbols[found.start as usize..found.end as usize]
    }

    /// The number of the alternative of a rule that may be nothing, or 0.
    pub fn nothing_of(&self, rule: u16) -> u16
        ensures { some_number result ≡ (grammar_of self.now).choose rule None }
    {
        match self.rows.get(rule as usize) {
            Some(row) => row.nothing,
            None => 0,
        }
    }
}
