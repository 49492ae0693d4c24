//! What holds of every grammar.

ghost use Rattle.std.specs.Prelude.{◌≡◌, ℕ, List, Option, ◌∷◌, ◌++◌, true, Some};
ghost use Rattle.grammars.specs.declared.symbols.Symbol.{Symbol};
ghost use Rattle.grammars.specs.declared.symbols.Symbol.TheVariants as S;
ghost use Rattle.grammars.specs.declared.symbols.Event.{Event};
ghost use Rattle.grammars.specs.declared.symbols.Token.{Token};
ghost use Rattle.grammars.specs.declared.grammar.Grammar as code;
ghost use Rattle.grammars.specs.Grammar.{Grammar, Writes, next};
ghost use Rattle.grammars.specs.Right.{Tables, Fits, IsRight};
ghost use Rattle.grammars.specs.Rows.{Row, check_rows};
ghost use Rattle.grammars.specs.RowGrammar.{grammar_of_rows, tables_of_rows};
ghost use Rattle.grammars.specs.FlatGrammar.{grammar_of, tables_of};

/// By a grammar that is right, tokens are read in one way.
pub fn one_reading()
    ensures { (g : Grammar) (k : Tables) → IsRight g k → (st : List Symbol) (es fs : List Event) (ts : List Token) → Fits k st
        → Writes g st es ts → Writes g st fs ts → es ≡ fs }
{}

/// The next token tells the alternative.
pub fn one_alternative()
    ensures { (g : Grammar) (k : Tables) → IsRight g k → (r i : ℕ) (α st : List Symbol) (es : List Event) (ts : List Token) → Fits k (S.Rule r ∷ st)
        → g.symbols r i ≡ Some α → Writes g (α ++ st) es ts → g.choose r (next ts) ≡ Some i }
{}

/// Rows that pass the check are a grammar that is right.
pub fn checked_is_right()
    ensures { (rows : List Row) → check_rows rows ≡ true → IsRight (grammar_of_rows rows) (tables_of_rows rows) }
{}

/// A grammar in flat tables is right.
pub fn each_is_right()
    ensures { (g : code.Grammar) → IsRight (grammar_of g) (tables_of g) }
{}
