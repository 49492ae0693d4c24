//! What holds of the tokens of every text.

ghost use Rattle.std.specs.Prelude.{◌≡◌, ℕ, List, Some, length};
ghost use Rattle.ll_tokens.specs.Tokens.{tokens_of, StandFrom};
ghost use Rattle.ll_tokens.specs.declared.tokens.Token.{Token};

/// Tokens have a byte at least, stand one behind another, and lie within the text.
pub fn stand_in_order()
    ensures { (bytes : List ℕ) (ts : List Token) → tokens_of bytes ≡ Some ts → StandFrom 0 (length bytes) ts }
{}
