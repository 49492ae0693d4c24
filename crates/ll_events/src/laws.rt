//! What holds of the events of every text.

ghost use Rattle.std.specs.Prelude.{◌≡◌, ℕ, List};
ghost use Rattle.grammars.specs.declared.grammar.Grammar.{Grammar};
ghost use Rattle.grammars.specs.declared.symbols.Event.{Event};
ghost use Rattle.ll_classes.specs.declared.words.Words.{Words};
ghost use Rattle.ll_events.specs.Events.{AreEvents, IsRefusedAtByte};
ghost use Rattle.ll_tokens.specs.declared.tokens.Token.{Token};

/// A text is read in one way.
pub fn one_reading()
    ensures { (g : Grammar) (w : Words) (rule : ℕ) (bytes : List ℕ) (ts us : List Token) (es fs : List Event) → AreEvents g w rule bytes ts es
        → AreEvents g w rule bytes us fs → (ts ≡ us) × (es ≡ fs) }
{}

/// A text that is refused is read in no way.
pub fn refused_or_read()
    ensures { (g : Grammar) (w : Words) (rule : ℕ) (bytes : List ℕ) (place : ℕ) (ts : List Token) (es : List Event) → IsRefusedAtByte g w rule bytes place
        → AreEvents g w rule bytes ts es → ⊥ }
{}
