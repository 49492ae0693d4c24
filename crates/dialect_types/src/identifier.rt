//! Names of the dialect.

ghost use Rattle.std.specs.Prelude.{◌≡◌, nat_eq, IfOk};
ghost use Rattle.std.proofs.Common.{rules};
ghost use Rattle.std.specs.Cmp.Rules.{comparing, hashing};
ghost use Rattle.std.specs.Cmp.Lexicographic.{pointwise};
ghost use Rattle.std.specs.Hash as fed;
ghost use Rattle.dialect_types.specs.Names.{IsIdentifier};

use std::alloc::{AllocError, Global};
use std::hash::{Hash, Hasher};
use std::marker::Model;
use support::text::Text;

/// A nonempty text of letters, digits and `_` that does not begin with a digit, seen as its bytes.
#[derive(Debug, Drop)]
pub struct Identifier {
    text: Text,
}

impl Model for Identifier {
    ghost use Rattle.std.specs.Prelude.{ℕ, List};
    ghost use Rattle.dialect_types.specs.Names.{IsIdentifier};

    ghost Value = { List ℕ };

    ghost view = { λ i. i.text };

    ghost invariant = { λ i. IsIdentifier i.text };
}

impl Identifier {
    /// The identifier of a copy of a text that is one.
    pub fn copy(alloc: Global, text: &str) -> Result<Identifier, AllocError>
        requires { IsIdentifier text.now }
        ensures { IfOk result (λ i. i ≡ text.now) }
    {
        let text = Text::copy(alloc, text)?;
        Ok(Identifier { text })
    }

    pub fn as_str(&self) -> &str
        ensures text { result.now ≡ self.now }
        ensures legal { IsIdentifier self.now }
    {
        self.text.as_str()
    }

    /// A copy, which equals its source.
    pub fn clone(&self, alloc: Global) -> Result<Identifier, AllocError>
        ensures { IfOk result (λ i. i ≡ self.now) }
    {
        let text = Text::copy(alloc, self.text.as_str())?;
        Ok(Identifier { text })
    }
}

impl PartialEq for Identifier {
    ghost eq = { pointwise nat_eq };

    ghost laws = { Prim.search (comparing, rules) };

    fn eq(&self, other: &Identifier) -> bool {
        self.text == other.text
    }
}

impl Eq for Identifier {
    ghost laws = { Prim.search (comparing, rules) };
}

impl Hash for Identifier {
    ghost hash_input = { fed.str };

    ghost respects_eq = { Prim.search (hashing, rules) };

    fn hash<H: Hasher>(&self, state: &mut H) {
        self.text.hash(state);
    }
}
