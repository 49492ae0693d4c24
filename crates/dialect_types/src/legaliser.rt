//! The legaliser, which gives the names of a whole import their identifiers.

ghost use Rattle.std.specs.Prelude.{◌≡◌, ℕ, List, [], IfOk, OnErr, length};
ghost use Rattle.dialect_types.specs.Names.{IsIdentifier};
ghost use Rattle.dialect_types.specs.Legalised.{asked, Gave, GoesOn, IsFirstTaken, IsGiven, IsLegalised, Named};

use crate::asking::{asked_text, asks_itself};
use crate::identifier::Identifier;
use crate::taken::Taken;
use crate::texts::Texts;
use std::alloc::{AllocError, Global};
use std::marker::Model;
use support::text::Text;

/// The names that an import met, each with its identifier, seen as their list in the order in which they were met.
#[derive(Drop)]
pub struct Legaliser {
    alloc: Global,
    names: Texts,
    /// The identifier of the name at the same place.
    taken: Taken,
}

impl Model for Legaliser {
    ghost use Rattle.std.specs.Prelude.{◌≡◌, List, length};
    ghost use Rattle.dialect_types.specs.Legalised.{Named, paired, IsLegalised};

    ghost Value = { List Named };

    ghost view = { λ n. paired n.names n.taken };

    ghost invariant = { λ n. (length n.names ≡ length n.taken) × IsLegalised (paired n.names n.taken) };
}

impl Legaliser {
    /// No name was met.
    pub fn new(alloc: Global) -> Legaliser
        ensures { result ≡ [] }
    {
        Legaliser {
            alloc,
            names: Texts::new(alloc),
            taken: Taken::new(alloc),
        }
    }

    /// What is known of the names. This only reads, and is for the proof of its caller.
    pub fn keeps_legal(&self)
        ensures { IsLegalised self.now }
    {
        let _ = &self.names;
    }

    /// The identifier of a name: that which it has, or the first free of those that it asks for.
    pub fn legalise(&mut self, name: &str) -> Result<Identifier, AllocError>
        ensures given { IfOk result (IsGiven self.old self.new name.now) }
        ensures legalised { IsLegalised self.new }
        ensures grows { GoesOn self.old self.new }
        ensures err { OnErr result (self.new ≡ self.old) }
    {
        let text = Text::copy(self.alloc, name)?;
        let len = self.names.len();
        if let Some(at) = self.names.put(text)? {
            return Identifier::copy(self.alloc, self.taken.text(at));
        }
        match give(self.alloc, &mut self.taken, name) {
            Ok(identifier) => Ok(identifier),
            Err(fault) => {
                self.names.truncate(len);
                Err(fault)
            }
        }
    }
}

/// Gives the first free identifier of those that a name asks for.
fn give(alloc: Global, taken: &mut Taken, name: &str) -> Result<Identifier, AllocError>
    ensures given { IfOk result (IsFirstTaken taken.old taken.new (asked name.now)) }
    ensures err { OnErr result (taken.new ≡ taken.old) }
{
    if asks_itself(name) {
        return taken.give(alloc, name);
    }
    let text = asked_text(alloc, name)?;
    taken.give(alloc, text.as_str())
}

/// Legaliser that were given one identifier are one name, a name has one identifier, and what it has is an identifier.
pub fn legal_laws()
    ensures apart { (given : List Named) (a b i : List ℕ) → IsLegalised given → Gave given a i → Gave given b i → a ≡ b }
    ensures same { (given : List Named) (n i j : List ℕ) → IsLegalised given → Gave given n i → Gave given n j → i ≡ j }
    ensures legal { (given : List Named) (n i : List ℕ) → IsLegalised given → Gave given n i → IsIdentifier i }
    ensures kept { (given later : List Named) (n i : List ℕ) → GoesOn given later → Gave given n i → Gave later n i }
{}
