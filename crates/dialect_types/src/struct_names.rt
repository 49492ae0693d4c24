//! The numbers of structs by their names.

ghost use Rattle.std.specs.Prelude.{◌≡◌, [], ◌∷◌, ◌++◌, None, Ok, IfSome, IfOk, OnErr, length};
ghost use Rattle.dialect_types.specs.Stored.{Numbered, IsNumberOf};

use crate::texts::Texts;
use crate::types::TypeHandle;
use std::alloc::{AllocError, Global};
use std::marker::Model;
use support::text::Text;

/// Numbers of structs by their names, seen as the names and the numbers, in one order.
#[derive(Drop)]
pub struct StructNames {
    names: Texts,
    types: Vec<TypeHandle>,
}

impl Model for StructNames {
    ghost use Rattle.std.specs.Prelude.{length, ◌≡◌};
    ghost use Rattle.dialect_types.specs.Stored.{Numbered};

    ghost Value = { Numbered };

    ghost view = { λ s. record { names = s.names; types = s.types.items } };

    ghost invariant = { λ s. length s.types.items ≡ length s.names };
}

impl StructNames {
    /// No struct.
    pub fn new(alloc: Global) -> StructNames
        ensures { result ≡ record { names = []; types = [] } }
    {
        StructNames {
            names: Texts::new(alloc),
            types: Vec::new(alloc),
        }
    }

    /// The number of the struct of a name, or the name with that number last.
    pub fn put(&mut self, name: Text, ty: TypeHandle) -> Result<Option<TypeHandle>, AllocError>
        ensures found { IfOk result (λ r. IfSome r (λ t. (self.new ≡ self.old) × IsNumberOf self.old name t)) }
        ensures put { result ≡ Ok None → (self.new ≡ record { names = self.old.names ++ name ∷ []; types = self.old.types ++ ty ∷ [] }) × ((t : TypeHandle) → ¬ IsNumberOf self.old name t) }
        ensures err { OnErr result (self.new ≡ self.old) }
    {
        let len = self.types.len();
        match self.names.put(name)? {
            Some(at) => Ok(Some(self.types[at])),
            None => match self.types.push(ty) {
                Ok(()) => Ok(None),
                Err(_) => {
                    self.names.truncate(len);
                    Err(AllocError)
                }
            },
        }
    }

    /// The number of the struct of a name.
    pub fn find(&self, name: &str) -> Option<TypeHandle>
        ensures found { IfSome result (λ t. IsNumberOf self.now name.now t) }
        ensures none { result ≡ None → (t : TypeHandle) → ¬ IsNumberOf self.now name.now t }
    {
        let at = self.names.find(name)?;
        Some(self.types[at])
    }

    /// Forgets the name that came last.
    pub fn pop(&mut self)
        ensures { (n : _) → (t : TypeHandle) → (old : Numbered) → self.old ≡ record { names = old.names ++ n ∷ []; types = old.types ++ t ∷ [] } → self.new ≡ old }
    {
        let _last = self.types.pop();
        self.names.truncate(self.types.len());
    }
}
