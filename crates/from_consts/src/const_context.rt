//! What the conversions of one module into one context have in common: the identifiers and the types that they gave.

ghost use Rattle.std.specs.Prelude.{◌≡◌, [], IfOk, List, OnErr};
ghost use Rattle.llvm_core.specs.Module.{Module};
ghost use Rattle.dialect_types.specs.declared.types.TypeKind.{TypeKind};
ghost use Rattle.dialect_types.specs.Legalised.{GoesOn, IsGiven, IsLegalised};
ghost use Rattle.from_consts.specs.Given.{IsContextFor, given_at};

use dialect_types::identifier::Identifier;
use dialect_types::legaliser::Legaliser;
use dialect_types::types::TypeHandle;
use held_types::table::Table;
use llvm_core::name_set::NameSet;
use llvm_core::numbers::LLVMType;
use std::alloc::{AllocError, Global};

/// What the conversions of one module into one context have given so far. One serves one context and one module, which does not
/// change between the calls.
#[derive(Drop)]
pub struct ConstContext<'a> {
    pub(crate) alloc: Global,
    /// The names that were met, each with its identifier.
    pub(crate) names: Legaliser,
    /// By number of type of the module: the type that was given for it. Empty before the first conversion.
    pub(crate) given: Vec<Option<TypeHandle>>,
    /// The structs of the module by their names. Empty before the first conversion.
    pub(crate) table: Table<'a>,
}

impl<'a> ConstContext<'a> {
    /// No identifier and no type was given: it may serve any context and module.
    pub fn new(alloc: Global) -> ConstContext<'a>
        ensures names { result.names ≡ [] }
        ensures given { result.given.items ≡ [] }
        ensures context { (m : Module) → (ks : List TypeKind) → IsContextFor m ks result }
    {
        ConstContext {
            alloc,
            names: Legaliser::new(alloc),
            given: Vec::new(alloc),
            table: Table {
                names: NameSet::new(alloc),
                firsts: Vec::new(alloc),
            },
        }
    }

    /// The identifier of a name: that which it has, or the first free of those that it asks for (`Legaliser::legalise`). Functions
    /// and structs have names of one kind.
    pub fn legalise(&mut self, name: &str) -> Result<Identifier, AllocError>
        ensures given { IfOk result (IsGiven self.old.names self.new.names name.now) }
        ensures legalised { IsLegalised self.new.names }
        ensures grows { GoesOn self.old.names self.new.names }
        ensures err { OnErr result (self.new ≡ self.old) }
        ensures types { self.new.given ≡ self.old.given }
        ensures context { (m : Module) → (ks : List TypeKind) → IsContextFor m ks self.old → IsContextFor m ks self.new }
    {
        self.names.legalise(name)
    }

    /// The type that was given for a number, alone or inside another type; none where none was.
    pub fn converted(&self, ty: LLVMType) -> Option<TypeHandle>
        ensures { result ≡ given_at self.now ty }
    {
        match self.given.get(ty.0 as usize) {
            Some(given) => *given,
            None => None,
        }
    }
}
