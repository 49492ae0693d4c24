//! Types in a table, each with its parts by the places of earlier ones, and each kept once.

ghost use Rattle.std.specs.Prelude.{◌≡◌, ◌<◌, [], Some, IfOk, OnOk, OnErr, length, slice_get};
ghost use Rattle.support.specs.Interned.{IsDistinctList};
ghost use Rattle.llvm_core.specs.Parts.{IsTypeOver};
ghost use Rattle.llvm_core.specs.Data.{type_tree, type_trees};
ghost use Rattle.tracing.specs.Types.{AreOver, IsFitTree, KeepsTypes, Stands};

use llvm_core::numbers::LLVMType;
use llvm_core::types::LLVMTypeKind;
use std::alloc::{AllocError, Global};
use std::marker::Model;
use support::interner::Interner;

/// Types, each kept once and behind its parts, seen as the list of their kinds.
#[derive(Drop)]
pub struct TypeTable {
    kinds: Interner<LLVMTypeKind>,
}

impl Model for TypeTable {
    ghost use Rattle.std.specs.Prelude.{List};
    ghost use Rattle.llvm_core.specs.declared.types.LLVMTypeKind.{LLVMTypeKind};
    ghost use Rattle.tracing.specs.Types.{IsTypeTable};

    ghost Value = { List LLVMTypeKind };

    ghost view = { λ t. t.kinds };

    ghost invariant = { λ t. IsTypeTable t.kinds };
}

impl TypeTable {
    pub fn new(alloc: Global) -> TypeTable
        ensures { result ≡ [] }
    {
        TypeTable {
            kinds: Interner::new(alloc),
        }
    }

    /// How many types there are.
    pub fn len(&self) -> u32
        ensures len { result ≡ length self.now }

        // No type stands twice, read as a tree, and the parts of each stand before it.
        ensures apart { IsDistinctList (type_trees self.now) }
        ensures over { AreOver self.now }
    {
        self.kinds.len()
    }

    /// The kind of a type, whose parts are places of the table.
    pub fn kind(&self, ty: LLVMType) -> &LLVMTypeKind
        requires { ty.0 < length self.now }
        ensures kind { slice_get self.now ty.0 ≡ Some result.now }
        ensures over { IsTypeOver ty.0 result.now }
        ensures tree { Stands (type_trees self.now) ty (type_tree (type_trees self.now) result.now) }
    {
        self.kinds.value(ty.0)
    }

    /// The place of a type, new or old.
    pub fn intern(&mut self, kind: LLVMTypeKind) -> Result<LLVMType, AllocError>
        requires over { IsTypeOver (length self.old) kind }
        requires fit { IsFitTree (type_tree (type_trees self.old) kind) }
        ensures stands { IfOk result (λ t. Stands (type_trees self.new) t (type_tree (type_trees self.old) kind)) }
        ensures kept { OnOk result (KeepsTypes (type_trees self.old) (type_trees self.new)) }
        ensures err { OnErr result (self.new ≡ self.old) }
    {
        let place = self.kinds.get(kind)?;
        Ok(LLVMType(place))
    }
}
