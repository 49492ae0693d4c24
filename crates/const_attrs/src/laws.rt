//! What holds of constants and their trees.

ghost use Rattle.std.specs.Prelude.{◌≡◌, length};
ghost use Rattle.dialect_types.specs.declared.types.TypeHandle.{TypeHandle};
ghost use Rattle.dialect_types.specs.Trees.{type_trees};
ghost use Rattle.const_attrs.specs.Trees.{Attr, attr_tree, HasTypesBelow};

use dialect_types::type_store::TypeStore;

/// Constants whose trees are equal are equal, numbers of types and all: a store has each type once.
pub fn equal_trees(types: &TypeStore)
    ensures { (c d : Attr TypeHandle) → HasTypesBelow (length types.now) c → HasTypesBelow (length types.now) d → attr_tree (type_trees types.now) c ≡ attr_tree (type_trees types.now) d → c ≡ d }
{
    let _count = types.len();
}
