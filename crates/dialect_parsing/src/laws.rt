//! What holds of the texts that spell types and constants.

ghost use Rattle.std.specs.Prelude.{◌≡◌, ◌≤◌, ℕ, List};
ghost use Rattle.dialect_types.specs.Text.{type_text};
ghost use Rattle.kinds.specs.Types.{depth};
ghost use Rattle.dialect_types.specs.Trees.{TypeTree, NamedStruct, structs_of};
ghost use Rattle.const_attrs.specs.Text.{attr_text};
ghost use Rattle.const_attrs.specs.Trees.{AttrTree, attr_depth};
ghost use Rattle.dialect_parsing.specs.Constants.{IsAttrOfDialect, SpellsAttr};
ghost use Rattle.dialect_parsing.specs.Spelling.{IsOfDialect, Spells};

use dialect_types::type_store::TypeStore;

/// A text spells one type at most.
pub fn one_type_is_spelled()
    ensures { (structs : List NamedStruct) (bytes : List ℕ) (t u : TypeTree) → Spells structs bytes t → Spells structs bytes u → t ≡ u }
{}

/// The text that is printed of a type spells it, where the dialect has the type and it nests at most 1,000 deep: so it is
/// read back as that type. What structs there are, a store says.
pub fn printed_text_spells(types: &TypeStore)
    ensures { (t : TypeTree) → IsOfDialect (structs_of types.now) t → depth t ≤ 1000 → Spells (structs_of types.now) (type_text t) t }
{
    let _count = types.len();
}

/// A text spells one constant at most.
pub fn one_constant_is_spelled()
    ensures { (structs : List NamedStruct) (bytes : List ℕ) (c d : AttrTree) → SpellsAttr structs bytes c → SpellsAttr structs bytes d → c ≡ d }
{}

/// The text that is printed of a constant spells it, where the dialect has a text of it and it nests at most 1,000 deep: so
/// it is read back as that constant.
pub fn printed_constant_spells(types: &TypeStore)
    ensures { (c : AttrTree) → IsAttrOfDialect (structs_of types.now) c → attr_depth c ≤ 1000 → SpellsAttr (structs_of types.now) (attr_text c) c }
{
    let _count = types.len();
}
