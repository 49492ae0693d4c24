//! The store of types that texts of constants are read into, with structs that have a name.

ghost use Rattle.std.specs.Prelude.{◌≡◌, ◌<◌, true, All, IfSome, length};
ghost use Rattle.kinds.specs.Types.{IntType, shape};
ghost use Rattle.kinds.specs.Fitting.{is_field};
ghost use Rattle.dialect_types.specs.Trees.{AllBelow, type_at, type_trees};

use dialect_types::identifier::Identifier;
use dialect_types::legaliser::Legaliser;
use dialect_types::type_store::TypeStore;
use dialect_types::types::{StructFields, TypeHandle, TypeKind};
use kinds::types::StructLayout;
use std::alloc::Global;
use support::items::Items;

/// A name of a struct.
fn name(alloc: Global, text: &str) -> Option<Identifier> {
    Legaliser::new(alloc).legalise(text).ok()
}

/// `i32`.
fn int(types: &mut TypeStore) -> Option<TypeHandle>
    ensures within { IfSome result (λ t. t.0 < length types.new) }
    ensures tree { IfSome result (λ t. type_at (type_trees types.new) t ≡ IntType 32) }
{
    types.get(TypeKind::Integer(32)).ok()
}

/// The fields of a struct of one `i32`.
fn one_field(alloc: Global, types: &mut TypeStore) -> Option<StructFields>
    ensures below { IfSome result (λ b. AllBelow (length types.new) b.types) }
    ensures fit { IfSome result (λ b. All (λ t. is_field (shape (type_at (type_trees types.new) t)) ≡ true) b.types) }
{
    let field = int(types)?;
    let mut fields = Items::new(alloc);
    fields.push(field).ok()?;
    Some(StructFields {
        types: fields,
        layout: StructLayout::Unpacked,
    })
}

/// Adds `@S`, which has an `i32`.
fn add_filled(alloc: Global, types: &mut TypeStore) -> Option<()> {
    let body = one_field(alloc, types)?;
    types.get_named(name(alloc, "S")?, Some(body)).ok()?;
    Some(())
}

/// Adds `@E`, which has no fields.
fn add_empty(alloc: Global, types: &mut TypeStore) -> Option<()> {
    let body = StructFields {
        types: Items::new(alloc),
        layout: StructLayout::Unpacked,
    };
    types.get_named(name(alloc, "E")?, Some(body)).ok()?;
    Some(())
}

/// Adds `@T`, which is opaque.
fn add_opaque(alloc: Global, types: &mut TypeStore) -> Option<()> {
    types.get_named(name(alloc, "T")?, None).ok()?;
    Some(())
}

/// A store with `@S = {i32}`, `@E = {}` and `@T = opaque`.
pub fn store(alloc: Global) -> Option<TypeStore> {
    let mut types = TypeStore::new(alloc);
    add_filled(alloc, &mut types)?;
    add_empty(alloc, &mut types)?;
    add_opaque(alloc, &mut types)?;
    Some(types)
}
