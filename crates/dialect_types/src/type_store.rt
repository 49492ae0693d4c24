//! The types of a context, each kept once.

ghost use Rattle.std.specs.Prelude.{◌≡◌, ◌≢◌, ℕ, ◌<◌, ◌≤◌, ◌+◌, max, true, false, List, IfOk, IfErr, IfSome, OnErr, OnOk, Err, All, Option, None, Some, length, slice_get, take, [], ◌∷◌, ◌++◌};
ghost use Rattle.support.specs.Interned.{Interned};
ghost use Rattle.kinds.specs.Types.{shape};
ghost use Rattle.kinds.specs.Fitting.{is_first_class, is_held};
ghost use Rattle.kinds.specs.Held.{deepest, IsShallow, IsFirstClass, IsHeld};
ghost use Rattle.std.specs.Option.{option_map};
ghost use Rattle.kinds.specs.Structs.{IsNested, struct_in};
ghost use Rattle.dialect_types.specs.Trees.{NamedType, AllBelow, HasPartsBelow, HasFitParts, IsDistinctAsTrees, IsStored, type_at, type_tree, type_trees, is_named, fields_of, structs_of, IsStructPut, HasOtherBody};
ghost use Rattle.dialect_types.specs.Stored.{IsDepthOf, IsStructErr};
ghost use Rattle.dialect_types.specs.declared.types.StructFields.{StructFields};
ghost use Rattle.dialect_types.specs.declared.types.TypeKind.TheVariants as kinds_of;
ghost use Rattle.dialect_types.specs.declared.struct_err.StructErr.TheVariants as reasons;

use crate::identifier::Identifier;
use crate::struct_err::StructErr;
use crate::struct_names::StructNames;
use crate::types::{StructFields, TypeHandle, TypeKind};
use kinds::types::too_deep;
use std::alloc::{AllocError, Global};
use std::marker::Model;
use support::interner::Interner;
use support::text::Text;

/// Types that are each kept once, seen as the list of their kinds in order of making.
#[derive(Drop)]
pub struct TypeStore {
    alloc: Global,
    kinds: Interner<TypeKind>,
    /// How deep each type nests at most, by number; there may be one more, where memory was wanting.
    depths: Vec<u32>,
    /// The structs that have a name.
    structs: StructNames,
}

impl Model for TypeStore {
    ghost use Rattle.std.specs.Prelude.{List};
    ghost use Rattle.dialect_types.specs.declared.types.TypeKind.{TypeKind};

    ghost Value = { List TypeKind };

    ghost use Rattle.dialect_types.specs.Stored.{IsWhole};

    ghost view = { λ s. s.kinds };

    ghost invariant = { λ s. IsWhole s.kinds s.depths.items s.structs };
}

fn greater(a: u32, b: u32) -> u32
    ensures { result ≡ max a b }
{
    if a < b { b } else { a }
}

/// How deep the deepest of some types nests at most.
fn deepest_of(types: &[TypeHandle], depths: &[u32]) -> u32
    requires below { AllBelow (length depths.now) types.now }
    requires few { All (λ d. d ≤ deepest) depths.now }
    ensures few { result ≤ deepest }
    ensures each { (t : TypeHandle) → (i : ℕ) → slice_get types.now i ≡ Some t → (d : ℕ) → slice_get depths.now t.0 ≡ Some d → d ≤ result }
{
    let mut deepest = 0;
    for ty in types {
        deepest = greater(deepest, depths[ty.0 as usize]);
    }
    deepest
}

/// How deep a type nests at most, by how deep its parts do.
#[tactic(auto, unfolding(kinds::specs::Held::deepest))]
fn depth_of(kind: &TypeKind, depths: &[u32]) -> u32
    requires parts { HasPartsBelow (length depths.now) kind.now }
    requires few { All (λ d. d ≤ deepest) depths.now }
    ensures few { result ≤ deepest + 1 }
    ensures enough { IsDepthOf kind.now depths.now result }
{
    match kind {
        TypeKind::Void => 1,
        TypeKind::Integer(_) => 1,
        TypeKind::Pointer(_) => 1,
        TypeKind::Floating(_) => 1,
        TypeKind::Array(element, _) => 1 + depths[element.0 as usize],
        TypeKind::Vector(element, _, _) => 1 + depths[element.0 as usize],
        TypeKind::Struct { fields, .. } => 1 + deepest_of(fields.as_slice(), depths),
        TypeKind::Named { body, .. } => match body {
            Some(fields) => 1 + deepest_of(fields.types.as_slice(), depths),
            None => 1,
        },
        TypeKind::Func { result, params, .. } => {
            1 + greater(
                depths[result.0 as usize],
                deepest_of(params.as_slice(), depths),
            )
        }
    }
}

/// Notes the depth of a kind that may come next behind `len` types. One that nests too deep is want of memory, as whatever
/// is past what a store can hold.
fn note_depth(kind: &TypeKind, len: usize, depths: &mut Vec<u32>) -> Result<(), AllocError>
    requires parts { HasPartsBelow len kind.now }
    requires long { len ≤ length depths.old.items }
    requires few { All (λ d. d ≤ deepest) depths.old.items }
    ensures kept { take len depths.new.items ≡ take len depths.old.items }
    ensures long { len ≤ length depths.new.items }
    ensures few { All (λ d. d ≤ deepest) depths.new.items }
    ensures noted { OnOk result ((d : ℕ) × (depths.new.items ≡ take len depths.old.items ++ d ∷ []) × IsDepthOf kind.now (take len depths.old.items) d) }
{
    depths.truncate(len);
    let depth = depth_of(kind, depths.as_slice());
    if too_deep(depth) {
        return Err(AllocError);
    }
    depths.push(depth)?;
    Ok(())
}

/// The number of a kind, new or old, with its depth noted where it is new.
fn add_kind(
    kinds: &mut Interner<TypeKind>,
    depths: &mut Vec<u32>,
    kind: TypeKind,
) -> Result<TypeHandle, AllocError>
    requires parts { HasPartsBelow (length kinds.old) kind }
    requires long { length kinds.old ≤ length depths.old.items }
    requires few { All (λ d. d ≤ deepest) depths.old.items }
    ensures interned { IfOk result (λ t. Interned kinds.old kinds.new kind t.0) }
    ensures err { OnErr result (kinds.new ≡ kinds.old) }
    ensures kept { take (length kinds.old) depths.new.items ≡ take (length kinds.old) depths.old.items }
    ensures long { length kinds.new ≤ length depths.new.items }
    ensures few { All (λ d. d ≤ deepest) depths.new.items }
    ensures noted { OnOk result ((d : ℕ) × (slice_get depths.new.items (length kinds.old) ≡ Some d) × IsDepthOf kind (take (length kinds.old) depths.old.items) d) }
{
    note_depth(&kind, kinds.len() as usize, depths)?;
    let at = kinds.get(kind)?;
    Ok(TypeHandle(at))
}

/// The number of a struct, where it is the one that is asked for.
fn same_struct(
    kinds: &Interner<TypeKind>,
    ty: TypeHandle,
    name: Identifier,
    body: &Option<StructFields>,
) -> Result<TypeHandle, StructErr>
    requires named { (b : Option StructFields) × (slice_get kinds.now ty.0 ≡ Some (kinds_of.Named name b)) }
    ensures ok { IfOk result (λ t. (t ≡ ty) × (slice_get kinds.now ty.0 ≡ Some (kinds_of.Named name body.now))) }
    ensures err { IfErr result (λ e. (e ≡ reasons.DifferentBody name) × ((b : Option StructFields) → slice_get kinds.now ty.0 ≡ Some (kinds_of.Named name b) → b ≢ body.now)) }
{
    match kinds.value(ty.0) {
        TypeKind::Named { body: held, .. } => {
            if held == body {
                Ok(ty)
            } else {
                Err(StructErr::DifferentBody(name))
            }
        }
        _ => unreachable!(),
    }
}

impl TypeStore {
    /// An empty store.
    pub fn new(alloc: Global) -> TypeStore
        ensures { result ≡ [] }
    {
        TypeStore {
            alloc,
            kinds: Interner::new(alloc),
            depths: Vec::new(alloc),
            structs: StructNames::new(alloc),
        }
    }

    /// How many types there are.
    pub fn len(&self) -> u32
        ensures len { result ≡ length self.now }
        ensures distinct { IsDistinctAsTrees self.now }
        ensures stored { IsStored self.now }
    {
        self.kinds.len()
    }

    /// The number of the type equal to `kind`, new or old; a struct with a name is asked for by `get_named`. A type that
    /// nests too deep, through the fields of structs, is want of memory.
    pub fn get(&mut self, kind: TypeKind) -> Result<TypeHandle, AllocError>
        requires parts { HasPartsBelow (length self.old) kind }
        requires fit { HasFitParts (type_trees self.old) kind }
        requires nesting { IsShallow (type_tree (type_trees self.old) kind) }
        requires plain { is_named kind ≡ false }
        ensures interned { IfOk result (λ t. Interned self.old self.new kind t.0) }
        ensures tree { IfOk result (λ t. type_at (type_trees self.new) t ≡ type_tree (type_trees self.old) kind) }
        ensures kept { (t : _) → t.0 < length self.old → type_at (type_trees self.new) t ≡ type_at (type_trees self.old) t }
        ensures structs { structs_of self.new ≡ structs_of self.old }
        ensures err { OnErr result (self.new ≡ self.old) }
    {
        add_kind(&mut self.kinds, &mut self.depths, kind)
    }

    /// The number of the struct of a name, new or old. Refuses one that the store holds with another body, `DifferentBody`.
    /// A struct that nests too deep, through its fields, is want of memory.
    pub fn get_named(
        &mut self,
        name: Identifier,
        body: Option<StructFields>,
    ) -> Result<TypeHandle, StructErr>
        requires parts { HasPartsBelow (length self.old) (kinds_of.Named name body) }
        requires fit { HasFitParts (type_trees self.old) (kinds_of.Named name body) }
        ensures interned { IfOk result (λ t. Interned self.old self.new (kinds_of.Named name body) t.0) }
        ensures tree { IfOk result (λ t. type_at (type_trees self.new) t ≡ NamedType name) }
        ensures kept { (t : _) → t.0 < length self.old → type_at (type_trees self.new) t ≡ type_at (type_trees self.old) t }
        ensures structs { OnOk result (IsStructPut (structs_of self.old) (structs_of self.new) (record { name = name; body = option_map (fields_of (type_trees self.old)) body })) }
        ensures different { IfErr result (IsStructErr self.old name body) }
        ensures other { IfErr result (λ e. (n : List ℕ) → e ≡ reasons.DifferentBody n → (n ≡ name) × HasOtherBody (structs_of self.old) (record { name = name; body = option_map (fields_of (type_trees self.old)) body })) }
        ensures err { OnErr result (self.new ≡ self.old) }
    {
        let next = TypeHandle(self.kinds.len());
        let copy = Text::copy(self.alloc, name.as_str())?;
        if let Some(ty) = self.structs.put(copy, next)? {
            return same_struct(&self.kinds, ty, name, &body);
        }
        let kind = TypeKind::Named { name, body };
        match add_kind(&mut self.kinds, &mut self.depths, kind) {
            Ok(ty) => Ok(ty),
            Err(_) => {
                self.structs.pop();
                Err(StructErr::NoMemory)
            }
        }
    }

    /// The struct of a name, where the store holds one.
    pub fn named(&self, name: &str) -> Option<TypeHandle>
        ensures found { IfSome result (λ t. (t.0 < length self.now) × (type_at (type_trees self.now) t ≡ NamedType name.now)) }
        ensures none { result ≡ None → struct_in (structs_of self.now) name.now ≡ None }
    {
        self.structs.find(name)
    }

    /// The type at a number. It is one of values, and one that is translated, where its shape is that of one: what it is
    /// made of is so too.
    pub fn kind(&self, ty: TypeHandle) -> &TypeKind
        requires { ty.0 < length self.now }
        ensures kind { slice_get self.now ty.0 ≡ Some result.now }
        ensures parts { HasPartsBelow ty.0 result.now }
        ensures tree { type_at (type_trees self.now) ty ≡ type_tree (type_trees self.now) result.now }
        ensures fit { HasFitParts (type_trees self.now) result.now }
        ensures nesting { IsShallow (type_at (type_trees self.now) ty) }
        ensures nested { IsNested (structs_of self.now) (type_at (type_trees self.now) ty) }
        ensures first_class { is_first_class (shape (type_at (type_trees self.now) ty)) ≡ true → IsFirstClass (type_at (type_trees self.now) ty) }
        ensures held { is_held (shape (type_at (type_trees self.now) ty)) ≡ true → IsHeld (type_at (type_trees self.now) ty) }
    {
        self.kinds.value(ty.0)
    }
}
