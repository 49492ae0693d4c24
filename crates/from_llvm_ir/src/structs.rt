//! The structs with a name that an import translates: their names in the dialect, and their making in the context.

ghost use Rattle.std.specs.Prelude.{◌≡◌, ◌<◌, ℕ, List, [], ◌∷◌, All, IfErr, IfOk, IfSome, OnOk, Some, length, slice_get, true};
ghost use Rattle.std.specs.Option.{option_map};
ghost use Rattle.kinds.specs.Types.{shape};
ghost use Rattle.kinds.specs.Fitting.{is_field};
ghost use Rattle.kinds.specs.Held.{IsHeld};
ghost use Rattle.llvm_core.specs.Data as L;
ghost use Rattle.llvm_core.specs.Data.{data_of, trees_of};
ghost use Rattle.llvm_core.specs.Form.{IsForm};
ghost use Rattle.llvm_core.specs.Sound.{IsModule};
ghost use Rattle.llvm_core.specs.declared.structs.StructData.{StructData};
ghost use Rattle.dialect_types.specs.Legalised.{GoesOn, Named};
ghost use Rattle.dialect_types.specs.Trees.{AllBelow, IsStructPut, fields_of, structs_of, type_at, type_trees};
ghost use Rattle.dialect_types.specs.Trees as trees;
ghost use Rattle.dialect_types.specs.declared.struct_err.StructErr.TheVariants as reasons;
ghost use Rattle.held_types.specs.Held.{AreHeld, AreHeldStructs};
ghost use Rattle.renamed_source.specs.Names.{AreStructNames, renamed_store, struct_name};
ghost use Rattle.renamed_source.specs.Source.{pairs_of};
ghost use Rattle.from_llvm_ir.specs.Imported.{IsIn};
ghost use Rattle.from_llvm_ir.specs.Naming.{HasMet};
ghost use Rattle.from_llvm_ir.specs.Structs.{AddsOnly, AreMade, AreNamed, HasOtherBody, identifiers, source_names};
ghost use Rattle.from_llvm_ir.specs.Types.{AddsTypes, GrowsTypes, NamesAmong};

use crate::types::import_all;
use dialect_core::context::Context;
use dialect_types::identifier::Identifier;
use dialect_types::legaliser::Legaliser;
use dialect_types::struct_err::StructErr;
use dialect_types::types::StructFields as MadeFields;
use llvm_core::module::LLVMModule;
use llvm_core::name_set::NameSet;
use llvm_core::numbers::LLVMStruct;
use llvm_core::structs::StructFields;
use renamed_source::source::{Source, listed_names};
use std::alloc::{AllocError, Global};
use support::items::Items;

/// Which of so many structs have their number in a list.
fn marks_of(alloc: Global, count: usize, held: &[LLVMStruct]) -> Result<Vec<bool>, AllocError>
    requires { All (λ n. n.0 < count) held.now }
    ensures len { IfOk result (λ ms. length ms.items ≡ count) }
    ensures only { IfOk result (λ ms. (n : LLVMStruct) → slice_get ms.items n.0 ≡ Some true → IsIn held.now n) }
    ensures all { IfOk result (λ ms. (n : LLVMStruct) → IsIn held.now n → slice_get ms.items n.0 ≡ Some true) }
{
    let mut marks = vec![in alloc; false; count]?;
    for n in held {
        marks[n.0 as usize] = true;
    }
    Ok(marks)
}

/// The names of the structs of these numbers, each with the identifier that it is given, in the order of the source.
pub fn name_structs(
    alloc: Global,
    names: &mut Legaliser,
    module: &LLVMModule,
    held: &[LLVMStruct],
) -> Result<Vec<(String, Identifier)>, AllocError>
    requires held { AreHeldStructs (data_of «module».now) held.now }
    ensures named { IfOk result (λ pairs. AreNamed (data_of «module».now) names.new (pairs_of pairs.items)) }
    ensures met { IfOk result (λ pairs. HasMet names.old names.new (source_names (pairs_of pairs.items))) }
    ensures grows { GoesOn names.old names.new }
{
    let count = module.structs();
    let marks = marks_of(alloc, count as usize, held)?;
    let mut met = NameSet::new(alloc);
    let mut pairs = Vec::new(alloc);
    for n in 0..count {
        if !marks[n as usize] {
            continue;
        }
        let name = module.struct_name(LLVMStruct(n));
        // Of structs that share a name the types name the first.
        if met.find(name).is_some() {
            continue;
        }
        met.insert(name)?;
        let identifier = names.legalise(name)?;
        pairs.push((String::from_str(alloc, name)?, identifier))?;
    }
    Ok(pairs)
}

/// The fields of a struct, with their types in the context; none of an opaque one.
fn import_fields(
    alloc: Global,
    ctx: &mut Context,
    source: &Source<'_>,
    fields: Option<&StructFields>,
) -> Result<Option<MadeFields>, AllocError>
    requires sound { IsModule source.now }
    requires within { IfSome fields (λ b. All (λ t. t.0 < length source.now.types) b.now.types) }
    requires held { IfSome fields (λ b. All (λ t. IsHeld (L.type_at (trees_of source.now).types t)) b.now.types) }
    requires ready { IfSome fields (λ b. All (λ t. NamesAmong (structs_of ctx.old.types) (L.type_at (trees_of source.now).types t)) b.now.types) }
    ensures grown { GrowsTypes ctx.old ctx.new }
    ensures below { IfOk result (λ o. IfSome o (λ b. AllBelow (length ctx.new.types) b.types)) }
    ensures fit { IfOk result (λ o. IfSome o (λ b. All (λ t. is_field (shape (type_at (type_trees ctx.new.types) t)) ≡ true) b.types)) }
    ensures fields { IfOk result (λ o. option_map (fields_of (type_trees ctx.new.types)) o ≡ option_map (λ b. L.fields_of (trees_of source.now).types b.now) fields.entry) }
{
    match fields {
        None => Ok(None),
        Some(fields) => {
            let types = import_all(alloc, ctx, source, fields.types.as_slice())?;
            Ok(Some(MadeFields {
                types: Items::from_vec(types),
                layout: fields.layout,
            }))
        }
    }
}

/// Makes one struct under its identifier.
fn make_struct(
    alloc: Global,
    ctx: &mut Context,
    module: &LLVMModule,
    source: &Source<'_>,
    s: LLVMStruct,
    identifier: &Identifier,
) -> Result<(), StructErr>
    requires there { s.0 < length «module».now.structs }
    requires sound { IsModule source.now }
    requires source { (to : List ℕ → List ℕ) × (source.now ≡ renamed_store to «module».now) }
    requires held { (x : StructData) → slice_get «module».now.structs s.0 ≡ Some x → IfSome x.body (λ b. All (λ t. IsHeld (L.type_at (trees_of source.now).types t)) b.types) }
    requires ready { (x : StructData) → slice_get «module».now.structs s.0 ≡ Some x → IfSome x.body (λ b. All (λ t. NamesAmong (structs_of ctx.old.types) (L.type_at (trees_of source.now).types t)) b.types) }
    ensures added { AddsTypes ctx.old ctx.new }
    ensures only { AddsOnly (structs_of ctx.old.types) (structs_of ctx.new.types) (identifier.now ∷ []) }
    ensures put { OnOk result ((x : StructData) → slice_get «module».now.structs s.0 ≡ Some x → IsStructPut (structs_of ctx.old.types) (structs_of ctx.new.types) (record { name = identifier.now; body = option_map (L.fields_of (trees_of source.now).types) x.body })) }
    ensures other { IfErr result (λ e. (i : List ℕ) → e ≡ reasons.DifferentBody i → (i ≡ identifier.now) × ((x : StructData) → slice_get «module».now.structs s.0 ≡ Some x → trees.HasOtherBody (structs_of ctx.old.types) (record { name = identifier.now; body = option_map (L.fields_of (trees_of source.now).types) x.body }))) }
{
    let body = import_fields(alloc, ctx, source, module.struct_body(s))?;
    ctx.types_mut().get_named(identifier.clone(alloc)?, body)?;
    Ok(())
}

/// Makes the structs of these numbers, each behind those that its fields hold, under the identifiers of their names.
/// Refuses one whose identifier the context has with another body, `DifferentBody`.
pub fn make_structs(
    alloc: Global,
    ctx: &mut Context,
    module: &LLVMModule,
    pairs: &[(String, Identifier)],
    source: &Source<'_>,
    held: &[LLVMStruct],
) -> Result<(), StructErr>
    requires form { IsForm (data_of «module».now) }
    requires taken { AreHeld (data_of «module».now) }
    requires held { AreHeldStructs (data_of «module».now) held.now }
    requires names { AreStructNames (pairs_of pairs.now) }
    requires listed { (given : List Named) × AreNamed (data_of «module».now) given (pairs_of pairs.now) }
    requires source { source.now ≡ renamed_store (struct_name (pairs_of pairs.now)) «module».now }
    ensures added { AddsTypes ctx.old ctx.new }
    ensures only { AddsOnly (structs_of ctx.old.types) (structs_of ctx.new.types) (identifiers (pairs_of pairs.now)) }
    ensures made { OnOk result (AreMade (data_of «module».now) (pairs_of pairs.now) (structs_of ctx.new.types)) }
    ensures other { IfErr result (λ e. (i : List ℕ) → e ≡ reasons.DifferentBody i → HasOtherBody (structs_of ctx.old.types) (data_of «module».now) (pairs_of pairs.now) i) }
{
    // This only reads: with the count comes what is known of the module, for the proof.
    let _count = module.structs();
    let names = listed_names(alloc, pairs)?;
    for s in held {
        match names.find(module.struct_name(*s)) {
            Some(place) => make_struct(alloc, ctx, module, source, *s, &pairs[place].1)?,
            None => unreachable!(),
        }
    }
    Ok(())
}
