//! How deep types nest through the fields of structs, exactly. Each type is gone through once: what is known of it is noted,
//! and that it is being looked at, so that one that is in itself is not gone through again.

ghost use Rattle.std.specs.Prelude.{max, ◌≡◌, ◌<◌, ℕ, All, length};
ghost use Rattle.kinds.specs.Structs.{nests};
ghost use Rattle.llvm_core.specs.Parts.{IsTypeOver};
ghost use Rattle.llvm_core.specs.Checked.{struct_names};
ghost use Rattle.llvm_core.specs.Depths.{IsLeastWithin, AreNotesAt, AreMoreNotes, nests_at, opened, all_nest_at, parts_nest_at, fields_nest_at};

use crate::module::LLVMModule;
use crate::name_set::NameSet;
use crate::numbers::{LLVMStruct, LLVMType};
use crate::types::LLVMTypeKind;

/// What is noted of a type whose parts are being looked at: more than is ever left.
const OPEN: u32 = u32::MAX;

fn greater(a: u32, b: u32) -> u32
    ensures { result ≡ max a b }
{
    if a < b { b } else { a }
}

/// The depth of the deepest of some types, 0 where there is none; None where it is more than `left`.
#[cycle(visit)]
fn visit_all(
    m: &LLVMModule,
    names: &NameSet<'_>,
    notes: &mut [u32],
    types: &[LLVMType],
    left: u32,
) -> Option<u32>
    requires within { All (λ t. t.0 < length m.now.types) types.now }
    requires names { names.now ≡ struct_names m.now }
    requires fuel { left < opened }
    requires notes { AreNotesAt m.now (all_nest_at m.now types.now) notes.old }
    ensures depth { IsLeastWithin (all_nest_at m.now types.now) left result }
    ensures notes { AreMoreNotes m.now notes.old notes.new }
{
    let mut depth = 0;
    for ty in types {
        depth = greater(depth, visit(m, names, notes, *ty, left)?);
    }
    Some(depth)
}

/// The depth of the deepest field of the struct of a name, 0 where it has none; None where it is more than `left`, or there is
/// no such struct.
#[cycle(visit)]
pub(crate) fn visit_fields(
    m: &LLVMModule,
    names: &NameSet<'_>,
    notes: &mut [u32],
    name: &str,
    left: u32,
) -> Option<u32>
    requires names { names.now ≡ struct_names m.now }
    requires fuel { left < opened }
    requires notes { AreNotesAt m.now (fields_nest_at m.now name.now) notes.old }
    ensures depth { IsLeastWithin (fields_nest_at m.now name.now) left result }
    ensures notes { AreMoreNotes m.now notes.old notes.new }
{
    // This tells the proof that the place is a number of a struct.
    let _count = m.structs();
    let place = names.find(name)?;
    match m.struct_body(LLVMStruct(place as u32)) {
        Some(body) => visit_all(m, names, notes, body.types.as_slice(), left),
        None => Some(0),
    }
}

/// The depth of the deepest part of a type of that kind, 0 where it has none; None where it is more than `left`.
#[cycle(visit)]
fn visit_parts(
    m: &LLVMModule,
    names: &NameSet<'_>,
    notes: &mut [u32],
    kind: &LLVMTypeKind,
    left: u32,
) -> Option<u32>
    requires parts { IsTypeOver (length m.now.types) kind.now }
    requires names { names.now ≡ struct_names m.now }
    requires fuel { left < opened }
    requires notes { AreNotesAt m.now (parts_nest_at m.now kind.now) notes.old }
    ensures depth { IsLeastWithin (parts_nest_at m.now kind.now) left result }
    ensures notes { AreMoreNotes m.now notes.old notes.new }
{
    match kind {
        LLVMTypeKind::Void => Some(0),
        LLVMTypeKind::Int(_) => Some(0),
        LLVMTypeKind::Ptr(_) => Some(0),
        LLVMTypeKind::Floating(_) => Some(0),
        LLVMTypeKind::Other(_) => Some(0),
        LLVMTypeKind::Array(_, ty) => visit(m, names, notes, *ty, left),
        LLVMTypeKind::Vector(_, _, ty) => visit(m, names, notes, *ty, left),
        LLVMTypeKind::Literal { fields, .. } => {
            visit_all(m, names, notes, fields.as_slice(), left)
        }
        LLVMTypeKind::Named(name) => visit_fields(m, names, notes, name.as_str(), left),
        LLVMTypeKind::Function { result, params, .. } => {
            let first = visit(m, names, notes, *result, left)?;
            let rest = visit_all(m, names, notes, params.as_slice(), left)?;
            Some(greater(first, rest))
        }
    }
}

/// How deep a type nests, None where that is deeper than `left`. It leaves no type open that was not, with None neither: others
/// are asked with the same notes after that.
#[cycle(visit)]
pub(crate) fn visit(
    m: &LLVMModule,
    names: &NameSet<'_>,
    notes: &mut [u32],
    ty: LLVMType,
    left: u32,
) -> Option<u32>
    requires within { ty.0 < length m.now.types }
    requires names { names.now ≡ struct_names m.now }
    requires fuel { left < opened }
    requires notes { AreNotesAt m.now (nests_at m.now ty) notes.old }
    ensures depth { IsLeastWithin (nests_at m.now ty) left result }
    ensures notes { AreMoreNotes m.now notes.old notes.new }
{
    let known = notes[ty.0 as usize];
    // This is so of each open type: one that is met again is in itself, and nests in no depth.
    if left == 0 || left < known {
        return None;
    }
    if known != 0 {
        return Some(known);
    }
    notes[ty.0 as usize] = OPEN;
    match visit_parts(m, names, notes, m.type_kind(ty), left - 1) {
        Some(below) => {
            notes[ty.0 as usize] = 1 + below;
            Some(1 + below)
        }
        None => {
            notes[ty.0 as usize] = 0;
            None
        }
    }
}
