//! Structs with a name, as a module keeps them, beside the types that name them.

ghost use Rattle.std.specs.Prelude.{◌≡◌, ◌<◌, ◌^◌, ◌++◌, ◌∷◌, [], nat_eq, IfOk, OnErr, OnOk, Some, length, slice_get};
ghost use Rattle.std.proofs.Common.{ap};
ghost use Rattle.std.specs.Cmp.Lexicographic.{pointwise, bytes_decides, nat_list_eq_equiv};
ghost use Rattle.std.specs.Hash as fed;
ghost use Rattle.llvm_core.specs.Firsts.{IsFirst, AreFirsts, IsNoted};
ghost use Rattle.indexmap.specs.IndexMap.{IsUnchanged};

use crate::numbers::{LLVMStruct, LLVMType};
use indexmap::{Equivalent, IndexMap};
use kinds::types::StructLayout;
use std::alloc::{AllocError, Global};
use std::marker::Model;
use support::items::Items;
use support::text::Text;

/// The fields of a struct, and how they lie.
#[derive(Drop)]
pub struct StructFields {
    pub types: Items<LLVMType>,
    pub layout: StructLayout,
}

/// A struct with its name; one without fields that are told is opaque (Language Reference, Opaque Structure Types).
#[derive(Drop)]
pub struct StructData {
    pub name: Text,
    pub body: Option<StructFields>,
}

/// A name that is looked for.
#[derive(Clone, Copy, PartialEq, Eq, Hash)]
struct Sought<'a> {
    name: &'a str,
}

impl<'a> Equivalent<Text> for Sought<'a> {
    ghost equivalent = { λ q. pointwise nat_eq q.name.now };

    ghost respects_hash = { λ q k h. ap fed.str ((bytes_decides q.name.now k).0 h) };

    ghost respects_eq = { λ q x y. nat_list_eq_equiv.congr q.name.now x y };

    fn equivalent(&self, key: &Text) -> bool {
        self.name == key.as_str()
    }
}

/// The structs of a module, under their numbers, seen as their list.
#[derive(Drop)]
pub struct StructStore {
    alloc: Global,
    items: Vec<StructData>,
    /// The first struct of each name.
    firsts: IndexMap<Text, LLVMStruct>,
}

impl Model for StructStore {
    ghost use Rattle.std.specs.Prelude.{List, length, ◌<◌, ◌^◌};
    ghost use Rattle.llvm_core.specs.declared.structs.StructData.{StructData};
    ghost use Rattle.llvm_core.specs.Firsts.{AreFirsts};

    ghost Value = { List StructData };

    ghost view = { λ s. s.items.items };

    ghost invariant = { λ s. (length s.items.items < 2 ^ 32) × AreFirsts s.items.items s.firsts };
}

impl StructStore {
    pub fn new(alloc: Global) -> StructStore
        ensures { result ≡ [] }
    {
        StructStore {
            alloc,
            items: Vec::new(alloc),
            firsts: IndexMap::new(alloc),
        }
    }

    /// Appends a struct.
    pub fn add(&mut self, name: &str, body: Option<StructFields>) -> Result<LLVMStruct, AllocError>
        ensures number { IfOk result (λ s. s.0 ≡ length self.old) }
        ensures ok { OnOk result (self.new ≡ self.old ++ (record { name = name.now; body = body }) ∷ []) }
        ensures err { OnErr result (self.new ≡ self.old) }
    {
        let at = self.items.len();
        if at >= u32::MAX as usize {
            return Err(AllocError);
        }
        let s = LLVMStruct(at as u32);
        let name = Text::copy(self.alloc, name)?;
        self.items.reserve(1)?;
        note(self.alloc, &mut self.firsts, name.as_str(), s)?;
        self.items.push(StructData { name, body })?;
        Ok(s)
    }

    pub fn len(&self) -> u32
        ensures { result ≡ length self.now }
    {
        self.items.len() as u32
    }

    pub fn get(&self, s: LLVMStruct) -> &StructData
        requires { s.0 < length self.now }
        ensures { slice_get self.now s.0 ≡ Some result.now }
    {
        &self.items[s.0 as usize]
    }

    /// The first struct of that name.
    pub fn find(&self, name: &str) -> Option<LLVMStruct>
        ensures { IsFirst self.now name.now result }
    {
        self.firsts.get(Sought { name }).copied()
    }
}

/// Notes a struct under its name, unless one of that name is noted.
fn note(
    alloc: Global,
    firsts: &mut IndexMap<Text, LLVMStruct>,
    name: &str,
    s: LLVMStruct,
) -> Result<(), AllocError>
    ensures ok { OnOk result (IsNoted firsts.old firsts.new name.now s) }
    ensures err { OnErr result (IsUnchanged firsts.old firsts.new) }
{
    if firsts.contains_key(Sought { name }) {
        return Ok(());
    }
    let name = Text::copy(alloc, name)?;
    firsts.insert(name, s)?;
    Ok(())
}
