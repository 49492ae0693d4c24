//! The tables of what a body names, its types and the terms of its constants, filled when each is first met.

ghost use Rattle.std.specs.Prelude.{◌≡◌, ◌<◌, ℕ, All, IfOk, List, OnOk, length, map};
ghost use Rattle.support.specs.NumberMaps.{value_at};
ghost use Rattle.llvm_core.specs.Data.{ArrayType, IntType, type_at};
ghost use Rattle.meaning.specs.Terms as meant;
ghost use Rattle.meaning.specs.Constants.{bytes_term, list_term, splat_term};
ghost use Rattle.tracing.specs.Types.{Stands};
ghost use Rattle.tracing.specs.Table.{HasPartsBelow, HasTypeBelow, IsTermAt, AreTermsAt, KeepsTerms, node_term, term_at};
ghost use Rattle.tracing.specs.TypePlaces.{trees_in};
ghost use Rattle.tracing.specs.Tables.{AreGrown, AreTables, Origin, contents_in};

use crate::folding::{common_fill, fill_at};
use crate::table::{TermNode, TermTable};
use crate::type_places::TypePlaces;
use llvm_core::numbers::LLVMType;
use std::alloc::{AllocError, Global};
use support::items::Items;
use support::number_map::NumberMap;

/// A table of types and one of terms, and the places in them of each type and each constant of a source that has one, by the
/// number there.
#[derive(Drop)]
pub struct Tables {
    /// The types that a trace names, each once.
    pub types: TypePlaces,
    /// The terms that a trace names, each once.
    pub terms: TermTable,
    constants: NumberMap<u32>,
}

impl Tables {
    /// Nothing has a place.
    pub fn new(alloc: Global) -> Tables
        ensures { (source : Origin) → AreTables source result }
    {
        Tables {
            types: TypePlaces::new(alloc),
            terms: TermTable::new(alloc),
            constants: NumberMap::new(alloc),
        }
    }

    /// The place of a constant of the source, if it has one yet.
    pub fn known(&self, number: u32) -> Option<u32>
        ensures { result ≡ value_at self.now.constants number }
    {
        self.constants.get(number)
    }

    /// Notes the place of a constant of the source.
    pub fn note(&mut self, number: u32, place: u32) -> Result<(), AllocError>
        ensures contents { OnOk result (contents_in self.new ≡ contents_in self.old) }
        ensures grown { OnOk result ((source : Origin) → AreTables source self.old → IsTermAt (contents_in self.old).terms place (source.term number) → AreGrown source self.old self.new) }
    {
        self.constants.set(number, place)
    }
}

/// The place of a term that the table may not have yet.
pub fn put(tables: &mut Tables, node: TermNode) -> Result<u32, AllocError>
    requires parts { HasPartsBelow (length tables.old.terms) node }
    requires typed { HasTypeBelow (length (trees_in tables.old.types)) node }
    ensures is { IfOk result (λ k. IsTermAt (contents_in tables.new).terms k (node_term (trees_in tables.old.types) (contents_in tables.old).terms node)) }
    ensures kept { OnOk result (KeepsTerms (contents_in tables.old).terms (contents_in tables.new).terms) }
    ensures types { OnOk result (tables.new.types ≡ tables.old.types) }
    ensures grown { OnOk result ((source : Origin) → AreTables source tables.old → AreGrown source tables.old tables.new) }
{
    tables.terms.intern(node)
}

/// The place of an aggregate with these elements, which is zero, undef or poison where each is.
pub fn put_list(tables: &mut Tables, ty: LLVMType, places: Vec<u32>) -> Result<u32, AllocError>
    requires typed { ty.0 < length (trees_in tables.old.types) }
    requires within { All (λ k. k < length tables.old.terms) places.items }
    ensures is { IfOk result (λ k. IsTermAt (contents_in tables.new).terms k (list_term (type_at (trees_in tables.old.types) ty) (meant.terms_of (map (term_at (contents_in tables.old).terms) places.items)))) }
    ensures grown { OnOk result ((source : Origin) → AreTables source tables.old → AreGrown source tables.old tables.new) }
{
    match common_fill(&tables.terms, places.as_slice()) {
        Some(fill) => put(tables, TermNode::Filled(fill, ty)),
        None => put(tables, TermNode::ListOf(ty, Items::from_vec(places))),
    }
}

/// The place of a scalable vector with that lane, which is zero, undef or poison where the lane is.
pub fn put_splat(tables: &mut Tables, ty: LLVMType, lane: u32) -> Result<u32, AllocError>
    requires typed { ty.0 < length (trees_in tables.old.types) }
    requires within { lane < length tables.old.terms }
    ensures is { IfOk result (λ k. IsTermAt (contents_in tables.new).terms k (splat_term (type_at (trees_in tables.old.types) ty) (term_at (contents_in tables.old).terms lane))) }
    ensures grown { OnOk result ((source : Origin) → AreTables source tables.old → AreGrown source tables.old tables.new) }
{
    match fill_at(&tables.terms, lane) {
        Some(fill) => put(tables, TermNode::Filled(fill, ty)),
        None => put(tables, TermNode::SplatOf(ty, lane)),
    }
}

/// The places of integers of 8 bits.
fn byte_places(alloc: Global, tables: &mut Tables, bytes: &[u8]) -> Result<Vec<u32>, AllocError>
    ensures are { IfOk result (λ ks. AreTermsAt (contents_in tables.new).terms ks.items (map (meant.Int 8) bytes.now)) }
    ensures types { OnOk result (tables.new.types ≡ tables.old.types) }
    ensures grown { OnOk result ((source : Origin) → AreTables source tables.old → AreGrown source tables.old tables.new) }
{
    let mut places = Vec::new(alloc);
    for byte in bytes {
        let place = put(tables, TermNode::Int(8, u128::from(*byte)))?;
        places.push(place)?;
    }
    Ok(places)
}

/// The place of the type of an array of so many integers of 8 bits.
fn byte_array(tables: &mut Tables, count: u64) -> Result<LLVMType, AllocError>
    ensures stands { IfOk result (λ t. Stands (trees_in tables.new.types) t (ArrayType count (IntType 8))) }
    ensures grown { OnOk result ((source : Origin) → AreTables source tables.old → AreGrown source tables.old tables.new) }
{
    tables.types.byte_array(count)
}

/// The place of an array of integers of 8 bits.
pub fn put_bytes(alloc: Global, tables: &mut Tables, bytes: &[u8]) -> Result<u32, AllocError>
    requires { (source : Origin) × AreTables source tables.old }
    ensures is { IfOk result (λ k. IsTermAt (contents_in tables.new).terms k (bytes_term bytes.now)) }
    ensures grown { OnOk result ((source : Origin) → AreTables source tables.old → AreGrown source tables.old tables.new) }
{
    let ty = byte_array(tables, bytes.len() as u64)?;
    let places = byte_places(alloc, tables, bytes)?;
    put_list(tables, ty, places)
}
