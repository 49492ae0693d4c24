//! A constant with another element at one place.

ghost use Rattle.std.specs.Prelude.{◌≡◌, ◌<◌, ◌↔◌, Some, map, replicate, IfOk, IfSome, IsTrue, List, length, slice_get};
ghost use Rattle.std.specs.Option.{option_and_then, option_map};
ghost use Rattle.llvm_core.specs.declared.numbers.LLVMType.{LLVMType};
ghost use Rattle.llvm_core.specs.declared.types.LLVMTypeKind.TheVariants as types;
ghost use Rattle.llvm_core.specs.declared.consts.LLVMConstKind.{LLVMConstKind};
ghost use Rattle.llvm_core.specs.declared.pieces.Piece.TheVariants as made;
ghost use Rattle.llvm_core.specs.Parts.{const_type};
ghost use Rattle.llvm_core.specs.Consts.{HasConstParts, HasFields, IsElement, IsListOf, one_form};
ghost use Rattle.llvm_core.specs.Data.{trees_of, type_at, const_at, consts_at, const_tree, data_of, formed, listed};
ghost use Rattle.llvm_core.specs.Inserted.{inserted};
ghost use Rattle.llvm_core.specs.Pieces.{ArePiecesOf, FieldFits, FitsKind, FitsPlace, HasMoreConsts, IsPieceOf, IsPutAs, NamedFits, OneFits, byte_pieces, fill_pieces, named_fields, piece_trees, pieces};

use super::{LLVMModule, const_type};
use crate::consts::LLVMConstKind;
use crate::numbers::{LLVMConst, LLVMType};
use crate::pieces::Piece;
use crate::types::LLVMTypeKind;
use kinds::fill::Fill;
use kinds::types::VectorTypeKind;
use std::alloc::{AllocError, Global};
use support::items::Items;

impl LLVMModule {
    /// The constant that has another element at that place, where it is an array, a vector of a known length or a struct whose
    /// fields are told, and so long; none otherwise. The constants that were there stay, after an error too.
    pub fn const_insert(
        &mut self,
        aggregate: LLVMConst,
        place: u64,
        element: LLVMConst,
    ) -> Result<Option<LLVMConst>, AllocError>
        requires aggregate { aggregate.0 < length self.old.consts }
        requires element { (k : LLVMConstKind) → slice_get self.old.consts aggregate.0 ≡ Some k → FitsPlace self.old (const_type k) place element }
        ensures inserted { IfOk result (λ o. option_map (const_at (trees_of self.new).consts) o ≡ inserted (data_of self.old).structs (const_at (trees_of self.old).consts aggregate) place (const_at (trees_of self.old).consts element)) }
        ensures within { IfOk result (λ o. IfSome o (λ c. c.0 < length self.new.consts)) }
        ensures grown { HasMoreConsts self.old self.new }
    {
        // This tells the proof of the invariant.
        let _ = &self.types;
        let ty = const_type(self.const_kind(aggregate));
        let Some(pieces) = self.pieces(aggregate)? else {
            return Ok(None);
        };
        let mut pieces = pieces;
        if place >= pieces.as_slice().len() as u64 {
            return Ok(None);
        }
        pieces.set(place as usize, Piece::There(element));
        let c = self.put_together(ty, pieces.as_slice())?;
        Ok(Some(c))
    }

    /// Whether an element may stand at that place, where there is such a place, so that `const_insert` takes it.
    pub fn may_insert(&self, aggregate: LLVMConst, place: u64, element: LLVMConst) -> bool
        requires { aggregate.0 < length self.now.consts }
        ensures { IsTrue result ↔ ((k : LLVMConstKind) → slice_get self.now.consts aggregate.0 ≡ Some k → FitsPlace self.now (const_type k) place element) }
    {
        match self.kind_at(const_type(self.const_kind(aggregate))) {
            Some(kind) => self.is_of_place(kind, place, element),
            None => true,
        }
    }

    fn is_of_place(&self, kind: &LLVMTypeKind, place: u64, element: LLVMConst) -> bool
        ensures { IsTrue result ↔ FitsKind self.now kind.now place element }
    {
        match kind {
            LLVMTypeKind::Array(count, ty) => self.is_of_one(*count, *ty, place, element),
            LLVMTypeKind::Vector(kind, count, ty) => {
                self.is_of_lane(*kind, *count, *ty, place, element)
            }
            LLVMTypeKind::Literal { fields, .. } => {
                self.is_of_field(fields.as_slice(), place, element)
            }
            LLVMTypeKind::Named(name) => self.is_of_named(name.as_str(), place, element),
            _ => true,
        }
    }

    fn is_of_lane(
        &self,
        kind: VectorTypeKind,
        count: u32,
        ty: LLVMType,
        place: u64,
        element: LLVMConst,
    ) -> bool
        ensures { IsTrue result ↔ FitsKind self.now (types.Vector kind count ty) place element }
    {
        match kind {
            VectorTypeKind::Fixed => self.is_of_one(count as u64, ty, place, element),
            VectorTypeKind::Scalable => true,
        }
    }

    /// Of so many elements of one type.
    fn is_of_one(&self, count: u64, ty: LLVMType, place: u64, element: LLVMConst) -> bool
        ensures { IsTrue result ↔ OneFits self.now.consts count ty place element }
    {
        place >= count || self.is_element(ty, element)
    }

    fn is_of_named(&self, name: &str, place: u64, element: LLVMConst) -> bool
        ensures { IsTrue result ↔ NamedFits self.now name.now place element }
    {
        match self.fields_named(name) {
            Some(fields) => self.is_of_field(fields, place, element),
            None => true,
        }
    }

    fn is_of_field(&self, fields: &[LLVMType], place: u64, element: LLVMConst) -> bool
        ensures { IsTrue result ↔ FieldFits self.now.consts fields.now place element }
    {
        if place < fields.len() as u64 {
            self.is_element(fields[place as usize], element)
        } else {
            true
        }
    }

    /// The constant of a type that has these elements.
    fn put_together(&mut self, ty: LLVMType, pieces: &[Piece]) -> Result<LLVMConst, AllocError>
        requires { ArePiecesOf self.old ty pieces.now }
        ensures is { IfOk result (λ c. const_at (trees_of self.new).consts c ≡ listed (type_at (trees_of self.old).types ty) (piece_trees (trees_of self.old) pieces.now)) }
        ensures within { IfOk result (λ c. c.0 < length self.new.consts) }
        ensures grown { HasMoreConsts self.old self.new }
    {
        let elements = self.put_each(pieces)?;
        let c = self.made(LLVMConstKind::List(ty, elements))?;
        Ok(c)
    }

    /// A constant for each piece.
    fn put_each(&mut self, pieces: &[Piece]) -> Result<Items<LLVMConst>, AllocError>
        requires { (t : LLVMType) × ArePiecesOf self.old t pieces.now }
        ensures trees { IfOk result (λ cs. consts_at (trees_of self.new).consts cs ≡ piece_trees (trees_of self.old) pieces.now) }
        ensures list { IfOk result (λ cs. (t : LLVMType) → ArePiecesOf self.old t pieces.now → IsListOf self.new.types self.new.consts self.new.structs t cs) }
        ensures grown { HasMoreConsts self.old self.new }
    {
        let mut all = Items::from_vec(Vec::with_capacity(self.alloc, pieces.len())?);
        for piece in pieces {
            let c = self.put(*piece)?;
            all.push(c)?;
        }
        Ok(all)
    }

    /// The constant that a piece is.
    fn put(&mut self, piece: Piece) -> Result<LLVMConst, AllocError>
        requires { (u : LLVMType) × IsPieceOf self.old u piece }
        ensures is { IfOk result (λ c. IsPutAs self.old self.new piece c) }
        ensures grown { HasMoreConsts self.old self.new }
    {
        // This tells the proof of the invariant.
        let _ = &self.types;
        match piece {
            Piece::There(c) => Ok(c),
            Piece::Filled(fill, ty) => {
                let c = self.made(LLVMConstKind::Filled(fill, ty))?;
                Ok(c)
            }
            Piece::Int(ty, value) => {
                let c = self.made(LLVMConstKind::Int(ty, value as u128))?;
                Ok(c)
            }
        }
    }

    /// As `const_get`, where it is asked what stays.
    fn made(&mut self, kind: LLVMConstKind) -> Result<LLVMConst, AllocError>
        requires { HasConstParts self.old kind }
        ensures form { IfOk result (λ c. const_at (trees_of self.new).consts c ≡ formed (const_tree (trees_of self.old).types (trees_of self.old).consts kind)) }
        ensures there { IfOk result (λ c. slice_get self.new.consts c.0 ≡ Some (one_form self.old kind)) }
        ensures grown { HasMoreConsts self.old self.new }
    {
        let c = self.const_get(kind)?;
        Ok(c)
    }

    /// The elements of a constant, where it has any.
    fn pieces(&self, c: LLVMConst) -> Result<Option<Items<Piece>>, AllocError>
        requires { c.0 < length self.now.consts }
        ensures { IfOk result (λ o. (k : LLVMConstKind) × (slice_get self.now.consts c.0 ≡ Some k) × (o ≡ pieces self.now k)) }
    {
        match self.const_kind(c) {
            LLVMConstKind::Filled(fill, ty) => self.fill_pieces(*fill, *ty),
            LLVMConstKind::Bytes(ty, bytes) => self.byte_pieces(*ty, bytes.as_slice()),
            LLVMConstKind::List(_, elements) => Ok(Some(these(self.alloc, elements.as_slice())?)),
            _ => Ok(None),
        }
    }

    /// The elements of zero, undef or poison of a type.
    fn fill_pieces(&self, fill: Fill, ty: LLVMType) -> Result<Option<Items<Piece>>, AllocError>
        requires { ty.0 < length self.now.types }
        ensures { IfOk result (λ o. o ≡ option_and_then (fill_pieces self.now.structs fill) (slice_get self.now.types ty.0)) }
    {
        let alloc = self.alloc;
        match self.type_kind(ty) {
            LLVMTypeKind::Array(count, t) => Ok(Some(so_many(
                alloc,
                *count,
                Piece::Filled(fill, *t),
            )?)),
            LLVMTypeKind::Vector(VectorTypeKind::Fixed, count, t) => Ok(Some(so_many(
                alloc,
                *count as u64,
                Piece::Filled(fill, *t),
            )?)),
            LLVMTypeKind::Literal { fields, .. } => {
                Ok(Some(of_each(alloc, fill, fields.as_slice())?))
            }
            LLVMTypeKind::Named(name) => self.named_pieces(fill, name.as_str()),
            _ => Ok(None),
        }
    }

    fn named_pieces(&self, fill: Fill, name: &str) -> Result<Option<Items<Piece>>, AllocError>
        ensures { IfOk result (λ o. o ≡ option_map (map (made.Filled fill)) (named_fields self.now.structs name.now)) }
    {
        match self.fields_named(name) {
            Some(fields) => Ok(Some(of_each(self.alloc, fill, fields)?)),
            None => Ok(None),
        }
    }

    /// The elements of an array with a byte for each.
    fn byte_pieces(&self, ty: LLVMType, bytes: &[u8]) -> Result<Option<Items<Piece>>, AllocError>
        requires { ty.0 < length self.now.types }
        ensures { IfOk result (λ o. o ≡ option_and_then (byte_pieces bytes.now) (slice_get self.now.types ty.0)) }
    {
        match self.type_kind(ty) {
            LLVMTypeKind::Array(_, t) => Ok(Some(ints(self.alloc, *t, bytes)?)),
            _ => Ok(None),
        }
    }
}

/// Constants that are there.
fn these(alloc: Global, elements: &[LLVMConst]) -> Result<Items<Piece>, AllocError>
    ensures { IfOk result (λ ps. ps ≡ map made.There elements.now) }
{
    let mut all = Items::from_vec(Vec::with_capacity(alloc, elements.len())?);
    for element in elements {
        all.push(Piece::There(*element))?;
    }
    Ok(all)
}

/// Zero, undef or poison of each type.
fn of_each(alloc: Global, fill: Fill, types: &[LLVMType]) -> Result<Items<Piece>, AllocError>
    ensures { IfOk result (λ ps. ps ≡ map (made.Filled fill) types.now) }
{
    let mut all = Items::from_vec(Vec::with_capacity(alloc, types.len())?);
    for ty in types {
        all.push(Piece::Filled(fill, *ty))?;
    }
    Ok(all)
}

/// An integer for each byte.
fn ints(alloc: Global, ty: LLVMType, bytes: &[u8]) -> Result<Items<Piece>, AllocError>
    ensures { IfOk result (λ ps. ps ≡ map (made.Int ty) bytes.now) }
{
    let mut all = Items::from_vec(Vec::with_capacity(alloc, bytes.len())?);
    for byte in bytes {
        all.push(Piece::Int(ty, *byte))?;
    }
    Ok(all)
}

/// One piece so many times. Room for all is asked for first, so that a length for which there is none ends at once.
fn so_many(alloc: Global, count: u64, piece: Piece) -> Result<Items<Piece>, AllocError>
    ensures { IfOk result (λ ps. ps ≡ replicate count piece) }
{
    let mut all = Items::from_vec(Vec::with_capacity(alloc, count as usize)?);
    for _ in 0..count {
        all.push(piece)?;
    }
    Ok(all)
}
