//! What values name: constants that are made of others, instructions, and lists.

ghost use Rattle.std.specs.Prelude.{◌≡◌, [], IfOk};

use crate::lists::Lists;
use crate::planned::Planned;
use crate::value::{Definition, Entry, Piece, Structure};
use ll_lines::lines::{ConstLine, Param, SaidConst};
use llvm_core::numbers::LLVMType;
use std::alloc::{AllocError, Global};

/// Constants that are made of others, instructions and lists, by number.
#[derive(Drop)]
pub struct Store {
    /// The constants of the file that are made of others, by their places.
    pub table: Vec<ConstLine>,
    /// Their elements, as they are written.
    pub consts: Lists<SaidConst>,
    pub insts: Vec<Planned>,
    pub entries: Lists<Entry>,
    pub bodies: Lists<Piece>,
    pub types: Lists<LLVMType>,
    pub params: Lists<Param>,
    pub structs: Lists<Structure>,
    pub functions: Lists<Definition>,
}

impl Store {
    /// An empty store with room for the instructions of so many events: most instructions have some sixteen.
    pub fn for_events(alloc: Global, events: usize) -> Result<Store, AllocError>
        ensures table { IfOk result (λ s. s.table.items ≡ []) }
        ensures consts { IfOk result (λ s. s.consts ≡ []) }
        ensures insts { IfOk result (λ s. s.insts.items ≡ []) }
        ensures entries { IfOk result (λ s. s.entries ≡ []) }
        ensures bodies { IfOk result (λ s. s.bodies ≡ []) }
        ensures types { IfOk result (λ s. s.types ≡ []) }
        ensures params { IfOk result (λ s. s.params ≡ []) }
        ensures structs { IfOk result (λ s. s.structs ≡ []) }
        ensures functions { IfOk result (λ s. s.functions ≡ []) }
    {
        let room = events / 16;
        Ok(Store {
            table: Vec::new(alloc),
            consts: Lists::new(alloc),
            insts: Vec::with_capacity(alloc, room)?,
            entries: Lists::new(alloc),
            bodies: Lists::with_room(alloc, room)?,
            types: Lists::new(alloc),
            params: Lists::new(alloc),
            structs: Lists::new(alloc),
            functions: Lists::new(alloc),
        })
    }
}
