//! What both sides say of types with the same words: those without parts, how vectors and structs are laid out, and how
//! deep a type may nest.

ghost use Rattle.std.specs.Prelude.{◌≡◌};
ghost use Rattle.kinds.specs.Held.{deepest, too_deep};

/// A floating-point type (Language Reference, Floating-Point Types): a line for each.
#[derive(Clone, Copy, PartialEq, Eq, Hash, Debug, Drop)]
pub enum Floating {
    /// 16 bits, of IEEE 754.
    Half,
    /// 16 bits, of which 8 are the exponent.
    BFloat,
    /// 32 bits.
    Float,
    /// 64 bits.
    Double,
}

/// A type of LLVM's side for which the dialect has none: a line for each.
#[derive(Clone, Copy, PartialEq, Eq, Hash, Debug, Drop)]
pub enum OtherType {
    /// 80 bits, of x87.
    X86Fp80,
    /// 128 bits, of which 113 are the significand.
    Fp128,
    /// Two of 64 bits.
    PpcFp128,
    /// What an AMX register holds (Language Reference, X86_amx Type).
    X86Amx,
    /// What ties an instruction to its uses (Language Reference, Token Type).
    Token,
}

/// How many elements a vector has (Language Reference, Vector Type).
#[derive(Clone, Copy, PartialEq, Eq, Hash, Debug, Drop)]
pub enum VectorTypeKind {
    /// As many as it says.
    Fixed,
    /// A multiple of that, which the machine tells.
    Scalable,
}

/// How many lanes a type has: what a row asks of a type it asks of each.
#[derive(Clone, Copy, PartialEq, Eq, Hash, Debug, Drop)]
pub enum Lanes {
    /// One, the whole: the type is no vector.
    One,
    /// The elements of a vector, so many; one too.
    Many(VectorTypeKind, u32),
}

/// How the fields of a struct lie (Language Reference, Structure Type).
#[derive(Clone, Copy, PartialEq, Eq, Hash, Debug, Drop)]
pub enum StructLayout {
    /// Each at its own alignment.
    Unpacked,
    /// One directly behind the other.
    Packed,
}

/// So deep a type may nest.
const DEEPEST: u32 = 1000;

/// So deep a type may nest.
#[tactic(auto, unfolding(crate::specs::Held::deepest))]
pub fn deepest() -> u32
    ensures { result ≡ deepest }
{
    DEEPEST
}

/// Whether no type may nest so deep.
#[tactic(auto, unfolding(crate::specs::Held::too_deep))]
pub fn too_deep(depth: u32) -> bool
    ensures { result ≡ too_deep depth }
{
    depth > deepest()
}
