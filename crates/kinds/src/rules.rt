//! The words of the table: what a row takes, what it gives, where it leads and what it does in a run.

ghost use Rattle.std.specs.Prelude.{◌≡◌, ◌↔◌, IsTrue};
ghost use Rattle.kinds.specs.Rules.{ends, target_count, operand_count};

/// What the type of an operand has to be. A vector is that where each of its lanes is, but for `Bit`, `Address` and `Place`.
#[derive(Clone, Copy, PartialEq, Eq, Debug, Drop)]
pub enum Fit {
    /// A type of a value.
    Any,
    /// An integer.
    Number,
    /// An integer or a pointer.
    Comparable,
    /// A type of a value that has a size: any but `token`.
    Sized,
    /// A pointer, and no vector.
    Address,
    /// A pointer, and no vector, where the type that is written has a size.
    Place,
    /// `i1`, and no vector.
    Bit,
    /// `i1`, or a vector of it.
    Bits,
    /// A type of a value, with as many lanes as the first operand has, or with any where that is no vector.
    Chosen,
    /// The type of the first operand.
    First,
    /// The type of the second operand.
    Second,
    /// What is cast, lane by lane, to the type that is written.
    Cast(Cast),
}

/// What a lane is cast to.
#[derive(Clone, Copy, PartialEq, Eq, Debug, Drop)]
pub enum Cast {
    /// An integer to a narrower one.
    ToNarrower,
    /// An integer to a wider one.
    ToWider,
    /// A pointer to an integer.
    ToNumber,
    /// An integer to a pointer.
    ToPointer,
    /// A pointer to one of another address space.
    ToSpace,
}

/// The operands of a row, in order.
#[derive(Clone, Copy, PartialEq, Eq, Debug, Drop)]
pub enum Takes {
    Nothing,
    One(Fit),
    Two(Fit, Fit),
    Three(Fit, Fit, Fit),
    /// What the function returns: nothing where it returns void, else one value of that type.
    Return,
}

/// The type of the result.
#[derive(Clone, Copy, PartialEq, Eq, Debug, Drop)]
pub enum Gives {
    /// There is no result.
    Nothing,
    /// That of the first operand.
    First,
    /// That of the second operand.
    Second,
    /// The type that is written beside the operands, as that of a cast.
    Written,
    /// `i1`, in as many lanes as the first operand has.
    Bits,
}

/// How many blocks a row leads to.
#[derive(Clone, Copy, PartialEq, Eq, Debug, Drop)]
pub enum Leads {
    /// To none: it ends no block.
    On,
    /// To so many: it ends its block.
    To(u32),
}

/// What a row does in a run.
#[derive(Clone, Copy, PartialEq, Eq, Debug, Drop)]
pub enum Family {
    /// It shows an event.
    Shows,
    /// It is silent, and its result stands for the expression of its operands.
    Builds,
}

/// A line of the table.
#[derive(Clone, Copy, PartialEq, Eq, Debug, Drop)]
pub struct Rule {
    pub takes: Takes,
    pub gives: Gives,
    pub leads: Leads,
    pub family: Family,
}

impl Leads {
    /// Whether a row that leads so ends its block.
    pub fn ends(self) -> bool
        ensures { result ≡ ends self }
    {
        match self {
            Leads::On => false,
            Leads::To(_) => true,
        }
    }

    /// How many blocks are named.
    pub fn target_count(self) -> usize
        ensures { result ≡ target_count self }
    {
        match self {
            Leads::On => 0,
            Leads::To(count) => count as usize,
        }
    }
}

impl Takes {
    /// How many operands are taken, in a function that returns void or does not.
    pub fn operand_count(self, returns_void: bool) -> usize
        ensures { result ≡ operand_count self returns_void }
    {
        match self {
            Takes::Nothing => 0,
            Takes::One(_) => 1,
            Takes::Two(..) => 2,
            Takes::Three(..) => 3,
            Takes::Return => { if returns_void { 0 } else { 1 } }
        }
    }
}
