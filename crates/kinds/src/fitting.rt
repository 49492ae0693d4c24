//! Whether operands fit a row: one evaluator of the table's words, for either side.

ghost use Rattle.std.specs.Prelude.{◌≡◌};
ghost use Rattle.kinds.specs.Types.{same_kind};
ghost use Rattle.kinds.specs.Fitting.{fit, is_same, is_written, takes_fit, fits, view_same, view_laned, is_cast, is_bits_laned, is_cast_laned, is_chosen_laned, is_address, is_comparable, is_sized, is_elsewhere, is_one, same_lanes, is_wider, is_value, is_number, is_pointer, is_bit, is_nothing, is_function, is_first_class, is_held, is_token, is_amx, is_made, is_field, is_array_of, is_vector_of};

use crate::rules::{Cast, Fit, Gives, Rule, Takes};
use crate::types::{Lanes, OtherType, VectorTypeKind};

/// The greatest width of an integer type in bits, 2^23.
const MAX_WIDTH: u32 = 8_388_608;

/// The greatest number of an address space, 2^24 - 1: LLVM keeps it in 24 bits.
const MAX_SPACE: u32 = 16_777_215;

/// What rules look at in a type.
#[derive(Clone, Copy, PartialEq, Eq, Debug, Drop)]
pub enum Shape {
    Void,
    /// An integer type of this width.
    Int(u32),
    /// A pointer type of this address space.
    Pointer(u32),
    /// A type of values without parts, that no rule looks into.
    Other,
    /// A type of values for which the dialect has no type.
    Refused(OtherType),
    /// A type of values that is made of others: what holds of these is asked of them.
    Made,
    /// A struct with a name: what holds of its fields is asked where they stand.
    Named,
    /// A type of no value.
    Function,
}

/// What rows look at in a type: its lanes, and the shape of one. What is no vector is one lane.
#[derive(Clone, Copy, PartialEq, Eq, Debug, Drop)]
pub struct Laned {
    pub lanes: Lanes,
    pub lane: Shape,
}

/// A type by its number, with its lanes.
#[derive(Clone, Copy, PartialEq, Eq, Debug, Drop)]
pub struct TypeView {
    pub number: u32,
    pub laned: Laned,
}

/// Whether it is that of a type of a value.
pub fn is_value(shape: Shape) -> bool
    ensures { result ≡ is_value shape }
{
    match shape {
        Shape::Void => false,
        Shape::Int(_) => true,
        Shape::Pointer(_) => true,
        Shape::Other => true,
        Shape::Refused(_) => true,
        Shape::Made => true,
        Shape::Named => true,
        Shape::Function => false,
    }
}

/// An integer type.
pub fn is_number(shape: Shape) -> bool
    ensures { result ≡ is_number shape }
{
    match shape {
        Shape::Void => false,
        Shape::Int(_) => true,
        Shape::Pointer(_) => false,
        Shape::Other => false,
        Shape::Refused(_) => false,
        Shape::Made => false,
        Shape::Named => false,
        Shape::Function => false,
    }
}

/// A pointer, whose zero is null.
pub fn is_pointer(shape: Shape) -> bool
    ensures { result ≡ is_pointer shape }
{
    match shape {
        Shape::Void => false,
        Shape::Int(_) => false,
        Shape::Pointer(_) => true,
        Shape::Other => false,
        Shape::Refused(_) => false,
        Shape::Made => false,
        Shape::Named => false,
        Shape::Function => false,
    }
}

fn is_bit(shape: Shape) -> bool
    ensures { result ≡ is_bit shape }
{
    match shape {
        Shape::Void => false,
        Shape::Int(width) => width == 1,
        Shape::Pointer(_) => false,
        Shape::Other => false,
        Shape::Refused(_) => false,
        Shape::Made => false,
        Shape::Named => false,
        Shape::Function => false,
    }
}

/// Whether it is void.
pub fn is_nothing(shape: Shape) -> bool
    ensures { result ≡ is_nothing shape }
{
    match shape {
        Shape::Void => true,
        Shape::Int(_) => false,
        Shape::Pointer(_) => false,
        Shape::Other => false,
        Shape::Refused(_) => false,
        Shape::Made => false,
        Shape::Named => false,
        Shape::Function => false,
    }
}

/// Whether it is that of a function type.
pub fn is_function(shape: Shape) -> bool
    ensures { result ≡ is_function shape }
{
    match shape {
        Shape::Void => false,
        Shape::Int(_) => false,
        Shape::Pointer(_) => false,
        Shape::Other => false,
        Shape::Refused(_) => false,
        Shape::Made => false,
        Shape::Named => false,
        Shape::Function => true,
    }
}

/// Whether it is that of a type of a value, of a width that there is, 1 to 2^23 bits, and of an address
/// space that there is, below 2^24.
pub fn is_first_class(shape: Shape) -> bool
    ensures { result ≡ is_first_class shape }
{
    match shape {
        Shape::Void => false,
        Shape::Int(width) => 1 <= width && width <= MAX_WIDTH,
        Shape::Pointer(space) => space <= MAX_SPACE,
        Shape::Other => true,
        Shape::Refused(_) => true,
        Shape::Made => true,
        Shape::Named => true,
        Shape::Function => false,
    }
}

/// Whether it is that of a type that is translated: each type of a value for which the dialect has one.
pub fn is_held(shape: Shape) -> bool
    ensures { result ≡ is_held shape }
{
    match shape {
        Shape::Void => false,
        Shape::Int(width) => 1 <= width && width <= MAX_WIDTH,
        Shape::Pointer(space) => space <= MAX_SPACE,
        Shape::Other => true,
        Shape::Refused(_) => false,
        Shape::Made => true,
        Shape::Named => true,
        Shape::Function => false,
    }
}

fn is_token(shape: Shape) -> bool
    ensures { result ≡ is_token shape }
{
    matches!(shape, Shape::Refused(OtherType::Token))
}

fn is_amx(shape: Shape) -> bool
    ensures { result ≡ is_amx shape }
{
    matches!(shape, Shape::Refused(OtherType::X86Amx))
}

fn is_made(shape: Shape) -> bool
    ensures { result ≡ is_made shape }
{
    matches!(shape, Shape::Made | Shape::Named)
}

/// Whether a struct may have a field of a type of this shape (Language Reference, Structure Type).
pub fn is_field(shape: Shape) -> bool
    ensures { result ≡ is_field shape }
{
    is_first_class(shape) && !is_token(shape)
}

/// Whether so many of a type of this shape make an array (Language Reference, Array Type).
pub fn is_array_of(count: u64, shape: Shape) -> bool
    ensures { result ≡ is_array_of count shape }
{
    let _range = count;
    is_field(shape) && !is_amx(shape)
}

/// Whether so many of a type of this shape make a vector (Language Reference, Vector Type).
pub fn is_vector_of(count: u32, shape: Shape) -> bool
    ensures { result ≡ is_vector_of count shape }
{
    1 <= count && is_array_of(u64::from(count), shape) && !is_made(shape)
}

/// Whether both are integers, and the first is wider.
fn is_wider(a: Shape, b: Shape) -> bool
    ensures { result ≡ is_wider a b }
{
    match (a, b) {
        (Shape::Int(v), Shape::Int(w)) => w < v,
        _ => false,
    }
}

/// Whether both are pointers, of two address spaces.
fn is_elsewhere(a: Shape, b: Shape) -> bool
    ensures { result ≡ is_elsewhere a b }
{
    match (a, b) {
        (Shape::Pointer(s), Shape::Pointer(t)) => s != t,
        _ => false,
    }
}

fn is_comparable(shape: Shape) -> bool
    ensures { result ≡ is_comparable shape }
{
    is_number(shape) || is_pointer(shape)
}

/// Whether a value of it has a size (Language Reference, Token Type).
fn is_sized(shape: Shape) -> bool
    ensures { result ≡ is_sized shape }
{
    is_value(shape) && !is_token(shape)
}

/// Whether a lane may be cast so: a line for each word.
fn is_cast(by: Cast, from: Shape, to: Shape) -> bool
    ensures { result ≡ is_cast by from to }
{
    match by {
        Cast::ToNarrower => is_wider(from, to),
        Cast::ToWider => is_wider(to, from),
        Cast::ToNumber => is_pointer(from) && is_number(to),
        Cast::ToPointer => is_number(from) && is_pointer(to),
        Cast::ToSpace => is_elsewhere(from, to),
    }
}

fn is_one(lanes: Lanes) -> bool
    ensures { result ≡ is_one lanes }
{
    match lanes {
        Lanes::One => true,
        Lanes::Many(..) => false,
    }
}

fn same_kind(a: VectorTypeKind, b: VectorTypeKind) -> bool
    ensures { result ≡ same_kind a b }
{
    match (a, b) {
        (VectorTypeKind::Fixed, VectorTypeKind::Fixed) => true,
        (VectorTypeKind::Scalable, VectorTypeKind::Scalable) => true,
        _ => false,
    }
}

fn same_lanes(a: Lanes, b: Lanes) -> bool
    ensures { result ≡ same_lanes a b }
{
    match (a, b) {
        (Lanes::One, Lanes::One) => true,
        (Lanes::Many(k, n), Lanes::Many(l, m)) => same_kind(k, l) && n == m,
        _ => false,
    }
}

/// Whether it is that of a pointer, and of no vector.
fn is_address(own: Laned) -> bool
    ensures { result ≡ is_address own }
{
    is_one(own.lanes) && is_pointer(own.lane)
}

/// Whether a value is cast so, lane by lane.
fn is_cast_laned(by: Cast, from: Laned, to: Laned) -> bool
    ensures { result ≡ is_cast_laned by from to }
{
    same_lanes(from.lanes, to.lanes) && is_cast(by, from.lane, to.lane)
}

/// Whether each lane of a value is chosen by one of bits, or all are by one bit.
fn is_chosen_laned(bits: Laned, own: Laned) -> bool
    ensures { result ≡ is_chosen_laned bits own }
{
    (is_one(bits.lanes) || same_lanes(bits.lanes, own.lanes)) && is_value(own.lane)
}

/// Whether it is that of bits, in as many lanes as another type has.
pub fn is_bits_laned(own: Laned, of: Laned) -> bool
    ensures { result ≡ is_bits_laned own of }
{
    is_bit(own.lane) && same_lanes(own.lanes, of.lanes)
}

fn is_same(a: Option<TypeView>, b: TypeView) -> bool
    ensures { result ≡ is_same view_laned view_same a b }
{
    match a {
        Some(a) => a.number == b.number,
        None => false,
    }
}

/// Whether an operand fits, beside the type that is written and the first two operands' types.
#[inline(always)]
fn fit(
    by: Fit,
    written: Option<TypeView>,
    a: Option<TypeView>,
    b: Option<TypeView>,
    own: Option<TypeView>,
) -> bool
    ensures { result ≡ fit view_laned view_same by written a b own }
{
    let Some(own) = own else {
        return false;
    };
    match by {
        Fit::Any => is_value(own.laned.lane),
        Fit::Number => is_number(own.laned.lane),
        Fit::Comparable => is_comparable(own.laned.lane),
        Fit::Sized => is_sized(own.laned.lane),
        Fit::Address => is_address(own.laned),
        Fit::Place => match written {
            Some(written) => is_address(own.laned) && is_sized(written.laned.lane),
            None => false,
        },
        Fit::Bit => is_one(own.laned.lanes) && is_bit(own.laned.lane),
        Fit::Bits => is_bit(own.laned.lane),
        Fit::Chosen => match a {
            Some(a) => is_chosen_laned(a.laned, own.laned),
            None => false,
        },
        Fit::First => is_same(a, own),
        Fit::Second => is_same(b, own),
        Fit::Cast(by) => match written {
            Some(written) => is_cast_laned(by, own.laned, written.laned),
            None => false,
        },
    }
}

/// Whether so many operands fit, of which the first three have these types. What a return takes is for its function to
/// say.
#[inline(always)]
fn takes_fit(
    takes: Takes,
    count: usize,
    written: Option<TypeView>,
    a: Option<TypeView>,
    b: Option<TypeView>,
    c: Option<TypeView>,
) -> bool
    ensures { result ≡ takes_fit view_laned view_same takes count written a b c }
{
    match takes {
        Takes::Nothing => count == 0,
        Takes::One(f) => count == 1 && fit(f, written, a, b, a),
        Takes::Two(f, g) => { count == 2 && fit(f, written, a, b, a) && fit(g, written, a, b, b) }
        Takes::Three(f, g, h) => {
            count == 3
                && fit(f, written, a, b, a)
                && fit(g, written, a, b, b)
                && fit(h, written, a, b, c)
        }
        Takes::Return => true,
    }
}

/// Whether a type is written just where one is asked, and is then one of a value.
fn is_written(gives: Gives, written: Option<TypeView>) -> bool
    ensures { result ≡ is_written view_laned view_same gives written }
{
    match (gives, written) {
        (Gives::Written, Some(written)) => is_value(written.laned.lane),
        (Gives::Written, None) => false,
        (_, written) => written.is_none(),
    }
}

/// Whether a row may have so many operands, of which the first three have these types, and a written type or none. It stands in the
/// bodies of its callers, so that no view of a type goes through memory.
#[inline(always)]
pub fn fits(
    rule: Rule,
    count: usize,
    written: Option<TypeView>,
    a: Option<TypeView>,
    b: Option<TypeView>,
    c: Option<TypeView>,
) -> bool
    ensures { result ≡ fits view_laned view_same rule count written a b c }
{
    is_written(rule.gives, written) && takes_fit(rule.takes, count, written, a, b, c)
}
