//! Types and constants of the module, as a text says them.

ghost use Rattle.std.specs.Prelude.{◌≡◌, ◌≤◌, ℕ, List, Some, None, Err, IfOk, IfSome, OnOk, length, slice_get};
ghost use Rattle.llvm_core.specs.declared.types.LLVMTypeKind.TheVariants as T;
ghost use Rattle.std.specs.Option.{option_map};
ghost use Rattle.llvm_core.specs.Consts.{HasConstParts, one_form};
ghost use Rattle.llvm_core.specs.Parts.{IsTypeOver, HasFitParts};
ghost use Rattle.llvm_core.specs.Sound.{IsModule};
ghost use Rattle.llvm_core.specs.Data.{trees_of, type_at, type_tree, const_tree};
ghost use Rattle.ll_lines.specs.Lines as lines;
ghost use Rattle.ll_lines.specs.Lines.{Text};
ghost use Rattle.ll_lines.specs.Views.{said_view, IsTypeIn, IsSaidIn};
ghost use Rattle.ll_values.specs.Values.{said, plain, const_of, int_const, null_of};
ghost use Rattle.ll_values.specs.Views.{literal_view, IsLiteralIn, IsStoreIn};
ghost use Rattle.ll_values.specs.Growing.{Interns, Says};

use crate::made::{said_line, said_list};
use crate::store::Store;
use crate::value::Literal;
use crate::value_err::ValueErr;
use crate::words::fill_of;
use kinds::fill::Fill;
use kinds::fitting::is_pointer;
use ll_lines::lines::{ConstLine, Said, SaidConst};
use ll_literals::literals::const_value;
use llvm_core::consts::LLVMConstKind;
use llvm_core::module::{LLVMModule, shape_of};
use llvm_core::numbers::LLVMType;
use llvm_core::types::LLVMTypeKind;
use std::alloc::Global;

/// The number of a type, new or old.
fn type_number(m: &mut LLVMModule, kind: LLVMTypeKind) -> Result<LLVMType, ValueErr>
    requires sound { IsModule m.old }
    requires parts { IsTypeOver (length m.old.types) kind }
    requires fit { HasFitParts m.old.types kind }
    ensures interns { OnOk result (Interns m.old m.new) }
    ensures there { IfOk result (IsTypeIn m.new) }
    ensures tree { IfOk result (λ t. type_at (trees_of m.new).types t ≡ type_tree (trees_of m.old).types kind) }
    ensures memory { result ≡ Err ValueErr.NotYet → ⊥ }
{
    let ty = m.type_get(kind)?;
    Ok(ty)
}

/// An integer type, where it is one of the first of the module: most texts have few.
fn early_int(m: &LLVMModule, width: u32) -> Option<LLVMType>
    ensures { IfSome result (λ t. slice_get m.now.types t.0 ≡ Some (T.Int width)) }
{
    for i in 0..m.types().min(6) {
        if let LLVMTypeKind::Int(found) = m.type_kind(LLVMType(i))
            && *found == width
        {
            return Some(LLVMType(i));
        }
    }
    None
}

/// The type of a kind.
pub fn type_of(m: &mut LLVMModule, kind: LLVMTypeKind) -> Result<LLVMType, ValueErr>
    requires sound { IsModule m.old }
    requires parts { IsTypeOver (length m.old.types) kind }
    requires fit { HasFitParts m.old.types kind }
    ensures interns { OnOk result (Interns m.old m.new) }
    ensures there { IfOk result (IsTypeIn m.new) }
    ensures tree { IfOk result (λ t. type_at (trees_of m.new).types t ≡ type_tree (trees_of m.old).types kind) }
    ensures memory { result ≡ Err ValueErr.NotYet → ⊥ }
{
    if let LLVMTypeKind::Int(width) = kind
        && let Some(ty) = early_int(m, width)
    {
        return Ok(ty);
    }
    type_number(m, kind)
}

/// The width of an integer type.
fn const_width(m: &LLVMModule, ty: LLVMType) -> Option<u32>
    requires sound { IsModule m.now }
    requires there { IsTypeIn m.now ty }
    ensures int { IfSome result (λ w. slice_get m.now.types ty.0 ≡ Some (T.Int w)) }
    ensures none { result ≡ None → (t : Text) → int_const (type_at (trees_of m.now).types ty) t ≡ None }
{
    match m.type_kind(ty) {
        LLVMTypeKind::Int(width) => Some(*width),
        _ => None,
    }
}

/// An integer of a type, as a constant of one form.
fn int_const(m: &LLVMModule, text: &[u8], ty: LLVMType) -> Option<LLVMConstKind>
    requires sound { IsModule m.now }
    requires there { IsTypeIn m.now ty }
    ensures parts { IfSome result (HasConstParts m.now) }
    ensures said { IfSome result (λ k. int_const (type_at (trees_of m.now).types ty) text.now ≡ Some (const_tree (trees_of m.now).types (trees_of m.now).consts (one_form m.now k))) }
    ensures none { result ≡ None → int_const (type_at (trees_of m.now).types ty) text.now ≡ None }
{
    let width = const_width(m, ty)?;
    let value = const_value(text, width)?;
    Some(LLVMConstKind::Int(ty, value))
}

/// The constant that a word or an integer's digits say at a type.
fn const_of(m: &LLVMModule, text: &[u8], ty: LLVMType) -> Option<LLVMConstKind>
    requires sound { IsModule m.now }
    requires there { IsTypeIn m.now ty }
    ensures parts { IfSome result (HasConstParts m.now) }
    ensures said { IfSome result (λ k. const_of (type_at (trees_of m.now).types ty) text.now ≡ Some (const_tree (trees_of m.now).types (trees_of m.now).consts (one_form m.now k))) }
    ensures none { result ≡ None → const_of (type_at (trees_of m.now).types ty) text.now ≡ None }
{
    match fill_of(text) {
        Some(fill) => Some(LLVMConstKind::Filled(fill, ty)),
        None => int_const(m, text, ty),
    }
}

/// The constant that `null` says at a type, which is one of a pointer.
fn null_of(m: &LLVMModule, ty: LLVMType) -> Option<LLVMConstKind>
    requires sound { IsModule m.now }
    requires there { IsTypeIn m.now ty }
    ensures parts { IfSome result (HasConstParts m.now) }
    ensures said { IfSome result (λ k. null_of (type_at (trees_of m.now).types ty) ≡ Some (const_tree (trees_of m.now).types (trees_of m.now).consts (one_form m.now k))) }
    ensures none { result ≡ None → null_of (type_at (trees_of m.now).types ty) ≡ None }
{
    if is_pointer(shape_of(m.type_kind(ty))) {
        Some(LLVMConstKind::Filled(Fill::Zero, ty))
    } else {
        None
    }
}

/// What a constant says.
#[inline(never)]
fn said_const(m: &mut LLVMModule, kind: Option<LLVMConstKind>) -> Result<Said, ValueErr>
    requires sound { IsModule m.old }
    requires parts { IfSome kind (HasConstParts m.old) }
    ensures interns { OnOk result (Interns m.old m.new) }
    ensures there { IfOk result (λ x. (made : ℕ) → IsSaidIn m.new made x) }
    ensures said { IfOk result (λ x. (bytes : Text) (table : List lines.SaidConst) → option_map (λ k. plain (const_tree (trees_of m.old).types (trees_of m.old).consts (one_form m.old k))) kind ≡ Some (said_view bytes (trees_of m.new) table x)) }
    ensures not_yet { result ≡ Err ValueErr.NotYet → kind ≡ None }
{
    let Some(kind) = kind else {
        return Err(ValueErr::NotYet);
    };
    let c = m.const_get(kind)?;
    Ok(Said::Const(SaidConst::Plain(c)))
}

/// What a literal says at a type.
#[inline(always)]
pub fn said(
    alloc: Global,
    m: &mut LLVMModule,
    store: &mut Store,
    bytes: &[u8],
    ty: LLVMType,
    literal: Literal,
) -> Result<Said, ValueErr>
    requires store { IsStoreIn m.old store.old }
    requires there { IsTypeIn m.old ty }
    requires literal { IsLiteralIn m.old store.old literal }
    ensures says { IfOk result (Says bytes.now m.old m.new store.old store.new (said (type_at (trees_of m.old).types ty) (literal_view bytes.now (trees_of m.old) store.old literal))) }
    ensures not_yet { result ≡ Err ValueErr.NotYet → said (type_at (trees_of m.old).types ty) (literal_view bytes.now (trees_of m.old) store.old literal) ≡ None }
{
    match literal {
        Literal::Local(name) => Ok(Said::Local(name)),
        Literal::Const(name) => {
            let kind = const_of(m, name.text(bytes), ty);
            said_const(m, kind)
        }
        Literal::Null => {
            let kind = null_of(m, ty);
            said_const(m, kind)
        }
        Literal::Chars(text) => said_line(m, store, bytes, ConstLine::Chars(ty, text)),
        Literal::Listed(brackets, list) => said_list(alloc, m, store, bytes, ty, brackets, list),
        Literal::Splat(c) => said_line(m, store, bytes, ConstLine::Splat(ty, c)),
    }
}
