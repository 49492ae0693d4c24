//! Structs with a name: what the check answers to those of modules made by hand, each by a row of calls, and how those of a
//! text are printed.

ghost use Rattle.std.specs.Prelude.{◌≡◌, ◌<◌, IfSome, length};
ghost use Rattle.llvm_core.specs.Checked.{IsChecked};
ghost use Rattle.llvm_core.specs.Data.{data_of};
ghost use Rattle.llvm_core.specs.Form.{IsForm};
ghost use Rattle.llvm_core.specs.Sound.{AreFieldsIn};

use crate::words::{number, word};
use kinds::fitting::{is_array_of, is_field};
use kinds::types::StructLayout;
use ll_print::printer::print_ll;
use ll_text::read::read_ll;
use llvm_core::check_err::CheckErr;
use llvm_core::checking::check;
use llvm_core::module::{LLVMModule, shape_of};
use llvm_core::numbers::LLVMType;
use llvm_core::structs::StructFields;
use llvm_core::types::LLVMTypeKind;
use std::alloc::Global;
use std::str::SplitWhitespace;
use support::items::Items;
use support::text::Text;

// What the check answers, `Ok` or an error, and the calls that make the module:
//
//     opaque NAME             a struct whose fields are not told
//     empty NAME              a struct without fields
//     holds NAME TYPE         a struct of one field
//     chain COUNT             structs `0`, `1` and so on, so many, each with the next in it
//     returns NAME TYPE       a function that returns such a value
//     type                    i8, array (of one) and the name of a struct, or the name of a struct
//
// A name `-` is none.
const ROWS: &str = "\
Ok: opaque S
Ok: empty S; opaque é; holds T S; holds ü array T
Ok: holds S i8; returns S S
Ok: holds T S; empty S; returns f array T
NameTwice(Struct(1)): opaque S; opaque S
NameTwice(Struct(2)): holds S i8; opaque T; empty S
NameTwice(Struct(0)): opaque -
NameTwice(Struct(0)): holds a\0 i8
NameTwice(Struct(1)): opaque a; opaque \0
TooDeep(Struct(0)): holds S S
TooDeep(Struct(0)): holds S array S
TooDeep(Struct(0)): holds S T; holds T S
TooDeep(Struct(1)): opaque A; holds S T; holds T array U; holds U S
TooDeep(Struct(0)): holds S T
TooDeep(Struct(1)): opaque S; holds T array s
TooDeep(Function(0)): returns f S
TooDeep(Function(0)): opaque s; returns f array S
Ok: chain 999; opaque 999
Ok: chain 998; holds 998 i8
Ok: chain 997; holds 997 array 998; opaque 998
Ok: opaque 998; returns f 0; chain 998
TooDeep(Struct(0)): chain 1000; opaque 1000
TooDeep(Struct(0)): chain 999; holds 999 i8
TooDeep(Struct(1)): opaque 999; chain 998; holds 998 array 999
TooDeep(Function(0)): chain 999; opaque 999; returns f 0
TooDeep(Function(0)): chain 998; opaque 998; returns f array 0
";

/// A word that says what a call makes.
#[derive(Clone, Copy)]
enum Keyword {
    Opaque,
    Empty,
    Holds,
    Chain,
    Returns,
}

/// How each is written.
const KEYWORDS: &[(&str, Keyword)] = &[
    ("opaque", Keyword::Opaque),
    ("empty", Keyword::Empty),
    ("holds", Keyword::Holds),
    ("chain", Keyword::Chain),
    ("returns", Keyword::Returns),
];

// ---- types: None says that one is not there, or no memory

/// The struct of a name, there or not.
fn named(alloc: Global, m: &mut LLVMModule, name: &str) -> Option<LLVMType>
    ensures { IfSome result (λ t. t.0 < length m.new.types) }
{
    let name = Text::copy(alloc, name).ok()?;
    m.type_get(LLVMTypeKind::Named(name)).ok()
}

/// An array of one.
fn array(m: &mut LLVMModule, element: LLVMType) -> Option<LLVMType>
    requires { element.0 < length m.old.types }
    ensures { IfSome result (λ t. t.0 < length m.new.types) }
{
    if !is_array_of(1, shape_of(m.type_kind(element))) {
        return None;
    }
    m.type_get(LLVMTypeKind::Array(1, element)).ok()
}

fn ty(alloc: Global, m: &mut LLVMModule, words: &mut SplitWhitespace<'_>) -> Option<LLVMType>
    ensures { IfSome result (λ t. t.0 < length m.new.types) }
{
    let first = word(words);
    if first == "i8" {
        return m.type_get(LLVMTypeKind::Int(8)).ok();
    }
    if first == "array" {
        let element = named(alloc, m, word(words))?;
        return array(m, element);
    }
    named(alloc, m, first)
}

// ---- calls: None says that one was not done

fn name<'a>(words: &mut SplitWhitespace<'a>) -> &'a str {
    let word = word(words);
    if word == "-" { "" } else { word }
}

/// The body of a struct of these fields.
fn fields(types: Items<LLVMType>) -> StructFields
    ensures { result.types ≡ types }
{
    StructFields {
        types,
        layout: StructLayout::Unpacked,
    }
}

fn add(m: &mut LLVMModule, name: &str, body: Option<StructFields>) -> Option<()>
    requires { IfSome body (AreFieldsIn m.old.types) }
{
    m.add_struct(name, body).ok()?;
    Some(())
}

/// A struct of one field.
fn hold(alloc: Global, m: &mut LLVMModule, name: &str, field: LLVMType) -> Option<()>
    requires { field.0 < length m.old.types }
{
    if !is_field(shape_of(m.type_kind(field))) {
        return None;
    }
    let mut types = Items::new(alloc);
    types.push(field).ok()?;
    add(m, name, Some(fields(types)))
}

/// A struct whose name is a number, with the one of the next number in it.
fn hold_next(alloc: Global, m: &mut LLVMModule, number: u32) -> Option<()> {
    let name = format!(in alloc; "{number}").ok()?;
    let next = format!(in alloc; "{}", number.saturating_add(1)).ok()?;
    let field = named(alloc, m, next.as_str())?;
    hold(alloc, m, name.as_str(), field)
}

fn chain(alloc: Global, m: &mut LLVMModule, count: u32) -> Option<()> {
    for number in 0..count {
        hold_next(alloc, m, number)?;
    }
    Some(())
}

/// A function without parameters and without a body.
fn add_function(alloc: Global, m: &mut LLVMModule, name: &str, ty: LLVMType) -> Option<()>
    requires { ty.0 < length m.old.types }
{
    let kind = LLVMTypeKind::Function {
        result: ty,
        params: Items::new(alloc),
        variadic: false,
    };
    let signature = m.type_get(kind).ok()?;
    m.add_function(name, signature, 0).ok()?;
    Some(())
}

/// A struct of one field, by words.
fn add_holder(alloc: Global, m: &mut LLVMModule, words: &mut SplitWhitespace<'_>) -> Option<()> {
    let name = name(words);
    let field = ty(alloc, m, words)?;
    hold(alloc, m, name, field)
}

/// A function, by words.
fn add_returning(alloc: Global, m: &mut LLVMModule, words: &mut SplitWhitespace<'_>) -> Option<()> {
    let name = name(words);
    let result = ty(alloc, m, words)?;
    add_function(alloc, m, name, result)
}

/// The keyword that the next word is.
fn next_keyword(words: &mut SplitWhitespace<'_>) -> Option<Keyword> {
    let word = word(words);
    for (text, keyword) in KEYWORDS {
        if *text == word {
            return Some(*keyword);
        }
    }
    None
}

fn call(alloc: Global, m: &mut LLVMModule, words: &mut SplitWhitespace<'_>) -> Option<()> {
    match next_keyword(words)? {
        Keyword::Opaque => add(m, name(words), None),
        Keyword::Empty => add(m, name(words), Some(fields(Items::new(alloc)))),
        Keyword::Holds => add_holder(alloc, m, words),
        Keyword::Chain => chain(alloc, m, number(words)?),
        Keyword::Returns => add_returning(alloc, m, words),
    }
}

/// Makes the calls of a text.
fn make(alloc: Global, m: &mut LLVMModule, calls: &str) -> Option<()> {
    for text in calls.split(';') {
        call(alloc, m, &mut text.split_whitespace())?;
    }
    Some(())
}

// ---- what the check answers

/// Whether an error is this one.
fn is_error(alloc: Global, error: CheckErr, want: &str) -> bool {
    match format!(in alloc; "{error:?}") {
        Ok(text) => text.as_str() == want,
        Err(_) => false,
    }
}

/// What is wrong with what the check answers to a module, if anything.
fn answer_fault(alloc: Global, m: &LLVMModule, want: &str) -> &'static str {
    let is_right = match check(m) {
        Ok(()) => want == "Ok",
        Err(error) => is_error(alloc, error, want),
    };
    if is_right { "" } else { "answered otherwise" }
}

/// What is wrong with the calls of a row, which make a module in an empty one, or with what the check answers to that.
fn fault_in(alloc: Global, m: &mut LLVMModule, want: &str, calls: &str) -> &'static str {
    match make(alloc, m, calls) {
        Some(()) => answer_fault(alloc, m, want),
        None => "not made",
    }
}

/// What is wrong with an answer and the calls of its module, if anything.
fn fault_of(alloc: Global, want: &str, calls: &str) -> &'static str {
    match LLVMModule::new(alloc, "m") {
        Ok(mut m) => fault_in(alloc, &mut m, want, calls),
        Err(_) => "no memory",
    }
}

/// What is wrong with a row, if anything.
fn fault(alloc: Global, row: &str) -> &'static str {
    match row.split_once(':') {
        Some((want, calls)) => fault_of(alloc, want, calls),
        None => "no answer",
    }
}

#[test]
fn structs_are_checked(rt: HostRuntime) {
    for row in ROWS.lines() {
        let fault = fault(rt.alloc(), row);
        assert!(rt; fault.is_empty(), "{fault}: {row}");
    }
}

// ---- how they are printed

/// Texts of modules with structs, each with how it is printed.
const SAID: &[(&str, &str)] = &[
    ("%S = type opaque", "\n%S = type opaque\n"),
    (
        "source_filename=\"m\" define void@f(){ret void}%\"a\\20b\"=type{}%T=type<{i8,%\"a b\"}>%\"\\54\\22\"=type<{}>",
        "source_filename = \"m\"

%\"a b\" = type {}
%T = type <{ i8, %\"a b\" }>
%\"T\\22\" = type <{}>

define void @f() {
  ret void
}
",
    ),
    (
        "define %S @f(%S %a, [2 x %0]) { ret %S %a } %S = type { i32 , ptr,{%0, <{ half }> }, [2 x %S.1] } ; of S.1
%S.1 = type { <4 x i1> } %0 = type opaque",
        "
%S = type { i32, ptr, { %\"0\", <{ half }> }, [2 x %S.1] }
%S.1 = type { <4 x i1> }
%\"0\" = type opaque

define %S @f(%S %a, [2 x %\"0\"] %0) {
  ret %S %a
}
",
    ),
];

/// Whether a module is printed so.
pub fn is_printed(alloc: Global, m: &LLVMModule, want: &str) -> bool
    requires form { IsForm (data_of m.now) }
    requires checked { IsChecked m.now }
{
    // This only reads: with the count comes what is known of the module, for the proof.
    let _count = m.types();
    let mut text = Vec::new(alloc);
    match print_ll(alloc, m, &mut text) {
        Ok(()) => text.as_slice() == want.as_bytes(),
        Err(_) => false,
    }
}

/// Whether the module of a text is printed so.
fn is_said(alloc: Global, text: &str, want: &str) -> bool {
    match read_ll(alloc, text.as_bytes()) {
        Ok(m) => is_printed(alloc, &m, want),
        Err(_) => false,
    }
}

/// The number of the first text that is not printed as it is to be, or of which what is printed is not printed again so, or
/// how many there are.
fn first_misprinted(alloc: Global, rows: &[(&str, &str)]) -> usize {
    for (i, (text, want)) in rows.iter().enumerate() {
        if !is_said(alloc, text, want) || !is_said(alloc, want, want) {
            return i;
        }
    }
    rows.len()
}

#[test]
fn structs_are_printed(rt: HostRuntime) {
    assert_eq!(rt; first_misprinted(rt.alloc(), SAID), 3);
}
