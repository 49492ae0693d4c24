//! What the text of module data says means the data, under numbers from 0 on in its order.

ghost use Rattle.std.specs.Prelude.{◌≡◌, ℕ, true, List, Option, Some, All};
ghost use Rattle.std.specs.Str.{is_utf8};
ghost use Rattle.llvm_core.specs.Data.{Function, Struct, ModuleData};
ghost use Rattle.llvm_core.specs.Form.{HasMadeOperands, IsForm, HasDistinctNames, HasFew};
ghost use Rattle.ll_lines.specs.Lines.{File};
ghost use Rattle.ll_bodies.specs.Meaning.{function_data, file_data};
ghost use Rattle.ll_said.specs.Said.{function_of, file_of};
ghost use Rattle.ll_said.specs.Sayable.{HasFewUnnamed, IsSayable, IsNumberedFrom, IsSayableModule, IsNumbered};
ghost use Rattle.ll_said.specs.Numbered.{numbered};
ghost use Rattle.ll_said.specs.Examples.{loose, tidy, lines};

/// What is asked of data, by its parts.
pub fn is_said_whole()
    ensures { (d : ModuleData) → IsForm d → HasDistinctNames d → All HasFewUnnamed d.functions → is_utf8 d.name ≡ true → IsSayableModule d }
{}

/// What the text of a function says means the function, where it is numbered from there and its constants have the elements that their
/// types ask for.
pub fn function_means_itself()
    ensures { (structs : List Struct) (f b n : ℕ) (x : Function) → IsSayable x → HasMadeOperands structs x → IsNumberedFrom f b n x → function_data structs f b n (function_of structs x) ≡ Some x }
{}

/// What the text of numbered data says means the data.
pub fn file_means_itself()
    ensures { (d : ModuleData) → IsSayableModule d → IsNumbered d → file_data (file_of d) ≡ Some d }
{}

/// What the text of any data says means their numbered twin.
pub fn file_means_twin()
    ensures { (d : ModuleData) → IsSayableModule d → file_data (file_of d) ≡ Some (numbered d) }
{}

/// The twin of data of the form is numbered, has their text and is of the form. Names that are distinct, lists that are short and data
/// that are said whole stay so.
pub fn twin_is_alike()
    ensures numbers { (d : ModuleData) → IsForm d → IsNumbered (numbered d) }
    ensures text { (d : ModuleData) → IsForm d → file_of (numbered d) ≡ file_of d }
    ensures form { (d : ModuleData) → IsForm d → IsForm (numbered d) }
    ensures names { (d : ModuleData) → IsForm d → HasDistinctNames d → HasDistinctNames (numbered d) }
    ensures few { (d : ModuleData) → IsForm d → HasFew d → HasFew (numbered d) }
    ensures whole { (d : ModuleData) → IsSayableModule d → IsSayableModule (numbered d) }
{}

/// Numbered data of the form are their own twin, and data of one text have one twin.
pub fn twin_is_one()
    ensures own { (d : ModuleData) → IsForm d → IsNumbered d → numbered d ≡ d }
    ensures one { (d e : ModuleData) → IsSayableModule d → IsSayableModule e → file_of d ≡ file_of e → numbered d ≡ numbered e }
{}

/// Data that lines mean are numbered from 0 in order.
pub fn numbers_count()
    ensures { (f : File) (d : ModuleData) → file_data f ≡ Some d → IsNumbered d }
{}

/// In each function that lines mean, there is a number for each thing without a name.
pub fn few_have_no_name()
    ensures { (f : File) (d : ModuleData) → file_data f ≡ Some d → All HasFewUnnamed d.functions }
{}

/// So a text says whole what lines mean, where it is of the form and has distinct names.
pub fn meant_is_whole()
    ensures { (f : File) (d : ModuleData) → file_data f ≡ Some d → IsForm d → HasDistinctNames d → IsSayableModule d }
{}

/// The definitions on two structs and two small functions.
pub fn small_functions()
    ensures said { file_of loose ≡ lines }
    ensures meant { file_data lines ≡ Some tidy }
    ensures twin { numbered loose ≡ tidy }
{}
