//! What holds of the tokens of what a text says.

ghost use Rattle.std.specs.Prelude.{◌≡◌, ℕ, List, [], ◌∷◌, ◌++◌};
ghost use Rattle.grammars.specs.declared.symbols.Symbol.TheVariants.{Rule};
ghost use Rattle.llvm_core.specs.Data.{ModuleData};
ghost use Rattle.ll_lines.specs.Lines.{File};
ghost use Rattle.ll_rules.specs.Llvm.{llvm};
ghost use Rattle.ll_said.specs.Said.{file_of};
ghost use Rattle.ll_said.specs.Sayable.{IsSayableModule};
ghost use Rattle.ll_spacing.specs.Spacing.{AreSpaced, text_of};
ghost use Rattle.ll_values.specs.declared.form.TheConstants.{KINDS};
ghost use Rattle.ll_written.specs.Saying.{Says};
ghost use Rattle.ll_values.specs.Values.{FileV};
ghost use Rattle.ll_written.specs.Classed.{all_classed};
ghost use Rattle.ll_written.specs.Printing.{module_text};
ghost use Rattle.ll_written.specs.Reading.{IsReadAs};
ghost use Rattle.ll_written.specs.Rules as R;
ghost use Rattle.ll_written.specs.Writable.{IsWritable};
ghost use Rattle.ll_written.specs.Written.{written, end_of};

/// The tokens of a file say it, by the grammar of LLVM text.
pub fn tokens_say_their_file()
    ensures { (f : File) → IsWritable f → Says llvm KINDS (Rule R.file ∷ []) (FileV f ∷ []) (all_classed (written f)) }
{}

/// They are cut from their text again.
pub fn tokens_are_spaced()
    ensures { (f : File) → IsWritable f → AreSpaced (written f) }
{}

/// So their text is read as the file.
pub fn text_is_read()
    ensures { (f : File) → IsWritable f → IsReadAs (text_of (written f) ++ end_of (written f)) f }
{}

/// What data of the form say may be written.
pub fn data_are_writable()
    ensures { (d : ModuleData) → IsSayableModule d → IsWritable (file_of d) }
{}

/// Its text is what is printed of the data.
pub fn text_is_printed()
    ensures { (d : ModuleData) → IsSayableModule d → text_of (written (file_of d)) ++ end_of (written (file_of d)) ≡ module_text d }
{}

/// So the printed text of data is read as what the data say.
pub fn printed_text_is_read()
    ensures { (d : ModuleData) → IsSayableModule d → IsReadAs (module_text d) (file_of d) }
{}

/// A text is read as one file at most, so the printed text of data as nothing but what they say.
pub fn one_file_is_read()
    ensures one { (bytes : List ℕ) (f h : File) → IsReadAs bytes f → IsReadAs bytes h → f ≡ h }
    ensures printed { (d : ModuleData) (f : File) → IsSayableModule d → IsReadAs (module_text d) f → f ≡ file_of d }
{}
