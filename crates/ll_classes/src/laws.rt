//! What holds of the classes of all tokens.

ghost use Rattle.std.specs.Prelude.{◌≡◌, ◌≢◌, ◌<◌, All, Contains, List, ℕ};
ghost use Rattle.ll_classes.specs.Buckets.{Text};
ghost use Rattle.ll_classes.specs.Classes.{class_of, names, words};
ghost use Rattle.ll_classes.specs.Words.{Row};
ghost use Rattle.ll_classes.specs.declared.numbers.TheConstants.{CLASSES, INTTYPE, WORD};
ghost use Rattle.ll_classes.specs.declared.words.Words.{Words};
ghost use Rattle.ll_tokens.specs.declared.kinds.Kind.{Kind};
ghost use Rattle.ll_tokens.specs.declared.kinds.Kind.TheVariants as K;

/// Each class is one of those that there are.
pub fn classes_are_below()
    ensures { (w : Words) (k : Kind) (t : Text) → class_of w k t < CLASSES }
{}

/// Each word of the table has the class that stands there, so none stands there with two.
pub fn words_have_their_class()
    ensures { (w : Words) → All (λ (r : Row). class_of w K.Word r.0 ≡ r.1) (words w) }
{}

/// No other text has the class of a word of the table, but for those of all other words.
pub fn classes_are_of_words()
    ensures { (w : Words) (t : Text) → class_of w K.Word t ≢ INTTYPE → class_of w K.Word t ≢ WORD → Contains (words w) (t, class_of w K.Word t) }
{}
