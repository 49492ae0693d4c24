//! What holds of all tokens that are written one behind another.

ghost use Rattle.std.specs.Prelude.{◌≡◌, ℕ, List, [], ◌∷◌, ◌++◌, Some, true, false, map};
ghost use Rattle.ll_tokens.specs.Bytes.{is_blank};
ghost use Rattle.ll_tokens.specs.Pieces.{token, sign_at};
ghost use Rattle.ll_tokens.specs.Tokens.{tokens_of};
ghost use Rattle.ll_tokens.specs.declared.kinds.Kind.{Kind};
ghost use Rattle.ll_tokens.specs.declared.tokens.Token.{Token};
ghost use Rattle.ll_spacing.specs.Following.{may_follow};
ghost use Rattle.ll_spacing.specs.Forms.{IsText};
ghost use Rattle.ll_spacing.specs.Spacing.{Spaced, AreSpaced, IsWhole, AreBlanks, text_of, placed, bytes_of, spaced_of, Follows, Spoils, last_of};

/// The text of tokens that are well spaced is cut into them.
pub fn spaced_is_cut()
    ensures { (xs : List Spaced) (end : List ℕ) → AreSpaced xs → AreBlanks end → tokens_of (text_of xs ++ end) ≡ Some (placed 0 xs) }
{}

/// Each of them has its kind, and in that text its own bytes.
pub fn texts_are_kept()
    ensures kinds { (xs : List Spaced) (at : ℕ) → map (λ (t : Token). t.kind) (placed at xs) ≡ map (λ (x : Spaced). x.kind) xs }
    ensures texts { (xs : List Spaced) (end : List ℕ) → map (bytes_of (text_of xs ++ end)) (placed 0 xs) ≡ map (λ (x : Spaced). x.text) xs }
{}

/// That text gives back the tokens with what stands before each.
pub fn spaces_are_kept()
    ensures { (xs : List Spaced) (end : List ℕ) → AreSpaced xs → AreBlanks end → spaced_of (text_of xs ++ end) ≡ xs }
{}

/// What is well spaced goes on with what may be written behind it.
pub fn one_more_is_spaced()
    ensures { (xs : List Spaced) (x : Spaced) → AreSpaced xs → Follows (last_of xs) x → AreSpaced (xs ++ x ∷ []) }
{}

/// The texts of each kind are whole.
pub fn texts_are_whole()
    ensures { (kind : Kind) (text : List ℕ) → IsText kind text → IsWhole kind text }
{}

/// A blank may stand directly behind every token, and a sign of one byte before and behind it.
pub fn signs_are_free()
    ensures blank { (kind : Kind) (b : ℕ) → is_blank b ≡ true → may_follow kind b ≡ true }
    ensures before { (kind sign : Kind) (b : ℕ) → sign_at b ≡ token sign 1 → may_follow kind b ≡ true }
    ensures behind { (sign : Kind) (b c : ℕ) → sign_at b ≡ token sign 1 → may_follow sign c ≡ true }
{}

/// No byte is kept from standing behind a kind of token in vain.
pub fn others_spoil()
    ensures { (kind : Kind) (b : ℕ) → may_follow kind b ≡ false → Spoils kind b }
{}
