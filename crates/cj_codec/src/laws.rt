//! Laws of spellings. Their proofs are all that these functions have.

ghost use Rattle.std.specs.Prelude.{◌≡◌, ◌↔◌, ◌++◌, ℕ, List, Some};
ghost use Rattle.cj_draft.specs.declared.code.Code.{Code};
ghost use Rattle.cj_spelling.specs.Spelling.{spelling};
ghost use Rattle.cj_spelling.specs.Ranges.{IsInRange};
ghost use Rattle.cj_spelling.specs.Values.{HasValues};
ghost use Rattle.cj_spelling.specs.Spells.{Spells};
ghost use Rattle.cj_codec.specs.Reading.{decoded};

/// No spelling is a prefix of another: where two spellings with whatever stands behind them are the same words, the
/// codes are the same, and so is what stands behind them. So there is one spelling for each code, and one code for each
/// spelling.
pub fn spellings_are_apart()
    ensures { (x y : Code) (a b : List ℕ) → IsInRange x → HasValues x → IsInRange y → HasValues y → spelling x ++ a ≡ spelling y ++ b → (x ≡ y) × (a ≡ b) }
{}

/// What words are decoded to is exactly the code that they spell.
pub fn decoded_exactly_spellings()
    ensures { (ws : List ℕ) (c : Code) → (decoded ws ≡ Some c) ↔ Spells ws c }
{}
