//! Laws of the lines of a text.

ghost use Rattle.std.specs.Prelude.{◌≡◌, ◌≢◌, ℕ, List, [], ◌∷◌, ◌++◌, All};
ghost use Rattle.fhir_serve.specs.Lines.{lines_of};

/// What lines are: an empty text has none (`none`), a text with no line feed is one line (`last`), and what stands before a line feed is
/// the line before those that stand behind it (`first`).
pub fn split_lines()
    ensures none { lines_of [] ≡ [] }
    ensures last { (line : List ℕ) → line ≢ [] → All (λ b. b ≢ 10) line → lines_of line ≡ line ∷ [] }
    ensures first { (line rest : List ℕ) → All (λ b. b ≢ 10) line → lines_of (line ++ (10 ∷ rest)) ≡ line ∷ lines_of rest }
{}
