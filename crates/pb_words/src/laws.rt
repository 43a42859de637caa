ghost use Rattle.std.specs.Prelude.{◌≡◌, ℕ, List, ◌⊎◌};
ghost use Rattle.pb_words.specs.declared.ask.Ask.{Ask};
ghost use Rattle.pb_words.specs.Line.{Line, IsInside};

/// A law: a line has at most one reading.
pub fn a_line_has_one_reading()
    ensures { (words : List (List ℕ)) (first second : Ask) (place other : ℕ) → Line words first place → Line words second other
        → (first ≡ second) × (place ≡ other) }
{}

/// A law: words are a line of the grammar or they aren't.
pub fn words_are_inside_or_not()
    ensures { (words : List (List ℕ)) → IsInside words ⊎ (IsInside words → ⊥) }
{}
