ghost use Rattle.std.specs.Prelude.{◌≡◌, ℕ, ◌⊎◌, List, length};
ghost use Rattle.pb_syntax.specs.declared.token.Token.{Token};
ghost use Rattle.pb_syntax.specs.Tokens.{Spells, BadTokenAt};
ghost use Rattle.pb_syntax.specs.Lexemes.{AreLexemes, RiseBetween};

/// A law: a text has at most one list of tokens.
pub fn a_text_has_one_list()
    ensures { (text : List ℕ) (first second : List Token) → Spells text first → Spells text second → first ≡ second }
{}

/// A law: a text has a list of tokens, or a first byte that begins no token, blank or comment; it has one such byte, and
/// then no list.
pub fn a_text_has_one_fault()
    ensures some { (text : List ℕ) → ((tokens : List Token) × Spells text tokens) ⊎ ((at : ℕ) × BadTokenAt text at) }
    ensures one { (text : List ℕ) (at other : ℕ) → BadTokenAt text at → BadTokenAt text other → at ≡ other }
    ensures no_list { (text : List ℕ) (at : ℕ) (tokens : List Token) → BadTokenAt text at → Spells text tokens → ⊥ }
{}

/// A law: the tokens of a text are words, numbers and signs that a text can have; their places rise, from 0 to before the
/// text's end, and a word's name has its token's place.
pub fn tokens_are_lexemes()
    ensures lexemes { (text : List ℕ) (tokens : List Token) → Spells text tokens → AreLexemes tokens }
    ensures places { (text : List ℕ) (tokens : List Token) → Spells text tokens → RiseBetween 0 (length text) tokens }
{}
