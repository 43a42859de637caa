ghost use Rattle.std.specs.Prelude.{◌≡◌, ℕ, ◌⊎◌, List};
ghost use Rattle.pb_syntax.specs.declared.token.Token.{Token};
ghost use Rattle.pb_syntax.specs.declared.refusal.Item.{Item};
ghost use Rattle.pb_syntax.specs.Trees.{TransformTree};
ghost use Rattle.pb_syntax.specs.Grammar.{IsProgram};
ghost use Rattle.pb_syntax.specs.Lexemes.{AreLexemes};
ghost use Rattle.pb_syntax.specs.WithinLimits.{IsWithinLimits};
ghost use Rattle.pb_syntax.specs.Faults.{Accepted, BadSyntaxAt, OverLimitAt};

/// A law: a list of tokens has at most one tree.
pub fn a_list_has_one_tree()
    ensures { (tokens : List Token) (first second : List TransformTree) → IsProgram first tokens → IsProgram second tokens → first ≡ second }
{}

/// A law: a list of tokens is a program in which nothing is too many, or has one place at which no program goes on, or
/// one first item too many; and only one of the three.
pub fn tokens_have_one_answer()
    ensures some { (tokens : List Token) (end : ℕ) → ((tree : List TransformTree) × Accepted tree tokens)
        ⊎ (((at : ℕ) × BadSyntaxAt tokens end at) ⊎ ((what : Item) × (at : ℕ) × OverLimitAt tokens what at)) }
    ensures one_place { (tokens : List Token) (end at other : ℕ) → BadSyntaxAt tokens end at → BadSyntaxAt tokens end other → at ≡ other }
    ensures one_item { (tokens : List Token) (what other : Item) (at place : ℕ) → OverLimitAt tokens what at → OverLimitAt tokens other place
        → (what ≡ other) × (at ≡ place) }
    ensures not_both { (tokens : List Token) (end at : ℕ) (what : Item) (place : ℕ) → BadSyntaxAt tokens end at → OverLimitAt tokens what place → ⊥ }
    ensures no_bad_program { (tokens : List Token) (end at : ℕ) (tree : List TransformTree) → BadSyntaxAt tokens end at → Accepted tree tokens → ⊥ }
    ensures no_large_program { (tokens : List Token) (what : Item) (at : ℕ) (tree : List TransformTree) → OverLimitAt tokens what at → Accepted tree tokens → ⊥ }
{}

/// A law: an accepted tree, of tokens that a text can have, is within the limits.
pub fn an_accepted_tree_is_within_limits()
    ensures { (tokens : List Token) (tree : List TransformTree) → AreLexemes tokens → Accepted tree tokens → IsWithinLimits tree }
{}
