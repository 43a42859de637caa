ghost use Rattle.std.specs.Prelude.{◌≡◌, ◌≤◌, ℕ, suc, Bool, IsSome, Contains, List, length, Option, Some, None};
ghost use Rattle.std.specs.List.{AllByRecursion};
ghost use Rattle.std.specs.Option.{option_or};
ghost use Rattle.pb_base.specs.Systems.{System, made, solved, outcome, IsGivenOr, AreRanked, IsClosed, Obeys};

/// A law: where each cell that isn't given reads what is given or stands before it, one round more than there are cells
/// knows them all.
pub fn enough<C, O>()
    ensures known { (s : System C O) (cells : List C) (before : C → C → Bool) → AreRanked s cells before
        → (c : C) → Contains cells c → IsSome (solved s (suc (length cells)) c) }
    ensures closed { (s : System C O) (cells : List C) (before : C → C → Bool) → AreRanked s cells before → IsClosed s (Contains cells) }
{}

/// A law: what is known after some rounds is given, or is what the equation makes of what is known after as many; and it
/// stays after more.
pub fn fixed<C, O>()
    ensures equation { (s : System C O) (k : ℕ) (c : C) → IsSome (solved s k c) → solved s k c ≡ option_or (s.given c) (made s (solved s k) c) }
    ensures stays { (s : System C O) (k more : ℕ) (c : C) (o : O) → k ≤ more → solved s k c ≡ Some o → solved s more c ≡ Some o }
{}

/// A law: where all these cells are known after some rounds, what is known obeys their equations.
pub fn solution<C, O>()
    ensures { (s : System C O) (cells : List C) (k : ℕ) (default : O) → ((c : C) → Contains cells c → IsSome (solved s k c))
        → Obeys s (Contains cells) (outcome s k default) }
{}

/// A law: what obeys the equations of cells that read no others agrees with what is known after some rounds.
pub fn alone<C, O>()
    ensures { (s : System C O) (cells : List C) (a : C → O) → Obeys s (Contains cells) a → IsClosed s (Contains cells)
        → (k : ℕ) (c : C) (o : O) → IsGivenOr s (Contains cells) c → solved s k c ≡ Some o → a c ≡ o }
{}

/// A law: where the reads of a cell have the outcomes of what obeys the equations, the cell's equation makes its outcome.
pub fn made_right<C, O>()
    ensures { (s : System C O) (cells : List C) (a : C → O) → Obeys s (Contains cells) a
        → (known : C → Option O) (c : C) → Contains cells c → s.given c ≡ None → AllByRecursion (λ r. known r ≡ Some (a r)) (s.reads c)
        → made s known c ≡ Some (a c) }
{}
