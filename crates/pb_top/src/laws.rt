ghost use Rattle.std.specs.Prelude.{◌≡◌, ℕ, ◌≤◌, List, length, Some};
ghost use Rattle.std.specs.List.{AllByRecursion, Contains};
ghost use Rattle.pb_syntax.specs.Trees.{TransformTree};
ghost use Rattle.pb_syntax.specs.declared.refusal.Refusal.{Refusal};
ghost use Rattle.pb_front.specs.Reading.{IsRead};
ghost use Rattle.pb_names.specs.Places.{place_of, told_at};
ghost use Rattle.pb_names.specs.Transforms.{IsRefused, faults_of};
ghost use Rattle.pb_outside.specs.Shelf.{Files};
ghost use Rattle.pb_top.specs.Sinks.{ShelfChange, SinkChange};
ghost use Rattle.pb_top.specs.Reply.{Reply, done_reply};
ghost use Rattle.pb_top.specs.Check.{CheckAnswers};
ghost use Rattle.pb_top.specs.Answer.{Answers};
ghost use Rattle.pb_top.specs.Ends.{Ends, IsFaultless, IsComplete};
ghost use Rattle.pb_top.specs.Statuses.{statuses, usage_statuses};
ghost use Rattle.pb_words.specs.Line.{IsInside, Line};
ghost use Rattle.pb_words.specs.declared.ask.Ask.{Ask};

use pb_syntax::MOST_BYTES;

/// A law: words and files have an answer, and no two.
pub fn one_reply()
    ensures some { (words : List (List ℕ)) (files : Files) → (reply : Reply) × Answers words (Some files) reply }
    ensures one { (words : List (List ℕ)) (files : Files) (first second : Reply)
        → Answers words (Some files) first → Answers words (Some files) second → first ≡ second }
{}

/// A law: a call in which no device fails, over files that are told, ends with the status and the bytes of the answer, or memory
/// ran out.
pub fn faultless_calls_answer()
    ensures { (words : List (List ℕ)) (files : Files) (shelf : ShelfChange) (out err : SinkChange) (status : ℕ) (reply : Reply)
        → Ends words shelf out err status → shelf.before ≡ Some files → IsFaultless shelf out err → Answers words (Some files) reply
        → IsComplete words files out err status reply }
{}

/// A law: what `check` writes of a program, where it isn't too long, is a program of which `check` writes the same.
pub fn a_checked_text_stays()
    ensures { (program text : List ℕ) → CheckAnswers program (done_reply text) → length text ≤ MOST_BYTES → CheckAnswers text (done_reply text) }
{}

/// A law: of a text whose tree is refused for its names, the place that is told is the least of all faults of names.
pub fn the_least_fault_of_names_is_told()
    ensures { (text : List ℕ) (tree : List TransformTree) (e : Refusal) → IsRead text tree → IsRefused tree e → AllByRecursion (λ f. told_at e ≤ place_of f) (faults_of tree) }
{}

/// A law: a call ends with a status that its command has; where the words are outside the grammar with 2, 10 or 11.
pub fn a_command_has_its_statuses()
    ensures inside { (words : List (List ℕ)) (shelf : ShelfChange) (out err : SinkChange) (status : ℕ) (ask : Ask) (place : ℕ)
        → Ends words shelf out err status → Line words ask place → Contains (statuses ask) status }
    ensures outside { (words : List (List ℕ)) (shelf : ShelfChange) (out err : SinkChange) (status : ℕ)
        → Ends words shelf out err status → (IsInside words → ⊥) → Contains usage_statuses status }
{}
