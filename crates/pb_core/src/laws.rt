ghost use Rattle.std.specs.Prelude.{◌≡◌, ◌==◌, ◌++◌, ◌<◌, ◌≤◌, ◌∷◌, ℕ, List, None, Result, Some, length};
ghost use Rattle.std.specs.List.{Contains};
ghost use Rattle.pb_values.specs.declared.outcome.Outcome.{Outcome};
ghost use Rattle.pb_taskgraph.specs.Graphs.{before_of, cells_of};
ghost use Rattle.pb_taskgraph.specs.Orders.{IsLawful};
ghost use Rattle.pb_taskgraph.specs.Plans.{IsPlan, Plan, outcome_at};
ghost use Rattle.pb_core.specs.declared.event.Event.{Event};
ghost use Rattle.pb_core.specs.declared.event.Event.TheVariants.{Write};
ghost use Rattle.pb_core.specs.declared.event.EventsRefusal.{EventsRefusal};
ghost use Rattle.pb_core.specs.States.{Enabled, State, counted, first_state, happens};
ghost use Rattle.pb_core.specs.Events.{AllEnabled, AllFinished, IsFinishedOrder, IsWork, all_happen, by_number, most_events, writes};
ghost use Rattle.pb_core.specs.Listed.{IsInterleaving, WritesInOrder, listed_events};
ghost use Rattle.pb_core.specs.Snapshots.{IsSoundSnapshot, Shows, Snapshot, snapshot_of};
ghost use Rattle.pb_core.specs.Sound.{IsSound};
ghost use Rattle.pb_core.specs.Cores.{CoreValue};
ghost use Rattle.pb_core.specs.Runs.{Runs, ShowsIt};

/// A law: the state before any event is sound, and each enabled event keeps a state sound.
pub fn an_enabled_event_keeps_a_state_sound()
    ensures first { (p : Plan) (hands : ℕ) → IsPlan p → IsSound p (first_state p hands) }
    ensures event { (p : Plan) (s : State) (e : Event) → IsPlan p → IsSound p s → Enabled p s e → IsSound p (happens p s e) }
{}

/// A law: by enabled events a cell is written at most once, and an input cell never; with the solution's outcome; after every
/// cell of every predecessor of its task; and exactly once where all tasks are finished.
pub fn a_cell_is_written_once_and_right_and_after_what_it_reads()
    ensures once { (p : Plan) (hands : ℕ) (events : List Event) (c : ℕ) → IsPlan p → AllEnabled p (first_state p hands) events → counted (λ d. d == c) (writes events) ≤ 1 }
    ensures input { (p : Plan) (hands : ℕ) (events : List Event) (c : ℕ) → IsPlan p → AllEnabled p (first_state p hands) events → c < p.graph.inputs → counted (λ d. d == c) (writes events) ≡ 0 }
    ensures right { (p : Plan) (hands : ℕ) (events : List Event) (c : ℕ) (v : Outcome) → IsPlan p → AllEnabled p (first_state p hands) events
        → (all_happen p (first_state p hands) events).value c ≡ Some v → v ≡ outcome_at p.solution c }
    ensures after { (p : Plan) (hands : ℕ) (early late : List Event) (hand c t u d : ℕ) → IsPlan p → AllEnabled p (first_state p hands) (early ++ Write hand c ∷ late)
        → Contains (cells_of p.graph t) c → Contains (before_of p.graph t) u → Contains (cells_of p.graph u) d → Contains (writes early) d }
    ensures all { (p : Plan) (hands : ℕ) (events : List Event) (c : ℕ) → IsPlan p → AllEnabled p (first_state p hands) events → AllFinished p.graph (all_happen p (first_state p hands) events)
        → p.graph.inputs ≤ c → c < p.graph.cells → counted (λ d. d == c) (writes events) ≡ 1 }
{}

/// A law: after enabled events the snapshot is sound, and the finished tasks by number stand each once and after their
/// predecessors: a lawful order where all are finished.
pub fn a_state_shows_a_sound_snapshot()
    ensures snapshot { (p : Plan) (hands : ℕ) (events : List Event) → IsPlan p → AllEnabled p (first_state p hands) events
        → IsSoundSnapshot p (snapshot_of p.graph (all_happen p (first_state p hands) events)) }
    ensures order { (p : Plan) (hands : ℕ) (events : List Event) (s : State) → IsPlan p → AllEnabled p (first_state p hands) events → s ≡ all_happen p (first_state p hands) events
        → IsFinishedOrder p.graph s (by_number p.graph s.number s.finished) }
    ensures lawful { (p : Plan) (hands : ℕ) (events : List Event) (s : State) → IsPlan p → AllEnabled p (first_state p hands) events → s ≡ all_happen p (first_state p hands) events
        → AllFinished p.graph s → IsLawful p.graph (by_number p.graph s.number s.finished) }
{}

/// A law: while a task is unfinished, some event that isn't a Give is enabled.
pub fn some_hand_can_go_on()
    ensures { (p : Plan) (hands : ℕ) (events : List Event) (s : State) (t : ℕ) → IsPlan p → AllEnabled p (first_state p hands) events → s ≡ all_happen p (first_state p hands) events
        → t < length p.graph.tasks → s.number t ≡ None → (e : Event) × IsWork e × Enabled p s e }
{}

/// A law: there are at most three events for each task, one for each cell past the inputs and one for each link.
pub fn there_are_few_events()
    ensures { (p : Plan) (hands : ℕ) (events : List Event) → IsPlan p → AllEnabled p (first_state p hands) events → length events ≤ most_events p.graph }
{}

/// A law: the events that are listed for a sound snapshot are enabled, each in its turn, where there is one hand; they lead to
/// a state that shows the snapshot; and they are an interleaving where the written cells of each task are the first of its own
/// order. So a run over them isn't refused, unless there is no memory, and its state shows the snapshot.
pub fn the_listed_events_show_a_sound_snapshot()
    ensures enabled { (p : Plan) (q : Snapshot) → IsPlan p → IsSoundSnapshot p q → AllEnabled p (first_state p 1) (listed_events p q) }
    ensures shows { (p : Plan) (q : Snapshot) → IsPlan p → IsSoundSnapshot p q → Shows p (all_happen p (first_state p 1) (listed_events p q)) q }
    ensures interleaving { (p : Plan) (q : Snapshot) → IsPlan p → IsSoundSnapshot p q → WritesInOrder p q → IsInterleaving p 1 (listed_events p q) }
    ensures run { (p : Plan) (q : Snapshot) (run : Result CoreValue EventsRefusal) → IsPlan p → IsSoundSnapshot p q → Runs p 1 (listed_events p q) run → ShowsIt p q run }
{}
