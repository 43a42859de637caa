ghost use Rattle.std.specs.Prelude.{◌≡◌, ◌≢◌, ◌<◌, ◌↔◌, ℕ, List, length};
ghost use Rattle.std.specs.List.{Contains};
ghost use Rattle.pb_links.specs.Links.{EachOnce, predecessors, successors};
ghost use Rattle.pb_links.specs.Spots.{HasSpot, PlacesValue, boxes_of, parts_of};

/// A law: the predecessors of a task are the other tasks that make a place which it reads.
pub fn a_predecessor_makes_what_is_read()
    ensures { (tasks : List PlacesValue) (t u : ℕ) → Contains (predecessors tasks t) u
        ↔ ((u ≢ t) × ((base : ℕ) × ((x : ℕ) × ((y : ℕ) × HasSpot (parts_of tasks u) base x y × HasSpot (boxes_of tasks t) base x y)))) }
{}

/// A law: a task is among the predecessors of another exactly where that one is among its successors.
pub fn links_mirror()
    ensures { (tasks : List PlacesValue) (t u : ℕ) → Contains (predecessors tasks t) u ↔ Contains (successors tasks u) t }
{}

/// A law: no task stands twice among the predecessors or the successors of a task.
pub fn links_stand_once()
    ensures before { (tasks : List PlacesValue) (t : ℕ) → EachOnce (predecessors tasks t) }
    ensures after { (tasks : List PlacesValue) (t : ℕ) → EachOnce (successors tasks t) }
{}

/// A law: the predecessors and the successors of a task are other tasks.
pub fn links_are_of_other_tasks()
    ensures before { (tasks : List PlacesValue) (t u : ℕ) → Contains (predecessors tasks t) u → (u < length tasks) × (u ≢ t) }
    ensures after { (tasks : List PlacesValue) (t u : ℕ) → Contains (successors tasks t) u → (u < length tasks) × (u ≢ t) }
{}
