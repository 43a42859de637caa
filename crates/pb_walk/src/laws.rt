ghost use Rattle.std.specs.Prelude.{◌≡◌, ◌<◌, ◌↔◌, ℕ, List, length, slice_get, Some};
ghost use Rattle.std.specs.List.{Contains};
ghost use Rattle.pb_linear.specs.declared.boxes.Step.{Step};
ghost use Rattle.pb_links.specs.declared.places.Spot.{Spot};
ghost use Rattle.pb_walk.specs.declared.stop.Stop.{Stop};
ghost use Rattle.pb_walk.specs.Orders.{StandsBefore};
ghost use Rattle.pb_walk.specs.Walks.{IsPlace, IsWalk, walk_of};

/// A law: the places of a walk are those of its pieces, each once.
pub fn each_place_is_walked_once()
    ensures places { (steps : List Step) (pieces : List Spot) (s : Stop) → Contains (walk_of steps pieces) s ↔ IsPlace pieces s }
    ensures once { (steps : List Step) (pieces : List Spot) (i j : ℕ) (s : Stop)
        → slice_get (walk_of steps pieces) i ≡ Some s → slice_get (walk_of steps pieces) j ≡ Some s → i ≡ j }
{}

/// A law: a place of a walk has a smaller rank in a layer with this list than those that come later, or the same rank, and then its
/// cell has a smaller number, matrix by matrix and row by row, or it is the same cell, and in an earlier piece.
pub fn a_walk_rises()
    ensures { (layer : ℕ) (steps : List Step) (pieces : List Spot) (i j : ℕ) (a b : Stop) → i < j
        → slice_get (walk_of steps pieces) i ≡ Some a → slice_get (walk_of steps pieces) j ≡ Some b → StandsBefore layer steps a b }
{}

/// A law: no other list has the places of these pieces in this order.
pub fn there_is_one_walk()
    ensures { (steps : List Step) (pieces : List Spot) (walk : List Stop) → IsWalk steps pieces walk → walk ≡ walk_of steps pieces }
{}
