ghost use Rattle.std.specs.Prelude.{◌≡◌, ◌⊎◌, ℕ, ℤ, List};
ghost use Rattle.pb_linear.specs.Sizes.{InRange};
ghost use Rattle.pb_linear.specs.VForm.{InArea};
ghost use Rattle.pb_linear.specs.declared.boxes.ReadBox.{ReadBox};
ghost use Rattle.pb_layers.specs.Orders.{OrderExists};
ghost use Rattle.pb_graph.specs.Edges.{Choices};
ghost use Rattle.pb_graph.specs.Layerings.{IsLayering, IsUnordered, LayeringValue, choice_graph};
ghost use Rattle.pb_graph.specs.Nodes.{NodeValue};
ghost use Rattle.pb_graph.specs.Ranks.{IsBelow, IsHandled, IsRead, IsReadOf, rank_in};

/// A law: each read by which a segment may read another is handled in one way for all cells of the segment.
pub fn a_layering_handles_each_read()
    ensures { (c : Choices) (l : LayeringValue) (sizes : List ℕ) → IsLayering c l → InRange c.leasts sizes
        → (u v : ℕ) (reader source : NodeValue) (r : ReadBox) → IsReadOf c u v reader source r → IsHandled l sizes u v reader source r }
{}

/// A law: what a rule of a segment may read for a cell has a smaller rank than the cell, wherever it lies.
pub fn what_is_read_has_a_smaller_rank()
    ensures { (c : Choices) (l : LayeringValue) (sizes : List ℕ) → IsLayering c l → InRange c.leasts sizes
        → (u v : ℕ) (reader source : NodeValue) (r : ReadBox) → IsReadOf c u v reader source r
        → (x y : ℤ) → InArea reader.area sizes x y → (a b : ℤ) → IsRead r sizes x y a b → InArea source.area sizes a b
        → IsBelow (rank_in l v a b) (rank_in l u x y) }
{}

/// A law: segments have a layering or are refused, and never both; and they have one layering and one refusal at most.
pub fn choices_have_one_answer()
    ensures some { (c : Choices) → ((l : LayeringValue) × IsLayering c l) ⊎ ((segments : List ℕ) × IsUnordered c segments) }
    ensures not_both { (c : Choices) (l : LayeringValue) (segments : List ℕ) → IsLayering c l → IsUnordered c segments → ⊥ }
    ensures one_layering { (c : Choices) (l m : LayeringValue) → IsLayering c l → IsLayering c m → l ≡ m }
    ensures one_refusal { (c : Choices) (segments others : List ℕ) → IsUnordered c segments → IsUnordered c others → segments ≡ others }
{}
