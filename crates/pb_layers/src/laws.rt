ghost use Rattle.std.specs.Prelude.{◌≡◌, ◌⊎◌, ◌<◌, ℕ, List, slice_index};
ghost use Rattle.std.specs.List.{All};
ghost use Rattle.pb_layers.specs.Layers.{EdgeInside, HasRefusal, HasUsedOrder, IsRefused, IsUsedOrder, LayersValue, LinksInside, graph_of, list_at};
ghost use Rattle.pb_layers.specs.Orders.{IsOrder};
ghost use Rattle.pb_layers.specs.declared.link.Edge.{Edge};
ghost use Rattle.pb_layers.specs.declared.link.Link.{Link};

/// A law: the order that is used is an order, with the layers and lists that are answered.
pub fn a_used_order_is_an_order()
    ensures { (joined : List Link) (edges : List Edge) (nodes : ℕ) (a : LayersValue) → All (LinksInside nodes) joined → All (EdgeInside nodes) edges
        → IsUsedOrder (graph_of joined edges) nodes a → IsOrder ℕ Edge ℕ (graph_of joined edges) (slice_index a.layer) (list_at a.layers) }
{}

/// A law: nodes have a used order or are refused; they have one used order at most, and one refusal at most, and never both.
pub fn nodes_have_one_answer()
    ensures some { (joined : List Link) (edges : List Edge) (nodes : ℕ) → All (LinksInside nodes) joined → All (EdgeInside nodes) edges
        → HasUsedOrder (graph_of joined edges) nodes ⊎ HasRefusal (graph_of joined edges) nodes }
    ensures one_order { (joined : List Link) (edges : List Edge) (nodes : ℕ) (a b : LayersValue) → All (LinksInside nodes) joined → All (EdgeInside nodes) edges
        → IsUsedOrder (graph_of joined edges) nodes a → IsUsedOrder (graph_of joined edges) nodes b → a ≡ b }
    ensures one_refusal { (joined : List Link) (edges : List Edge) (nodes : ℕ) (members others : List ℕ)
        → IsRefused (graph_of joined edges) nodes members → IsRefused (graph_of joined edges) nodes others → members ≡ others }
    ensures not_both { (joined : List Link) (edges : List Edge) (nodes : ℕ) (a : LayersValue) (members : List ℕ) → All (LinksInside nodes) joined → All (EdgeInside nodes) edges
        → IsUsedOrder (graph_of joined edges) nodes a → IsRefused (graph_of joined edges) nodes members → ⊥ }
{}
