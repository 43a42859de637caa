ghost use Rattle.std.specs.Prelude.{◌≡◌, ◌≤◌, ◌<◌, ◌+◌, ◌*◌, ℕ, List, [], ◌∷◌, Option, None, Some, length, min, slice_get};
ghost use Rattle.std.specs.List.{Contains};
ghost use Rattle.pb_linear.specs.declared.boxes.Sign.{Sign};
ghost use Rattle.pb_linear.specs.declared.boxes.Sign.TheVariants.{Minus, Plus};
ghost use Rattle.pb_program.specs.Configs.{ConfigValue};
ghost use Rattle.pb_program.specs.Trees.{ProgTransform};
ghost use Rattle.pb_model.specs.Cells.{Cell};
ghost use Rattle.pb_model.specs.Chosen.{chosen_rule};
ghost use Rattle.pb_check.specs.Orders.{AnalysisValue};
ghost use Rattle.pb_check.specs.Ranked.{IsMadeCell};
ghost use Rattle.pb_frame.specs.Choices.{IsInstance};
ghost use Rattle.pb_frame.specs.Frames.{block_side, HoldsCell, parts_of, spans};
ghost use Rattle.pb_frame.specs.declared.part.FramePart.{FramePart};

/// A law: each cell that a part holds is one that rules make, and the part's rule is its chosen rule.
pub fn a_part_has_the_rule_of_its_cells()
    ensures made { (config : ConfigValue) (number : ℕ) (t : ProgTransform) (a : AnalysisValue) (sizes : List ℕ) → IsInstance number t a sizes
        → (part : FramePart) (c : Cell) → Contains (parts_of config number t sizes a.nodes) part → HoldsCell a.nodes part c → IsMadeCell t sizes c }
    ensures chosen { (config : ConfigValue) (number : ℕ) (t : ProgTransform) (a : AnalysisValue) (sizes : List ℕ) → IsInstance number t a sizes
        → (part : FramePart) (c : Cell) → Contains (parts_of config number t sizes a.nodes) part → HoldsCell a.nodes part c → chosen_rule config number t sizes c ≡ part.rule }
{}

/// A law: each cell that rules make lies in one part.
pub fn each_cell_lies_in_one_part()
    ensures some { (config : ConfigValue) (number : ℕ) (t : ProgTransform) (a : AnalysisValue) (sizes : List ℕ) → IsInstance number t a sizes
        → (c : Cell) → IsMadeCell t sizes c → (part : FramePart) × Contains (parts_of config number t sizes a.nodes) part × HoldsCell a.nodes part c }
    ensures one { (config : ConfigValue) (number : ℕ) (t : ProgTransform) (a : AnalysisValue) (sizes : List ℕ) → IsInstance number t a sizes
        → (c : Cell) (part other : FramePart) → Contains (parts_of config number t sizes a.nodes) part → Contains (parts_of config number t sizes a.nodes) other
        → HoldsCell a.nodes part c → HoldsCell a.nodes other c → part ≡ other }
{}

/// A law: an axis that can be cut has as many blocks as reach its end, each of the block side from a multiple of it on, but for one
/// that the end cuts short; and at most 16. The side is the grain, or the least by which 16 blocks reach the end, where that is
/// greater. The blocks reach each place before the end, and each stands before those that come after it in the axis's sign.
pub fn blocks_reach_each_place()
    ensures side { (grain top : ℕ) → (grain ≤ block_side grain top) × (top ≤ 16 * block_side grain top) }
    ensures least { (grain top side : ℕ) → 1 ≤ side → grain ≤ side → top ≤ 16 * side → block_side grain top ≤ side }
    ensures few { (cut : Option Sign) (grain top : ℕ) → length (spans cut grain top) ≤ 16 }
    ensures sized { (sign : Sign) (grain top : ℕ) (s : ℕ × ℕ) → Contains (spans (Some sign) grain top) s
        → (s.1 ≡ min (s.0 + block_side grain top) top) × ((k : ℕ) × (s.0 ≡ k * block_side grain top)) }
    ensures whole { (grain top : ℕ) → spans None grain top ≡ (0, top) ∷ [] }
    ensures reached { (cut : Option Sign) (grain top x : ℕ) → x < top → (s : ℕ × ℕ) × Contains (spans cut grain top) s × (s.0 ≤ x) × (x < s.1) }
    ensures rising { (grain top i j : ℕ) (s r : ℕ × ℕ) → slice_get (spans (Some Plus) grain top) i ≡ Some s → slice_get (spans (Some Plus) grain top) j ≡ Some r → i < j → s.1 ≤ r.0 }
    ensures falling { (grain top i j : ℕ) (s r : ℕ × ℕ) → slice_get (spans (Some Minus) grain top) i ≡ Some s → slice_get (spans (Some Minus) grain top) j ≡ Some r → i < j → r.1 ≤ s.0 }
{}
