ghost use Rattle.std.specs.Prelude.{◌≡◌, ◌↔◌, ◌⊎◌, ℕ, ℤ, pos, ◌≤ℤ◌, ◌<ℤ◌, IsTrue, List, filter, length};
ghost use Rattle.std.specs.List.{All, Contains};
ghost use Rattle.pb_linear.specs.Form.{value};
ghost use Rattle.pb_linear.specs.Sizes.{InRange, IsRanges};
ghost use Rattle.pb_linear.specs.RuleBox.{Bounds};
ghost use Rattle.pb_linear.specs.declared.form.Form.{Form};
ghost use Rattle.pb_linear.specs.declared.sizes.Ranges.{Ranges};
ghost use Rattle.pb_grid.specs.declared.refusal.GridRefusal.{GridRefusal};
ghost use Rattle.pb_grid.specs.Grids.{HasGrid, HasRefusal, IsGrid, IsRefused, Matrix, matrix_of};
ghost use Rattle.pb_grid.specs.Places.{holders_at, is_at, IsPlace, MayMake};
ghost use Rattle.pb_grid.specs.Segments.{best, SegmentValue};

/// A law: at all sizes in range each place of the matrix lies in exactly one segment.
pub fn a_place_is_in_one_segment()
    ensures { (m : Matrix) (segments : List SegmentValue) (sizes : List ℕ) (x y : ℤ) → IsGrid m segments → IsPlace m sizes x y
        → length (filter (is_at sizes x y) segments) ≡ 1 }
{}

/// A law: the rules of a segment are, at each of its places, those with a box that holds the place and no greater priority
/// than any unguarded rule with such a box.
pub fn a_segment_has_the_rules_of_its_places()
    ensures { (m : Matrix) (segments : List SegmentValue) (sizes : List ℕ) (x y : ℤ) → IsGrid m segments → IsPlace m sizes x y
        → All (λ s. IsTrue (is_at sizes x y s) → s.rules ≡ best (holders_at sizes x y m.boxes)) segments }
{}

/// A law: the rules at a place are those that may make the cell there.
pub fn a_rule_is_at_a_place_exactly_where_it_may_make_the_cell()
    ensures { (boxes : List Bounds) (sizes : List ℕ) (x y : ℤ) (rule : ℕ)
        → Contains (best (holders_at sizes x y boxes)) rule ↔ MayMake boxes sizes x y rule }
{}

/// A law: a matrix has a grid or is refused; it has one grid at most, and one refusal at most, and never both.
pub fn a_matrix_has_one_answer()
    ensures some { (ranges : Ranges) (boxes : List Bounds) (width height : Form) → IsRanges ranges
        → HasGrid (matrix_of ranges boxes width height) ⊎ HasRefusal (matrix_of ranges boxes width height) }
    ensures one_grid { (m : Matrix) (segments others : List SegmentValue) → IsGrid m segments → IsGrid m others → segments ≡ others }
    ensures one_refusal { (m : Matrix) (e f : GridRefusal) → IsRefused m e → IsRefused m f → e ≡ f }
    ensures not_both { (m : Matrix) (segments : List SegmentValue) (e : GridRefusal) → IsGrid m segments → IsRefused m e → ⊥ }
{}
