ghost use Rattle.std.specs.Prelude.{◌≡◌, ◌↔◌, ◌⊎◌, ℕ, ℤ, pos, ◌≤ℤ◌, false, List, length, Some, slice_get};
ghost use Rattle.std.specs.List.{AllByRecursion, Contains};
ghost use Rattle.pb_linear.specs.Numbers.{exact_value};
ghost use Rattle.pb_linear.specs.Sizes.{InRange, IsRanges, leasts_of};
ghost use Rattle.pb_syntax.specs.declared.refusal.Refusal.{Refusal};
ghost use Rattle.pb_program.specs.declared.rule.RuleKind.TheVariants.{Cell};
ghost use Rattle.pb_program.specs.declared.view.Read.{Read};
ghost use Rattle.pb_program.specs.Areas.{IsIn, area_of};
ghost use Rattle.pb_program.specs.Conditions.{Applies, Condition, conditions, Holds};
ghost use Rattle.pb_program.specs.Forms.{coordinate_at, DeclValue};
ghost use Rattle.pb_program.specs.Trees.{ProgRule, ProgTransform};
ghost use Rattle.pb_program.specs.WellFormed.{IsDecl, IsFree, IsRule};
ghost use Rattle.pb_region.specs.Boxes.{box};
ghost use Rattle.pb_region.specs.Dims.{AreSides, HasNegative};
ghost use Rattle.pb_region.specs.Dims as Dims;
ghost use Rattle.pb_region.specs.Ends.{area_at, ends_of};
ghost use Rattle.pb_region.specs.Gaps.{gap};
ghost use Rattle.pb_region.specs.Inside.{bounding, guards, IsInside};
ghost use Rattle.pb_region.specs.Reads.{ReadValue, reads_of};
ghost use Rattle.pb_region.specs.Small.{AreSmallLimits, HaveSmallEnds};
ghost use Rattle.pb_region.specs.Within.{IsWithin};
ghost use Rattle.pb_region.specs.Rules.{HasRefusal, IsAccepted, IsRefused};

/// A law: a condition holds exactly where its gap is at most 0.
#[tactic(auto, using(crate::proofs::InsideLemmas::gap_holds))]
pub fn a_condition_is_its_gap()
    ensures { (c : Condition) (sizes : List ℕ) (x y : ℤ) → Holds sizes x y c ↔ (coordinate_at (gap c) sizes x y ≤ℤ pos 0) }
{}

/// A law of rules for single cells: a place is inside the box exactly where each condition with a rule variable holds, and
/// the rule applies exactly where it is inside and the guards hold.
pub fn a_box_is_its_conditions()
    ensures inside { (t : ProgTransform) (r : ProgRule) (number : ℕ) (out : Read) → IsAccepted t r → r.kind ≡ Cell → (sizes : List ℕ) (x y : ℤ)
        → IsInside (box (leasts_of t.ranges) t.matrices number r out).limits sizes x y ↔ AllByRecursion (Holds sizes x y) (bounding t.matrices r) }
    ensures applies { (t : ProgTransform) (r : ProgRule) (number : ℕ) (out : Read) → IsAccepted t r → r.kind ≡ Cell → (sizes : List ℕ) (x y : ℤ)
        → Applies t.matrices r sizes x y ↔ (IsInside (box (leasts_of t.ranges) t.matrices number r out).limits sizes x y × AllByRecursion (Holds sizes x y) (guards t.matrices r)) }
{}

/// A law of the other rules: a place is inside the box of an output exactly where it lies in the area of the output, and
/// where no output has a rule variable each condition is a guard.
pub fn a_wide_box_is_its_area()
    ensures inside { (t : ProgTransform) (r : ProgRule) (number : ℕ) (out : Read) (d : DeclValue) → (r.kind ≡ Cell → ⊥) → slice_get t.matrices out.matrix ≡ Some d → (sizes : List ℕ) (x y : ℤ)
        → IsInside (box (leasts_of t.ranges) t.matrices number r out).limits sizes x y ↔ IsIn (area_of sizes (pos 0) (pos 0) out d) x y }
    ensures guards { (sizes inputs count transforms : ℕ) (matrices : List DeclValue) (r : ProgRule) → IsRule sizes inputs count transforms r → AllByRecursion IsFree r.outs
        → guards matrices r ≡ conditions matrices r }
{}

/// A law: a box isn't guarded exactly where all guards hold at all sizes in range.
pub fn an_unguarded_box_needs_no_guard()
    ensures { (t : ProgTransform) (r : ProgRule) (number : ℕ) (out : Read) → ((box (leasts_of t.ranges) t.matrices number r out).guarded ≡ false)
        ↔ ((sizes : List ℕ) → InRange (leasts_of t.ranges) sizes → (x y : ℤ) → AllByRecursion (Holds sizes x y) (guards t.matrices r)) }
{}

/// A law: the ends of a view are those of the area that it shows.
#[tactic(auto, using(crate::proofs::AreaLemmas::ends_area))]
pub fn ends_are_those_of_the_area()
    ensures { (matrices : List DeclValue) (r : Read) (d : DeclValue) → slice_get matrices r.matrix ≡ Some d → (sizes : List ℕ) (x y : ℤ)
        → area_at (ends_of matrices r) sizes x y ≡ area_of sizes x y r d }
{}

/// A law: where a rule applies, each view that it reads lies within its matrix, if the view fits its matrix and no side is
/// negative.
pub fn a_read_is_within_its_matrix()
    ensures { (t : ProgTransform) (r : ProgRule) (k n : ℕ) (read : Read) (d : DeclValue) → AreSides t → IsDecl n d → slice_get r.reads k ≡ Some read → slice_get t.matrices read.matrix ≡ Some d → read.dims ≡ d.dims
        → (sizes : List ℕ) → InRange (leasts_of t.ranges) sizes → (x y : ℤ) → Applies t.matrices r sizes x y → IsWithin (area_of sizes x y read d) (exact_value d.w sizes) (exact_value d.h sizes) }
{}

/// A law: no number of a bound of a box passes 2^24 + 2 in absolute value.
pub fn bounds_are_small()
    ensures { (sizes inputs count transforms : ℕ) (matrices : List DeclValue) (r : ProgRule) → IsRule sizes inputs count transforms r → AllByRecursion (IsDecl sizes) matrices
        → (leasts : List ℕ) (number : ℕ) (out : Read) → Contains r.outs out → AreSmallLimits (box leasts matrices number r out).limits }
{}

/// A law: no number of an end of what an accepted rule reads passes 2^24 + 2 in absolute value, and of the two rule variables
/// at most one plays a part in an end, with the coefficient 1 or -1.
pub fn ends_of_reads_are_small()
    ensures { (transforms : ℕ) (t : ProgTransform) (r : ProgRule) → AllByRecursion (IsDecl (length t.sizes)) t.matrices → IsRule (length t.sizes) t.inputs (length t.matrices) transforms r
        → IsAccepted t r → (number : ℕ) → AllByRecursion (λ (v : ReadValue). HaveSmallEnds v.ends) (reads_of t number r) }
{}

/// A law: a rule is accepted or refused for one reason, and never both.
#[tactic(auto, using(crate::proofs::AnswerLemmas::some_answer, crate::proofs::AnswerLemmas::one_refusal, crate::proofs::AnswerLemmas::not_both))]
pub fn a_rule_has_one_answer()
    ensures some { (number_t number_r : ℕ) (t : ProgTransform) (r : ProgRule) → IsAccepted t r ⊎ HasRefusal number_t number_r t r }
    ensures one_refusal { (number_t number_r : ℕ) (t : ProgTransform) (r : ProgRule) (e f : Refusal) → IsRefused number_t number_r t r e → IsRefused number_t number_r t r f → e ≡ f }
    ensures not_both { (number_t number_r : ℕ) (t : ProgTransform) (r : ProgRule) (e : Refusal) → IsAccepted t r → IsRefused number_t number_r t r e → ⊥ }
{}

/// A law: the sides of a transform are never negative or it is refused for one, and never both.
pub fn sides_have_one_answer()
    ensures some { (number : ℕ) (t : ProgTransform) → IsRanges t.ranges → AreSides t ⊎ HasNegative number t }
    ensures one_refusal { (number : ℕ) (t : ProgTransform) (e f : Refusal) → Dims.IsRefused number t e → Dims.IsRefused number t f → e ≡ f }
    ensures not_both { (number : ℕ) (t : ProgTransform) (e : Refusal) → AreSides t → Dims.IsRefused number t e → ⊥ }
{}
