ghost use Rattle.std.specs.Prelude.{◌≡◌, ◌⊎◌, ℕ, List, Some, length, slice_get};
ghost use Rattle.pb_matrix.specs.Value.{MatrixValue};
ghost use Rattle.pb_program.specs.Forms.{DeclValue};
ghost use Rattle.pb_program.specs.Trees.{ProgTransform};
ghost use Rattle.pb_program.specs.WellFormed.{IsWellFormed};
ghost use Rattle.pb_entry.specs.Entering.{CannotEnter, Enters};
ghost use Rattle.pb_entry.specs.Fitting.{AreBound, AreUnfit, HasDims, HasSides, IsEnterable};
ghost use Rattle.pb_entry.specs.declared.refusal.RunRefusal.{RunRefusal};

/// A law: in a well-formed program a name is entered with one number at most, and refused for one reason at most, and never
/// both.
pub fn a_name_has_one_answer()
    ensures one_number { (p : List ProgTransform) (name : List ℕ) (given t u : ℕ) → IsWellFormed p → Enters p name given t → Enters p name given u → t ≡ u }
    ensures one_refusal { (p : List ProgTransform) (name : List ℕ) (given : ℕ) (e f : RunRefusal) → IsWellFormed p → CannotEnter p name given e → CannotEnter p name given f → e ≡ f }
    ensures not_both { (p : List ProgTransform) (name : List ℕ) (given t : ℕ) (e : RunRefusal) → IsWellFormed p → Enters p name given t → CannotEnter p name given e → ⊥ }
{}

/// A law: inputs have sizes or are refused; they have one list of sizes at most, and one refusal at most, and never both.
pub fn inputs_have_one_answer()
    ensures some { (t : ProgTransform) (inputs : List MatrixValue) → IsEnterable t → length inputs ≡ t.inputs
        → ((sizes : List ℕ) × AreBound t inputs sizes) ⊎ ((e : RunRefusal) × AreUnfit t inputs e) }
    ensures one_list { (t : ProgTransform) (inputs : List MatrixValue) (sizes others : List ℕ) → AreBound t inputs sizes → AreBound t inputs others → sizes ≡ others }
    ensures one_refusal { (t : ProgTransform) (inputs : List MatrixValue) (e f : RunRefusal) → AreUnfit t inputs e → AreUnfit t inputs f → e ≡ f }
    ensures not_both { (t : ProgTransform) (inputs : List MatrixValue) (sizes : List ℕ) (e : RunRefusal) → AreBound t inputs sizes → AreUnfit t inputs e → ⊥ }
{}

/// A law: inputs whose sizes are bound have the dimensions and, at these sizes, the sides of their matrices.
pub fn bound_inputs_fit_their_matrices()
    ensures { (t : ProgTransform) (inputs : List MatrixValue) (sizes : List ℕ) → AreBound t inputs sizes
        → (m : ℕ) (d : DeclValue) (input : MatrixValue) → slice_get t.matrices m ≡ Some d → slice_get inputs m ≡ Some input → HasDims (d, input) × HasSides sizes (d, input) }
{}
