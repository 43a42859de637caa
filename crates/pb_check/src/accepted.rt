ghost use Rattle.std.specs.Prelude.{◌≡◌, ◌<◌, ◌≤◌, ◌⊎◌, ◌↔◌, IfErr, IfNone, IfOk, IfSome, IsTrue, Some, length, map, slice_get};
ghost use Rattle.pb_linear.specs.Sizes.{sizes_of};
ghost use Rattle.pb_syntax.specs.declared.limits.TheConstants.{MOST_TRANSFORMS};
ghost use Rattle.pb_syntax.specs.declared.refusal.Refusal.TheVariants.{Memory};
ghost use Rattle.pb_program.specs.Trees.{bare_prog, bare_transform};
ghost use Rattle.pb_program.specs.WellFormed.{IsWellFormed};
ghost use Rattle.pb_check.specs.Accepting.{HasName, IsAccepted, IsNowhere, IsTextAccepted, IsTextRefused};
ghost use Rattle.pb_check.specs.Orders.{AreFound};
ghost use Rattle.pb_check.specs.Phases.{IsSound};
ghost use Rattle.pb_check.specs.Ranked.{HasCell, IsCovered, IsRanked, OfTransform, cell};
ghost use Rattle.pb_check.specs.Sites.{all_sites};

use crate::orders::Analysis;
use crate::phases::judge;
use crate::segments::{rank_in, segment_of};
use crate::sites::all_sites;
use pb_front::read_text;
use pb_graph::{Layering, Node};
use pb_linear::Sizes;
use pb_program::{Prog, Site, Transform};
use pb_resolve::resolve;
use pb_syntax::Refusal;
use std::alloc::{AllocError, Global};
use std::marker::Model;

/// Whether a transform has this name.
fn is_named(transform: &Transform, name: &[u8]) -> bool
    ensures { IsTrue result ↔ (transform.now.name.bytes ≡ name.now) }
{
    transform.name.bytes() == name
}

/// The number of the transform with this name.
#[tactic(auto, using(crate::proofs::FindLemmas::named_here, crate::proofs::FindLemmas::named_nowhere))]
fn find_named(transforms: &[Transform], name: &[u8]) -> Option<u32>
    requires { length transforms.now ≤ MOST_TRANSFORMS }
    ensures found { IfSome result (λ t. HasName (map bare_transform transforms.now) name.now t) }
    ensures none { IfNone result (IsNowhere (map bare_transform transforms.now) name.now) }
{
    for (t, transform) in transforms.iter().enumerate() {
        if is_named(transform, name) {
            return Some(t as u32);
        }
    }
    None
}

/// A program that every phase accepts, with what they found of each transform.
#[derive(Drop)]
pub struct Accepted {
    program: Prog,
    found: Vec<Analysis>,
}

impl Model for Accepted {
    ghost use Rattle.std.specs.Coded.{codes};
    ghost use Rattle.pb_program.specs.contracts.statement.Stmt as statement;
    ghost use Rattle.pb_check.specs.Accepting.{AcceptedValue, IsAccepted};

    ghost Value = { AcceptedValue };

    ghost coded = { Prim.hlevel (codes, statement.the_row.coded) };

    ghost view = { λ a. record { program = a.program; found = a.found.items } };

    ghost invariant = { λ a. IsAccepted (record { program = a.program; found = a.found.items }) };
}

impl Accepted {
    /// A program that `judge` accepts, with what it finds of each transform.
    pub fn new(program: Prog, found: Vec<Analysis>) -> Accepted
        requires well_formed { IsWellFormed (bare_prog program) }
        requires sound { IsSound (bare_prog program) }
        requires found { AreFound (bare_prog program) found.items }
        ensures program { result.program ≡ program }
        ensures found { result.found ≡ found.items }
    {
        Accepted { program, found }
    }

    /// The program.
    pub fn prog(&self) -> &Prog
        ensures program { result.now ≡ self.now.program }
        ensures accepted { IsAccepted self.now }
    {
        &self.program
    }

    /// What is found of each transform.
    pub fn analyses(&self) -> &[Analysis]
        ensures { result.now ≡ self.now.found }
    {
        &self.found
    }

    /// What is found of transform `t`.
    fn found(&self, t: u32) -> &Analysis
        requires { t < length (bare_prog self.now.program) }
        ensures accepted { IsAccepted self.now }
        ensures there { slice_get self.now.found t ≡ Some result.now }
    {
        &self.found[t as usize]
    }

    /// The segments of transform `t`, by matrix, then by y, then by x. There is such a transform.
    pub fn nodes(&self, t: u32) -> &[Node]
        requires { t < length (bare_prog self.now.program) }
        ensures { OfTransform self.now t (λ transform a. result.now ≡ a.nodes) }
    {
        self.found(t).nodes()
    }

    /// The order in which the segments of transform `t` are made. There is such a transform.
    pub fn order(&self, t: u32) -> &Layering
        requires { t < length (bare_prog self.now.program) }
        ensures { OfTransform self.now t (λ transform a. result.now ≡ a.order) }
    {
        self.found(t).order()
    }

    /// The one segment that holds the cell at (x, y) of a matrix of transform `t`: the rules that may make the cell are among
    /// the segment's. The sizes are in range, the matrix is one that rules make, and the cell lies inside it.
    #[tactic(auto, using(crate::proofs::PlacedLemmas::sizes_top, crate::proofs::AcceptedLemmas::has_transform))]
    pub fn covered(&self, t: u32, s: &Sizes, matrix: u32, x: u64, y: u64) -> u32
        requires { HasCell self.now t (sizes_of s.now) (cell matrix x y) }
        ensures { OfTransform self.now t (λ transform a. IsCovered transform a (sizes_of s.now) (cell matrix x y) result) }
    {
        segment_of(self.found(t).nodes(), s, matrix, x, y).unwrap()
    }

    /// The rank of the cell at (x, y) of a matrix of transform `t`: its layer, and its place along the steps of the layer's
    /// list, 0 where there is no such step. Each cell of a matrix that rules make has a smaller rank, compared part by part, if
    /// a rule reads it that may make this cell. The conditions are those of `covered`.
    #[tactic(auto, using(crate::proofs::PlacedLemmas::sizes_top, crate::proofs::AcceptedLemmas::has_transform))]
    pub fn ranked(&self, t: u32, s: &Sizes, matrix: u32, x: u64, y: u64) -> (u32, i64, i64)
        requires { HasCell self.now t (sizes_of s.now) (cell matrix x y) }
        ensures { OfTransform self.now t (λ transform a. IsRanked transform a (sizes_of s.now) (cell matrix x y) (record { layer = result.0; first = result.1; second = result.2 })) }
    {
        let found = self.found(t);
        let segment = segment_of(found.nodes(), s, matrix, x, y).unwrap();
        rank_in(found.order(), segment, x, y)
    }

    /// The sites of the program, transform by transform: of each segment, in their order, the rules of least priority, if there
    /// are two or more and the same set of the same matrix wasn't listed before.
    pub fn sites(&self, alloc: Global) -> Result<Vec<Site>, AllocError>
        ensures { IfOk result (λ sites. sites.items ≡ all_sites (bare_prog self.now.program) self.now.found) }
    {
        all_sites(alloc, &self.program, &self.found)
    }

    /// The number of the transform with this name.
    pub fn find(&self, name: &[u8]) -> Option<u32>
        ensures found { IfSome result (λ t. HasName (bare_prog self.now.program) name.now t) }
        ensures none { IfNone result (IsNowhere (bare_prog self.now.program) name.now) }
    {
        find_named(&self.program.transforms, name)
    }
}

/// The program of a text, if every phase accepts it; else the refusal of the first that finds a fault: of the text's
/// tokens and grammar as `pb_front::read_text` says, of names as `pb_resolve::resolve` says, then as `judge` says.
#[tactic(auto, using(crate::proofs::AcceptLemmas::read_within, crate::proofs::AcceptLemmas::text_refused, crate::proofs::AcceptLemmas::names_refused, crate::proofs::AcceptLemmas::phase_refused, crate::proofs::AcceptLemmas::text_accepted))]
pub fn accept(alloc: Global, text: &[u8]) -> Result<Accepted, Refusal>
    ensures found { IfOk result (λ a. IsTextAccepted text.now (bare_prog a.program)) }
    ensures refused { IfErr result (λ e. (e ≡ Memory) ⊎ IsTextRefused text.now e) }
{
    let tree = read_text(alloc, text)?;
    let program = resolve(alloc, &tree)?;
    let found = judge(alloc, &program)?;
    Ok(Accepted { program, found })
}
