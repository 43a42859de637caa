//! Matrices one after the other among the cells of a run.
ghost use Rattle.std.specs.Prelude.{◌+◌, ◌≤◌, IsTrue};
ghost use Rattle.std.specs.List.{All};
ghost use Rattle.pb_linear.specs.Sizes.{sizes_of};
ghost use Rattle.pb_linear.specs.declared.sizes.TheConstants.{SIZE_TOP};
ghost use Rattle.pb_views.specs.Layouts.{HasShortSides, area_at, cell_count};

use crate::programs::{accepted, are_small, two};
use pb_linear::Sizes;
use pb_program::Decl;
use pb_views::{lay_out, shape_of};
use std::alloc::{AllocError, Global};
use std::test::Fail;

// Whether the sides of a matrix are at most 1000.
fn is_small(decl: &Decl, s: &Sizes) -> bool
    requires { All (λ size. size ≤ SIZE_TOP) s.now.of }
    ensures short { IsTrue result → HasShortSides (sizes_of s.now) decl.now }
    ensures few { IsTrue result → area_at (sizes_of s.now) decl.now ≤ 1000000 }
{
    let shape = shape_of(decl, s);
    if shape.w > 1000 {
        return false;
    }
    if shape.h > 1000 {
        return false;
    }
    shape.cells() <= 1_000_000
}

// Whether these are two small matrices, so that they have room in a run.
#[tactic(auto, using(crate::proofs::LayoutLemmas::short_pair, crate::proofs::LayoutLemmas::few_pair))]
pub(crate) fn can_be_laid(decls: &[Decl], s: &Sizes) -> bool
    requires { All (λ size. size ≤ SIZE_TOP) s.now.of }
    ensures short { IsTrue result → All (HasShortSides (sizes_of s.now)) decls.now }
    ensures few { IsTrue result → cell_count (sizes_of s.now) decls.now ≤ 2000000 }
{
    let [first, second] = decls else {
        return false;
    };
    if !is_small(first, s) {
        return false;
    }
    is_small(second, s)
}

// Of each matrix its sides, its first cell, and its cell at (1, 0) and, where it has two rows, (0, 1).
fn said(alloc: Global, decls: &[Decl], s: &Sizes, first: u32) -> Result<String, AllocError> {
    let mut text = String::new(alloc);
    if !are_small(s) {
        return Ok(text);
    }
    if !can_be_laid(decls, s) {
        return Ok(text);
    }
    for view in &lay_out(alloc, decls, s, u64::from(first))? {
        let (dims, w, h) = (view.shape.dims, view.shape.w, view.shape.h);
        text.push_str(format!(in alloc; "{dims}: {w} {h} from")?.as_str())?;
        for (x, y) in [(0, 0), (1, 0), (0, 1)] {
            if x < w && y < h {
                let cell = view.place(x, y);
                text.push_str(format!(in alloc; " {cell}")?.as_str())?;
            }
        }
        text.push_str("; ")?;
    }
    Ok(text)
}

#[test]
fn matrices_stand_one_after_the_other(rt: HostRuntime) -> Result<(), Fail> {
    let alloc = rt.alloc();
    let Some(a) = accepted(
        alloc,
        "transform T from A[w, h] to B[w + h/2] { to (B b) from () { } }",
    )?
    else {
        assert!(rt; false, "the program is refused");
        return Ok(());
    };
    let Some(transform) = a.prog().transforms.first() else {
        return Ok(());
    };
    let matrices = &transform.matrices;
    assert_eq!(rt;
        said(alloc, matrices, &two(3, 5), 7)?.as_str(),
        "2: 3 5 from 7 8 10; 1: 5 1 from 22 23; "
    );
    assert_eq!(rt;
        said(alloc, matrices, &two(1, 1), 0)?.as_str(),
        "2: 1 1 from 0; 1: 1 1 from 1; "
    );
    Ok(())
}
