//! What the jobs of instances make and read.
ghost use Rattle.std.specs.Prelude.{◌≤◌, IsTrue};
ghost use Rattle.std.specs.List.{All};
ghost use Rattle.pb_linear.specs.Sizes.{sizes_of};
ghost use Rattle.pb_linear.specs.declared.sizes.TheConstants.{SIZE_TOP};
ghost use Rattle.pb_check.specs.Ranked.{OfTransform};
ghost use Rattle.pb_plan.specs.Laid.{HasRoom};

use crate::layouts::can_be_laid;
use crate::programs::{accepted, are_in_range, are_small, one, program, two};
use pb_check::Accepted;
use pb_config::{ConfigRefusal, read_config};
use pb_linear::Sizes;
use pb_links::Spot;
use pb_plan::{Laid, instance};
use std::alloc::{AllocError, Global};
use std::test::Fail;

// The cells in the middle are made by the first rule, those at the ends by the second.
pub(crate) const BLUR: &str =
    "transform Blur3 where n >= 2 from A[n] to B[n] { to (B.cell(i) b) from (A.region(i-1, i+2) a) { b = sum(a) / 3; } \
secondary to (B.cell(i) b) from (A.cell(i) a) { b = a; } }";

// A rule that isn't for single cells above another.
pub(crate) const SPREAD: &str =
    "transform Spread from A[n] to B[n] { to (B.region(0, 1) b) from (A.cell(0) a) { } \
to (B.region(1, n) b) from (B.cell(0) c) { } }";

// Each cell but the first of a row reads the one before it, and its row of the other matrix.
pub(crate) const ROWS: &str =
    "transform R from A[w,h] to B[w,h] { to (B.cell(x,y) b) from (A.row(y) a, B.cell(x-1,y) l) { b = sum(a) + l; } \
secondary to (B.cell(x,y) b) from (A.cell(x,y) a) { b = a; } }";

// Whether a transform has two small matrices.
pub(crate) fn has_room(a: &Accepted, t: u32, s: &Sizes) -> bool
    requires { All (λ size. size ≤ SIZE_TOP) s.now.of }
    ensures { IsTrue result → OfTransform a.now t (λ transform found. HasRoom (sizes_of s.now) transform) }
{
    let Some(transform) = a.prog().transforms.get(t as usize) else {
        return false;
    };
    if a.analyses().get(t as usize).is_none() {
        return false;
    }
    can_be_laid(&transform.matrices, s)
}

fn add_spots(alloc: Global, text: &mut String, spots: &[Spot]) -> Result<(), AllocError> {
    for spot in spots {
        let (base, x0, x1) = (spot.base, spot.rect.x0, spot.rect.x1);
        let (y0, y1) = (spot.rect.y0, spot.rect.y1);
        text.push_str(format!(in alloc; " {base} at {x0}..{x1} {y0}..{y1}")?.as_str())?;
    }
    Ok(())
}

// The first cell of each matrix, and for each job what it makes and reads: matrices by number.
fn told(alloc: Global, found: &Laid) -> Result<String, AllocError> {
    let mut text = String::new(alloc);
    for view in &found.views {
        let first = view.first;
        text.push_str(format!(in alloc; "from {first}; ")?.as_str())?;
    }
    for places in &found.places {
        text.push_str("makes")?;
        add_spots(alloc, &mut text, &places.parts)?;
        text.push_str(" reads")?;
        add_spots(alloc, &mut text, &places.boxes)?;
        text.push_str("; ")?;
    }
    Ok(text)
}

// An instance of the first transform, at sizes in range, by the configuration that says nothing.
fn laid(alloc: Global, a: &Accepted, s: &Sizes) -> Result<String, AllocError> {
    let none = String::new(alloc);
    if !are_small(s) {
        return Ok(none);
    }
    if !are_in_range(a, 0, s) {
        return Ok(none);
    }
    if !has_room(a, 0, s) {
        return Ok(none);
    }
    match read_config(alloc, b"", program(a)) {
        Ok(chosen) => told(alloc, &instance(alloc, a, &chosen, 0, s, 8)?),
        Err(ConfigRefusal::Memory) => Err(AllocError),
        Err(_) => Ok(none),
    }
}

fn said(alloc: Global, text: &str, s: Sizes) -> Result<String, AllocError> {
    match accepted(alloc, text)? {
        Some(a) => laid(alloc, &a, &s),
        None => Ok(String::new(alloc)),
    }
}

#[test]
fn a_block_reads_a_box_around_what_its_cells_read(rt: HostRuntime) -> Result<(), Fail> {
    let alloc = rt.alloc();
    assert_eq!(rt;
        said(alloc, BLUR, one(5))?.as_str(),
        "from 0; from 5; makes 1 at 0..1 0..1 reads 0 at 0..1 0..1; makes 1 at 1..4 0..1 reads 0 at 0..5 0..1; makes 1 at 4..5 0..1 reads 0 at 4..5 0..1; "
    );
    assert_eq!(rt;
        said(alloc, ROWS, two(2, 3))?.as_str(),
        "from 0; from 6; makes 1 at 0..1 0..3 reads 0 at 0..1 0..3; makes 1 at 1..2 0..3 reads 0 at 0..2 0..3 1 at 0..1 0..3; "
    );
    Ok(())
}

#[test]
fn a_rule_that_makes_more_than_a_cell_reads_what_it_shows(rt: HostRuntime) -> Result<(), Fail> {
    let alloc = rt.alloc();
    assert_eq!(rt;
        said(alloc, SPREAD, one(3))?.as_str(),
        "from 0; from 3; makes 1 at 0..1 0..1 reads 0 at 0..1 0..1; makes 1 at 1..3 0..1 reads 1 at 0..1 0..1; "
    );
    Ok(())
}
