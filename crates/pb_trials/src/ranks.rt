//! Segments and ranks of cells, by brute force over small sizes; the layers and the sites of small programs.
ghost use Rattle.std.specs.Prelude.{◌≤◌, IsTrue, pos, ◌<ℤ◌};
ghost use Rattle.std.specs.List.{All};
ghost use Rattle.pb_linear.specs.Form.{value};
ghost use Rattle.pb_linear.specs.Sizes.{sizes_of};
ghost use Rattle.pb_linear.specs.declared.sizes.TheConstants.{SIZE_TOP};
ghost use Rattle.pb_program.specs.Trees.{bare_transform};
ghost use Rattle.pb_check.specs.Ranked.{HasCell, IsMadeCell, cell};

use pb_check::{Accepted, accept};
use pb_graph::{Layer, Node, Sign, Step};
use pb_linear::{Form, Ranges, ReadBox, Sizes, VForm};
use pb_program::{Decl, Transform};
use pb_region::read_boxes;
use std::alloc::{AllocError, Global};
use std::test::Fail;

const ROLL: &str =
    "transform RollingSum from A[n] to B[n] { to (B.cell(i) b) from (A.region(0, i + 1) a) { b = sum(a); } \
to (B.cell(i) b) from (A.cell(i) a, B.cell(i - 1) l) { b = a + l; } }";

const DOUBLE: &str =
    "transform Double from A[n] to B[n] { to (B.cell(i) b) from (A.cell(i) a) { b = a + a; } }";

const MUL: &str =
    "transform MatrixAdd from A[w,h], B[w,h] to C[w,h] { to (C.cell(x,y) c) from (A.cell(x,y) a, B.cell(x,y) b) { c = a + b; } } \
transform MatrixMultiply from A[c,h], B[w,c] to AB[w,h] { \
to (AB.cell(x,y) o) from (A.row(y) a, B.column(x) b) { o = dot(a, b); } \
to (AB ab) from (A.region(0,0,c/2,h) a1, A.region(c/2,0,c,h) a2, B.region(0,0,w,c/2) b1, B.region(0,c/2,w,c) b2) where c >= 2 { \
let t1[w,h]; let t2[w,h]; t1 = MatrixMultiply(a1, b1); t2 = MatrixMultiply(a2, b2); ab = MatrixAdd(t1, t2); } \
to (AB.region(0,0,w/2,h) p, AB.region(w/2,0,w,h) q) from (A a, B.region(0,0,w/2,c) b1, B.region(w/2,0,w,c) b2) where w >= 2 { \
p = MatrixMultiply(a, b1); q = MatrixMultiply(a, b2); } \
to (AB.region(0,0,w,h/2) p, AB.region(0,h/2,w,h) q) from (A.region(0,0,c,h/2) a1, A.region(0,h/2,c,h) a2, B b) where h >= 2 { \
p = MatrixMultiply(a1, b); q = MatrixMultiply(a2, b); } }";

const BLUR2: &str =
    "transform Blur3 where n >= 2 from A[n] to B[n] { to (B.cell(i) b) from (A.region(i-1, i+2) a) { b = sum(a) / 3; } \
secondary to (B.cell(i) b) from (A.cell(i) a) { b = a; } }";

const DIV: &str =
    "transform Div from A[n], D[n] to Q[n] { to (Q.cell(i) q) from (A.cell(i) a, D.cell(i) d) { q = a / d; } }";

const BIG: &str =
    "transform Big from A[n] through T[2*n] to B[n] { to (T.cell(i) t) from () { t = 1; } \
to (B.cell(i) b) from (A.cell(i) a, T.cell(i) t) { b = a + t; } } \
transform Bigger from A[n] through T[2*n+1] to B[n] { to (T.cell(i) t) from () { t = 1; } \
to (B.cell(i) b) from (A.cell(i) a, T.cell(i) t) { b = a + t; } }";

const GUARD2: &str =
    "transform Guard from A[n] to B[n] { to (B.cell(i) b) from (A.cell(i) a) where n >= 2 { b = a; } \
secondary to (B.cell(i) b) from () { b = 0; } }";

const PREFIX: &str = "transform Prefix2 from A[w,h] to S[w,h] { \
to (S.cell(x,y) s) from (A.cell(x,y) a, S.cell(x-1,y) l, S.cell(x,y-1) u, S.cell(x-1,y-1) d) { s = a + l + u - d; } \
secondary to (S.cell(x,y) s) from (A.region(0,0,x+1,y+1) r) { s = sum(r); } }";

const REV: &str =
    "transform Rev from A[n] to B[n] { to (B b) from (A a) { for (k = 0 .. n) { b.cell(k) = a.cell(n - 1 - k); } } }";

const BAD: &str =
    "transform Copy from A[m] to C[m] { to (C.cell(i) c) from (A.cell(i) a) { c = a; } } \
transform Bad from A[n] to B[n] { to (B b) from (A.region(0, n/2) a) { b = Copy(a); } }";

// Two sums side by side, each with a choice.
const TWO: &str =
    "transform Two from A[n] to B[n], C[n] { to (B.cell(i) b) from (A.region(0, i + 1) a) { b = sum(a); } \
to (B.cell(i) b) from (A.cell(i) a, B.cell(i - 1) l) { b = a + l; } \
to (C.cell(i) c) from (A.region(0, i + 1) a) { c = sum(a); } \
to (C.cell(i) c) from (A.cell(i) a, C.cell(i - 1) l) { c = a + l; } }";

// Two matrices in one layer.
const PAIR: &str =
    "transform Pair from A[n] to U[n], V[n] { to (U.cell(i) u) from (V.cell(i - 1) v) { u = v; } \
to (V.cell(i) v) from (U.cell(i - 1) u) { v = u; } \
secondary to (U.cell(i) u) from (A.cell(i) a) { u = a; } secondary to (V.cell(i) v) from (A.cell(i) a) { v = a; } }";

// The left half from the left, the right half from the right.
const HALVES: &str =
    "transform TwoWay where n >= 2 from A[n] to B[n] { to (B.cell(i) b) from (B.cell(i-1) p) where i < n/2 { b = p; } \
to (B.cell(i) b) from (B.cell(i+1) q) where i >= n/2 { b = q; } \
secondary to (B.cell(i) b) from (A.cell(i) a) { b = a; } }";

// Matrices of one and of two dimensions, from the last row to the first.
const ROWS: &str =
    "transform Rows from A[w,h] through M[h] to B[w,h] { to (M.cell(y) m) from (A.row(y) r) { m = sum(r); } \
to (B.cell(x,y) b) from (M.cell(y) m, B.cell(x, y+1) d) { b = m + d; } \
secondary to (B.cell(x,y) b) from (M.region(0, h) m) { b = sum(m); } }";

// A rule that isn't for single cells above another.
const SPREAD: &str =
    "transform Spread from A[n] to B[n] { to (B.region(0, 1) b) from (A.cell(0) a) { } \
to (B.region(1, n) b) from (B.cell(0) c) { } }";

// One step in each direction of either axis, and a list that begins with y.
const TURNED: &str = "transform Turned from A[w,h] to S[w,h] { \
to (S.cell(x,y) s) from (S.cell(x+1,y) l, S.region(0,y-1,w,y) u) { s = l; } \
secondary to (S.cell(x,y) s) from (A.cell(x,y) a) { s = a; } }";

// ---- brute force

/// The number of a matrix, and a place in it.
#[derive(Clone, Copy)]
struct Place {
    matrix: u32,
    x: u64,
    y: u64,
}

/// How many cells were looked at, how many cells that their segments' rules read, and how often something was wrong.
#[derive(Clone, Copy)]
struct Tally {
    cells: u64,
    reads: u64,
    faults: u64,
}

// 0 in the place of a number that is too large.
fn whole(number: u64) -> i64 {
    if number < 4_611_686_018_427_387_904 {
        number as i64
    } else {
        0
    }
}

// The value of a form at sizes.
fn value_at(form: &Form, s: &Sizes) -> i64 {
    let mut sum = form.constant;
    for i in 0..8usize {
        let size = whole(s.of[i]);
        sum = sum
            .wrapping_add(form.whole[i].wrapping_mul(size))
            .wrapping_add(form.half[i].wrapping_mul(size / 2))
            .wrapping_add(form.third[i].wrapping_mul(size / 3))
            .wrapping_add(form.quarter[i].wrapping_mul(size / 4));
    }
    sum
}

// The value at sizes for the cell at a place.
fn value_for(form: &VForm, s: &Sizes, place: Place) -> i64 {
    value_at(&form.rest, s)
        .wrapping_add(form.x.wrapping_mul(whole(place.x)))
        .wrapping_add(form.y.wrapping_mul(whole(place.y)))
}

// 0 in the place of a negative number.
fn natural(number: i64) -> u64 {
    if number < 0 { 0 } else { number as u64 }
}

fn is_between(low: &Form, high: &Form, s: &Sizes, coordinate: u64) -> bool {
    let coordinate = whole(coordinate);
    value_at(low, s) <= coordinate && coordinate < value_at(high, s)
}

fn holds(node: &Node, s: &Sizes, place: Place) -> bool {
    node.matrix == place.matrix
        && is_between(&node.area.x0, &node.area.x1, s, place.x)
        && is_between(&node.area.y0, &node.area.y1, s, place.y)
}

// The number of the segment that holds a cell, if just one does.
fn segment_of(nodes: &[Node], s: &Sizes, place: Place) -> Option<usize> {
    let mut found = None;
    for (u, node) in nodes.iter().enumerate() {
        if !holds(node, s, place) {
            continue;
        }
        if found.is_some() {
            return None;
        }
        found = Some(u);
    }
    found
}

fn is_before(coordinate: u64, side: &Form, s: &Sizes) -> bool
    requires { All (λ size. size ≤ SIZE_TOP) s.now.of }
    ensures { IsTrue result → pos coordinate <ℤ value side.now (sizes_of s.now) }
{
    i128::from(coordinate) < i128::from(side.at(s))
}

#[tactic(auto, using(pb_linear::proofs::SizesLemmas::in_range_top))]
fn is_made_cell(transform: &Transform, s: &Sizes, place: Place) -> bool
    ensures { IsTrue result → IsMadeCell (bare_transform transform.now) (sizes_of s.now) (cell place.matrix place.x place.y) }
{
    if place.matrix < transform.inputs || !transform.ranges.hold(s) {
        return false;
    }
    let Some(decl) = transform.matrices.get(place.matrix as usize) else {
        return false;
    };
    is_before(place.x, &decl.w, s) && is_before(place.y, &decl.h, s)
}

// Whether transform `t` has this cell, of a matrix that its rules make.
fn has_cell(accepted: &Accepted, t: u32, s: &Sizes, place: Place) -> bool
    ensures { IsTrue result → HasCell accepted.now t (sizes_of s.now) (cell place.matrix place.x place.y) }
{
    match accepted.prog().transforms.get(t as usize) {
        Some(transform) => is_made_cell(transform, s, place),
        None => false,
    }
}

// The segment that is answered of a cell, if it is there.
fn covered(accepted: &Accepted, t: u32, s: &Sizes, place: Place) -> Option<usize> {
    if !has_cell(accepted, t, s, place) {
        return None;
    }
    Some(accepted.covered(t, s, place.matrix, place.x, place.y) as usize)
}

// The rank that is answered of a cell, if it is there.
fn ranked(accepted: &Accepted, t: u32, s: &Sizes, place: Place) -> Option<(u32, i64, i64)> {
    if !has_cell(accepted, t, s, place) {
        return None;
    }
    Some(accepted.ranked(t, s, place.matrix, place.x, place.y))
}

fn is_below(a: (u32, i64, i64), b: (u32, i64, i64)) -> bool {
    let (a_layer, a_first, a_second) = a;
    let (b_layer, b_first, b_second) = b;
    a_layer < b_layer
        || (a_layer == b_layer
            && (a_first < b_first || (a_first == b_first && a_second < b_second)))
}

// Looks at a cell that another with this rank may read; there may be no such cell.
fn add_shown(
    tally: &mut Tally,
    accepted: &Accepted,
    t: u32,
    s: &Sizes,
    rank: (u32, i64, i64),
    shown: Place,
) {
    if let Some(own) = ranked(accepted, t, s, shown) {
        tally.reads = tally.reads.saturating_add(1);
        if !is_below(own, rank) {
            tally.faults = tally.faults.saturating_add(1);
        }
    }
}

// Looks at the cells that a read shows to the cell at a place.
fn add_read(
    tally: &mut Tally,
    accepted: &Accepted,
    t: u32,
    s: &Sizes,
    place: Place,
    read: &ReadBox,
) {
    let Some(rank) = ranked(accepted, t, s, place) else {
        return;
    };
    let (x0, x1) = (
        natural(value_for(&read.x0, s, place)),
        natural(value_for(&read.x1, s, place)),
    );
    let (y0, y1) = (
        natural(value_for(&read.y0, s, place)),
        natural(value_for(&read.y1, s, place)),
    );
    for y in y0..y1 {
        for x in x0..x1 {
            let matrix = read.matrix;
            add_shown(tally, accepted, t, s, rank, Place { matrix, x, y });
        }
    }
}

// Looks at what the rules of a cell's segment read for it.
fn add_reads(
    tally: &mut Tally,
    accepted: &Accepted,
    t: u32,
    s: &Sizes,
    place: Place,
    node: &Node,
    reads: &[ReadBox],
) {
    for read in reads {
        if node.rules.contains(&read.rule) {
            add_read(tally, accepted, t, s, place, read);
        }
    }
}

// Looks at a cell: just one segment holds it, which is answered.
fn add_cell(
    tally: &mut Tally,
    accepted: &Accepted,
    t: u32,
    s: &Sizes,
    place: Place,
    nodes: &[Node],
    reads: &[ReadBox],
) {
    tally.cells = tally.cells.saturating_add(1);
    let segment = segment_of(nodes, s, place);
    if segment.is_none() || covered(accepted, t, s, place) != segment {
        tally.faults = tally.faults.saturating_add(1);
    }
    if let Some(u) = segment
        && let Some(node) = nodes.get(u)
    {
        add_reads(tally, accepted, t, s, place, node, reads);
    }
}

// Looks at the cells of a matrix.
fn add_matrix(
    tally: &mut Tally,
    accepted: &Accepted,
    t: u32,
    s: &Sizes,
    matrix: u32,
    decl: &Decl,
    nodes: &[Node],
    reads: &[ReadBox],
) {
    for y in 0..natural(value_at(&decl.h, s)) {
        for x in 0..natural(value_at(&decl.w, s)) {
            add_cell(tally, accepted, t, s, Place { matrix, x, y }, nodes, reads);
        }
    }
}

// Looks at the matrices that rules make.
fn add_matrices(
    tally: &mut Tally,
    accepted: &Accepted,
    t: u32,
    s: &Sizes,
    transform: &Transform,
    nodes: &[Node],
    reads: &[ReadBox],
) {
    for matrix in transform.inputs..16 {
        if let Some(decl) = transform.matrices.get(matrix as usize) {
            add_matrix(tally, accepted, t, s, matrix, decl, nodes, reads);
        }
    }
}

// The sizes of a number below 64: each is the least or up to three more. None past the last, and of more than three sizes.
fn sizes(ranges: &Ranges, number: u64) -> Option<Sizes> {
    let first = ranges.least[0].saturating_add(number % 4);
    let second = ranges.least[1].saturating_add(number / 4 % 4);
    let third = ranges.least[2].saturating_add(number / 16 % 4);
    match (ranges.count, number) {
        (1, 0..=3) => Some(Sizes {
            count: 1,
            of: [first, 0, 0, 0, 0, 0, 0, 0],
        }),
        (2, 0..=15) => Some(Sizes {
            count: 2,
            of: [first, second, 0, 0, 0, 0, 0, 0],
        }),
        (3, 0..=63) => Some(Sizes {
            count: 3,
            of: [first, second, third, 0, 0, 0, 0, 0],
        }),
        _ => None,
    }
}

// What the rules of a transform read of matrices that rules make.
fn all_reads(alloc: Global, accepted: &Accepted, t: u32) -> Result<Vec<ReadBox>, AllocError> {
    let mut reads = Vec::new(alloc);
    for rule in 0..32 {
        reads.extend_from_slice(&read_boxes(alloc, accepted.prog(), t, rule)?)?;
    }
    Ok(reads)
}

// Looks at all cells of a transform, at all sizes of a number below 64.
fn add_transform(
    alloc: Global,
    tally: &mut Tally,
    accepted: &Accepted,
    t: u32,
    transform: &Transform,
    nodes: &[Node],
) -> Result<(), AllocError> {
    let reads = all_reads(alloc, accepted, t)?;
    for number in 0..64 {
        if let Some(s) = sizes(&transform.ranges, number) {
            add_matrices(tally, accepted, t, &s, transform, nodes, &reads);
        }
    }
    Ok(())
}

// Looks at the transform of a number; there may be none.
fn add_numbered(
    alloc: Global,
    tally: &mut Tally,
    accepted: &Accepted,
    t: u32,
) -> Result<(), AllocError> {
    let transforms = &accepted.prog().transforms;
    if t as usize >= transforms.len() {
        return Ok(());
    }
    add_transform(
        alloc,
        tally,
        accepted,
        t,
        &transforms[t as usize],
        accepted.nodes(t),
    )
}

// The cells of the first two transforms at small sizes, the cells that are read for them, and what is wrong.
fn counted(alloc: Global, text: &str) -> Result<String, AllocError> {
    let Ok(accepted) = accept(alloc, text.as_bytes()) else {
        return format!(in alloc; "refused");
    };
    let mut tally = Tally {
        cells: 0,
        reads: 0,
        faults: 0,
    };
    add_numbered(alloc, &mut tally, &accepted, 0)?;
    add_numbered(alloc, &mut tally, &accepted, 1)?;
    let (cells, reads, faults) = (tally.cells, tally.reads, tally.faults);
    format!(in alloc; "{cells} cells, {reads} reads, {faults} faults")
}

// Programs, with the numbers of their cells at sizes from the least to three more, and of the cells of made matrices that the
// rules of these cells' segments read for them.
const COUNTED: [(&str, &str); 16] = [
    (ROLL, "10 cells, 6 reads, 0 faults"),
    (DOUBLE, "10 cells, 0 reads, 0 faults"),
    (MUL, "500 cells, 0 reads, 0 faults"),
    (BLUR2, "14 cells, 0 reads, 0 faults"),
    (DIV, "10 cells, 0 reads, 0 faults"),
    (BIG, "64 cells, 20 reads, 0 faults"),
    (GUARD2, "10 cells, 0 reads, 0 faults"),
    (PREFIX, "100 cells, 108 reads, 0 faults"),
    (REV, "10 cells, 0 reads, 0 faults"),
    (BAD, "20 cells, 0 reads, 0 faults"),
    (TWO, "20 cells, 12 reads, 0 faults"),
    (PAIR, "20 cells, 12 reads, 0 faults"),
    (HALVES, "14 cells, 6 reads, 0 faults"),
    (ROWS, "140 cells, 220 reads, 0 faults"),
    (SPREAD, "10 cells, 6 reads, 0 faults"),
    (TURNED, "100 cells, 156 reads, 0 faults"),
];

#[test]
fn each_cell_is_in_one_segment_and_above_what_its_rules_read(rt: HostRuntime) -> Result<(), Fail> {
    for (program, expected) in &COUNTED {
        assert_eq!(rt;
            counted(rt.alloc(), program)?.as_str(),
            *expected,
            "{program}"
        );
    }
    Ok(())
}

// ---- layers and sites

fn sign_text(sign: Sign) -> &'static str {
    match sign {
        Sign::Plus => "+",
        Sign::Minus => "-",
    }
}

fn add_step(text: &mut String, step: Step) -> Result<(), AllocError> {
    text.push_str(if step.axis == 0 { "x" } else { "y" })?;
    text.push_str(sign_text(step.sign))
}

fn add_cut(text: &mut String, cut: Option<Sign>) -> Result<(), AllocError> {
    match cut {
        Some(sign) => text.push_str(sign_text(sign)),
        None => text.push_str("."),
    }
}

// A layer: its list, a star where its segments read each other, and the signs by which it can be cut.
fn add_layer(text: &mut String, layer: &Layer) -> Result<(), AllocError> {
    text.push_str(" ")?;
    for step in &layer.steps {
        add_step(text, *step)?;
    }
    text.push_str(if layer.inner { "*/" } else { "/" })?;
    add_cut(text, layer.cut_x)?;
    add_cut(text, layer.cut_y)
}

// The layer of each segment of the first transform, and the layers.
fn layered(alloc: Global, text: &str) -> Result<String, AllocError> {
    let Ok(accepted) = accept(alloc, text.as_bytes()) else {
        return format!(in alloc; "refused");
    };
    let mut found = String::new(alloc);
    if accepted.prog().transforms.is_empty() {
        return Ok(found);
    }
    let order = accepted.order(0);
    for layer in &order.layer {
        found.push_str(format!(in alloc; "{layer} ")?.as_str())?;
    }
    found.push_str("with")?;
    for layer in &order.layers {
        add_layer(&mut found, layer)?;
    }
    Ok(found)
}

// Programs, with what is said of the layers of their first transforms.
const LAYERED: [(&str, &str); 12] = [
    (ROLL, "0 1 with x+/++ x+*/++"),
    (MUL, "0 with x+/++"),
    (BLUR2, "0 1 2 with x+/++ x+/++ x+/++"),
    (BIG, "0 1 with x+/++ x+/++"),
    (GUARD2, "0 with x+/++"),
    (PREFIX, "0 1 2 3 with x+/++ x+/++ x+/++ x+y+*/++"),
    (TWO, "0 2 1 3 with x+/++ x+/++ x+*/++ x+*/++"),
    (PAIR, "0 2 1 2 with x+/++ x+/++ x+*/++"),
    (HALVES, "0 2 3 1 with x+/++ x+/++ x+*/++ x-*/-+"),
    (ROWS, "0 2 1 with x+/++ x+/++ y-*/+-"),
    (SPREAD, "0 1 with x+/++ x+/++"),
    (TURNED, "0 1 3 2 with x+/++ x+/++ x+/++ y+x-*/.+"),
];

#[test]
fn segments_have_the_layers_of_the_used_order(rt: HostRuntime) -> Result<(), Fail> {
    for (program, expected) in &LAYERED {
        assert_eq!(rt;
            layered(rt.alloc(), program)?.as_str(),
            *expected,
            "{program}"
        );
    }
    Ok(())
}

// The sites of a program: the numbers of the transform and of the matrix with a dot between them, and the rules.
fn sites_text(alloc: Global, text: &str) -> Result<String, AllocError> {
    let Ok(accepted) = accept(alloc, text.as_bytes()) else {
        return format!(in alloc; "refused");
    };
    let mut found = String::new(alloc);
    for site in &accepted.sites(alloc)? {
        let (transform, matrix) = (site.transform, site.matrix);
        found.push_str(format!(in alloc; "{transform}.{matrix}:")?.as_str())?;
        for rule in &site.set {
            found.push_str(format!(in alloc; " {rule}")?.as_str())?;
        }
        found.push_str("; ")?;
    }
    Ok(found)
}

const SITES: [(&str, &str); 6] = [
    (ROLL, "0.1: 0 1; "),
    (MUL, "1.2: 0 1 2 3; "),
    (TWO, "0.1: 0 1; 0.2: 2 3; "),
    (BLUR2, ""),
    // The rule with the guard has the least priority, alone.
    (GUARD2, ""),
    // The first and the last segment have the same rules, which are listed once.
    (
        "transform S from A[n] to B[n] { to (B b) from () { } } transform T where n >= 2 from A[n] to B[n] { to (B b) from () { } to (B.cell(i) b) from () { b = 1; } to (B.region(1, n-1) b) from () { } secondary to (B.cell(i) b) from () { b = 2; } }",
        "1.1: 0 1; 1.1: 0 1 2; ",
    ),
];

#[test]
fn sites_are_the_choices_of_segments(rt: HostRuntime) -> Result<(), Fail> {
    for (program, expected) in &SITES {
        assert_eq!(rt;
            sites_text(rt.alloc(), program)?.as_str(),
            *expected,
            "{program}"
        );
    }
    Ok(())
}
