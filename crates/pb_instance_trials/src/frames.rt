//! What instances make: their parts, blocks, wide rules and jobs.
use crate::programs::{accepted, are_in_range, one, program, two};
use pb_check::Accepted;
use pb_config::{ConfigRefusal, read_config};
use pb_frame::{FrameTasks, Job, frame};
use pb_linear::Sizes;
use pb_values::Rect;
use std::alloc::{AllocError, Global};
use std::test::Fail;

// The cells in the middle are made by the first rule, those at the ends by the second.
const BLUR: &str =
    "transform Blur3 where n >= 2 from A[n] to B[n] { to (B.cell(i) b) from (A.region(i-1, i+2) a) { b = sum(a) / 3; } \
secondary to (B.cell(i) b) from (A.cell(i) a) { b = a; } }";

// Both matrices at once, where there are fewer than 4 cells.
const PAIR: &str =
    "transform Pair from A[n] to B[n], C[n] { to (B b, C c) from (A a) where n < 4 { } \
secondary to (B.cell(i) b) from (A.cell(i) a) { b = a; } secondary to (C.cell(i) c) from (A.cell(i) a) { c = a; } }";

// A rule that isn't for single cells above another.
const SPREAD: &str =
    "transform Spread from A[n] to B[n] { to (B.region(0, 1) b) from (A.cell(0) a) { } \
to (B.region(1, n) b) from (B.cell(0) c) { } }";

// A choice of two rules.
const SUMS: &str =
    "transform S from A[w,h] to B[w,h] { to (B.cell(x,y) b) from (A.cell(x,y) a) { b = a; } \
to (B.cell(x,y) b) from (A.region(0,0,x+1,y+1) r) { b = sum(r); } }";

fn add_rect(alloc: Global, text: &mut String, r: &Rect) -> Result<(), AllocError> {
    let (x0, x1, y0, y1) = (r.x0, r.x1, r.y0, r.y1);
    text.push_str(format!(in alloc; " {x0}..{x1} {y0}..{y1}")?.as_str())
}

fn add_job(alloc: Global, text: &mut String, job: &Job) -> Result<(), AllocError> {
    let layer = job.layer;
    text.push_str(format!(in alloc; ", job {layer}")?.as_str())?;
    if let Some(rule) = job.rule {
        text.push_str(format!(in alloc; " by {rule}")?.as_str())?;
    }
    for part in &job.parts {
        let node = part.node;
        text.push_str(format!(in alloc; " of {node}")?.as_str())?;
    }
    Ok(())
}

// Parts by their segment, their places and their rule; blocks and wide rules by their layer; jobs.
fn told(alloc: Global, found: &FrameTasks) -> Result<String, AllocError> {
    let mut text = String::new(alloc);
    for part in &found.parts {
        let (node, rule) = (part.node, part.rule);
        text.push_str(format!(in alloc; ", part {node}")?.as_str())?;
        add_rect(alloc, &mut text, &part.rect)?;
        text.push_str(format!(in alloc; " by {rule}")?.as_str())?;
    }
    for (layer, rect) in &found.blocks {
        text.push_str(format!(in alloc; ", block {layer}")?.as_str())?;
        add_rect(alloc, &mut text, rect)?;
    }
    for (layer, rule) in &found.wides {
        text.push_str(format!(in alloc; ", wide {layer} by {rule}")?.as_str())?;
    }
    for job in &found.jobs {
        add_job(alloc, &mut text, job)?;
    }
    Ok(text)
}

// What the first transform makes at sizes, which are in range, by a valid configuration.
fn made(alloc: Global, a: &Accepted, config: &str, s: &Sizes) -> Result<String, AllocError> {
    let none = String::new(alloc);
    if !are_in_range(a, 0, s) {
        return Ok(none);
    }
    match read_config(alloc, config.as_bytes(), program(a)) {
        Ok(chosen) => told(alloc, &frame(alloc, a, &chosen, 0, s, 8)?),
        Err(ConfigRefusal::Memory) => Err(AllocError),
        Err(_) => Ok(none),
    }
}

fn said(alloc: Global, text: &str, config: &str, s: Sizes) -> Result<String, AllocError> {
    match accepted(alloc, text)? {
        Some(a) => made(alloc, &a, config, &s),
        None => Ok(String::new(alloc)),
    }
}

#[test]
fn a_segment_with_a_cell_is_a_part_with_its_chosen_rule(rt: HostRuntime) -> Result<(), Fail> {
    let alloc = rt.alloc();
    assert_eq!(rt;
        said(alloc, BLUR, "", one(5))?.as_str(),
        ", part 0 0..1 0..1 by 1, part 1 1..4 0..1 by 0, part 2 4..5 0..1 by 1, block 0 0..1 0..1, block 1 0..4 0..1, block 2 0..5 0..1, job 0 of 0, job 1 of 1, job 2 of 2"
    );
    assert_eq!(rt;
        said(alloc, BLUR, "", one(2))?.as_str(),
        ", part 0 0..1 0..1 by 1, part 2 1..2 0..1 by 1, block 0 0..1 0..1, block 2 0..2 0..1, job 0 of 0, job 2 of 2"
    );
    assert_eq!(rt; said(alloc, BLUR, "", one(1))?.as_str(), "");
    Ok(())
}

#[test]
fn rules_that_make_more_than_a_cell_come_by_layers(rt: HostRuntime) -> Result<(), Fail> {
    let alloc = rt.alloc();
    assert_eq!(rt;
        said(alloc, PAIR, "", one(3))?.as_str(),
        ", part 0 0..3 0..1 by 0, part 1 0..3 0..1 by 0, wide 0 by 0, job 0 by 0 of 0 of 1"
    );
    assert_eq!(rt;
        said(alloc, PAIR, "", one(4))?.as_str(),
        ", part 0 0..4 0..1 by 1, part 1 0..4 0..1 by 2, block 0 0..4 0..1, job 0 of 0 of 1"
    );
    assert_eq!(rt;
        said(alloc, SPREAD, "", one(3))?.as_str(),
        ", part 0 0..1 0..1 by 0, part 1 1..3 0..1 by 1, wide 0 by 0, wide 1 by 1, job 0 by 0 of 0, job 1 by 1 of 1"
    );
    assert_eq!(rt;
        said(alloc, SPREAD, "", one(1))?.as_str(),
        ", part 0 0..1 0..1 by 0, wide 0 by 0, job 0 by 0 of 0"
    );
    Ok(())
}

#[test]
fn a_configuration_picks_by_the_greatest_size(rt: HostRuntime) -> Result<(), Fail> {
    let alloc = rt.alloc();
    let config = "choose S.B {0,1} = 0 until 5 then 1";
    assert_eq!(rt;
        said(alloc, SUMS, config, two(4, 3))?.as_str(),
        ", part 0 0..4 0..3 by 0, block 0 0..4 0..3, job 0 of 0"
    );
    assert_eq!(rt;
        said(alloc, SUMS, config, two(2, 5))?.as_str(),
        ", part 0 0..2 0..5 by 1, block 0 0..2 0..5, job 0 of 0"
    );
    assert_eq!(rt;
        said(alloc, SUMS, "", two(2, 5))?.as_str(),
        ", part 0 0..2 0..5 by 0, block 0 0..2 0..5, job 0 of 0"
    );
    Ok(())
}
