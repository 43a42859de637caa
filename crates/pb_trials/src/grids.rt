//! Grids: matrices of one size variable that two rules write, cut into segments.
ghost use Rattle.std.specs.Prelude.{◌^◌, ◌≤◌, IfOk};
ghost use Rattle.pb_linear.specs.Sizes.{IsRanges};
ghost use Rattle.pb_grid.specs.Cuts.{AreSmall, IsSmallBox};

use pb_grid::{GridRefusal, Segment, grid};
use pb_linear::{Form, Ranges, RuleBox};
use std::alloc::{AllocError, Global};
use std::str;
use std::test::Fail;

/// A form `a * n + b`.
type Line = (i64, i64);

/// A rule by its priority, whether it is guarded, and its bounds on x.
type Writer = (u32, bool, Line, Line);

// The least size, the two rules, and what is said of the matrix of width `n`: each segment with its rules.
const ROWS: [(u64, Writer, Writer, &str); 8] = [
    (
        1,
        (0, false, (0, 1), (1, -1)),
        (1, false, (0, 0), (1, 0)),
        "cross 0 at 1 1048576: 0n+1 1n-1",
    ),
    (
        2,
        (0, false, (0, 1), (1, -1)),
        (1, false, (0, 0), (1, 0)),
        "0n+0 0n+1 1,; 0n+1 1n-1 0,; 1n-1 1n+0 1,;",
    ),
    (
        1,
        (0, false, (0, 1), (1, 0)),
        (1, false, (0, 1), (1, 0)),
        "uncovered 0n+0 0n+1",
    ),
    (
        1,
        (0, true, (0, 0), (1, 0)),
        (1, false, (0, 0), (1, 0)),
        "0n+0 1n+0 0,1,;",
    ),
    (
        1,
        (1, true, (0, 0), (1, 0)),
        (0, false, (0, 0), (1, 0)),
        "0n+0 1n+0 1,;",
    ),
    (
        1,
        (0, true, (0, 0), (1, 0)),
        (0, true, (0, 0), (1, 0)),
        "uncovered 0n+0 1n+0",
    ),
    (
        1,
        (0, false, (0, 0), (1, 0)),
        (0, false, (0, -3), (1, 7)),
        "0n+0 1n+0 0,1,;",
    ),
    (
        3,
        (0, false, (0, 0), (0, 2)),
        (0, false, (0, 2), (1, 0)),
        "0n+0 0n+2 0,; 0n+2 1n+0 1,;",
    ),
];

fn form(line: Line) -> Form
    ensures { AreSmall result }
{
    let (mut whole, mut constant) = line;
    if whole < -100 || 100 < whole || constant < -100 || 100 < constant {
        (whole, constant) = (0, 0);
    }
    Form {
        constant,
        whole: [whole, 0, 0, 0, 0, 0, 0, 0],
        half: [0; 8],
        third: [0; 8],
        quarter: [0; 8],
    }
}

fn from(least: u64) -> Ranges
    requires { least ≤ 2 ^ 20 }
    ensures { IsRanges result }
{
    Ranges {
        count: 1,
        least: [least, 0, 0, 0, 0, 0, 0, 0],
    }
}

fn written_by(alloc: Global, rule: u32, writer: Writer) -> Result<RuleBox, GridRefusal>
    ensures { IfOk result (λ b. IsSmallBox b) }
{
    let (priority, guarded, lower, upper) = writer;
    let mut found = RuleBox {
        rule,
        priority,
        guarded,
        wide: false,
        lower_x: Vec::new(alloc),
        upper_x: Vec::new(alloc),
        lower_y: Vec::new(alloc),
        upper_y: Vec::new(alloc),
    };
    found.lower_x.push(form(lower))?;
    found.upper_x.push(form(upper))?;
    Ok(found)
}

fn segments(
    alloc: Global,
    least: u64,
    first: Writer,
    second: Writer,
) -> Result<Vec<Segment>, GridRefusal>
    requires { least ≤ 2 ^ 20 }
{
    let boxes = [written_by(alloc, 0, first)?, written_by(alloc, 1, second)?];
    grid(alloc, &boxes, &form((1, 0)), &form((0, 1)), &from(least))
}

/// Adds a form over the first size, and a blank.
pub fn add_form(alloc: Global, text: &mut Vec<u8>, form: &Form) -> Result<(), AllocError> {
    let (whole, constant) = (form.whole[0], form.constant);
    let shown = if constant < 0 {
        format!(in alloc; "{whole}n{constant} ")?
    } else {
        format!(in alloc; "{whole}n+{constant} ")?
    };
    text.extend_from_slice(shown.as_bytes())
}

fn add_segment(alloc: Global, text: &mut Vec<u8>, segment: &Segment) -> Result<(), AllocError> {
    add_form(alloc, text, &segment.area.x0)?;
    add_form(alloc, text, &segment.area.x1)?;
    for rule in &segment.rules {
        let shown = format!(in alloc; "{rule},")?;
        text.extend_from_slice(shown.as_bytes())?;
    }
    text.extend_from_slice(b"; ")
}

// What is said of a matrix.
fn said(alloc: Global, least: u64, first: Writer, second: Writer) -> Result<Vec<u8>, AllocError>
    requires { least ≤ 2 ^ 20 }
{
    let mut text = Vec::new(alloc);
    match segments(alloc, least, first, second) {
        Ok(found) => {
            for segment in &found {
                add_segment(alloc, &mut text, segment)?;
            }
        }
        Err(
            GridRefusal::Crossing {
                axis,
                first,
                second,
                over,
                under,
            },
        ) => {
            let (over, under) = (over.of[0], under.of[0]);
            let shown = format!(in alloc; "cross {axis} at {over} {under}: ")?;
            text.extend_from_slice(shown.as_bytes())?;
            add_form(alloc, &mut text, &first)?;
            add_form(alloc, &mut text, &second)?;
        }
        Err(GridRefusal::Uncovered { area }) => {
            text.extend_from_slice(b"uncovered ")?;
            add_form(alloc, &mut text, &area.x0)?;
            add_form(alloc, &mut text, &area.x1)?;
        }
        Err(_) => text.extend_from_slice(b"another refusal")?,
    }
    Ok(text)
}

#[test]
fn a_matrix_is_cut_at_the_bounds_of_its_rules(rt: HostRuntime) -> Result<(), Fail> {
    let alloc = rt.alloc();
    for (least, first, second, expected) in &ROWS {
        let found = said(alloc, *least % 8, *first, *second)?;
        assert!(rt;
            found.trim_ascii_end() == expected.as_bytes(),
            "{expected}: {found:?}"
        );
    }
    Ok(())
}
