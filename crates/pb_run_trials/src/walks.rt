//! Walks of rectangles.
ghost use Rattle.std.specs.Prelude.{◌≡◌, ◌≤◌, ◌^◌, length};

use pb_linear::{Sign, Step};
use pb_links::Spot;
use pb_values::Rect;
use pb_walk::Walk;
use std::alloc::{AllocError, Global};
use std::test::Fail;

const RIGHT: Step = Step {
    axis: 0,
    sign: Sign::Plus,
};

const LEFT: Step = Step {
    axis: 0,
    sign: Sign::Minus,
};

const DOWN: Step = Step {
    axis: 1,
    sign: Sign::Plus,
};

const UP: Step = Step {
    axis: 1,
    sign: Sign::Minus,
};

fn spot(base: u32, x0: u64, x1: u64, y0: u64, y1: u64) -> Spot {
    let rect = Rect { x0, y0, x1, y1 };
    Spot { base, rect }
}

// A walk of these rectangles before its first place.
fn begun(alloc: Global, steps: &[Step], pieces: &[Spot]) -> Result<Walk, AllocError>
    requires { length pieces.now ≤ 2 ^ 32 }
{
    let mut walk = Walk::with_room(alloc, pieces.len())?;
    walk.begin(steps, pieces);
    Ok(walk)
}

// The next places, at most so many, each as its piece, its matrix, its x and its y; a dot where there is none.
fn said(alloc: Global, walk: &mut Walk, count: u32) -> Result<String, AllocError>
    ensures { walk.new.room ≡ walk.old.room }
{
    let mut text = String::new(alloc);
    for _ in 0..count {
        match walk.next() {
            Some(stop) => text.push_str(format!(in alloc;
                "{}{}{}{} ",
                stop.piece, stop.base, stop.x, stop.y
            )?.as_str())?,
            None => text.push_str(".")?,
        }
    }
    Ok(text)
}

// The walk of a rectangle of two columns and two rows, and one of one column beside it.
fn beside(alloc: Global, steps: &[Step]) -> Result<String, AllocError> {
    let mut walk = begun(alloc, steps, &[spot(7, 1, 3, 0, 2), spot(7, 3, 4, 0, 2)])?;
    said(alloc, &mut walk, 7)
}

// The walk of one rectangle of two columns and two rows.
fn alone(alloc: Global, steps: &[Step]) -> Result<String, AllocError> {
    let mut walk = begun(alloc, steps, &[spot(7, 1, 3, 4, 6)])?;
    said(alloc, &mut walk, 5)
}

#[test]
fn places_of_one_rectangle_go_by_the_list(rt: HostRuntime) -> Result<(), Fail> {
    let alloc = rt.alloc();
    assert_eq!(rt; alone(alloc, &[RIGHT])?.as_str(), "0714 0715 0724 0725 .");
    assert_eq!(rt; alone(alloc, &[LEFT])?.as_str(), "0724 0725 0714 0715 .");
    assert_eq!(rt; alone(alloc, &[DOWN])?.as_str(), "0714 0724 0715 0725 .");
    assert_eq!(rt; alone(alloc, &[UP])?.as_str(), "0715 0725 0714 0724 .");
    assert_eq!(rt; alone(alloc, &[])?.as_str(), "0714 0724 0715 0725 .");
    Ok(())
}

#[test]
fn the_second_step_counts_where_the_first_is_equal(rt: HostRuntime) -> Result<(), Fail> {
    let alloc = rt.alloc();
    assert_eq!(rt;
        alone(alloc, &[RIGHT, DOWN])?.as_str(),
        "0714 0715 0724 0725 ."
    );
    assert_eq!(rt;
        alone(alloc, &[RIGHT, UP])?.as_str(),
        "0715 0714 0725 0724 ."
    );
    assert_eq!(rt;
        alone(alloc, &[LEFT, DOWN])?.as_str(),
        "0724 0725 0714 0715 ."
    );
    assert_eq!(rt;
        alone(alloc, &[LEFT, UP])?.as_str(),
        "0725 0724 0715 0714 ."
    );
    assert_eq!(rt;
        alone(alloc, &[DOWN, RIGHT])?.as_str(),
        "0714 0724 0715 0725 ."
    );
    assert_eq!(rt;
        alone(alloc, &[DOWN, LEFT])?.as_str(),
        "0724 0714 0725 0715 ."
    );
    assert_eq!(rt;
        alone(alloc, &[UP, RIGHT])?.as_str(),
        "0715 0725 0714 0724 ."
    );
    assert_eq!(rt;
        alone(alloc, &[UP, LEFT])?.as_str(),
        "0725 0715 0724 0714 ."
    );
    Ok(())
}

#[test]
fn places_of_two_rectangles_go_by_the_list_and_then_row_by_row(
    rt: HostRuntime,
) -> Result<(), Fail> {
    let alloc = rt.alloc();
    assert_eq!(rt;
        beside(alloc, &[DOWN])?.as_str(),
        "0710 0720 1730 0711 0721 1731 ."
    );
    assert_eq!(rt;
        beside(alloc, &[UP])?.as_str(),
        "0711 0721 1731 0710 0720 1730 ."
    );
    assert_eq!(rt;
        beside(alloc, &[LEFT])?.as_str(),
        "1730 1731 0720 0721 0710 0711 ."
    );
    assert_eq!(rt;
        beside(alloc, &[DOWN, LEFT])?.as_str(),
        "1730 0720 0710 1731 0721 0711 ."
    );
    Ok(())
}

// The walk of a rectangle of matrix 9, and of two side by side of matrix 8.
fn of_two_matrices(alloc: Global, steps: &[Step]) -> Result<String, AllocError> {
    let mut walk = begun(
        alloc,
        steps,
        &[
            spot(9, 0, 1, 0, 2),
            spot(8, 2, 3, 0, 2),
            spot(8, 0, 2, 0, 2),
        ],
    )?;
    said(alloc, &mut walk, 9)
}

#[test]
fn with_no_step_places_go_by_the_numbers_of_their_cells(rt: HostRuntime) -> Result<(), Fail> {
    let alloc = rt.alloc();
    assert_eq!(rt;
        of_two_matrices(alloc, &[])?.as_str(),
        "2800 2810 1820 2801 2811 1821 0900 0901 ."
    );
    Ok(())
}

#[test]
fn places_of_two_matrices_that_are_equal_in_the_list_go_by_the_matrix(
    rt: HostRuntime,
) -> Result<(), Fail> {
    let alloc = rt.alloc();
    assert_eq!(rt;
        of_two_matrices(alloc, &[DOWN])?.as_str(),
        "2800 2810 1820 0900 2801 2811 1821 0901 ."
    );
    assert_eq!(rt;
        of_two_matrices(alloc, &[LEFT])?.as_str(),
        "1820 1821 2810 2811 2800 2801 0900 0901 ."
    );
    Ok(())
}

#[test]
fn a_place_of_two_rectangles_comes_once_for_each(rt: HostRuntime) -> Result<(), Fail> {
    let alloc = rt.alloc();
    let pieces = [spot(7, 1, 3, 0, 1), spot(7, 0, 2, 0, 1)];
    let mut walk = begun(alloc, &[], &pieces)?;
    assert_eq!(rt;
        said(alloc, &mut walk, 5)?.as_str(),
        "1700 0710 1710 0720 ."
    );
    Ok(())
}

#[test]
fn rectangles_without_places_are_passed_over(rt: HostRuntime) -> Result<(), Fail> {
    let alloc = rt.alloc();
    let pieces = [
        spot(7, 2, 2, 0, 9),
        spot(7, 5, 6, 7, 8),
        spot(7, 3, 1, 0, 9),
    ];
    let mut walk = begun(alloc, &[RIGHT], &pieces)?;
    assert_eq!(rt; said(alloc, &mut walk, 2)?.as_str(), "1757 .");
    let mut none = begun(alloc, &[RIGHT], &[])?;
    assert_eq!(rt; said(alloc, &mut none, 2)?.as_str(), "..");
    Ok(())
}

#[test]
fn a_walk_can_be_begun_again_with_other_rectangles(rt: HostRuntime) -> Result<(), Fail> {
    let alloc = rt.alloc();
    let mut walk = Walk::with_room(alloc, 2)?;
    assert_eq!(rt; said(alloc, &mut walk, 1)?.as_str(), ".");
    walk.begin(&[DOWN], &[spot(7, 0, 2, 0, 1), spot(7, 2, 3, 0, 1)]);
    assert_eq!(rt; said(alloc, &mut walk, 2)?.as_str(), "0700 0710 ");
    walk.begin(&[LEFT], &[spot(8, 0, 2, 0, 1)]);
    assert_eq!(rt; said(alloc, &mut walk, 3)?.as_str(), "0810 0800 .");
    walk.begin(&[], &[spot(7, 0, 1, 0, 1), spot(7, 1, 2, 0, 1)]);
    assert_eq!(rt; said(alloc, &mut walk, 3)?.as_str(), "0700 1710 .");
    Ok(())
}

// The next places line by line, each line as its rectangle, the first and the last of its places and how many they are; a dot where
// none is left.
fn lines(alloc: Global, steps: &[Step], pieces: &[Spot]) -> Result<String, AllocError>
    requires { length pieces.now ≤ 2 ^ 32 }
{
    let mut walk = begun(alloc, steps, pieces)?;
    let mut text = String::new(alloc);
    for _ in 0..9 {
        match walk.stretch() {
            Some(line) => {
                let (x, y) = line.place(0);
                let (a, b) = line.place(line.count - 1);
                text.push_str(format!(in alloc;
                    "{}:{}{}-{}{}*{} ",
                    line.piece, x, y, a, b, line.count
                )?.as_str())?
            }
            None => {
                text.push_str(".")?;
                return Ok(text);
            }
        }
    }
    Ok(text)
}

#[test]
fn lines_go_as_far_as_no_other_rectangle_stands_between(rt: HostRuntime) -> Result<(), Fail> {
    let alloc = rt.alloc();
    let one = [spot(7, 1, 4, 0, 2)];
    assert_eq!(rt; lines(alloc, &[], &one)?.as_str(), "0:10-30*3 0:11-31*3 .");
    assert_eq!(rt;
        lines(alloc, &[LEFT, UP], &one)?.as_str(),
        "0:31-30*2 0:21-20*2 0:11-10*2 ."
    );
    // One row is a line whichever way the list goes.
    let row = [spot(7, 1, 4, 5, 6)];
    assert_eq!(rt; lines(alloc, &[LEFT], &row)?.as_str(), "0:35-15*3 .");
    assert_eq!(rt; lines(alloc, &[DOWN], &row)?.as_str(), "0:15-35*3 .");
    // Side by side each has its piece of a row; where two have the same places, they take turns.
    let two = [spot(7, 1, 3, 0, 2), spot(7, 3, 5, 0, 2)];
    assert_eq!(rt;
        lines(alloc, &[DOWN], &two)?.as_str(),
        "0:10-20*2 1:30-40*2 0:11-21*2 1:31-41*2 ."
    );
    let twice = [spot(7, 1, 3, 0, 1), spot(7, 1, 3, 0, 1)];
    assert_eq!(rt;
        lines(alloc, &[], &twice)?.as_str(),
        "0:10-10*1 1:10-10*1 0:20-20*1 1:20-20*1 ."
    );
    Ok(())
}
