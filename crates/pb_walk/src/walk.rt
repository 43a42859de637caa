ghost use Rattle.std.specs.Prelude.{◌≡◌, ◌≢◌, ◌+◌, ◌<◌, ◌≤◌, false, IfNone, IfOk, IfSome, IsTrue, [], length, drop, slice_get, vec_capacity};
ghost use Rattle.std.specs.List.{All};
ghost use Rattle.std.specs.declared.cmp.Ordering.TheVariants.{Less};
ghost use Rattle.pb_walk.specs.Cursors.{IsBegun, IsBest, head, spots, steps_of};
ghost use Rattle.pb_walk.specs.Orders.{compare};
ghost use Rattle.pb_walk.specs.Stretches.{GoesFirst, IsTaken};
ghost use Rattle.pb_walk.specs.Walks.{walk_of};

use crate::course::Course;
use crate::cursor::Cursor;
use crate::stop::Stop;
use crate::stretch::Stretch;
use pb_linear::Step;
use pb_links::Spot;
use std::alloc::{AllocError, Global};
use std::cmp::Ordering;
use std::marker::Model;

/// The places of several rectangles, one after another, in the order of a list of steps, and room for so many rectangles.
#[derive(Drop)]
pub struct Walk {
    course: Course,
    cursors: Vec<Cursor>,
    room: usize,
}

impl Model for Walk {
    ghost use Rattle.std.specs.Prelude.{◌≤◌, length, vec_capacity};
    ghost use Rattle.pb_walk.specs.Cursors.{left_of, whole};
    ghost use Rattle.pb_walk.specs.Walks.{WalkValue};

    ghost Value = { WalkValue };

    ghost view = { λ w. record { all = whole w.course w.cursors.items; left = left_of w.course w.cursors.items; room = w.room } };

    ghost invariant = { λ w. (length w.cursors.items ≤ w.room) × (w.room ≤ vec_capacity w.cursors) };
}

/// The better of the number that was found among the rectangles before this one, and this one.
fn better(course: Course, cursors: &[Cursor], found: Option<usize>, k: usize) -> Option<usize>
    requires inside { k < length cursors.now }
    requires best { IsBest course cursors.now k found }
    ensures { IsBest course cursors.now (k + 1) result }
{
    let cursor = cursors[k];
    if cursor.done {
        return found;
    }
    match found {
        None => Some(k),
        Some(best) => match course.compare(&cursor, &cursors[best]) {
            Ordering::Less => Some(k),
            _ => Some(best),
        },
    }
}

/// The number of the rectangle whose next place stands first, unless all are done. Of those with the same next cell it is the first.
fn first_cursor(course: Course, cursors: &[Cursor]) -> Option<usize>
    ensures { IsBest course cursors.now (length cursors.now) result }
{
    let mut found = None;
    for k in 0..cursors.len() {
        found = better(course, cursors, found, k);
    }
    found
}

/// Whether it is known that this place of the rectangle with the number `k` stands before the next place of the rectangle `j`, if that
/// has one and is another.
fn goes_before(course: Course, cursors: &[Cursor], k: usize, j: usize, last: &Cursor) -> bool
    requires { j < length cursors.now }
    ensures { IsTrue result → j ≢ k → (c : Cursor) → slice_get cursors.now j ≡ Some c → c.done ≡ false → compare (steps_of course) (head k last.now) (head j c) ≡ Less }
{
    let other = cursors[j];
    if j == k || other.done {
        return true;
    }
    match course.compare(last, &other) {
        Ordering::Less => true,
        _ => false,
    }
}

/// Whether it is known that this place of the rectangle with the number `k` stands before the next places of all others.
fn goes_first(course: Course, cursors: &[Cursor], k: usize, last: &Cursor) -> bool
    ensures { IsTrue result → GoesFirst (steps_of course) cursors.now k (length cursors.now) last.now }
{
    for j in 0..cursors.len() {
        if !goes_before(course, cursors, k, j, last) {
            return false;
        }
    }
    true
}

/// Puts rectangles before their first places, where there is room for so many.
fn begin_all(course: Course, cursors: &mut Vec<Cursor>, pieces: &[Spot])
    requires { length pieces.now ≤ vec_capacity cursors.old }
    ensures room { vec_capacity cursors.old ≤ vec_capacity cursors.new }
    ensures spots { spots cursors.new.items ≡ pieces.now }
    ensures begun { All (IsBegun (steps_of course)) cursors.new.items }
{
    cursors.clear();
    for piece in pieces {
        let _ = cursors.push(Cursor::begin(course, *piece));
    }
}

impl Walk {
    /// Room for the places of so many rectangles. There is no place before it is begun.
    pub fn with_room(alloc: Global, pieces: usize) -> Result<Walk, AllocError>
        ensures { IfOk result (λ walk. walk ≡ record { all = []; left = []; room = pieces }) }
    {
        Ok(Walk {
            course: Course::Any,
            cursors: Vec::with_capacity(alloc, pieces)?,
            room: pieces,
        })
    }

    /// Goes to before the first place of these rectangles, in the order of the first two steps, and where places are equal in it by
    /// the numbers of their cells. It takes no memory, and one pass over the rectangles.
    pub fn begin(&mut self, steps: &[Step], pieces: &[Spot])
        requires room { length pieces.now ≤ self.old.room }
        ensures { self.new ≡ record { all = walk_of steps.now pieces.now; left = walk_of steps.now pieces.now; room = self.old.room } }
    {
        self.course = Course::of(steps);
        begin_all(self.course, &mut self.cursors, pieces);
    }

    /// The next place, unless there is none. It takes no memory, and one pass over the rectangles.
    pub fn next(&mut self) -> Option<Stop>
        ensures first { result ≡ slice_get self.old.left 0 }
        ensures rest { self.new ≡ record { all = self.old.all; left = drop 1 self.old.left; room = self.old.room } }
    {
        let k = first_cursor(self.course, &self.cursors)?;
        let cursor = self.cursors[k];
        self.cursors[k] = cursor.after(self.course);
        Some(Stop {
            piece: k,
            base: cursor.spot.base,
            x: cursor.x,
            y: cursor.y,
        })
    }

    /// The next places, at least one, which lie in a line of one rectangle; unless none is left. They are meant to be those up to the
    /// end of the line where no place of another rectangle stands between; no clause says how many they are. It takes no memory,
    /// and two passes over the rectangles.
    pub fn stretch(&mut self) -> Option<Stretch>
        ensures none { IfNone result ((self.old.left ≡ []) × (self.new ≡ self.old)) }
        ensures taken { IfSome result (IsTaken self.old self.new) }
    {
        let k = first_cursor(self.course, &self.cursors)?;
        let cursor = self.cursors[k];
        let sweep = self.course.sweep_of(cursor.spot.rect);
        let line = cursor.line(sweep, k);
        let end = cursor.at_last(sweep, k, &line);
        if goes_first(self.course, &self.cursors, k, &end) {
            self.cursors[k] = end.after(self.course);
            return Some(line);
        }
        self.cursors[k] = cursor.after(self.course);
        Some(line.first())
    }
}
