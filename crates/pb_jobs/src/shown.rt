ghost use Rattle.std.specs.Prelude.{◌≡◌, ◌+◌, ◌≤◌, ◌<◌, ◌^◌, ◌++◌, ◌∷◌, IfOk, IsTrue, Some, [], length, slice_get};
ghost use Rattle.std.specs.Vec.{vec_capacity};
ghost use Rattle.pb_syntax.specs.declared.limits.TheConstants.{MOST_VIEWS};
ghost use Rattle.pb_walk.specs.Stretches.{place_on};
ghost use Rattle.pb_program.specs.declared.view.Read.{Read};
ghost use Rattle.pb_views.specs.declared.window.Window.{Window};
ghost use Rattle.pb_jobs.specs.Advances.{AreAdvances, AreShaped, AreWithinAlong, IsShownAt};
ghost use Rattle.pb_jobs.specs.Distances.{IsShaped};
ghost use Rattle.pb_jobs.specs.declared.advance.Advance.{Advance};
ghost use Rattle.pb_jobs.specs.Shown.{AreShown, AreWithin, IsShownFor};

use crate::advance::{Advance, advance_along};
use pb_eval::Moving;
use pb_program::Read;
use pb_syntax::MOST_VIEWS;
use pb_values::{Shape, View};
use pb_views::Window;
use pb_walk::Stretch;
use std::alloc::{AllocError, Global};

/// Room for the views of a rule's reads, for how they move along a line, and for their first cells.
#[derive(Drop)]
pub struct Shown {
    pub(crate) views: Vec<View>,
    pub(crate) advances: Vec<Advance>,
    pub(crate) cells: Vec<Moving>,
    pub(crate) ghost room: { MOST_VIEWS ≤ vec_capacity views },
    pub(crate) ghost more_room: { MOST_VIEWS ≤ vec_capacity advances },
    pub(crate) ghost cell_room: { MOST_VIEWS ≤ vec_capacity cells },
}

/// The same view, copied field by field: a copy as a whole takes the bytes between the fields along, which is slow.
#[inline(always)]
fn by_fields(view: View) -> View
    ensures { result ≡ view }
{
    View {
        first: view.first,
        step_x: view.step_x,
        step_y: view.step_y,
        shape: Shape {
            dims: view.shape.dims,
            w: view.shape.w,
            h: view.shape.h,
        },
    }
}

impl Shown {
    pub(crate) fn new(alloc: Global) -> Result<Shown, AllocError> {
        Ok(Shown {
            views: Vec::with_capacity(alloc, MOST_VIEWS)?,
            advances: Vec::with_capacity(alloc, MOST_VIEWS)?,
            cells: Vec::with_capacity(alloc, MOST_VIEWS)?,
        })
    }

    fn put(&mut self, view: View)
        requires { length self.old.views.items < MOST_VIEWS }
        ensures views { self.new.views.items ≡ self.old.views.items ++ view ∷ [] }
        ensures advances { self.new.advances ≡ self.old.advances }
        ensures cells { self.new.cells ≡ self.old.cells }
    {
        let _ = self.views.push(view);
    }

    fn put_advance(&mut self, advance: Advance)
        requires { length self.old.advances.items < MOST_VIEWS }
        ensures advances { self.new.advances.items ≡ self.old.advances.items ++ advance ∷ [] }
        ensures views { self.new.views ≡ self.old.views }
    {
        let _ = self.advances.push(advance);
    }

    /// Shows the views of reads for rule variables at which they lie within their matrices.
    pub(crate) fn show(
        &mut self,
        reads: &[Read],
        windows: &[Window],
        matrices: &[View],
        x: u64,
        y: u64,
    )
        requires few { length reads.now ≤ MOST_VIEWS }
        requires windows { length windows.now ≡ length reads.now }
        requires x { x ≤ 2 ^ 23 }
        requires y { y ≤ 2 ^ 23 }
        requires within { AreWithin matrices.now x y reads.now windows.now }
        ensures shown { AreShown matrices.now x y reads.now windows.now (length reads.now) self.new.views.items }
        ensures advances { self.new.advances ≡ self.old.advances }
        ensures cells { self.new.cells ≡ self.old.cells }
    {
        self.views.clear();
        for k in 0..reads.len() {
            let matrix = &matrices[reads[k].matrix as usize];
            self.put(by_fields(windows[k].show(matrix, x, y)));
        }
    }

    /// Shows the views of reads at the first place of a line of some places. True only where it is known how each moves from there; then
    /// the advances say how.
    pub(crate) fn begin(
        &mut self,
        reads: &[Read],
        windows: &[Window],
        matrices: &[View],
        stretch: &Stretch,
    ) -> bool
        requires few { length reads.now ≤ MOST_VIEWS }
        requires windows { length windows.now ≡ length reads.now }
        requires some { 0 < stretch.now.count }
        requires within { AreWithinAlong matrices.now reads.now windows.now stretch.now }
        ensures shown { AreShown matrices.now (place_on stretch.now 0).x (place_on stretch.now 0).y reads.now windows.now (length reads.now) self.new.views.items }
        ensures advances { IsTrue result → AreAdvances matrices.now stretch.now reads.now windows.now (length reads.now) self.new.advances.items }
        ensures shaped { IsTrue result → AreShaped self.new.advances.items self.new.views.items }
    {
        let (x, y) = stretch.place(0);
        self.show(reads, windows, matrices, x, y);
        self.advances.clear();
        for k in 0..reads.len() {
            let matrix = &matrices[reads[k].matrix as usize];
            match advance_along(&windows[k], matrix, stretch) {
                Some(advance) => {
                    self.put_advance(advance);
                    self.views[k] = by_fields(advance.at(self.views[k].first));
                }
                None => return false,
            }
        }
        true
    }

    /// The view of a read at the place after this one.
    fn next_view(
        &self,
        k: usize,
        reads: &[Read],
        windows: &[Window],
        matrices: &[View],
        stretch: &Stretch,
        i: u64,
    ) -> View
        requires read { k < length reads.now }
        requires windows { length windows.now ≡ length reads.now }
        requires next { i + 1 < stretch.now.count }
        requires within { AreWithinAlong matrices.now reads.now windows.now stretch.now }
        requires count { length self.now.views.items ≡ length reads.now }
        requires shown { IsShownAt matrices.now reads.now windows.now stretch.now i k self.now.views.items }
        requires advances { AreAdvances matrices.now stretch.now reads.now windows.now (length reads.now) self.now.advances.items }
        requires shaped { AreShaped self.now.advances.items self.now.views.items }
        ensures shaped { (a : Advance) → slice_get self.now.advances.items k ≡ Some a → IsShaped a result }
        ensures shown { (r : Read) (w : Window) → slice_get reads.now k ≡ Some r → slice_get windows.now k ≡ Some w → IsShownFor matrices.now (place_on stretch.now (i + 1)).x (place_on stretch.now (i + 1)).y r w result }
    {
        self.advances[k].after(&self.views[k])
    }

    /// Shows them at the place after this one, unless it is the last, where it is known how each moves.
    pub(crate) fn go_on(
        &mut self,
        reads: &[Read],
        windows: &[Window],
        matrices: &[View],
        stretch: &Stretch,
        i: u64,
    )
        requires windows { length windows.now ≡ length reads.now }
        requires here { i < stretch.now.count }
        requires within { AreWithinAlong matrices.now reads.now windows.now stretch.now }
        requires shown { AreShown matrices.now (place_on stretch.now i).x (place_on stretch.now i).y reads.now windows.now (length reads.now) self.old.views.items }
        requires advances { AreAdvances matrices.now stretch.now reads.now windows.now (length reads.now) self.old.advances.items }
        requires shaped { AreShaped self.old.advances.items self.old.views.items }
        ensures shown { i + 1 < stretch.now.count → AreShown matrices.now (place_on stretch.now (i + 1)).x (place_on stretch.now (i + 1)).y reads.now windows.now (length reads.now) self.new.views.items }
        ensures shaped { AreShaped self.new.advances.items self.new.views.items }
        ensures advances { self.new.advances ≡ self.old.advances }
    {
        if i + 1 >= stretch.count {
            return;
        }
        for k in 0..reads.len() {
            let view = self.next_view(k, reads, windows, matrices, stretch, i);
            self.views[k] = by_fields(view);
        }
    }

    /// Shows them at the place after this one, unless it is the last.
    pub(crate) fn show_next(
        &mut self,
        reads: &[Read],
        windows: &[Window],
        matrices: &[View],
        stretch: &Stretch,
        i: u64,
    )
        requires few { length reads.now ≤ MOST_VIEWS }
        requires windows { length windows.now ≡ length reads.now }
        requires here { i < stretch.now.count }
        requires within { AreWithinAlong matrices.now reads.now windows.now stretch.now }
        ensures shown { i + 1 < stretch.now.count → AreShown matrices.now (place_on stretch.now (i + 1)).x (place_on stretch.now (i + 1)).y reads.now windows.now (length reads.now) self.new.views.items }
        ensures advances { self.new.advances ≡ self.old.advances }
    {
        if i + 1 >= stretch.count {
            return;
        }
        let (x, y) = stretch.place(i + 1);
        self.show(reads, windows, matrices, x, y);
    }
}
