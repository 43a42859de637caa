ghost use Rattle.std.specs.Prelude.{◌≡◌, ◌≤◌, ◌<◌, ◌++◌, ◌∷◌, [], length};
ghost use Rattle.pb_syntax.specs.declared.limits.TheConstants.{MOST_VIEWS};
ghost use Rattle.pb_jobs.specs.Lines.{AreMoving};

use crate::shown::Shown;
use pb_eval::Moving;

impl Shown {
    fn put_cell(&mut self, moving: Moving)
        requires { length self.old.cells.items < MOST_VIEWS }
        ensures cells { self.new.cells.items ≡ self.old.cells.items ++ moving ∷ [] }
        ensures views { self.new.views ≡ self.old.views }
        ensures advances { self.new.advances ≡ self.old.advances }
    {
        let _ = self.cells.push(moving);
    }

    /// Notes the first cells of the views, and how they move.
    pub(crate) fn begin_cells(&mut self)
        requires few { length self.old.views.items ≤ MOST_VIEWS }
        requires each { length self.old.advances.items ≡ length self.old.views.items }
        ensures cells { AreMoving self.old.advances.items self.old.views.items self.new.cells.items }
        ensures advances { self.new.advances ≡ self.old.advances }
    {
        self.cells.clear();
        for k in 0..self.views.len() {
            let moving = Moving {
                from: self.views[k].first,
                by: self.advances[k].far.step(),
            };
            self.put_cell(moving);
        }
    }
}
