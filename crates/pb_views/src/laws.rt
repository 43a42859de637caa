ghost use Rattle.std.specs.Prelude.{◌≡◌, ◌<◌, ◌≤◌, ℕ, ℤ, pos, List, Some, map, slice_get};
ghost use Rattle.pb_values.specs.declared.view.View.{View};
ghost use Rattle.pb_program.specs.Areas.{IsIn, area_of};
ghost use Rattle.pb_program.specs.Forms.{DeclValue};
ghost use Rattle.pb_program.specs.declared.view.Read.{Read};
ghost use Rattle.pb_model.specs.Cells.{Cell, cells_of_view};
ghost use Rattle.pb_values.specs.declared.rect.Rect.{Rect};
ghost use Rattle.pb_views.specs.Hulls.{hull_of};
ghost use Rattle.pb_views.specs.Windows.{AreLaid, IsWindow, area_cells, number_in, shown_by};
ghost use Rattle.pb_views.specs.declared.window.Window.{Window};

/// A law: a window shows the area of its view, and so the numbers of the cells that the view shows, in their order.
pub fn a_window_shows_what_is_read()
    ensures area { (matrices : List DeclValue) (sizes : List ℕ) (views : List View) (c : Cell) (r : Read) (w : Window) (d : DeclValue) (v : View) → IsWindow r sizes w → AreLaid matrices sizes views
        → slice_get matrices r.matrix ≡ Some d → slice_get views r.matrix ≡ Some v → shown_by w v c.x c.y w.view ≡ area_of sizes (pos c.x) (pos c.y) r d }
    ensures cells { (matrices : List DeclValue) (sizes : List ℕ) (views : List View) (c : Cell) (r : Read) (w : Window) (d : DeclValue) (v : View) → IsWindow r sizes w → AreLaid matrices sizes views
        → slice_get matrices r.matrix ≡ Some d → slice_get views r.matrix ≡ Some v → area_cells v (shown_by w v c.x c.y w.view) ≡ map (number_in views) (cells_of_view matrices sizes c r) }
{}

/// A law: what a view shows for a cell of a part lies in the box over the part's corner cells.
pub fn what_a_part_reads_lies_in_its_box()
    ensures { (w : Window) (matrix : View) (part : Rect) (x y : ℕ) (u v : ℤ) → part.x0 ≤ x → x < part.x1 → part.y0 ≤ y → y < part.y1
        → IsIn (shown_by w matrix x y w.view) u v → IsIn (hull_of w matrix part) u v }
{}
