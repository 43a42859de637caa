ghost use Rattle.std.specs.Prelude.{◌≡◌, ◌<◌, ◌≤◌, ◌^◌, ◌++◌, IfOk, OnOk, length, map, pos};
ghost use Rattle.std.specs.List.{All};
ghost use Rattle.pb_linear.specs.Sizes.{sizes_of};
ghost use Rattle.pb_program.specs.declared.view.Read.{Read};
ghost use Rattle.pb_region.specs.Small.{IsSmallRead};
ghost use Rattle.pb_views.specs.Hulls.{AreWithin, hull_of};
ghost use Rattle.pb_views.specs.Windows.{AreLaid, AreSteady, IsRect, IsWindow, shown_by};
ghost use Rattle.pb_views.specs.declared.window.Window.{Window};
ghost use Rattle.pb_region.specs.Within.{IsWithin};
ghost use Rattle.pb_plan.specs.Boxes.{IsBoxed, IsReadable, part_box, whole_box};

use pb_linear::{SIZE_TOP, Sizes};
use pb_links::Spot;
use pb_program::{Decl, Read};
use pb_values::{Rect, View};
use pb_views::Window;
use std::alloc::{AllocError, Global};

/// The box of a view over the corner cells of a part.
fn box_over(read: &Read, view: &View, s: &Sizes, part: &Rect) -> Spot
    requires sizes { All (λ size. size ≤ SIZE_TOP) s.now.of }
    requires steady { AreSteady read.now }
    requires wide { part.now.x0 < part.now.x1 }
    requires tall { part.now.y0 < part.now.y1 }
    requires right { part.now.x1 ≤ 2 ^ 23 }
    requires high { part.now.y1 ≤ 2 ^ 23 }
    requires within { (w : Window) → IsWindow read.now (sizes_of s.now) w → AreWithin w view.now part.now }
    ensures base { result.base ≡ read.now.matrix }
    ensures rect { (w : Window) × IsWindow read.now (sizes_of s.now) w × IsRect (hull_of w view.now part.now) result.rect }
{
    let window = Window::new(read, s);
    Spot {
        base: read.matrix,
        rect: window.hull(view, part),
    }
}

/// The box of a view in which no rule variable plays a part.
fn box_of(read: &Read, view: &View, s: &Sizes) -> Spot
    requires sizes { All (λ size. size ≤ SIZE_TOP) s.now.of }
    requires steady { AreSteady read.now }
    requires within { (w : Window) → IsWindow read.now (sizes_of s.now) w → IsWithin (shown_by w view.now 0 0 w.view) (pos view.now.shape.w) (pos view.now.shape.h) }
    ensures base { result.base ≡ read.now.matrix }
    ensures rect { (w : Window) × IsWindow read.now (sizes_of s.now) w × IsRect (shown_by w view.now 0 0 w.view) result.rect }
{
    let window = Window::new(read, s);
    Spot {
        base: read.matrix,
        rect: window.rect(view, 0, 0),
    }
}

/// Adds the boxes of a rule for the cells of a part, one for each view.
pub(crate) fn add_over(
    boxes: &mut Vec<Spot>,
    matrices: &[Decl],
    reads: &[Read],
    views: &[View],
    s: &Sizes,
    part: &Rect,
) -> Result<(), AllocError>
    requires sizes { All (λ size. size ≤ SIZE_TOP) s.now.of }
    requires laid { AreLaid matrices.now (sizes_of s.now) views.now }
    requires small { All IsSmallRead reads.now }
    requires matrices { All (λ (r : Read). r.matrix < length matrices.now) reads.now }
    requires boxed { IsBoxed matrices.now (sizes_of s.now) reads.now part.now }
    ensures { OnOk result (boxes.new.items ≡ boxes.old.items ++ map (part_box matrices.now (sizes_of s.now) part.now) reads.now) }
{
    for read in reads {
        boxes.push(box_over(read, &views[read.matrix as usize], s, part))?;
    }
    Ok(())
}

/// Adds the boxes of a rule that isn't for single cells, one for each view.
pub(crate) fn add_whole(
    boxes: &mut Vec<Spot>,
    matrices: &[Decl],
    reads: &[Read],
    views: &[View],
    s: &Sizes,
) -> Result<(), AllocError>
    requires sizes { All (λ size. size ≤ SIZE_TOP) s.now.of }
    requires laid { AreLaid matrices.now (sizes_of s.now) views.now }
    requires small { All IsSmallRead reads.now }
    requires matrices { All (λ (r : Read). r.matrix < length matrices.now) reads.now }
    requires readable { IsReadable matrices.now (sizes_of s.now) reads.now 0 0 }
    ensures { OnOk result (boxes.new.items ≡ boxes.old.items ++ map (whole_box matrices.now (sizes_of s.now)) reads.now) }
{
    for read in reads {
        boxes.push(box_of(read, &views[read.matrix as usize], s))?;
    }
    Ok(())
}

/// What the views of a rule that isn't for single cells show of matrices that are these views, view by view.
pub fn view_boxes(
    alloc: Global,
    matrices: &[Decl],
    reads: &[Read],
    views: &[View],
    s: &Sizes,
) -> Result<Vec<Spot>, AllocError>
    requires sizes { All (λ size. size ≤ SIZE_TOP) s.now.of }
    requires laid { AreLaid matrices.now (sizes_of s.now) views.now }
    requires small { All IsSmallRead reads.now }
    requires matrices { All (λ (r : Read). r.matrix < length matrices.now) reads.now }
    requires readable { IsReadable matrices.now (sizes_of s.now) reads.now 0 0 }
    ensures { IfOk result (λ boxes. boxes.items ≡ map (whole_box matrices.now (sizes_of s.now)) reads.now) }
{
    let mut boxes = Vec::new(alloc);
    add_whole(&mut boxes, matrices, reads, views, s)?;
    Ok(boxes)
}
