ghost use Rattle.std.specs.Prelude.{◌≡◌, ◌↔◌, ◌+◌, ◌-◌, ◌*◌, ◌≤◌, ◌<◌, ◌^◌, ℤ, IfOk, IsTrue, List, Result, Some, length, slice_get};
ghost use Rattle.pb_values.specs.Views.{HasPlace};
ghost use Rattle.pb_values.specs.declared.outcome.Trap.{Trap};
ghost use Rattle.pb_program.specs.Trees.{ProgRule};
ghost use Rattle.pb_model.specs.Equations.{in_outputs, own_outcome};
ghost use Rattle.pb_eval.specs.CanRun.{at_variables, outs_needed};
ghost use Rattle.pb_eval.specs.Running.{AreLeft, Gives};
ghost use Rattle.pb_statements.specs.Stored.{outs_of};
ghost use Rattle.pb_jobs.specs.Instances.{IsReady, of_sizes, of_transform};
ghost use Rattle.pb_jobs.specs.Jobs.{stop_cell};
ghost use Rattle.pb_jobs.specs.Outputs.{CanGive, LiesAt};
ghost use Rattle.pb_jobs.specs.Rooms.{HasRoomIn};

use crate::instance::Instance;
use crate::scratch::RuleScratch;
use pb_links::Spot;
use pb_values::{Outcome, Rect, Trap};
use pb_walk::Stop;

/// Whether a place lies in a rectangle.
fn holds(rect: &Rect, x: u64, y: u64) -> bool
    ensures { IsTrue result ↔ HasPlace rect.now x y }
{
    rect.x0 <= x && x < rect.x1 && rect.y0 <= y && y < rect.y1
}

/// How many places there are in a rectangle that has fewer than 2^64.
fn count(rect: &Rect) -> u64
    requires across { rect.now.x0 ≤ rect.now.x1 }
    requires down { rect.now.y0 ≤ rect.now.y1 }
    requires small { (rect.now.x1 - rect.now.x0) * (rect.now.y1 - rect.now.y0) < 2 ^ 64 }
    ensures { result ≡ (rect.now.x1 - rect.now.x0) * (rect.now.y1 - rect.now.y0) }
{
    (rect.x1 - rect.x0) * (rect.y1 - rect.y0)
}

/// The number of a place among those of a rectangle that holds it, row by row.
#[tactic(auto, using(crate::proofs::PlaceLemmas::place_below))]
fn place_in(rect: &Rect, x: u64, y: u64) -> u64
    requires holds { HasPlace rect.now x y }
    requires small { (rect.now.x1 - rect.now.x0) * (rect.now.y1 - rect.now.y0) < 2 ^ 64 }
    ensures { result ≡ (y - rect.now.y0) * (rect.now.x1 - rect.now.x0) + (x - rect.now.x0) }
{
    (y - rect.y0) * (rect.x1 - rect.x0) + (x - rect.x0)
}

impl<'a> Instance<'a> {
    /// Where an output of a rule lies, by its number.
    fn output_box(&self, rule: u32, k: usize) -> Spot
        requires ready { IsReady self.now }
        requires can { CanGive self.now rule }
        requires below { (r : ProgRule) → slice_get (of_transform self.now).rules rule ≡ Some r → k < length r.outs }
        ensures { (r : ProgRule) → slice_get (of_transform self.now).rules rule ≡ Some r → LiesAt (of_transform self.now).matrices (of_sizes self.now) r.outs k result }
    {
        let views = self.views();
        let base = self.outs(rule)[k].matrix;
        let window = self.out_windows(rule)[k];
        let rect = window.rect(&views[base as usize], 0, 0);
        Spot { base, rect }
    }

    /// What a rule's outputs, which stand in the scratch, have for a cell.
    fn number(&self, rule: u32, stop: Stop, scratch: &RuleScratch) -> i64
        requires ready { IsReady self.now }
        requires can { CanGive self.now rule }
        requires room { HasRoomIn self.now rule scratch.now.body }
        ensures { (r : ProgRule) (numbers : List ℤ) → slice_get (of_transform self.now).rules rule ≡ Some r → AreLeft (length numbers) scratch.now.body numbers
            → length numbers ≡ outs_needed (of_transform self.now).matrices (of_sizes self.now) (at_variables 0 0) r
            → result ≡ in_outputs (of_transform self.now).matrices (of_sizes self.now) (stop_cell stop) r.outs numbers }
    {
        let outs = self.outs(rule).len();
        let mut first = 0;
        for k in 0..outs {
            let output = self.output_box(rule, k);
            if output.base == stop.base && holds(&output.rect, stop.x, stop.y) {
                return scratch
                    .body
                    .out(first + place_in(&output.rect, stop.x, stop.y));
            }
            first += count(&output.rect);
        }
        0
    }

    /// The outcome of a cell of a rule that makes all its cells at once, where it gave this.
    pub(crate) fn outcome(
        &self,
        rule: u32,
        gave: Result<u64, Trap>,
        stop: Stop,
        scratch: &RuleScratch,
    ) -> Outcome
        requires ready { IsReady self.now }
        requires can { CanGive self.now rule }
        requires room { HasRoomIn self.now rule scratch.now.body }
        ensures { (r : ProgRule) (g : Result (List ℤ) Trap) → slice_get (of_transform self.now).rules rule ≡ Some r → Gives g gave scratch.now.body
            → IfOk g (λ numbers. length numbers ≡ outs_needed (of_transform self.now).matrices (of_sizes self.now) (at_variables 0 0) r)
            → result ≡ own_outcome (of_transform self.now).matrices (of_sizes self.now) (stop_cell stop) r g }
    {
        match gave {
            Ok(_) => Outcome::Value(self.number(rule, stop, scratch)),
            Err(trap) => Outcome::Trapped(trap),
        }
    }
}
