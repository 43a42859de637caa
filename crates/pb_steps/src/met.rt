ghost use Rattle.std.specs.Prelude.{◌≡◌, ◌+◌, ◌<◌, ◌^◌, IfOk, OnOk};
ghost use Rattle.std.specs.List.{All};
ghost use Rattle.pb_model.specs.Cells.{natural};
ghost use Rattle.pb_views.specs.Seats.{IsSmall};
ghost use Rattle.pb_counts.specs.Handed.{after_call, after_matrices, after_matrix, nothing_met, seats_from, whole_seat};
ghost use Rattle.pb_steps.specs.Stands.{met_of};

use pb_taskgraph::MOST_CELLS;
use pb_values::MOST_SIDE;
use pb_views::Seat;
use std::alloc::{AllocError, Global};

/// How many calls, matrices and cells are met.
#[derive(Clone, Copy)]
pub struct Met {
    pub calls: u32,
    pub matrices: u32,
    pub cells: u64,
}

/// A side, 0 in the place of a negative one.
fn natural(side: i64) -> u64
    ensures { result ≡ natural side }
{
    if side < 0 { 0 } else { side as u64 }
}

/// The number after this one. Numbers of calls and matrices stay far below the last that there is.
fn next(number: u32) -> Result<u32, AllocError>
    ensures { IfOk result (λ n. n ≡ number + 1) }
{
    match number.checked_add(1) {
        Some(next) => Ok(next),
        None => Err(AllocError),
    }
}

/// A count as the number of what comes next. Instances and jobs stay far below the last number that there is.
pub(crate) fn numbered(count: usize) -> Result<u32, AllocError>
    ensures number { IfOk result (λ n. n ≡ count) }
    ensures few { OnOk result (count < 2 ^ 32) }
{
    if count > u32::MAX as usize {
        return Err(AllocError);
    }
    Ok(count as u32)
}

impl Met {
    /// Before a run.
    pub(crate) fn nothing() -> Met
        ensures { met_of result ≡ nothing_met }
    {
        Met {
            calls: 0,
            matrices: 0,
            cells: 0,
        }
    }

    /// Meets a call, and answers its number.
    pub(crate) fn meet_call(&mut self) -> Result<u32, AllocError>
        ensures number { IfOk result (λ n. n ≡ self.old.calls) }
        ensures met { OnOk result (met_of self.new ≡ after_call (met_of self.old)) }
    {
        let number = self.calls;
        self.calls = next(number)?;
        Ok(number)
    }

    /// Meets a matrix with cells of its own.
    fn meet_matrix(&mut self, sides: (i64, i64)) -> Result<Seat, AllocError>
        ensures seat { IfOk result (λ s. s ≡ whole_seat (met_of self.old) sides) }
        ensures small { IfOk result IsSmall }
        ensures met { OnOk result (met_of self.new ≡ after_matrix (met_of self.old) sides) }
    {
        let (w, h) = (natural(sides.0), natural(sides.1));
        if w > MOST_SIDE {
            return Err(AllocError);
        }
        if h > MOST_SIDE {
            return Err(AllocError);
        }
        if self.cells > MOST_CELLS {
            return Err(AllocError);
        }
        let seat = Seat::whole(self.matrices, self.cells, w, h);
        self.matrices = next(self.matrices)?;
        self.cells += w * h;
        Ok(seat)
    }

    /// Meets matrices, one after the other.
    pub(crate) fn meet_matrices(
        &mut self,
        alloc: Global,
        sides: &[(i64, i64)],
    ) -> Result<Vec<Seat>, AllocError>
        ensures seats { IfOk result (λ seats. seats.items ≡ seats_from (met_of self.old) sides.now) }
        ensures small { IfOk result (λ seats. All IsSmall seats.items) }
        ensures met { OnOk result (met_of self.new ≡ after_matrices (met_of self.old) sides.now) }
    {
        let mut seats = Vec::new(alloc);
        for k in 0..sides.len() {
            let seat = self.meet_matrix(sides[k])?;
            seats.push(seat)?;
        }
        Ok(seats)
    }
}
