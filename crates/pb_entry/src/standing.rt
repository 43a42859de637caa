ghost use Rattle.std.specs.Prelude.{◌≡◌, ◌<◌, ◌↔◌, IsTrue, length, pos};
ghost use Rattle.std.specs.List.{All, AllByRecursion};
ghost use Rattle.pb_linear.specs.Form.{numbers};
ghost use Rattle.pb_program.specs.WellFormed.{size_numbers};
ghost use Rattle.pb_entry.specs.Standing.{IsShort, IsUnit};

use pb_linear::Form;

fn is_zero(row: &[i64]) -> bool
    requires { All IsShort row.now }
    ensures { IsTrue result ↔ AllByRecursion (λ z. z ≡ pos 0) row.now }
{
    for coefficient in row {
        if *coefficient != 0 {
            return false;
        }
    }
    true
}

/// Whether one coefficient is 1 and the others are 0.
fn is_unit(row: &[i64; 8], k: usize) -> bool
    requires place { k < 8 }
    requires short { All IsShort row.now }
    ensures { IsTrue result ↔ IsUnit k row.now }
{
    if row[k] != 1 {
        return false;
    }
    if !is_zero(&row[..k]) {
        return false;
    }
    is_zero(&row[k + 1..])
}

/// Whether a form is a size variable alone.
#[tactic(auto, using(crate::proofs::RowLemmas::short_row))]
pub(crate) fn stands_alone(form: &Form, k: usize) -> bool
    requires { k < 8 }
    ensures { IsTrue result ↔ size_numbers k (numbers form.now) }
{
    if form.constant != 0 {
        return false;
    }
    if !is_unit(&form.whole, k) {
        return false;
    }
    if !is_zero(&form.half) {
        return false;
    }
    if !is_zero(&form.third) {
        return false;
    }
    is_zero(&form.quarter)
}
