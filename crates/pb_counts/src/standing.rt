ghost use Rattle.std.specs.Prelude.{◌≡◌, ◌<◌};
ghost use Rattle.std.specs.List.{All};
ghost use Rattle.pb_linear.specs.Form.{numbers};
ghost use Rattle.pb_recursion.specs.Shapes.{is_unit_row, is_zero_row, stands_alone};
ghost use Rattle.pb_counts.specs.Rows.{IsShort};

use pb_linear::Form;

fn is_zero(row: &[i64]) -> bool
    requires { All IsShort row.now }
    ensures { result ≡ is_zero_row row.now }
{
    for coefficient in row {
        if *coefficient != 0 {
            return false;
        }
    }
    true
}

/// Whether one coefficient is 1 and the others are 0.
fn is_unit(row: &[i64; 8], k: usize) -> bool
    requires place { k < 8 }
    requires short { All IsShort row.now }
    ensures { result ≡ is_unit_row k row.now }
{
    if row[k] != 1 {
        return false;
    }
    if !is_zero(&row[..k]) {
        return false;
    }
    is_zero(&row[k + 1..])
}

/// Whether a form is a size variable alone.
#[tactic(auto, using(crate::proofs::RowLemmas::short_row))]
pub(crate) fn stands_alone(form: &Form, k: usize) -> bool
    requires { k < 8 }
    ensures { result ≡ stands_alone k (numbers form.now) }
{
    if form.constant != 0 {
        return false;
    }
    if !is_unit(&form.whole, k) {
        return false;
    }
    if !is_zero(&form.half) {
        return false;
    }
    if !is_zero(&form.third) {
        return false;
    }
    is_zero(&form.quarter)
}
