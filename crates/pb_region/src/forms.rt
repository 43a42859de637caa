ghost use Rattle.std.specs.Prelude.{◌≡◌, ◌≤◌, ◌^◌, ◌+◌, ℤ, pos, negsuc, ◌+ℤ◌, IsTrue, unsigned_abs};
ghost use Rattle.pb_linear.specs.Limits.{is_number};
ghost use Rattle.pb_linear.specs.Form.{numbers};
ghost use Rattle.pb_linear.specs.Numbers.{difference, multiple};
ghost use Rattle.pb_program.specs.Forms.{constant_numbers};
ghost use Rattle.pb_region.specs.Gaps.{raised};
ghost use Rattle.pb_region.specs.Small.{AreSmall};

use pb_linear::Form;

/// The form of a constant.
pub(crate) fn constant(k: i64) -> Form
    requires { unsigned_abs k ≤ 2 ^ 23 }
    ensures { numbers result ≡ constant_numbers k }
{
    Form {
        constant: k,
        whole: [0; 8],
        half: [0; 8],
        third: [0; 8],
        quarter: [0; 8],
    }
}

/// The form with a greater constant.
pub(crate) fn raised(form: &Form, k: i64) -> Form
    requires { unsigned_abs form.now.constant + unsigned_abs k ≤ 2 ^ 26 }
    ensures numbers { numbers result ≡ raised k (numbers form.now) }
    ensures small { unsigned_abs result.constant ≤ unsigned_abs form.now.constant + unsigned_abs k }
{
    Form {
        constant: form.constant + k,
        whole: form.whole,
        half: form.half,
        third: form.third,
        quarter: form.quarter,
    }
}

/// The difference of two forms.
#[tactic(auto, using(crate::proofs::FormLemmas::numbers_are, crate::proofs::FormLemmas::no_refusal))]
pub(crate) fn difference(left: &Form, right: &Form) -> Form
    requires left { AreSmall (numbers left.now) }
    requires right { AreSmall (numbers right.now) }
    ensures numbers { numbers result ≡ difference (numbers left.now) (numbers right.now) }
    ensures small { unsigned_abs result.constant ≤ 2 ^ 25 }
{
    match left.sub(right) {
        Ok(form) => form,
        Err(_) => unreachable!(),
    }
}

/// The negative of a form.
#[tactic(auto, using(crate::proofs::FormLemmas::numbers_are))]
pub(crate) fn negative(form: &Form) -> Form
    ensures numbers { numbers result ≡ multiple (negsuc 0) (numbers form.now) }
    ensures small { unsigned_abs result.constant ≡ unsigned_abs form.now.constant }
{
    match form.scale(-1) {
        Ok(form) => form,
        Err(_) => unreachable!(),
    }
}
