ghost use Rattle.std.specs.Prelude.{◌≡◌, ℕ, negsuc, ◌+ℤ◌, ◌-ℤ◌, ◌*ℤ◌, IfOk, List};
ghost use Rattle.std.specs.Result.{result_err};
ghost use Rattle.pb_linear.specs.Form.{HasNumbers, numbers, value};
ghost use Rattle.pb_linear.specs.Numbers.{difference, multiple, refusal, sum_of};

use crate::form::{Form, OverLimit};
use crate::vform::{End, VForm};

impl Form {
    const ZERO: Self = Self {
        constant: 0,
        whole: [0; 8],
        half: [0; 8],
        third: [0; 8],
        quarter: [0; 8],
    };

    /// The sum.
    pub fn add(&self, other: &Form) -> Result<Form, OverLimit>
        ensures numbers { IfOk result (HasNumbers (sum_of (numbers self.now) (numbers other.now))) }
        ensures over_limit { result_err result ≡ refusal (sum_of (numbers self.now) (numbers other.now)) }
        ensures value { IfOk result (λ f. (sizes : List ℕ)
            → value f sizes ≡ value self.now sizes +ℤ value other.now sizes) }
    {
        self.plus_multiple(1, other)
    }

    /// The difference.
    pub fn sub(&self, other: &Form) -> Result<Form, OverLimit>
        ensures numbers { IfOk result (HasNumbers (difference (numbers self.now) (numbers other.now))) }
        ensures over_limit { result_err result ≡ refusal (difference (numbers self.now) (numbers other.now)) }
        ensures value { IfOk result (λ f. (sizes : List ℕ)
            → value f sizes ≡ value self.now sizes -ℤ value other.now sizes) }
    {
        self.plus_multiple(-1, other)
    }

    /// The multiple.
    pub fn scale(&self, k: i64) -> Result<Form, OverLimit>
        ensures numbers { IfOk result (HasNumbers (multiple k (numbers self.now))) }
        ensures over_limit { result_err result ≡ refusal (multiple k (numbers self.now)) }
        ensures value { IfOk result (λ f. (sizes : List ℕ) → value f sizes ≡ k *ℤ value self.now sizes) }
    {
        Self::ZERO.plus_multiple(k, self)
    }

    /// The sum with a multiple of another form.
    fn plus_multiple(&self, k: i64, other: &Form) -> Result<Form, OverLimit>
        ensures numbers { IfOk result (HasNumbers (sum_of (numbers self.now) (multiple k (numbers other.now)))) }
        ensures over_limit { result_err result
            ≡ refusal (sum_of (numbers self.now) (multiple k (numbers other.now))) }
    {
        let other = End {
            constant: other.constant,
            form: *other,
        };
        let sum = VForm {
            x: k,
            y: 0,
            rest: *self,
        };
        sum.put(&other, &other)
    }
}
