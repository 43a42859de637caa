ghost use Rattle.std.specs.Prelude.{◌≡◌, ◌*◌, ◌^◌, ◌≤◌, ◌*ℤ◌, pos, unsigned_abs};
ghost use Rattle.pb_sums.specs.Sums.{sum_of_places, sum_of_products, sum_of_squares};

use crate::progression::Progression;

#[tactic(auto, using(crate::proofs::SumLemmas::places_are, crate::proofs::SumLemmas::places_near))]
fn sum_of_places(places: u64) -> u64
    requires { places ≤ 2 ^ 23 }
    ensures value { result ≡ sum_of_places places }
    ensures near { result ≤ 2 ^ 45 }
{
    (places * places - places) / 2
}

#[tactic(auto, using(crate::proofs::SumLemmas::squares_are, crate::proofs::SumLemmas::squares_near))]
fn sum_of_squares(places: u64) -> u128
    requires { places ≤ 2 ^ 23 }
    ensures value { result ≡ sum_of_squares places }
    ensures near { result ≤ 2 ^ 68 }
{
    let n = u128::from(places);
    (2 * n * n * n + n - 3 * n * n) / 6
}

#[tactic(auto, using(crate::proofs::SumLemmas::near_product))]
fn product(a: i64, b: i64) -> i128
    requires left { unsigned_abs a ≤ 2 ^ 27 }
    requires right { unsigned_abs b ≤ 2 ^ 27 }
    ensures value { result ≡ a *ℤ b }
    ensures near { unsigned_abs result ≤ 2 ^ 54 }
{
    i128::from(a) * i128::from(b)
}

#[tactic(auto, using(crate::proofs::SumLemmas::near_product))]
fn times(k: i128, sum: u128) -> i128
    requires factor { unsigned_abs k ≤ 2 ^ 55 }
    requires sum { sum ≤ 2 ^ 68 }
    ensures value { result ≡ k *ℤ pos sum }
    ensures near { unsigned_abs result ≤ 2 ^ 123 }
{
    k * sum as i128
}

/// The sum of the products of two such numbers, over places from 0 on, 2^23 at most.
pub fn sum_of_products(a: &Progression, b: &Progression, places: u64) -> i128
    requires { places ≤ 2 ^ 23 }
    ensures { result ≡ sum_of_products a.now b.now places }
{
    let mixed = product(a.first, b.step) + product(a.step, b.first);
    times(product(a.first, b.first), places as u128)
        + times(mixed, sum_of_places(places) as u128)
        + times(product(a.step, b.step), sum_of_squares(places))
}
