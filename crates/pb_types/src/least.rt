ghost use Rattle.std.specs.Prelude.{◌≡◌};
ghost use Rattle.pb_types.specs.Least.{unless, least, least_of};

/// The earlier of two places that may be there.
pub(crate) fn least(a: Option<u32>, b: Option<u32>) -> Option<u32>
    ensures { result ≡ least a b }
{
    match (a, b) {
        (Some(a), Some(b)) => Some(a.min(b)),
        (Some(a), None) => Some(a),
        (None, b) => b,
    }
}

/// The place, where something isn't right.
#[tactic(auto, using(crate::proofs::LeastLemmas::least_one, crate::proofs::LeastLemmas::least_none))]
pub(crate) fn unless(right: bool, at: u32) -> Option<u32>
    ensures { result ≡ least_of (unless right at) }
{
    if right { None } else { Some(at) }
}
