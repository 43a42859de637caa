ghost use Rattle.std.specs.Prelude.{◌≡◌, IfOk, take};
ghost use Rattle.std.specs.Map.{values_of};
ghost use Rattle.pb_tuner.specs.Tuned.{IsNext, IsRanking, fits};

use crate::copies::copy_config;
use crate::journal::Asked;
use crate::judge::Cost;
use pb_program::Config;
use std::alloc::{AllocError, Global};
use std::collections::BTreeMap;

/// The most members of a population that were selected.
const MOST_MEMBERS: usize = 4;

// The earliest fit configuration of each cost, by cost.
fn rank(alloc: Global, asked: &[Asked]) -> Result<BTreeMap<u64, Config>, AllocError>
    ensures { IfOk result (λ ranking. IsRanking (fits asked.now) ranking.entries) }
{
    let mut ranking = BTreeMap::new(alloc);
    for answer in asked {
        if let Cost::Fit(cost) = answer.cost {
            if !ranking.contains_key(&cost) {
                ranking.insert(cost, copy_config(alloc, &answer.config)?)?;
            }
        }
    }
    Ok(ranking)
}

// The configurations of the least costs.
fn cheapest(alloc: Global, ranking: BTreeMap<u64, Config>) -> Result<Vec<Config>, AllocError>
    ensures { IfOk result (λ members. members.items ≡ take 4 (values_of ranking.entries)) }
{
    let mut members: Vec<Config> = ranking.into_values().collect(alloc)?;
    members.truncate(MOST_MEMBERS);
    Ok(members)
}

/// The next population: the configurations of the least costs. Where none is fit it stays.
pub(crate) fn select(
    alloc: Global,
    population: Vec<Config>,
    asked: &[Asked],
) -> Result<Vec<Config>, AllocError>
    ensures { IfOk result (λ next. IsNext population.items asked.now next.items) }
{
    let ranking = rank(alloc, asked)?;
    if ranking.is_empty() {
        return Ok(population);
    }
    cheapest(alloc, ranking)
}
