ghost use Rattle.std.specs.Prelude.{◌≡◌, ◌<◌, ◌≤◌, ◌^◌, ℕ, IfOk, length};
ghost use Rattle.pb_layers.specs.Numbers.{AreKeys, ArePlaces, IsRising, key_at};

use std::alloc::{AllocError, Global};

/// What components are numbered by: their depth, and then their least member.
#[derive(Clone, Copy, PartialEq, Eq, PartialOrd, Ord)]
pub(crate) struct Key {
    pub(crate) depth: u32,
    pub(crate) root: u32,
}

fn unsorted(alloc: Global, least: &[u32], depth: &[u32]) -> Result<Vec<Key>, AllocError>
    requires short { length least.now < 2 ^ 32 }
    requires room { length depth.now ≡ length least.now }
    ensures { IfOk result (λ keys. AreKeys least.now depth.now (length least.now) keys.items) }
{
    let mut keys = Vec::new(alloc);
    for root in 0..least.len() as u32 {
        if least[root as usize] == root {
            keys.push(Key {
                depth: depth[root as usize],
                root,
            })?;
        }
    }
    Ok(keys)
}

/// The keys of the components in rising order.
pub(crate) fn keys(alloc: Global, least: &[u32], depth: &[u32]) -> Result<Vec<Key>, AllocError>
    requires short { length least.now < 2 ^ 32 }
    requires room { length depth.now ≡ length least.now }
    ensures keys { IfOk result (λ keys. AreKeys least.now depth.now (length least.now) keys.items) }
    ensures rising { IfOk result (λ keys. IsRising keys.items) }
{
    let mut keys = unsorted(alloc, least, depth)?;
    keys.sort()?;
    Ok(keys)
}

/// The place of each component among the keys, by its least member.
pub(crate) fn places(alloc: Global, keys: &[Key], nodes: u32) -> Result<Vec<u32>, AllocError>
    requires short { length keys.now ≤ nodes }
    requires inside { (place : ℕ) → place < length keys.now → (key_at keys.now place).root < nodes }
    requires apart { (i j : ℕ) → i < length keys.now → j < length keys.now → (key_at keys.now i).root ≡ (key_at keys.now j).root → i ≡ j }
    ensures room { IfOk result (λ places. length places.items ≡ nodes) }
    ensures is { IfOk result (λ places. ArePlaces keys.now (length keys.now) places.items) }
{
    let mut places = vec![in alloc; 0; nodes as usize]?;
    for place in 0..keys.len() as u32 {
        places[keys[place as usize].root as usize] = place;
    }
    Ok(places)
}
