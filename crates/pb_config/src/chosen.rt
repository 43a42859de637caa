ghost use Rattle.std.specs.Prelude.{◌≡◌, ◌<◌, length};
ghost use Rattle.pb_program.specs.Configs.{chosen, same_site};

use pb_program::{Config, Site};

/// Whether this is the site of a transform, a matrix and a set.
pub(crate) fn is_at(site: &Site, t: u32, matrix: u32, set: &[u32]) -> bool
    ensures { result ≡ same_site (record { transform = t; matrix = matrix; set = set.now }) site.now }
{
    site.transform == t && site.matrix == matrix && site.set.as_slice() == set
}

/// The rule that is chosen for the cells of a matrix that just the rules of `set` may make, at a size.
pub fn choose(c: &Config, t: u32, matrix: u32, set: &[u32], size: u64) -> u32
    requires some { 0 < length set.now }
    ensures chosen { result ≡ chosen c.now (record { transform = t; matrix = matrix; set = set.now }) size }
{
    for entry in &c.entries {
        if is_at(&entry.site, t, matrix, set) {
            return entry.selector.pick(size);
        }
    }
    set[0]
}
