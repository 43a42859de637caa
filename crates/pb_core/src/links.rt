ghost use Rattle.std.specs.Prelude.{◌≡◌, ◌<◌, length, slice_set, true};
ghost use Rattle.pb_taskgraph.specs.Graphs.{EachOnce};
ghost use Rattle.pb_core.specs.Cores.{FindsOpen};

use std::marker::Model;

/// Whether a task has released each of its successors.
#[derive(Drop)]
pub(crate) struct Flags {
    pub(crate) list: Vec<bool>,
}

impl Model for Flags {
    ghost use Rattle.std.specs.Prelude.{Bool, List};

    ghost Value = { List Bool };

    ghost view = { λ f. f.list.items };
}

impl Flags {
    pub(crate) fn set(&mut self, place: usize)
        requires { place < length self.old }
        ensures { self.new ≡ slice_set self.old place true }
    {
        self.list[place] = true;
    }
}

/// The place of a number whose flag isn't set.
pub(crate) fn open_place(numbers: &[u32], flags: &[bool], number: u32) -> Option<usize>
    requires flags { length flags.now ≡ length numbers.now }
    requires once { EachOnce numbers.now }
    ensures { FindsOpen numbers.now flags.now number result }
{
    for place in 0..numbers.len() {
        if numbers[place] == number {
            return if flags[place] { None } else { Some(place) };
        }
    }
    None
}
