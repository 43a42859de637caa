use std::marker::Model;

/// Numbers of tasks.
#[derive(Debug, Drop)]
pub struct Numbers {
    pub list: Vec<u32>,
}

impl Model for Numbers {
    ghost use Rattle.std.specs.Prelude.{ℕ, List};

    ghost Value = { List ℕ };

    ghost view = { λ n. n.list.items };
}

/// The predecessors (`before`) and the successors (`after`) of each task, by the task's number.
#[derive(Debug, Drop)]
pub struct Links {
    pub before: Vec<Numbers>,
    pub after: Vec<Numbers>,
}

impl Model for Links {
    ghost use Rattle.pb_links.specs.Links.{LinksValue};

    ghost Value = { LinksValue };

    ghost view = { λ l. record { before = l.before.items; after = l.after.items } };
}
