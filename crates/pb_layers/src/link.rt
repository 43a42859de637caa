/// How many lists there are. A list is named by its place among them, from 0.
pub const LISTS: usize = 12;

/// Two nodes.
#[derive(Clone, Copy, PartialEq, Eq, Debug)]
pub struct Link {
    pub from: u32,
    pub to: u32,
}

/// An edge from a reader to its source, and for each list whether it serves the edge.
#[derive(Clone, Copy, PartialEq, Eq, Debug)]
pub struct Edge {
    pub reader: u32,
    pub source: u32,
    pub serves: [bool; LISTS],
}
