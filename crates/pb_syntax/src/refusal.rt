use pb_linear::{Form, Sizes, SymBox};
use pb_values::Name;
use std::alloc::{AllocError, AllocFailed};
use std::marker::Model;

/// The items of a program whose number is limited.
#[derive(Clone, Copy, Debug)]
pub enum Item {
    Transforms,
    Rules,
    Matrices,
    Sizes,
    Outputs,
    Reads,
    Conditions,
    Minimums,
    Targets,
    Arguments,
    Terms,
    Number,
    Statements,
    Nesting,
}

/// Segments of a transform, by number, from 0; contracts see the list of them.
#[derive(Drop)]
pub struct Segments {
    pub numbers: Vec<u32>,
}

impl Model for Segments {
    ghost use Rattle.std.specs.Prelude.{List, ℕ};

    ghost Value = { List ℕ };

    ghost view = { λ s. s.numbers.items };
}

/// The first fault of a program. `at` is a place in its text, from 0; transforms, matrices, rules, outputs,
/// conditions and segments are numbers, from 0; an axis is 0 for x and 1 for y. `Memory`: memory ran out.
#[derive(Drop)]
pub enum Refusal {
    TooLong,
    BadToken {
        at: u32,
    },
    BadSyntax {
        at: u32,
    },
    OverLimit {
        what: Item,
        at: u32,
    },
    DuplicateName {
        name: Name,
        at: u32,
    },
    UnknownName {
        name: Name,
        at: u32,
    },
    SizeNotBound {
        name: Name,
        at: u32,
    },
    BadOutput {
        at: u32,
    },
    BadType {
        at: u32,
    },
    NegativeDim {
        transform: u32,
        matrix: u32,
        axis: u8,
        sizes: Sizes,
    },
    OverlapOutputs {
        transform: u32,
        rule: u32,
        first: u32,
        second: u32,
    },
    NotABox {
        transform: u32,
        rule: u32,
        condition: u32,
    },
    Crossing {
        transform: u32,
        matrix: u32,
        axis: u8,
        first: Form,
        second: Form,
        over: Sizes,
        under: Sizes,
    },
    Uncovered {
        transform: u32,
        matrix: u32,
        area: SymBox,
    },
    TooManySegments {
        transform: u32,
        matrix: u32,
    },
    NoOrder {
        transform: u32,
        segments: Segments,
    },
    Memory,
}

impl From<AllocError> for Refusal {
    ghost use Rattle.std.specs.Prelude.{◌≡◌};
    ghost use Rattle.pb_syntax.specs.declared.refusal.Refusal.TheVariants.{Memory};

    ghost from_gives = { λ _ e. e ≡ Memory };

    fn from(_error: AllocError) -> Refusal {
        Refusal::Memory
    }
}

impl<T: Drop> From<AllocFailed<T>> for Refusal {
    ghost use Rattle.std.specs.Prelude.{◌≡◌};
    ghost use Rattle.pb_syntax.specs.declared.refusal.Refusal.TheVariants.{Memory};

    ghost from_gives = { λ _ e. e ≡ Memory };

    fn from(_error: AllocFailed<T>) -> Refusal {
        Refusal::Memory
    }
}
