use crate::tree::{ExprText, FormText};
use pb_values::Name;

/// A statement. `at` is the place of its first byte; one without begins with a name, whose place that is.
#[derive(Drop)]
pub enum StmtText {
    Let {
        at: u32,
        name: Name,
        value: ExprText,
    },
    LetMatrix {
        at: u32,
        name: Name,
        dims: Vec<FormText>,
    },
    Assign {
        target: Name,
        value: ExprText,
    },
    Call {
        targets: Vec<Name>,
        called: Name,
        arguments: Vec<ExprText>,
    },
    AssignCell {
        target: Name,
        coordinates: Vec<ExprText>,
        value: ExprText,
    },
    If {
        at: u32,
        test: ExprText,
        then: Vec<StmtText>,
        otherwise: Option<Vec<StmtText>>,
    },
    For {
        at: u32,
        name: Name,
        start: ExprText,
        end: ExprText,
        body: Vec<StmtText>,
    },
}
