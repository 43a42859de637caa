/// What a name in a body stands for: a size variable; the rule variable of x or of y; an output or a read of the rule; a
/// number or a matrix that is local to the body. Each number is a place in a list, from 0; the number of a local is how
/// many locals are visible where it is declared.
#[derive(Clone, Copy, Debug)]
pub enum Meaning {
    Size(u32),
    RuleX,
    RuleY,
    Output(u32),
    Read(u32),
    Number(u32),
    Matrix(u32),
}

/// A name in a body: the place of its first byte, and what it stands for.
#[derive(Clone, Copy, Debug)]
pub struct Named {
    pub at: u32,
    pub what: Meaning,
}

/// The functions that a body may call.
#[derive(Clone, Copy, Debug)]
pub enum Function {
    Sum,
    Dot,
    Min,
    Max,
    Abs,
}

/// What a call calls: a function, or a transform by its number.
#[derive(Clone, Copy, Debug)]
pub enum Callee {
    Function(Function),
    Transform(u32),
}

/// The name of a call: the place of its first byte, and what it calls.
#[derive(Clone, Copy, Debug)]
pub struct Called {
    pub at: u32,
    pub what: Callee,
}
