use pb_values::Name;

/// An expression. `at` is the place of its first byte; one without begins with a name or an expression, whose place
/// that is. The operands of a chain of binary operators stand side by side: the first, then each other with the
/// operator before it.
#[derive(Drop)]
pub enum ExprText {
    Number {
        at: u32,
        value: u64,
    },
    Name(Name),
    Call {
        called: Name,
        arguments: Vec<ExprText>,
    },
    Parentheses {
        at: u32,
        inner: Box<ExprText>,
    },
    Cell {
        view: Name,
        coordinates: Vec<ExprText>,
    },
    Width(Name),
    Height(Name),
    Signed {
        at: u32,
        sign: UnarySign,
        operand: Box<ExprText>,
    },
    Chain {
        level: Level,
        first: Box<ExprText>,
        rest: Vec<(Operator, ExprText)>,
    },
    Compare {
        left: Box<ExprText>,
        relation: Relation,
        right: Box<ExprText>,
    },
}

/// `-` or `!` before an operand.
#[derive(Clone, Copy, Debug)]
pub enum UnarySign {
    Minus,
    Not,
}

/// The precedence levels of binary operators, the tightest first.
#[derive(Clone, Copy, Debug)]
pub enum Level {
    Product,
    Sum,
    Conjunction,
    Disjunction,
}

/// The binary operators, by level: `*` `/` `%`, `+` `-`, `&&`, `||`.
#[derive(Clone, Copy, Debug)]
pub enum Operator {
    Times,
    Over,
    Modulo,
    Plus,
    Minus,
    And,
    Or,
}

/// `<`, `<=`, `>`, `>=`, `==`, `!=`.
#[derive(Clone, Copy, Debug)]
pub enum Relation {
    Less,
    LessOrEqual,
    Greater,
    GreaterOrEqual,
    Equal,
    Unequal,
}
