//! How many there may be of each item of a program, and how large its numbers may be.

/// Bytes of a program text.
pub const MOST_BYTES: usize = 1_048_576;

/// The value of a number.
pub const MOST_VALUE: u64 = 9_223_372_036_854_775_807;

/// Transforms of a program.
pub const MOST_TRANSFORMS: usize = 64;

/// Rules of a transform.
pub const MOST_RULES: usize = 32;

/// Matrices of a transform: those after `from`, `through` and `to` together.
pub const MOST_MATRICES: usize = 16;

/// Different names that stand alone as a dimension after `from`.
pub const MOST_SIZES: usize = 8;

/// Minimums of a transform.
pub const MOST_MINIMUMS: usize = 8;

/// Outputs of a rule, and also its reads.
pub const MOST_VIEWS: usize = 16;

/// Conditions of a rule.
pub const MOST_CONDITIONS: usize = 16;

/// Targets of a call.
pub const MOST_TARGETS: usize = 16;

/// Arguments of a call.
pub const MOST_ARGUMENTS: usize = 16;

/// Terms of a form.
pub const MOST_TERMS: usize = 8;

/// The value of a number in a form, a minimum or `priority`.
pub const MOST_NUMBER: u64 = 1_048_576;

/// Statements of a rule's body, those in blocks too.
pub const MOST_STATEMENTS: u32 = 256;

/// `(` and `{` that are open at one place of a rule's body, the body's own brace counted.
pub const MOST_NESTING: u32 = 32;
