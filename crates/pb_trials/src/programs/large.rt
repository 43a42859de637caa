//! Large texts.

const HEAD: &str = "transform T from A[n] to B[n]{to(B b)from(){b=1";

const TAIL: &str = ";}}";

/// A text, a part and how often it is repeated, a last text, and what is said of the whole.
pub(crate) const LARGE: [(&str, usize, &str, &str, &str); 16] = [
    (HEAD, 100_000, "+1", TAIL, "accepted"),
    (HEAD, 100_000, "*1", TAIL, "accepted"),
    (HEAD, 100_000, "&&1", TAIL, "accepted"),
    (HEAD, 100_000, "||1", TAIL, "accepted"),
    (HEAD, 520_000, "+1", TAIL, "accepted"),
    (HEAD, 520_000, "/b", TAIL, "accepted"),
    (HEAD, 200_000, "-(1)", TAIL, "accepted"),
    (HEAD, 100_000, "%f(b,1)", TAIL, "accepted"),
    (HEAD, 100_000, "&&-1<!b", TAIL, "accepted"),
    (HEAD, 500_000, "+1", "", "bad syntax at 1000047"),
    (HEAD, 1_000_000, "(", "", "bad syntax at 47"),
    (
        "transform T from A[n] to B[n]{to(B b)from(){",
        250_000,
        "b=1;",
        "}}",
        "over limit: statements at 1068",
    ),
    (
        "transform T from A[n] to B[n]{to(B b)from(){b=",
        1_000_000,
        "(",
        "",
        "over limit: nesting at 77",
    ),
    ("", 1_000_000, ";", "", "bad syntax at 0"),
    ("", 500_000, "a ", "", "bad syntax at 0"),
    (
        "",
        20_000,
        "transform T from A[n]to B[n]{to(B b)from(){}}",
        "",
        "over limit: transforms at 2880",
    ),
];
