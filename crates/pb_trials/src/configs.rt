//! Configurations: what is read from a text for a program, how it is printed, what it chooses, and how it is extended.
ghost use Rattle.std.specs.Prelude.{IfOk};
ghost use Rattle.pb_program.specs.Trees.{bare_prog};
ghost use Rattle.pb_program.specs.WellFormed.{IsWellFormed};

use pb_config::{ConfigRefusal, choose, extend, print_config, read_config};
use pb_front::{a_tree_that_is_read_is_within_limits, read_text};
use pb_prog::Refusal;
use pb_program::Site;
use pb_resolve::{Prog, resolve};
use std::alloc::{AllocError, Global};
use std::test::Fail;

// A matrix that two rules write, and one that only the second writes.
const PROGRAM: &str =
    "transform T from A[n] through M[n] to B[n] { to (B.cell(i) b) from (A.cell(i) a) { b = a; } \
to (B b, M m) from (A a) { } to (M.cell(i) m) from () { m = 1; } }";

// A text, and the text that is printed of it with what it chooses of the rules 0 and 1 of `B` at the sizes 3 and 4; or
// the fault of a line.
const ROWS: [(&str, &str); 24] = [
    ("", "; 0 0"),
    ("choose T.B {0,1} = 1", "choose T.B {0,1} = 1\n; 1 1"),
    (
        "\t# choose\r\n \t\r\n\n choose T . B { 0 , 01 } = 0000001 until 4 then 0 ",
        "choose T.B {0,1} = 1 until 4 then 0\n; 1 0",
    ),
    (
        "chooseT.B{0,1}=0until4then1",
        "choose T.B {0,1} = 0 until 4 then 1\n; 0 1",
    ),
    (
        "choose T.B {0} = 0\nchoose T.M {1,2} = 2 until 9 then 1",
        "choose T.B {0} = 0\nchoose T.M {1,2} = 2 until 9 then 1\n; 0 0",
    ),
    (
        "choose T.B {0,1} = 0 until 1048576 then 1",
        "choose T.B {0,1} = 0 until 1048576 then 1\n; 0 0",
    ),
    ("choose", "bad line 1"),
    ("# a remark\n\nchoose T.B {0,1} = 0\r", "bad line 3"),
    ("choose T.B {1,0} = 0", "bad line 1"),
    ("choose T.B {} = 0", "bad line 1"),
    ("choose T.B {0,1,} = 0", "bad line 1"),
    ("choose T.B {0} = 0 x", "bad line 1"),
    ("choose T.B {0,1} = 0 until 0 then 1", "bad line 1"),
    ("choose T.B {0,1} = 0 until 1048577 then 1", "bad line 1"),
    ("choose T.B {0,00000001} = 0", "bad line 1"),
    ("choose T.A {0} = 0", "unknown place 1"),
    ("choose T.M {0} = 0", "unknown place 1"),
    ("choose T.B {0,3} = 7", "unknown place 1"),
    ("choose transform.B {0} = 0", "unknown place 1"),
    ("choose T.B {0,1} = 2", "not in set 1"),
    (
        "choose T.B {0} = 0 until 5 then 1 until 5 then 0",
        "not in set 1",
    ),
    (
        "choose T.B {0,1} = 0 until 8 then 1 until 8 then 0",
        "not rising 1",
    ),
    (
        "choose T.B {0} = 0\nchoose T.B {0,1} = 0\nchoose T.B {0} = 0",
        "twice 3",
    ),
    (
        "choose T.B {0,1} = 0 until 1 then 1 until 2 then 0 until 3 then 1 until 4 then 0 until 5 then 1 until 6 then 0 until 7 then 1 until 8 then 0",
        "bad line 1",
    ),
];

// A text, a size and a rule, and what is printed of the configuration with this level for the rules 0 and 1 of `B`.
const EXTENSIONS: [(&str, u64, u32, &str); 19] = [
    // Without an entry the first rule is that of all sizes, and a new entry comes last.
    ("", 4, 1, "choose T.B {0,1} = 0 until 4 then 1\n"),
    ("", 1, 1, "choose T.B {0,1} = 0 until 1 then 1\n"),
    (
        "",
        1_048_576,
        1,
        "choose T.B {0,1} = 0 until 1048576 then 1\n",
    ),
    ("", 4, 0, "nothing new"),
    ("choose T.M {0,1} = 0\nchoose T.B {0} = 0", 2, 1, "unread"),
    (
        "choose T.M {1} = 1\nchoose T.B {0} = 0",
        2,
        1,
        "choose T.M {1} = 1\nchoose T.B {0} = 0\nchoose T.B {0,1} = 0 until 2 then 1\n",
    ),
    // An entry keeps its place and its levels.
    (
        "choose T.B {0,1} = 1",
        4,
        0,
        "choose T.B {0,1} = 1 until 4 then 0\n",
    ),
    (
        "choose T.B {0,1} = 0 until 4 then 1",
        8,
        0,
        "choose T.B {0,1} = 0 until 4 then 1 until 8 then 0\n",
    ),
    (
        "choose T.B {0} = 0\nchoose T.B {0,1} = 1\nchoose T.M {1} = 1",
        4,
        0,
        "choose T.B {0} = 0\nchoose T.B {0,1} = 1 until 4 then 0\nchoose T.M {1} = 1\n",
    ),
    // The rule of the last level.
    ("choose T.B {0,1} = 1", 4, 1, "nothing new"),
    ("choose T.B {0,1} = 0 until 4 then 1", 8, 1, "nothing new"),
    // The last cutoff is at least the size.
    ("choose T.B {0,1} = 0 until 4 then 1", 3, 0, "nothing new"),
    ("choose T.B {0,1} = 0 until 4 then 1", 4, 0, "nothing new"),
    (
        "choose T.B {0,1} = 0 until 4 then 1",
        5,
        0,
        "choose T.B {0,1} = 0 until 4 then 1 until 5 then 0\n",
    ),
    (
        "choose T.B {0,1} = 0 until 1048576 then 1",
        1_048_576,
        0,
        "nothing new",
    ),
    // The eighth level is the last.
    (
        "choose T.B {0,1} = 0 until 1 then 1 until 2 then 0 until 3 then 1 until 4 then 0 until 5 then 1 until 6 then 0",
        7,
        1,
        "choose T.B {0,1} = 0 until 1 then 1 until 2 then 0 until 3 then 1 until 4 then 0 until 5 then 1 until 6 then 0 until 7 then 1\n",
    ),
    (
        "choose T.B {0,1} = 0 until 1 then 1 until 2 then 0 until 3 then 1 until 4 then 0 until 5 then 1 until 6 then 0 until 7 then 1",
        8,
        0,
        "nothing new",
    ),
    // The rule has to be in the set, and the size from 1 to 1,048,576.
    ("", 4, 2, "no level"),
    ("", 1_048_577, 1, "no level"),
];

// Each cell of `B` is a sum of cells of `A`, or made from the cell before it.
pub(crate) const ROLL: &str =
    "transform RollingSum from A[n] to B[n] { to (B.cell(i) b) from (A.region(0, i + 1) a) { b = sum(a); } \
to (B.cell(i) b) from (A.cell(i) a, B.cell(i - 1) l) { b = a + l; } }";

const ROLL_ROWS: [(&str, &str); 5] = [
    ("choose RollingSum.B {0,1} = 2", "not in set 1"),
    (
        "choose RollingSum.B {0,1} = 0 until 8 then 1 until 8 then 0",
        "not rising 1",
    ),
    (
        "choose RollingSum.B {0,1} = 0 until 2 then 1\nchoose RollingSum.B {0,1} = 0 until 2 then 1",
        "twice 2",
    ),
    ("choose RollingSum.A {0} = 0", "unknown place 1"),
    ("choose", "bad line 1"),
];

fn read(alloc: Global, p: &Prog, text: &str) -> Result<Vec<u8>, ConfigRefusal>
    requires { IsWellFormed (bare_prog p.now) }
{
    let config = read_config(alloc, text.as_bytes(), p)?;
    let mut found = print_config(alloc, &config, p)?;
    let (small, large) = (
        choose(&config, 0, 2, &[0, 1], 3),
        choose(&config, 0, 2, &[0, 1], 4),
    );
    let chosen = format!(in alloc; "; {small} {large}")?;
    let again = print_config(alloc, &read_config(alloc, &found, p)?, p)?;
    if again != found {
        found.extend_from_slice(b"; not read again")?;
    }
    found.extend_from_slice(chosen.as_bytes())?;
    Ok(found)
}

// What is said of a text.
fn said(alloc: Global, p: &Prog, text: &str) -> Result<Vec<u8>, AllocError>
    requires { IsWellFormed (bare_prog p.now) }
{
    let line = match read(alloc, p, text) {
        Ok(found) => return Ok(found),
        Err(ConfigRefusal::BadLine { line }) => format!(in alloc; "bad line {line}")?,
        Err(ConfigRefusal::UnknownPlace { line }) => format!(in alloc; "unknown place {line}")?,
        Err(ConfigRefusal::NotInSet { line }) => format!(in alloc; "not in set {line}")?,
        Err(ConfigRefusal::CutoffsNotRising { line }) => format!(in alloc; "not rising {line}")?,
        Err(ConfigRefusal::Twice { line }) => format!(in alloc; "twice {line}")?,
        Err(ConfigRefusal::Memory) => return Err(AllocError),
    };
    Ok(line.into_bytes())
}

// What is printed of the configuration with one more level for the rules 0 and 1 of `B`.
fn extended(
    alloc: Global,
    p: &Prog,
    text: &str,
    size: u64,
    rule: u32,
) -> Result<Vec<u8>, AllocError>
    requires { IsWellFormed (bare_prog p.now) }
{
    let Ok(config) = read_config(alloc, text.as_bytes(), p) else {
        return Vec::from_slice(alloc, b"unread");
    };
    let site = Site {
        transform: 0,
        matrix: 2,
        set: vec![in alloc; 0u32, 1u32]?,
    };
    if size < 1 || size > 1_048_576 || !site.set.contains(&rule) {
        return Vec::from_slice(alloc, b"no level");
    }
    match extend(alloc, &config, &site, size, rule)? {
        Some(extended) => print_config(alloc, &extended, p),
        None => Vec::from_slice(alloc, b"nothing new"),
    }
}

pub(crate) fn program(alloc: Global, text: &str) -> Result<Prog, Refusal>
    ensures { IfOk result (λ p. IsWellFormed (bare_prog p)) }
{
    let tree = read_text(alloc, text.as_bytes())?;
    a_tree_that_is_read_is_within_limits();
    resolve(alloc, &tree)
}

#[test]
fn configurations_are_read_and_chosen_from(rt: HostRuntime) -> Result<(), Fail> {
    let alloc = rt.alloc();
    let Ok(program) = program(alloc, PROGRAM) else {
        assert!(rt; false, "the program is refused");
        return Ok(());
    };
    for (text, expected) in &ROWS {
        let found = said(alloc, &program, text)?;
        assert!(rt;
            found.as_slice() == expected.as_bytes(),
            "{text}: {found:?}"
        );
    }
    Ok(())
}

#[test]
fn a_configuration_is_extended_by_one_level(rt: HostRuntime) -> Result<(), Fail> {
    let alloc = rt.alloc();
    let Ok(program) = program(alloc, PROGRAM) else {
        assert!(rt; false, "the program is refused");
        return Ok(());
    };
    for (text, size, rule, expected) in &EXTENSIONS {
        let found = extended(alloc, &program, text, *size, *rule)?;
        assert!(rt;
            found.as_slice() == expected.as_bytes(),
            "{text} with {size} and {rule}: {found:?}"
        );
    }
    Ok(())
}

#[test]
fn faulty_configurations_of_the_rolling_sum_are_named(rt: HostRuntime) -> Result<(), Fail> {
    let alloc = rt.alloc();
    let Ok(program) = program(alloc, ROLL) else {
        assert!(rt; false, "the program is refused");
        return Ok(());
    };
    for (text, expected) in &ROLL_ROWS {
        let found = said(alloc, &program, text)?;
        assert!(rt;
            found.as_slice() == expected.as_bytes(),
            "{text}: {found:?}"
        );
    }
    Ok(())
}
