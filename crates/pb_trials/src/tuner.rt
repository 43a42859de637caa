//! The tuner, over judges in memory.
ghost use Rattle.std.specs.Prelude.{◌≡◌, IfOk, map};
ghost use Rattle.pb_program.specs.Trees.{bare_prog};
ghost use Rattle.pb_program.specs.WellFormed.{IsWellFormed};
ghost use Rattle.pb_trials.specs.Rolling.{costs_at};

use crate::configs::{ROLL, program};
use pb_config::{choose, print_config, read_config};
use pb_program::{Config, Entry, Prog, Site};
use pb_tuner::{Asked, Cost, Judge, TuneFault, tune};
use std::alloc::{AllocError, Global};
use std::test::Fail;

// What the rolling sum costs at a size, where each cell is a sum and where each is made from the one before it.
fn costs_at(size: u64) -> Option<(u64, u64)>
    ensures { result ≡ costs_at size }
{
    match size {
        1 => Some((2, 2)),
        2 => Some((5, 5)),
        4 => Some((14, 11)),
        8 => Some((44, 23)),
        _ => None,
    }
}

// Tells the costs of the rolling sum, and fails at the question with this number.
#[derive(Drop)]
struct Rolling<'a> {
    program: &'a Prog,
    failing: u64,
    questions: u64,
    faults: u64,
}

impl<'a> Judge for Rolling<'a> {
    ghost use Rattle.std.specs.Prelude.{Some};
    ghost use Rattle.pb_program.specs.Trees.{bare_prog};
    ghost use Rattle.pb_trials.specs.Rolling.{rolling_costs};

    ghost program = { λ j. bare_prog j.program.now };

    ghost told = { λ _. Some rolling_costs };

    ghost faults = { λ j. j.faults };

    fn cost(&mut self, c: &Config, size: u64) -> Result<Cost, AllocError> {
        self.questions = self.questions.saturating_add(1);
        if self.questions == self.failing {
            self.faults = self.faults.saturating_add(1);
            return Ok(Cost::Failed);
        }
        let Some((summed, added)) = costs_at(size) else {
            return Ok(Cost::Unfit);
        };
        if choose(c, 0, 1, &[0, 1], size) == 0 {
            Ok(Cost::Fit(summed))
        } else {
            Ok(Cost::Fit(added))
        }
    }
}

// Gives its answers in order, whatever is asked, and `Unfit` after them.
#[derive(Drop)]
struct Scripted<'a> {
    program: &'a Prog,
    answers: &'a [Cost],
    faults: u64,
}

impl<'a> Judge for Scripted<'a> {
    ghost use Rattle.std.specs.Prelude.{None};
    ghost use Rattle.pb_program.specs.Trees.{bare_prog};

    ghost program = { λ j. bare_prog j.program.now };

    ghost told = { λ _. None };

    ghost faults = { λ j. j.faults };

    fn cost(&mut self, _c: &Config, _size: u64) -> Result<Cost, AllocError> {
        let Some((answer, rest)) = self.answers.split_first() else {
            return Ok(Cost::Unfit);
        };
        self.answers = rest;
        if *answer == Cost::Failed {
            self.faults = self.faults.saturating_add(1);
        }
        Ok(*answer)
    }
}

// The sites of the entries of a configuration.
fn sites_of(alloc: Global, config: Config) -> Result<Vec<Site>, AllocError>
    ensures { IfOk result (λ sites. sites.items ≡ map (λ e. e.site) config.entries) }
{
    let mut sites = Vec::new(alloc);
    for Entry { site, .. } in config.entries {
        sites.push(site)?;
    }
    Ok(sites)
}

fn add_config(
    alloc: Global,
    text: &mut Vec<u8>,
    p: &Prog,
    config: &Config,
) -> Result<(), AllocError> {
    let shown = print_config(alloc, config, p)?;
    if shown.is_empty() {
        return text.extend_from_slice(b"empty\n");
    }
    text.extend_from_slice(&shown)
}

fn add_question(
    alloc: Global,
    text: &mut Vec<u8>,
    p: &Prog,
    question: &Asked,
) -> Result<(), AllocError> {
    let size = question.size;
    let start = match question.cost {
        Cost::Fit(cost) => format!(in alloc; "{size} {cost} ")?,
        Cost::Unfit => format!(in alloc; "{size} unfit ")?,
        Cost::Failed => format!(in alloc; "{size} failed ")?,
    };
    text.extend_from_slice(start.as_bytes())?;
    add_config(alloc, text, p, &question.config)
}

// The journal, and what was found or why nothing was. The sites are those of the entries of a configuration.
fn said<J: Judge>(
    alloc: Global,
    p: &Prog,
    sites: &str,
    up_to: u64,
    judge: &mut J,
) -> Result<Vec<u8>, AllocError>
    requires well_formed { IsWellFormed (bare_prog p.now) }
    requires program { J.program judge.old ≡ bare_prog p.now }
{
    let Ok(config) = read_config(alloc, sites.as_bytes(), p) else {
        return Vec::from_slice(alloc, b"unread");
    };
    let sites = sites_of(alloc, config)?;
    if up_to < 1 || up_to > 1_048_576 {
        return Vec::from_slice(alloc, b"no bound");
    }
    match tune(alloc, p, &sites, up_to, judge) {
        Ok((found, journal)) => {
            let mut text = Vec::new(alloc);
            for question in &journal.asked {
                add_question(alloc, &mut text, p, question)?;
            }
            add_config(alloc, &mut text, p, &found)?;
            Ok(text)
        }
        Err(TuneFault::JudgeFault { size, asked }) => {
            let text = format!(in alloc; "failed at {size} after {asked}")?;
            Ok(text.into_bytes())
        }
        Err(TuneFault::Memory) => Err(AllocError),
    }
}

const SITES: &str = "choose RollingSum.B {0,1} = 0";

// Sites, a bound, and what is said with the judge that tells the costs of the rolling sum.
const ROLLED: [(&str, u64, &str); 4] = [
    (
        SITES,
        8,
        "1 2 empty
1 2 choose RollingSum.B {0,1} = 0 until 1 then 1
2 5 empty
2 5 choose RollingSum.B {0,1} = 0 until 2 then 1
4 14 empty
4 11 choose RollingSum.B {0,1} = 0 until 4 then 1
8 23 choose RollingSum.B {0,1} = 0 until 4 then 1
8 44 empty
8 44 choose RollingSum.B {0,1} = 0 until 4 then 1 until 8 then 0
8 23 choose RollingSum.B {0,1} = 0 until 8 then 1
choose RollingSum.B {0,1} = 0 until 4 then 1
",
    ),
    (
        SITES,
        3,
        "1 2 empty
1 2 choose RollingSum.B {0,1} = 0 until 1 then 1
2 5 empty
2 5 choose RollingSum.B {0,1} = 0 until 2 then 1
empty
",
    ),
    (
        SITES,
        1,
        "1 2 empty\n1 2 choose RollingSum.B {0,1} = 0 until 1 then 1\nempty\n",
    ),
    // Without sites only the empty configuration is asked.
    ("", 4, "1 2 empty\n2 5 empty\n4 14 empty\nempty\n"),
];

// Three rules for each cell.
const THREE: &str =
    "transform T from A[n] to B[n] { to (B.cell(i) b) from (A.cell(i) a) { b = a; } \
to (B.cell(i) b) from (A.cell(i) a) { b = a + 0; } to (B.cell(i) b) from (A.cell(i) a) { b = 0 + a; } }";

// Answers at size 1; at size 2, of which five are fit and the four cheapest are kept, the cheapest of them first; and none
// that is fit at size 4, where the population stays.
const ANSWERS: [Cost; 9] = [
    Cost::Fit(5),
    Cost::Fit(3),
    Cost::Fit(5),
    Cost::Fit(10),
    Cost::Fit(8),
    Cost::Fit(6),
    Cost::Fit(4),
    Cost::Fit(2),
    Cost::Unfit,
];

const THREE_SAID: &str = "1 5 empty
1 3 choose T.B {0,1,2} = 0 until 1 then 1
1 5 choose T.B {0,1,2} = 0 until 1 then 2
2 10 choose T.B {0,1,2} = 0 until 1 then 1
2 8 empty
2 6 choose T.B {0,1,2} = 0 until 1 then 1 until 2 then 0
2 4 choose T.B {0,1,2} = 0 until 1 then 1 until 2 then 2
2 2 choose T.B {0,1,2} = 0 until 2 then 1
2 unfit choose T.B {0,1,2} = 0 until 2 then 2
4 unfit choose T.B {0,1,2} = 0 until 2 then 1
4 unfit choose T.B {0,1,2} = 0 until 1 then 1 until 2 then 2
4 unfit choose T.B {0,1,2} = 0 until 1 then 1 until 2 then 0
4 unfit empty
4 unfit choose T.B {0,1,2} = 0 until 2 then 1 until 4 then 0
4 unfit choose T.B {0,1,2} = 0 until 2 then 1 until 4 then 2
4 unfit choose T.B {0,1,2} = 0 until 1 then 1 until 2 then 2 until 4 then 0
4 unfit choose T.B {0,1,2} = 0 until 1 then 1 until 2 then 2 until 4 then 1
4 unfit choose T.B {0,1,2} = 0 until 1 then 1 until 2 then 0 until 4 then 1
4 unfit choose T.B {0,1,2} = 0 until 1 then 1 until 2 then 0 until 4 then 2
4 unfit choose T.B {0,1,2} = 0 until 4 then 1
4 unfit choose T.B {0,1,2} = 0 until 4 then 2
choose T.B {0,1,2} = 0 until 2 then 1
";

#[test]
fn the_rolling_sum_is_tuned(rt: HostRuntime) -> Result<(), Fail> {
    let alloc = rt.alloc();
    let Ok(program) = program(alloc, ROLL) else {
        assert!(rt; false, "the program is refused");
        return Ok(());
    };
    for (sites, up_to, expected) in &ROLLED {
        let mut judge = Rolling {
            program: &program,
            failing: 0,
            questions: 0,
            faults: 0,
        };
        let found = said(alloc, &program, sites, *up_to, &mut judge)?;
        assert!(rt;
            found.as_slice() == expected.as_bytes(),
            "up to {up_to}: {found:?}"
        );
    }
    Ok(())
}

// What is said where the judge fails at the question with this number, and the judge's faults after it.
fn failing_at(alloc: Global, program: &Prog, failing: u64) -> Result<(Vec<u8>, u64), AllocError>
    requires { IsWellFormed (bare_prog program.now) }
{
    let mut judge = Rolling {
        program,
        failing,
        questions: 0,
        faults: 0,
    };
    let found = said(alloc, program, SITES, 8, &mut judge)?;
    Ok((found, judge.faults))
}

#[test]
fn a_judge_that_fails_ends_the_tuning(rt: HostRuntime) -> Result<(), Fail> {
    let alloc = rt.alloc();
    let Ok(program) = program(alloc, ROLL) else {
        assert!(rt; false, "the program is refused");
        return Ok(());
    };
    let rows = [
        (1, "failed at 1 after 0"),
        (3, "failed at 2 after 2"),
        (4, "failed at 2 after 3"),
        (10, "failed at 8 after 9"),
    ];
    for (failing, wanted) in rows {
        let (found, faults) = failing_at(alloc, &program, failing)?;
        assert!(rt; found.as_slice() == wanted.as_bytes(), "{found:?}");
        assert_eq!(rt; faults, 1);
    }
    Ok(())
}

#[test]
fn four_members_are_kept_and_stay_where_none_is_fit(rt: HostRuntime) -> Result<(), Fail> {
    let alloc = rt.alloc();
    let Ok(program) = program(alloc, THREE) else {
        assert!(rt; false, "the program is refused");
        return Ok(());
    };
    let mut judge = Scripted {
        program: &program,
        answers: &ANSWERS,
        faults: 0,
    };
    let found = said(alloc, &program, "choose T.B {0,1,2} = 0", 4, &mut judge)?;
    assert!(rt; found.as_slice() == THREE_SAID.as_bytes(), "{found:?}");
    Ok(())
}
