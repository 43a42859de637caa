//! Runs on threads.
use crate::examples::{DIV, DOUBLE, MUL, ROLL};
use crate::plans::{CHOSEN, LEFT, PRODUCT, RIGHT};
use crate::run::End::{Done, Stopped, Trapped};
use crate::run::{Rows, all_hold, answers, done, holds};
use crossbeam_utils::Backoff;
use pb_taskgraph::Gate;
use std::sync::atomic::{AtomicBool, AtomicU64, Ordering};
use std::test::Fail;

const PRODUCT_FILES: crate::run::Files = &[("p", MUL), ("c", CHOSEN), ("a", LEFT), ("b", RIGHT)];

pub const TEN: &str = "matrix 100
10 10 10 10 10 10 10 10 10 10 10 10 10 10 10 10 10 10 10 10 10 10 10 10 10
10 10 10 10 10 10 10 10 10 10 10 10 10 10 10 10 10 10 10 10 10 10 10 10 10
10 10 10 10 10 10 10 10 10 10 10 10 10 10 10 10 10 10 10 10 10 10 10 10 10
10 10 10 10 10 10 10 10 10 10 10 10 10 10 10 10 10 10 10 10 10 10 10 10 10
";

// Ones, but for zeros at the places 3 and 90.
pub const DIVISORS: &str = "matrix 100
1 1 1 0 1 1 1 1 1 1 1 1 1 1 1 1 1 1 1 1 1 1 1 1 1
1 1 1 1 1 1 1 1 1 1 1 1 1 1 1 1 1 1 1 1 1 1 1 1 1
1 1 1 1 1 1 1 1 1 1 1 1 1 1 1 1 1 1 1 1 1 1 1 1 1
1 1 1 1 1 1 1 1 1 1 1 1 1 1 1 0 1 1 1 1 1 1 1 1 1
";

const ANSWERED_ROWS: Rows = &[
    (
        "run --pool locked p c MatrixMultiply a b",
        PRODUCT_FILES,
        Done(PRODUCT),
    ),
    (
        "run --workers 8 --pool locked p c MatrixMultiply a b",
        PRODUCT_FILES,
        Done(PRODUCT),
    ),
    (
        "run --workers 64 --pool locked p - Double a",
        &[("p", DOUBLE), ("a", "matrix 1\n21\n")],
        Done("matrix 1\n42\n"),
    ),
    (
        "run --workers 4 --trace --pool locked p c RollingSum a",
        &[
            ("p", ROLL),
            ("c", "choose RollingSum.B {0,1} = 0 until 2 then 1\n"),
            ("a", "matrix 4\n1 2 3 4\n"),
        ],
        Done(
            "matrix 4\n1 3 6 10\ntrace 2\ntask 0 call 0 block B[0,1)\ntask 1 call 0 block B[1,4)\n",
        ),
    ),
    (
        "run --workers 4 --trace p c RollingSum a",
        &[
            ("p", ROLL),
            ("c", "choose RollingSum.B {0,1} = 0 until 2 then 1\n"),
            ("a", "matrix 4\n1 2 3 4\n"),
        ],
        Done(
            "matrix 4\n1 3 6 10\ntrace 2\ntask 0 call 0 block B[0,1)\ntask 1 call 0 block B[1,4)\n",
        ),
    ),
    // One worker takes from its own queue what came first.
    (
        "run --trace p - Four a",
        &[("p", FOUR), ("a", "matrix 1\n5\n")],
        Done(
            "matrix 1\n5\nmatrix 1\n6\nmatrix 1\n7\nmatrix 1\n8\n\
            trace 4\ntask 0 call 0 block B[0,1)\ntask 1 call 0 block C[0,1)\ntask 2 call 0 block D[0,1)\ntask 3 call 0 block E[0,1)\n",
        ),
    ),
];

// Four matrices that don't read each other.
const FOUR: &str = "transform Four from A[n] to B[n], C[n], D[n], E[n] {
  to (B.cell(i) b) from (A.cell(i) a) { b = a; }
  to (C.cell(i) c) from (A.cell(i) a) { c = a + 1; }
  to (D.cell(i) d) from (A.cell(i) a) { d = a + 2; }
  to (E.cell(i) e) from (A.cell(i) a) { e = a + 3; }
}
";

// Every task of two matrices is trapped; the first cell by place is told, whichever came first in time.
const BOTH: &str = "transform Both from A[n] to B[n], C[n] {
  to (B.cell(i) b) from (A.cell(i) a) { b = 1 / a; }
  to (C.cell(i) c) from (A.cell(i) a) { c = 9223372036854775807 + 1 + a; }
}
";

const TRAPPED_ROWS: Rows = &[
    (
        "run --workers 8 --pool locked p c RollingSum a",
        &[
            ("p", ROLL),
            ("c", "choose RollingSum.B {0,1} = 1\n"),
            ("a", "matrix 3\n9223372036854775807 1 5\n"),
        ],
        Trapped("T Overflow: RollingSum.B (1,0), by RollingSum rule 1 (1,0)\n"),
    ),
    (
        "run --workers 2 --pool locked p - Both a",
        &[("p", BOTH), ("a", "matrix 2\n0 0\n")],
        Trapped("T DivideByZero: Both.B (0,0), by Both rule 0 (0,0)\n"),
    ),
];

const DEEP_ROWS: Rows = &[
    (
        "run --workers 2 --depth 8 --pool locked p c MatrixMultiply a b",
        PRODUCT_FILES,
        Done(PRODUCT),
    ),
    (
        "run --workers 2 --depth 7 --pool locked p c MatrixMultiply a b",
        PRODUCT_FILES,
        Stopped(
            8,
            "T DepthEnded: MatrixMultiply.AB (0,0), by MatrixMultiply rule 2 (0,0)\n",
        ),
    ),
    (
        "run --workers 2 --depth 1 --pool locked p c MatrixMultiply a b",
        PRODUCT_FILES,
        Stopped(
            8,
            "T DepthEnded: MatrixMultiply.AB (0,0), by MatrixMultiply rule 1 (0,0)\n",
        ),
    ),
];

#[test]
fn runs_on_threads_have_the_same_answers(rt: HostRuntime) -> Result<(), Fail> {
    all_hold(&rt, rt.alloc(), ANSWERED_ROWS)?;
    all_hold(&rt, rt.alloc(), TRAPPED_ROWS)?;
    all_hold(&rt, rt.alloc(), DEEP_ROWS)
}

// Two matrices that don't read each other.
const TWO: &str = "transform Two from A[n] to B[n], C[n] {
  to (B.cell(i) b) from (A.region(0, i + 1) a) { b = sum(a); }
  to (B.cell(i) b) from (A.cell(i) a, B.cell(i - 1) l) { b = a + l; }
  to (C.cell(i) c) from (A.region(0, i + 1) a) { c = sum(a); }
  to (C.cell(i) c) from (A.cell(i) a, C.cell(i - 1) l) { c = a + l; }
}
";

// Holds each of the tasks 0 and 1 until the other has entered, for so many tries.
#[derive(Drop)]
struct Meeting {
    first: AtomicBool,
    second: AtomicBool,
    missed: AtomicBool,
}

const TRIES: u32 = 10_000_000;

impl Meeting {
    fn new() -> Meeting {
        Meeting {
            first: AtomicBool::new(false),
            second: AtomicBool::new(false),
            missed: AtomicBool::new(false),
        }
    }

    fn meet(&self, mine: &AtomicBool, other: &AtomicBool) {
        mine.store(true, Ordering::SeqCst);
        let backoff = Backoff::new();
        for _ in 0..TRIES {
            if other.load(Ordering::SeqCst) {
                return;
            }
            backoff.snooze();
        }
        self.missed.store(true, Ordering::SeqCst);
    }

    // Whether both tasks have entered, and none was let go alone.
    fn has_met(&self) -> bool {
        let both = self.first.load(Ordering::SeqCst) && self.second.load(Ordering::SeqCst);
        both && !self.missed.load(Ordering::SeqCst)
    }
}

// Holds task 0 until the three others have entered, for so many tries.
#[derive(Drop)]
struct Holding {
    others: AtomicU64,
    missed: AtomicBool,
}

impl Gate for Holding {
    fn enter(&self, task: u32) {
        if task > 0 {
            self.others.fetch_add(1, Ordering::SeqCst);
            return;
        }
        let backoff = Backoff::new();
        for _ in 0..TRIES {
            if self.others.load(Ordering::SeqCst) == 3 {
                return;
            }
            backoff.snooze();
        }
        self.missed.store(true, Ordering::SeqCst);
    }
}

impl Gate for Meeting {
    fn enter(&self, task: u32) {
        match task {
            0 => self.meet(&self.first, &self.second),
            1 => self.meet(&self.second, &self.first),
            _ => {}
        }
    }
}

#[test]
fn both_workers_are_inside_at_once(rt: HostRuntime) -> Result<(), Fail> {
    let row = done(
        "run --workers 2 --pool locked p c Two a",
        &[
            ("p", TWO),
            ("c", "choose Two.B {0,1} = 1\nchoose Two.C {2,3} = 3\n"),
            ("a", "matrix 3\n1 2 3\n"),
        ],
        "matrix 3\n1 3 6\nmatrix 3\n1 3 6\n",
    );
    // Each pool has a meeting of its own.
    for words in [row.words, "run --workers 2 p c Two a"] {
        let meeting = Meeting::new();
        answers(&rt, rt.alloc(), &row, words, &meeting)?;
        assert!(rt; meeting.has_met(), "{words}");
    }
    Ok(())
}

#[test]
fn a_worker_that_is_held_keeps_no_other_task(rt: HostRuntime) -> Result<(), Fail> {
    let row = done(
        "run --workers 2 --pool locked p - Four a",
        &[("p", FOUR), ("a", "matrix 2\n5 6\n")],
        "matrix 2\n5 6\nmatrix 2\n6 7\nmatrix 2\n7 8\nmatrix 2\n8 9\n",
    );
    for words in [row.words, "run --workers 2 p - Four a"] {
        let gate = Holding {
            others: AtomicU64::new(0),
            missed: AtomicBool::new(false),
        };
        answers(&rt, rt.alloc(), &row, words, &gate)?;
        assert!(rt; !gate.missed.load(Ordering::SeqCst), "{words}");
    }
    Ok(())
}

const SUMS: crate::run::Files = &[
    ("p", TWO),
    ("c", "choose Two.B {0,1} = 1\nchoose Two.C {2,3} = 3\n"),
    ("a", "matrix 3\n1 2 3\n"),
];

#[test]
fn a_pool_shows_in_the_order_of_its_one_worker(rt: HostRuntime) -> Result<(), Fail> {
    // One deque, first in, first out: task 4 is ready before task 3.
    let row = done(
        "run --workers 1 --grain 1 --trace p c Two a",
        SUMS,
        "matrix 3\n1 3 6\nmatrix 3\n1 3 6\ntrace 6\n\
        task 0 call 0 block B[0,1)\ntask 1 call 0 block C[0,1)\ntask 2 call 0 block B[1,2)\n\
        task 4 call 0 block C[1,2)\ntask 3 call 0 block B[2,3)\ntask 5 call 0 block C[2,3)\n",
    );
    holds(&rt, rt.alloc(), &row)?;
    // The least ready task.
    let row = done(
        "run --workers 1 --grain 1 --trace --pool locked p c Two a",
        SUMS,
        "matrix 3\n1 3 6\nmatrix 3\n1 3 6\ntrace 6\n\
        task 0 call 0 block B[0,1)\ntask 1 call 0 block C[0,1)\ntask 2 call 0 block B[1,2)\n\
        task 3 call 0 block B[2,3)\ntask 4 call 0 block C[1,2)\ntask 5 call 0 block C[2,3)\n",
    );
    holds(&rt, rt.alloc(), &row)?;
    Ok(())
}

// Holds task 0 until task 3 has entered, for so many tries; and notes whether task 2 had entered when task 3 did.
#[derive(Drop)]
struct Watching {
    second: AtomicBool,
    third: AtomicBool,
    second_first: AtomicBool,
    missed: AtomicBool,
}

impl Gate for Watching {
    fn enter(&self, task: u32) {
        match task {
            0 => {
                let backoff = Backoff::new();
                for _ in 0..TRIES {
                    if self.third.load(Ordering::SeqCst) {
                        return;
                    }
                    backoff.snooze();
                }
                self.missed.store(true, Ordering::SeqCst);
            }
            2 => self.second.store(true, Ordering::SeqCst),
            3 => {
                self.second_first
                    .store(self.second.load(Ordering::SeqCst), Ordering::SeqCst);
                self.third.store(true, Ordering::SeqCst);
            }
            _ => {}
        }
    }
}

#[test]
fn a_worker_takes_from_its_own_deque_first(rt: HostRuntime) -> Result<(), Fail> {
    let divided = done(
        "run --workers 2 --grain 1 p - Div a d",
        &[
            ("p", DIV),
            ("a", "matrix 4\n4 6 8 9\n"),
            ("d", "matrix 4\n1 2 2 3\n"),
        ],
        "matrix 4\n4 3 4 3\n",
    );
    // The product is made in four blocks, the sums in fewer.
    let drawn = done(
        "demo 1 17 2",
        &[],
        "MatrixMultiply AB 17 17 least -409 greatest 304 sum -4068\n\
        RollingSum B 17 least -19 greatest 5 sum -139\n",
    );
    // Task 3 stands in the deque of the worker that isn't held, and task 2 in the other's. Under the lock the least ready task
    // is taken.
    for (row, words, second_first) in [
        (&divided, divided.words, false),
        (
            &divided,
            "run --workers 2 --grain 1 --pool locked p - Div a d",
            true,
        ),
        (&drawn, drawn.words, false),
    ] {
        let gate = Watching {
            second: AtomicBool::new(false),
            third: AtomicBool::new(false),
            second_first: AtomicBool::new(false),
            missed: AtomicBool::new(false),
        };
        answers(&rt, rt.alloc(), row, words, &gate)?;
        assert!(rt; gate.third.load(Ordering::SeqCst), "{words}");
        assert!(rt; !gate.missed.load(Ordering::SeqCst), "{words}");
        assert_eq!(rt;
            gate.second_first.load(Ordering::SeqCst),
            second_first,
            "{words}"
        );
    }
    Ok(())
}
