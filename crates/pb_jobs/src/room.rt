ghost use Rattle.std.specs.Prelude.{◌≡◌, ◌≤◌};
ghost use Rattle.std.specs.List.{All};
ghost use Rattle.pb_linear.specs.Sizes.{sizes_of};
ghost use Rattle.pb_program.specs.Trees.{bare_prog};
ghost use Rattle.pb_jobs.specs.Rooms.{Grows, HasNeed, HasRoomFor, HasRoomForJob, HaveNeeds};

use crate::job::Job;
use pb_eval::{locals_room, outs_room};
use pb_linear::{SIZE_TOP, Sizes};
use pb_program::Prog;

/// How much room jobs need: for the locals of a rule, for the numbers of its outputs, and for the rectangles of a job.
#[derive(Clone, Copy, Debug)]
pub struct Rooms {
    pub locals: u64,
    pub outs: u64,
    pub pieces: usize,
}

impl Rooms {
    /// No room.
    pub fn none() -> Rooms
        ensures { result ≡ record { locals = 0; outs = 0; pieces = 0 } }
    {
        Rooms {
            locals: 0,
            outs: 0,
            pieces: 0,
        }
    }

    /// Enough for either of two, of each kind.
    pub fn greater(self, other: Rooms) -> Rooms
        ensures first { Grows self result }
        ensures second { Grows other result }
    {
        Rooms {
            locals: self.locals.max(other.locals),
            outs: self.outs.max(other.outs),
            pieces: self.pieces.max(other.pieces),
        }
    }
}

/// Enough room for a rule.
fn rule_rooms(p: &Prog, t: u32, s: &Sizes, rule: u32) -> Rooms
    requires sizes { All (λ size. size ≤ SIZE_TOP) s.now.of }
    requires need { HasNeed (bare_prog p.now) t (sizes_of s.now) rule }
    ensures { HasRoomFor (bare_prog p.now) t (sizes_of s.now) result rule }
{
    Rooms {
        locals: locals_room(p, t, rule),
        outs: outs_room(p, t, rule, s),
        pieces: 0,
    }
}

/// Enough room for each of some rules, and as much as is there already.
fn rules_rooms(least: Rooms, p: &Prog, t: u32, s: &Sizes, rules: &[u32]) -> Rooms
    requires sizes { All (λ size. size ≤ SIZE_TOP) s.now.of }
    requires needs { All (HasNeed (bare_prog p.now) t (sizes_of s.now)) rules.now }
    ensures grows { Grows least result }
    ensures room { All (HasRoomFor (bare_prog p.now) t (sizes_of s.now) result) rules.now }
{
    let mut rooms = least;
    for rule in rules {
        rooms = rooms.greater(rule_rooms(p, t, s, *rule));
    }
    rooms
}

/// Enough room for a job of transform `t` at sizes of at most `SIZE_TOP`. It is what the job's rules and rectangles ask for, which no
/// clause says.
pub fn job_rooms(p: &Prog, t: u32, s: &Sizes, job: &Job) -> Rooms
    requires sizes { All (λ size. size ≤ SIZE_TOP) s.now.of }
    requires needs { HaveNeeds (bare_prog p.now) t (sizes_of s.now) job.now }
    ensures { HasRoomForJob (bare_prog p.now) t (sizes_of s.now) result job.now }
{
    let least = Rooms {
        locals: 0,
        outs: 0,
        pieces: job.parts.len(),
    };
    match job.rule {
        None => rules_rooms(least, p, t, s, job.rules),
        Some(rule) => least.greater(rule_rooms(p, t, s, rule)),
    }
}
