ghost use Rattle.std.specs.Prelude.{◌≡◌, IfOk};
ghost use Rattle.pb_top.specs.Texts.{read_fault_line};
ghost use Rattle.pb_top.specs.Reply.{no_file, file_too_long, usage, IsFaultyInput};
ghost use Rattle.pb_top.specs.Working.{StopsWith, IsUnread};

use pb_matrix::MatrixRefusal;
use std::alloc::{AllocError, AllocFailed, Global};

const USAGE: &str = "usage: pb check PROGRAM
       pb choices PROGRAM
       pb run [--workers N] [--depth D] [--grain G] [--pool serial|locked|steal] [--trace] PROGRAM CONFIG TRANSFORM INPUT..
       pb tune [--up-to S] PROGRAM TRANSFORM
       pb demo SEED SIZE WORKERS
";

/// How a call ends, in a word.
#[derive(Clone, Copy)]
pub enum Status {
    Done,
    /// The words are outside the grammar.
    Usage,
    /// The program is refused.
    Program,
    /// The configuration is refused.
    Config,
    /// An input or the transform is refused.
    Input,
    /// A count of the run passes its limit.
    TooLarge,
    /// The run is trapped.
    Trapped,
    /// The run is trapped, since its depth ended.
    DepthEnded,
    ReadFault,
    WriteFault,
    NoMemory,
    /// A file isn't there or is too long.
    File,
}

impl Status {
    ghost use Rattle.std.specs.Prelude.{◌≡◌};
    ghost use Rattle.pb_top.specs.Reply.{status_code};

    /// The number that the program ends with.
    pub fn code(self) -> u8
        ensures { result ≡ status_code self }
    {
        match self {
            Status::Done => 0,
            Status::Usage => 2,
            Status::Program => 3,
            Status::Config => 4,
            Status::Input => 5,
            Status::TooLarge => 6,
            Status::Trapped => 7,
            Status::DepthEnded => 8,
            Status::ReadFault => 9,
            Status::WriteFault => 10,
            Status::NoMemory => 11,
            Status::File => 14,
        }
    }
}

/// Why a command ends without a text for `out`.
#[derive(Drop)]
pub enum Stop {
    /// Memory ran out.
    Memory,
    /// A status other than those of faults, and a line for `err`.
    Refused(Status, Vec<u8>),
    /// A file couldn't be read: the line for `err` that names it.
    Unread(String),
}

impl From<AllocError> for Stop {
    ghost use Rattle.std.specs.Prelude.{◌≡◌};
    ghost use Rattle.pb_top.specs.declared.reply.Stop.TheVariants.{Memory};

    ghost from_gives = { λ _ e. e ≡ Memory };

    fn from(_error: AllocError) -> Stop {
        Stop::Memory
    }
}

impl<T: Drop> From<AllocFailed<T>> for Stop {
    ghost use Rattle.std.specs.Prelude.{◌≡◌};
    ghost use Rattle.pb_top.specs.declared.reply.Stop.TheVariants.{Memory};

    ghost from_gives = { λ _ e. e ≡ Memory };

    fn from(_error: AllocFailed<T>) -> Stop {
        Stop::Memory
    }
}

/// The words are no command line.
pub fn usage(alloc: Global) -> Result<Stop, AllocError>
    ensures { IfOk result (StopsWith (λ reply. reply ≡ usage)) }
{
    let text = String::from_str(alloc, USAGE)?;
    Ok(Stop::Refused(Status::Usage, text.into_bytes()))
}

/// A file that isn't there.
pub fn no_file(alloc: Global, name: &str) -> Result<Stop, AllocError>
    ensures { IfOk result (StopsWith (λ reply. reply ≡ no_file name.now)) }
{
    let line = format!(in alloc; "I1 NoFile: {name}\n")?;
    Ok(Stop::Refused(Status::File, line.into_bytes()))
}

/// A file that is longer than its limit.
pub fn file_too_long(alloc: Global, name: &str) -> Result<Stop, AllocError>
    ensures { IfOk result (StopsWith (λ reply. reply ≡ file_too_long name.now)) }
{
    let line = format!(in alloc; "I2 FileTooLong: {name}\n")?;
    Ok(Stop::Refused(Status::File, line.into_bytes()))
}

/// A file that couldn't be read.
pub fn unread(alloc: Global, name: &str) -> Result<Stop, AllocError>
    ensures { IfOk result (IsUnread (read_fault_line name.now)) }
{
    let line = format!(in alloc; "R ReadFault: {name}\n")?;
    Ok(Stop::Unread(line))
}

/// An input that is no matrix.
pub fn faulty_input(alloc: Global, file: &str, refusal: MatrixRefusal) -> Result<Stop, AllocError>
    ensures { IfOk result (StopsWith (IsFaultyInput file.now refusal)) }
{
    let line = match refusal {
        MatrixRefusal::BadHeader => format!(in alloc; "M1 BadHeader: {file}\n")?,
        MatrixRefusal::BadNumber { word } => format!(in alloc;
            "M2 BadNumber: {file} word {word}\n"
        )?,
        MatrixRefusal::TooFew { wanted, found } => {
            format!(in alloc; "M3 TooFew: {file} wanted {wanted} found {found}\n")?
        }
        MatrixRefusal::TooMany { wanted } => format!(in alloc;
            "M4 TooMany: {file} wanted {wanted}\n"
        )?,
        MatrixRefusal::Memory => return Err(AllocError),
    };
    Ok(Stop::Refused(Status::Input, line.into_bytes()))
}
