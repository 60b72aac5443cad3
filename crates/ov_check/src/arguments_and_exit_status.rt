ghost use Rattle.std.specs.Prelude.{◌≡◌, ◌≢◌, take, Ok, Err, None, IsTrue, IsFalse, IfOk, IsOk};
ghost use Rattle.std.specs.Cow.{cow_str_bytes};
ghost use Rattle.std.specs.Io.{WritesAtMost};
ghost use Rattle.std.specs.Str.{chars};
ghost use Rattle.ov_check.specs.Program.{NamesInput, exit_status, failure_text, no_input_text};
ghost use Rattle.ov_check.specs.declared.read_or_write_fault.JudgeFault.TheVariants.{Read};
ghost use Rattle.ov_check.specs.declared.arguments_and_exit_status.ProgramFault.TheVariants.{Judge};

use crate::read_or_write_fault::JudgeFault;
use ov_ids::OutOfMemory;
use ov_io::unread_text;
use std::alloc::Global;
use std::borrow::CowStr;
use std::env::FillError;
use std::fmt::{Display, Formatter, Result as Printed, Write};

/// Why the program prints no line of an outcome.
#[derive(Clone, Copy, Debug, PartialEq, Eq)]
pub enum ProgramFault {
    /// There is more than one argument.
    Usage,
    /// The judge failed before it printed a line.
    Judge(JudgeFault),
}

impl From<JudgeFault> for ProgramFault {
    ghost from_gives = { λ fault e. e ≡ Judge fault };

    fn from(fault: JudgeFault) -> ProgramFault {
        ProgramFault::Judge(fault)
    }
}

/// The line that a program of this name prints on standard error after a fault, without its line feed.
#[derive(Drop)]
pub struct FaultLine<'a> {
    pub program: &'a str,
    pub fault: ProgramFault,
}

impl<'a> Display for FaultLine<'a> {
    ghost use Rattle.std.specs.Prelude.{Some};
    ghost use Rattle.ov_check.specs.Program.{fault_line};

    ghost output = { λ line. Some (fault_line line.program.now line.fault) };

    fn fmt<W: Write>(&self, f: &mut Formatter<W>) -> Printed {
        match self.fault {
            ProgramFault::Usage => {
                let program = self.program;
                write!(f, "usage: {program} [FILE]")
            }
            ProgramFault::Judge(fault) => write!(f, "{fault}"),
        }
    }
}

/// The name of the file that the arguments ask for, or nothing for standard input. No argument and the argument `-` ask
/// for standard input. `length` is the length of the first argument, which is a prefix of `room`, or why it is not
/// there. `has_second` is whether there is a second argument.
///
/// `Usage`: there is a second argument. `Judge(Read)` (71): the argument is longer than the room, or is not text.
pub fn input_named(
    length: Result<usize, FillError>,
    room: &[u8],
    has_second: bool,
) -> Result<Option<&str>, ProgramFault>
    requires { WritesAtMost length room.now }
    ensures usage { IsTrue has_second → result ≡ Err ProgramFault.Usage }
    ensures no_argument { IsFalse has_second → length ≡ Err FillError.NotPresent → result ≡ Ok None }
    ensures too_long { IsFalse has_second → length ≡ Err FillError.TooLong → result ≡ Err (Judge Read) }
    ensures argument { IsFalse has_second → IfOk length (λ n. NamesInput (λ name. name.now) (take n room.now) result) }
{
    if has_second {
        return Err(ProgramFault::Usage);
    }
    match length {
        Ok(length) => named_by(&room[..length]),
        Err(FillError::NotPresent) => Ok(None),
        Err(FillError::TooLong) => Err(ProgramFault::Judge(JudgeFault::Read)),
    }
}

/// The input that an argument names.
fn named_by(argument: &[u8]) -> Result<Option<&str>, ProgramFault>
    ensures { NamesInput (λ name. name.now) argument.now result }
{
    match str::from_utf8(argument) {
        Ok("-") => Ok(None),
        Ok(name) => Ok(Some(name)),
        Err(_) => Err(ProgramFault::Judge(JudgeFault::Read)),
    }
}

/// What is printed for a person if the arguments name no input.
pub fn why_no_input(fault: &ProgramFault) -> &'static str
    ensures { result.now ≡ no_input_text fault.now }
{
    match fault {
        ProgramFault::Usage => "more than one file is named",
        ProgramFault::Judge(_) =>
            "the name of the file is no UTF-8 text, or is longer than 4096 bytes",
    }
}

/// What is printed for a person if the judge failed: that its input, of this name, can't be read; that writing failed;
/// or that memory was short. Only the first takes memory.
///
/// `OutOfMemory` (99): an allocation was refused.
pub fn failure_text(
    alloc: Global,
    fault: JudgeFault,
    name: &str,
) -> Result<CowStr<'static>, OutOfMemory>
    ensures text { IfOk result (λ text. cow_str_bytes text ≡ failure_text (chars name.now) fault) }
    ensures told { fault ≢ JudgeFault.Read → IsOk result }
{
    match fault {
        JudgeFault::Read => Ok(CowStr::Owned(unread_text(alloc, name)?)),
        JudgeFault::Write => Ok(CowStr::Borrowed("writing failed")),
        JudgeFault::OutOfMemory => Ok(CowStr::Borrowed("out of memory")),
    }
}

/// The program's status: that of the judge, 2 if there are too many arguments, and 1 after a fault.
pub fn exit_status(answer: &Result<u8, ProgramFault>) -> u8
    ensures { result ≡ exit_status answer.now }
{
    match answer {
        Ok(status) => *status,
        Err(ProgramFault::Usage) => 2,
        Err(ProgramFault::Judge(_)) => 1,
    }
}
