// The batch: commands in turn, over a book in lent memory.
//
// Book, marks and output are lent apart and not as one struct: a question, a show and the counts only read the book, and so
// promise nothing of it.
#![tactic(auto)]

pub mod records;

ghost use Rattle.std.specs.Prelude.{◌≡◌, ◌≤◌, length, IfOk};
ghost use Rattle.book.specs.Memory.{Passing, rules_in};
ghost use Rattle.commands.specs.Commands.{Read};
ghost use Rattle.batch.specs.Effects.{does};
ghost use Rattle.batch.specs.Run.{stop_number, stop_of};
ghost use Rattle.batch.specs.Stopping.{Because};
ghost use Rattle.batch.specs.Promises.{Does, Ran, Runs};

use commands::kinds::Act;
use commands::reader;
use commands::reader::{Command, Refusal, RefusedCommand};
use commands::records::put_bare;
use std::error::Error;
use std::fmt;

// Why a batch stops before all its cells are used.
#[derive(Clone, Copy, Debug, PartialEq, Eq)]
pub enum Stop {
    // The memory is no book.
    NotABook,
    // A command is refused.
    Refused(Refusal),
    // A record has no room.
    NoRoom,
}

// The stop number.
impl From<Stop> for u64 {
    ghost from_gives = { λ why stop. stop ≡ stop_number why };

    fn from(why: Stop) -> u64 {
        match why {
            Stop::NotABook => 1,
            Stop::Refused(refusal) => u64::from(refusal),
            Stop::NoRoom => 10,
        }
    }
}

impl fmt::Display for Stop {
    fn fmt<W: fmt::Write>(&self, f: &mut fmt::Formatter<W>) -> fmt::Result {
        match self {
            Stop::NotABook => f.write_str("the memory is no book"),
            Stop::Refused(refusal) => write!(f, "{refusal}"),
            Stop::NoRoom => f.write_str("a record has no room"),
        }
    }
}

impl Error for Stop {}

// How a batch ends: why it stops, none where all cells are used; cells used, cells written.
#[derive(Clone, Copy, Debug, PartialEq, Eq)]
pub struct Ended {
    pub stop: Option<Stop>,
    pub used: usize,
    pub written: usize,
}

// Does a command, with the cells behind it, and writes its record; the cells written, none where there is no room. The marks are
// memory for a question to work in.
fn do_command(
    book: &mut [u64],
    read: Result<Command, RefusedCommand>,
    behind: &[u16],
    marks: &mut [u64],
    out: &mut [u16],
) -> Option<usize>
    requires passing { Passing book.old }
    requires read { IfOk read (λ c. Read behind.now c) }
    requires marks_len { length marks.old ≡ 65 }
    ensures { Does (does (rules_in book.old) behind.now read) book.old book.new out.old out.new result }
{
    let command = match read {
        Ok(command) => command,
        Err(refused) => return put_bare(u64::from(refused.why), out),
    };
    let number = command.number;
    let term = &behind[..command.size];
    match command.act {
        Act::Add => records::add(book, number, term, out),
        Act::Remove => records::remove(book, number, out),
        Act::Ask(fills_question, fills_rule) => {
            records::ask(book, fills_question, fills_rule, term, marks, out)
        }
        Act::Show => records::show(book, number, out),
        Act::Room => records::room(book, out),
    }
}

// The commands in turn, on a book that passes. The marks are made once, since no question minds what an earlier one left there.
fn run_commands(book: &mut [u64], commands: &[u16], output: &mut [u16]) -> Ended
    requires { Passing book.old }
    ensures ran { Ran book.old book.new commands.now output.old output.new (stop_of result.stop) result.used result.written }
    ensures why { Because commands.now result.used result.stop }
{
    let mut marks = [0; 65];
    let mut used = 0;
    let mut written = 0;
    while let Some(read) = reader::read_command(commands, used) {
        let behind = &commands[used + 1..];
        let Some(n) = do_command(book, read, behind, &mut marks, &mut output[written..]) else {
            return Ended {
                stop: Some(Stop::NoRoom),
                used,
                written,
            };
        };
        written += n;
        match read {
            Ok(command) => used += 1 + command.size,
            Err(refused) => {
                return Ended {
                    stop: Some(Stop::Refused(refused.why)),
                    used,
                    written,
                };
            }
        }
    }
    Ended {
        stop: None,
        used,
        written,
    }
}

// A batch, for any memory, any cells and any room.
pub fn run(book: &mut [u64], commands: &[u16], output: &mut [u16]) -> Ended
    ensures runs { Runs book.old book.new commands.now output.old output.new (stop_of result.stop) result.used result.written }
    ensures why { Because commands.now result.used result.stop }
{
    if !passing::passes(book) {
        return Ended {
            stop: Some(Stop::NotABook),
            used: 0,
            written: 0,
        };
    }
    // Called at two places, so the compiler doesn't build it in here: else what a command needs were on the stack during the check.
    if commands.len() == 1 {
        return run_commands(book, &commands[0..1], output);
    }
    run_commands(book, commands, output)
}
