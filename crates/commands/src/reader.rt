// Commands out of cells that anybody may have written. The cells and the place in them travel together as one reader.
ghost use Rattle.std.specs.Prelude.{◌≡◌, ◌+◌, ◌/◌, ◌%◌, ◌<◌, drop};
ghost use Rattle.commands.specs.Reader.{cell_in, past};
ghost use Rattle.commands.specs.declared.reader.Refusal.TheVariants.{Term};
ghost use Rattle.commands.specs.Kinds.{kind_at};
ghost use Rattle.commands.specs.Commands.{refusal_number, refused_with, told, read_by, command_of as command_at, command_in};

use crate::kinds;
use crate::kinds::{Act, Kind};
use std::error::Error;
use std::fmt;
use term::reading;
use term::reading::{Fault, Refused};

// A command as it was read: what to do, under which number, and how many of the cells behind its command cell are its term.
#[derive(Clone, Copy, Debug, PartialEq, Eq)]
pub struct Command {
    pub act: Act,
    pub number: u16,
    pub size: usize,
}

// Why a command is refused, and the batch stops.
#[derive(Clone, Copy, Debug, PartialEq, Eq)]
pub enum Refusal {
    // There is no such kind.
    UnknownKind,
    // The number has to be 0 and is not.
    NumberNotZero,
    // The term that follows is at fault.
    Term(Fault),
}

// The refusal number: 2, or that of the term's fault.
impl From<Refusal> for u64 {
    ghost from_gives = { λ why number. number ≡ refusal_number why };

    fn from(why: Refusal) -> u64 {
        match why {
            Refusal::UnknownKind | Refusal::NumberNotZero => 2,
            Refusal::Term(fault) => u64::from(fault),
        }
    }
}

impl From<Refused> for Refusal {
    ghost from_gives = { λ refused why. why ≡ Term refused.fault };

    fn from(refused: Refused) -> Refusal {
        Refusal::Term(refused.fault)
    }
}

impl fmt::Display for Refusal {
    fn fmt<W: fmt::Write>(&self, f: &mut fmt::Formatter<W>) -> fmt::Result {
        match self {
            Refusal::UnknownKind => f.write_str("there is no such kind of command"),
            Refusal::NumberNotZero => f.write_str("the command's number is not 0"),
            Refusal::Term(fault) => write!(f, "{fault}"),
        }
    }
}

impl Error for Refusal {}

// A command that is refused. Whatever is wrong, its cell says an act, none where there is no such kind, and a number.
#[derive(Clone, Copy, Debug, PartialEq, Eq)]
pub struct RefusedCommand {
    pub act: Option<Act>,
    pub number: u16,
    pub why: Refusal,
}

// Cells and a place in them.
#[derive(Clone, Copy)]
pub struct Reader<'a> {
    pub cells: &'a [u16],
    pub at: usize,
}

// A reader at a place.
pub fn reader_at<'a>(cells: &'a [u16], at: usize) -> Reader<'a>
    ensures { (result.cells ≡ cells.entry) × (result.at ≡ at) }
{
    Reader { cells, at }
}

// The next cell, none at the end; the reader stays where it is.
pub fn next_cell(r: Reader<'_>) -> Option<u16>
    ensures { result ≡ cell_in (drop r.entry.at r.entry.cells.now) }
{
    r.cells.get(r.at).copied()
}

// The reader moved on past its next cell; at the end it stays, so nothing has to be asked of it.
pub fn moved_on<'a>(r: Reader<'a>) -> Reader<'a>
    ensures { (result.cells ≡ r.entry.cells) × (result.at ≡ past r.entry.cells.now r.entry.at) }
{
    if r.at < r.cells.len() {
        return reader_at(r.cells, r.at + 1);
    }
    r
}

// A command of a known kind: its number is looked at, and then its term is read where one follows.
#[tactic(auto, unfolding(crate::specs::Commands::read_by))]
fn command_by(kind: Kind, number: u16, behind: Reader<'_>) -> Result<Command, Refusal>
    ensures { told (Some kind) number result ≡ read_by (Some kind) number (drop behind.entry.at behind.entry.cells.now) }
{
    let act = kind.act;
    if kind.zero && number != 0 {
        return Err(Refusal::NumberNotZero);
    }
    if !kind.term {
        return Ok(Command {
            act,
            number,
            size: 0,
        });
    }
    let size = reading::read(behind.cells, behind.at)?;
    Ok(Command { act, number, size })
}

// The command that a cell begins, with the reader behind it.
#[tactic(auto, unfolding(crate::specs::Commands::read_by))]
fn command_of(c: u16, behind: Reader<'_>) -> Result<Command, Refusal>
    ensures { told (kind_at (c / 4096)) (c % 4096) result ≡ command_at c (drop behind.entry.at behind.entry.cells.now) }
{
    let kind = kinds::kind_of(c / 4096).ok_or(Refusal::UnknownKind)?;
    command_by(kind, c % 4096, behind)
}

// A command that is refused, by its cell. The cell is taken apart anew, so nothing is kept for this while a command is read.
fn refused(c: u16, why: Refusal) -> RefusedCommand
    ensures { result ≡ refused_with (kind_at (c / 4096)) (c % 4096) why }
{
    let act = match kinds::kind_of(c / 4096) {
        Some(kind) => Some(kind.act),
        None => None,
    };
    let number = c % 4096;
    RefusedCommand { act, number, why }
}

// The next command, or that it is refused; none at the end.
pub fn next_command(r: Reader<'_>) -> Option<Result<Command, RefusedCommand>>
    ensures { result ≡ command_in (drop r.entry.at r.entry.cells.now) }
{
    let c = next_cell(r)?;
    Some(match command_of(c, moved_on(r)) {
        Ok(command) => Ok(command),
        Err(why) => Err(refused(c, why)),
    })
}

// The same for those who have the cells and the place apart.
pub fn read_command(cells: &[u16], at: usize) -> Option<Result<Command, RefusedCommand>>
    ensures { result ≡ command_in (drop at cells.now) }
{
    next_command(reader_at(cells, at))
}
