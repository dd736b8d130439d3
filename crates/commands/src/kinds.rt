// The table of kinds, one line a kind: what a command of that kind does, whether its number has to be 0, whether a term follows.
ghost use Rattle.std.specs.Prelude.{◌≡◌};
ghost use Rattle.commands.specs.Kinds.{row as row_of, kind_at};

// What a command does.
#[derive(Clone, Copy, Debug, PartialEq, Eq)]
pub enum Act {
    Add,
    Remove,
    // A question: may its own blanks be filled, and may the rule's?
    Ask(bool, bool),
    Show,
    Room,
}

#[derive(Clone, Copy, Debug, PartialEq, Eq)]
pub struct Kind {
    pub act: Act,
    pub zero: bool,
    pub term: bool,
}

fn row(act: Act, zero: bool, term: bool) -> Kind
    ensures { result ≡ row_of act zero term }
{
    Kind { act, zero, term }
}

// What each does, whether its number has to be 0, whether a term follows; none, where there is no such kind. A match and no array,
// since it compiles to a look-up, and an array would be put on the stack for each command.
#[tactic(auto, unfolding(crate::specs::Kinds::kind_at))]
pub fn kind_of(kind: u16) -> Option<Kind>
    ensures { result ≡ kind_at kind }
{
    match kind {
        0 => Some(row(Act::Add, false, true)),
        1 => Some(row(Act::Remove, false, false)),
        2 => Some(row(Act::Ask(false, false), true, true)),
        3 => Some(row(Act::Ask(true, false), true, true)),
        4 => Some(row(Act::Ask(false, true), true, true)),
        5 => Some(row(Act::Ask(true, true), true, true)),
        6 => Some(row(Act::Show, false, false)),
        7 => Some(row(Act::Room, true, false)),
        _ => None,
    }
}
