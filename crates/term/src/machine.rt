// The matching machine on a question's cells: what it does where a rule's cell meets one of the question's.
ghost use Rattle.term.specs.Steps.{IsSpot, Within, Passed, Stepped};

use crate::{MARK, arity};

// Where the machine stands: how many subterms of the rule are still to skip, and how far into the question has it come?
#[derive(Clone, Copy, Debug, PartialEq, Eq)]
pub struct Spot {
    pub skip: usize,
    pub place: usize,
}

// The place past the next `count` subterms of the question from `place` on.
pub fn past(question: &[u16], count: usize, place: usize) -> usize
    requires { IsSpot question.now count place }
    ensures { Passed question.now count place result }
{
    let mut wanted = count;
    for at in place..question.len() {
        if wanted == 0 {
            return at;
        }
        wanted = wanted - 1 + arity(question[at]);
    }
    question.len()
}

// The rule's cell c meets the question's cell at `place`: where the machine stands then, or none where it fails.
pub fn meet(
    fills_question: bool,
    fills_rule: bool,
    question: &[u16],
    c: u16,
    place: usize,
) -> Option<Spot>
    requires { Within question.now place }
    ensures { Stepped fills_question fills_rule question.now c 0 place result }
{
    let d = question[place];
    let next = place + 1;
    match (MARK <= c, MARK <= d) {
        _ if c == d => Some(Spot {
            skip: 0,
            place: next,
        }),
        (true, true) => Some(Spot {
            skip: 0,
            place: next,
        }),
        (false, true) if fills_question => Some(Spot {
            skip: arity(c),
            place: next,
        }),
        (true, false) if fills_rule => Some(Spot {
            skip: 0,
            place: past(question, arity(d), next),
        }),
        _ => None,
    }
}
