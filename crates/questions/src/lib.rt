// The four questions: one search over the book's tree.
//
// The points still to be tried stand on a list, one a level: a link, and where the machine stands before it. The last is taken
// in hand. At a node the machine takes one step; where it goes on, the node's first child is tried next, and its sibling waits:
// one at hand, the others on the list.
// Where the machine is done, the node and all its later siblings are rules that answer. Variants, instances, generalisations
// and unifiables differ in two flags and in nothing else.
#![tactic(auto)]

mod asking;
pub mod listing;
mod seeking;
mod trying;
mod turning;

ghost use Rattle.std.specs.Prelude.{◌≡◌, ◌<◌, ◌≤◌, length};
ghost use Rattle.book.specs.Memory.{Passing};
ghost use Rattle.book.specs.Promises.{IsTerm};
ghost use Rattle.bits.specs.Numbers.{NumberSet};
ghost use Rattle.questions.specs.Promises.{point, Small, IsRoot, Rooted, Pops, Pushes, Searched};

use asking::Question;
use trying::Way;

// A point still to be tried: the link of a node, the subterms of a rule still to skip there, and the place in the question. It is
// small, since each question makes a list of them.
#[derive(Clone, Copy)]
pub struct Point {
    pub link: u16,
    pub skip: u16,
    pub place: u16,
}

// The point that the search begins with.
fn root(m: &[u64]) -> Point
    requires { Passing m.now }
    ensures { IsRoot m.now result }
{
    let first = links::first_of(m[layout::LINKS_AT]) as u16;
    Point {
        link: first,
        skip: 0,
        place: 0,
    }
}

// A point of the list, taken in hand.
impl From<Point> for Way {
    ghost from_gives = { λ p w. point w ≡ p };

    fn from(p: Point) -> Way {
        Way {
            link: usize::from(p.link),
            skip: usize::from(p.skip),
            place: usize::from(p.place),
        }
    }
}

// A point in hand, as it stands on the list. It always fits, so no `TryFrom` has to say whether it does.
fn as_point(w: Way) -> Point
    requires { Small w }
    ensures { result ≡ point w }
{
    Point {
        link: w.link as u16,
        skip: w.skip as u16,
        place: w.place as u16,
    }
}

// The points still to be tried: a list that is lent, and how many stand on it.
#[derive(Drop)]
struct Points<'a> {
    list: &'a mut [Point],
    depth: usize,
}

impl<'a> Points<'a> {
    // Takes the last point in hand.
    fn pop(&mut self) -> Option<Way>
        requires { self.old.depth ≤ length self.old.list.now }
        ensures { Pops self.old self.new result }
    {
        if self.depth == 0 {
            return None;
        }
        self.depth -= 1;
        Some(Way::from(self.list[self.depth]))
    }

    // Puts a point behind the others.
    fn push(&mut self, way: Way)
        requires room { self.old.depth < length self.old.list.now }
        requires small { Small way }
        ensures { Pushes self.old self.new way }
    {
        self.list[self.depth] = as_point(way);
        self.depth += 1;
    }
}

// Marks the numbers of the rules that answer. The points still to be tried stand on the list that is lent, the root first.
// It takes the parts of the question apart, as `mark_answers` does: docs/CONTRACTS.md names what these two take.
fn search(
    m: &[u64],
    fills_question: bool,
    fills_rule: bool,
    question: &[u16],
    marks: &mut [u64],
    list: &mut [Point],
)
    requires { Passing m.now × (IsTerm question.now × (NumberSet marks.old × Rooted m.now list.old)) }
    ensures { Searched fills_question fills_rule m.now question.now marks.old marks.new }
{
    let asked = Question {
        m,
        fills_question,
        fills_rule,
        cells: question,
    };
    let mut points = Points { list, depth: 1 };
    while let Some(way) = points.pop() {
        if let Some(rest) = asked.turn(marks, way) {
            points.push(rest.waits);
            points.push(rest.beside);
            points.push(rest.below);
        }
    }
}

// The same with the list made here, at the length that is always enough. All its points but the first are zeros, which cost
// less to write than copies of the root.
pub fn mark_answers(
    m: &[u64],
    fills_question: bool,
    fills_rule: bool,
    question: &[u16],
    marks: &mut [u64],
)
    requires passing { Passing m.now }
    requires term { IsTerm question.now }
    requires number_set { NumberSet marks.old }
    ensures { Searched fills_question fills_rule m.now question.now marks.old marks.new }
{
    let first = root(m);
    let none = Point {
        link: 0,
        skip: 0,
        place: 0,
    };
    let mut list = [none; 36];
    list[0] = first;
    search(m, fills_question, fills_rule, question, marks, &mut list);
}
