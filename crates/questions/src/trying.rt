// Trying a point: what is left to be tried after it, and the rules that answer there.
ghost use Rattle.std.specs.Prelude.{◌≡◌, ◌<◌, ◌≤◌, [], length};
ghost use Rattle.layout.specs.Layout.{last_link, book_words};
ghost use Rattle.bits.specs.Numbers.{NumberSet};
ghost use Rattle.questions.specs.Promises.{Decisive, Wanted, LastWanted, linked, AtNode, PassesNode};
ghost use Rattle.questions.specs.Promises.{RulesBeside, Marked, siblings, ReadyFor, LeftFor, TriedFor};

use crate::asking::Question;
use crate::seeking::sibling;
use book::Book;
use links::MARK;
use term::machine;

// A point in hand, at the width of the machine's registers. A link of 0 is none, as in the memory and on the list: `HasNode` reads it so.
#[derive(Clone, Copy)]
pub struct Way {
    pub link: usize,
    pub skip: usize,
    pub place: usize,
}

// What is left to be tried after a node: the link of its sibling, where the machine stands as it did before; and the way to its
// first child, with the machine's next spot.
#[derive(Drop)]
pub struct Ways {
    pub beside: Option<usize>,
    pub below: Option<Way>,
}

// Nothing is left.
const NOWHERE: Ways = Ways {
    beside: None,
    below: None,
};

// A link as the memory has it: 0 where there is none. `at_node` asks the same of a point in hand: what the two share is one test.
fn linked(link: u64) -> Option<usize>
    ensures { result ≡ linked link }
{
    if link == 0 {
        return None;
    }
    Some(link as usize)
}

// The way, if there is a node at its link.
pub fn at_node(w: Way) -> Option<Way>
    ensures { AtNode w result }
{
    if w.link == 0 {
        return None;
    }
    Some(w)
}

// The last cell to look at. Siblings ascend, so where a rule's blank may not be filled nothing is to be found behind the symbol
// wanted; else the blank is the last of them.
fn last_wanted(fills_rule: bool, cell: u64) -> u64
    ensures { LastWanted fills_rule cell result }
{
    if fills_rule {
        return u64::from(u16::MAX);
    }
    cell
}

// A node that is passed, whatever its cell is: below it its arguments are to be skipped, and what is left of the subterms.
fn pass_node(m: &[u64], p: Way, left: usize, place: usize) -> Ways
    requires m_len { (length m.now ≡ book_words) × (p.link ≤ last_link) }
    requires left_bound { left ≤ 231 }
    ensures { PassesNode m.now p left place result }
{
    let w = m[layout::LINKS_AT + p.link];
    let below = Way {
        link: links::first_of(w) as usize,
        skip: left + term::arity(links::cell_of(w) as u16),
        place,
    };
    Ways {
        beside: linked(links::next_of(w)),
        below: at_node(below),
    }
}

// Marks the numbers of the rules from the link on: all siblings are.
fn mark_rules(m: &[u64], marks: &mut [u64], link: usize)
    requires rules_beside { RulesBeside m.now link }
    requires number_set { NumberSet marks.old }
    ensures { Marked m.now marks.old marks.new (siblings m.now link) }
{
    // No index: the walk follows links, to the memory's 0.
    let mut x = link;
    while x != 0 {
        let w = m[layout::LINKS_AT + x];
        bits::numbers::put(marks, links::cell_of(w) as usize);
        x = links::next_of(w) as usize;
    }
}

impl<'a> Question<'a> {
    // The one symbol with which the machine can go on at a place, or the mark where it is no symbol; none where it may be any,
    // since the question's cell may be filled.
    fn wanted(&self, place: usize) -> Option<u64>
        requires { place < length self.now.cells.now }
        ensures { Wanted self.now.fills_question self.now.cells.now place result }
    {
        let c = self.cells[place];
        if c < Book::MARK {
            return Some(u64::from(c));
        }
        if self.fills_question {
            return None;
        }
        Some(MARK)
    }

    // The machine's step at the first node from the point on at which it may go on, where one cell is wanted.
    fn meet_node(&self, p: Way, cell: u64) -> Ways
        requires ready { ReadyFor self.now p }
        requires skip { p.skip ≡ 0 }
        requires place_in_bounds { p.place < length self.now.cells.now }
        requires decisive { Decisive self.now.fills_question self.now.cells.now p.place cell }
        requires node { p.link ≡ 0 → ⊥ }
        ensures { LeftFor self.now p [] result }
    {
        let m = self.m;
        let last = last_wanted(self.fills_rule, cell);
        let Some(x) = sibling(m, cell, last, p.link) else {
            return NOWHERE;
        };
        let w = m[layout::LINKS_AT + x];
        let c = links::cell_of(w) as u16;
        let beside = linked(links::next_of(w));
        let met = machine::meet(self.fills_question, self.fills_rule, self.cells, c, p.place);
        match met {
            Some(spot) => Ways {
                beside,
                below: at_node(Way {
                    link: links::first_of(w) as usize,
                    skip: spot.skip,
                    place: spot.place,
                }),
            },
            None => Ways {
                beside,
                below: None,
            },
        }
    }

    // Tries a point. Where there are subterms to skip any node does, and where the question's cell may be filled; at the question's
    // end all siblings are rules that answer; else one cell is wanted.
    pub fn try_point(&self, marks: &mut [u64], p: Way) -> Ways
        requires ready { ReadyFor self.now p }
        requires node { p.link ≡ 0 → ⊥ }
        requires number_set { NumberSet marks.old }
        ensures { TriedFor self.now marks.old marks.new p result }
    {
        let m = self.m;
        if 0 < p.skip {
            return pass_node(m, p, p.skip - 1, p.place);
        }
        if self.cells.len() <= p.place {
            mark_rules(m, marks, p.link);
            return NOWHERE;
        }
        match self.wanted(p.place) {
            Some(cell) => self.meet_node(p, cell),
            None => pass_node(m, p, 0, p.place + 1),
        }
    }
}
