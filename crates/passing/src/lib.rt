// The check: does lent memory hold a set of rules? One walk down from the root: node by node along first children, and back to the
// last node of the way that has a next sibling. A node that is come to is taken from those left, so no walk is longer than the maps
// have bits, and its time goes with the nodes and the rules held.
#![tactic(auto)]

ghost use Rattle.std.specs.Prelude.{◌≡◌, ◌%◌, ◌≤◌, ◌<◌, length, get_or, take};
ghost use Rattle.deciding.specs.Deciding.{Decides};
ghost use Rattle.layout.specs.Layout.{map_words, last_link, book_words};
ghost use Rattle.book.specs.Memory.{Passing};
ghost use Rattle.recorded.specs.Way.{numbered};
ghost use Rattle.passing.specs.State.{AtHook, Sizes, Come, AskedNode, AskedRule, Entered, Pushed, Downed, Ruled, Clear, Popped};

use book::Book;
use links::MARK;

// Where the walk is: before the link x, a child of p with a cell of `low` at the least, `depth` cells down and with `top` stops to
// come back to. 0 for x is no link, as in the links of the memory: `AtHook` reads it so.
#[derive(Clone, Copy)]
pub struct Walker {
    pub x: usize,
    pub p: usize,
    pub low: u64,
    pub depth: usize,
    pub top: usize,
}

// Does the word w of the link that the walk is before fit below p, and is its node left? Then it is taken.
// Those left are a slice here and in `enter`, `enter_rule` and `is_clear`, as `down` and `rules` are lent them.
fn come(left: &mut [u64], w: u64, at: Walker) -> bool
    requires maps { length left.old ≡ map_words }
    requires some { 0 < at.x }
    requires most { at.x ≤ last_link }
    ensures { Come left.old left.new at w result }
{
    let fits = at.low <= links::cell_of(w)
        && links::parent_of(w) as usize == at.p
        && bits::is_marked(left, at.x - 1);
    if fits {
        bits::clear(left, at.x - 1);
    }
    fits
}

// The node is put on the stack, with its depth in place of its first child, and stays there if it has a next sibling.
// It is stored in any case, as no guess of the processor at its sibling would be a good one.
fn push(stack: &mut [u64], top: usize, w: u64, depth: usize) -> usize
    requires stack_len { length stack.old ≡ 33 }
    requires top_low { top ≤ 32 }
    requires depth_low { depth ≤ 32 }
    ensures { Pushed stack.old stack.new top result w depth }
{
    stack[top] = links::with_first(w, depth as u64);
    top + usize::from(links::next_of(w) != 0)
}

// The cell of the most general term: a blank is the next variable.
fn number(c: u64, known: u64) -> u64
    requires cell_low { c ≤ 32768 }
    requires known_low { known ≤ 32 }
    ensures { (result ≡ numbered c known) × (result < 65536) }
{
    if c < MARK { c } else { c + known }
}

// The word of the link that the walk is before, where that leads to a node of forms that fits. Then the node is taken.
fn enter(m: &[u64], left: &mut [u64], at: Walker) -> Option<u64>
    requires words { length m.now ≡ book_words }
    requires maps { length left.old ≡ map_words }
    ensures { Entered (AskedNode left.old at) m.now left.old left.new at result }
{
    if at.x == 0 || Book::NODES < at.x || 32 <= at.depth {
        return None;
    }
    let w = m[layout::LINKS_AT + at.x];
    let fits = links::cell_of(w) <= MARK && come(left, w, at);
    fits.then_some(w)
}

// From the link that the walk is before along first children down to where nothing is wanted.
// The arrays are parameters one by one, since docs/CONTRACTS.md names `down` and `rules` as they are called.
pub fn down(
    m: &[u64],
    left: &mut [u64],
    way: &mut [u64],
    wants: &mut [u64],
    stack: &mut [u64],
    mut at: Walker,
) -> Option<Walker>
    requires sizes { Sizes m.now left.old way.old wants.old stack.old }
    requires at_hook { AtHook m.now left.old way.old wants.old stack.old at }
    ensures { Downed m.now left.old left.new way.new wants.new stack.new result }
{
    let mut k = wants[at.depth];
    let mut word = way[at.depth];
    // By links, not by an index: down along first children, as long as a cell is wanted.
    while k % 65536 != 0 {
        let w = enter(m, left, at)?;
        let c = links::cell_of(w);
        let top = push(stack, at.top, w, at.depth);
        word = word % 281474976710656 * 65536 + number(c, k / 65536);
        k = k + c / 4096 % 8 + c / 32768 * 65536 - 1;
        let depth = at.depth + 1;
        way[depth] = word;
        wants[depth] = k;
        at = Walker {
            x: links::first_of(w) as usize,
            p: at.x,
            low: 0,
            depth,
            top,
        };
    }
    Some(at)
}

// The word of the link that the walk is before, where that leads to a rule that fits. Then the rule is taken.
fn enter_rule(m: &[u64], left: &mut [u64], at: Walker) -> Option<u64>
    requires words { length m.now ≡ book_words }
    requires maps { length left.old ≡ map_words }
    ensures { Entered (AskedRule left.old at) m.now left.old left.new at result }
{
    if at.x <= Book::NODES || layout::LAST_LINK < at.x {
        return None;
    }
    let w = m[layout::LINKS_AT + at.x];
    let fits = links::first_of(w) == 0 && come(left, w, at);
    fits.then_some(w)
}

// Along the rules below a whole form, one at the least.
pub fn rules(
    m: &[u64],
    left: &mut [u64],
    way: &[u64],
    wants: &[u64],
    stack: &[u64],
    mut at: Walker,
) -> bool
    requires sizes { Sizes m.now left.old way.now wants.now stack.now }
    requires at_hook { AtHook m.now left.old way.now wants.now stack.now at }
    requires depth_value { get_or wants.now at.depth 0 % 65536 ≡ 0 }
    ensures { Ruled m.now left.old left.new way.now wants.now stack.now at.depth at.top result }
{
    // By links, not by an index: along next siblings.
    loop {
        let Some(w) = enter_rule(m, left, at) else {
            return false;
        };
        let number = links::cell_of(w);
        if !recorded::is_rule(m, way, at.x - layout::FIRST_RULE, number, at.depth) {
            return false;
        }
        at.x = links::next_of(w) as usize;
        at.low = number + 1;
        if at.x == 0 {
            return true;
        }
    }
}

// The words of the maps: in the beginning every node in use is left.
fn maps(m: &[u64]) -> [u64; layout::MAP_WORDS]
    requires { length m.now ≡ book_words }
    ensures { result ≡ take map_words m.now }
{
    let mut left = [0u64; layout::MAP_WORDS];
    left.copy_from_slice(&m[..layout::MAP_WORDS]);
    left
}

// Is no node left?
fn is_clear(left: &[u64]) -> bool
    requires { length left.now ≡ map_words }
    ensures { Decides (Clear left.now) result }
{
    bits::is_zero(left)
}

// Behind the stop with the word w, where t stops are left.
fn back(w: u64, t: usize) -> Walker
    ensures { Popped w t result }
{
    Walker {
        x: links::next_of(w) as usize,
        p: links::parent_of(w) as usize,
        low: links::cell_of(w) + 1,
        depth: links::first_of(w) as usize,
        top: t,
    }
}

// Does memory of any length and with any contents pass?
pub fn passes(m: &[u64]) -> bool
    ensures { Decides (Passing m.now) result }
{
    if m.len() != Book::WORDS {
        return false;
    }
    let mut left = maps(m);
    let first = links::first_of(m[layout::LINKS_AT]) as usize;
    if first == 0 {
        return is_clear(&left);
    }
    // Three lists by depth and not one of structs: `down` and `rules`, which docs/CONTRACTS.md names, are lent them apart.
    let mut way = [0u64; 33];
    let mut wants = [1u64; 33];
    let mut stack = [0u64; 33];
    let mut at = Walker {
        x: first,
        p: 0,
        low: 0,
        depth: 0,
        top: 0,
    };
    // By links, not by an index: down to a form, along its rules, back to the last node with a next sibling.
    loop {
        let Some(end) = down(m, &mut left, &mut way, &mut wants, &mut stack, at) else {
            return false;
        };
        if !rules(m, &mut left, &way, &wants, &stack, end) {
            return false;
        }
        if end.top == 0 {
            return is_clear(&left);
        }
        at = back(stack[end.top - 1], end.top - 1);
    }
}
