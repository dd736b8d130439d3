// The tree in lent memory: one node for each different beginning of the forms that it holds, and the rules below the last nodes of
// their forms. The crate `layout` says where its words stand:
//
//   the node map    node n is bit n % 64, the most significant first, of word n / 64
//   the rule map    rule r is bit r % 64 of word r / 64
//   the links       a word each: 0 is the root, n + 1 the node n
//                   | cell | parent | first child | next sibling |   16 bits each
//
// The two maps are one: behind the nodes of forms stand the rules, as nodes too. The rule at place r is the node 4,096 + r, and its
// number is its cell. Parent, first child and next sibling are links; 0 is the root or none. Siblings ascend by cell.
#![tactic(auto)]

ghost use Rattle.std.specs.Prelude.{◌≡◌, reverse, true, false, suc, ◌+◌, ◌<◌, ◌≤◌, length};
ghost use Rattle.layout.specs.Layout.{nodes_limit, last_link, tree_words, sign_words};
ghost use Rattle.shape.specs.Shape.{Used, to};
ghost use Rattle.shape.specs.Tally.{tally};
ghost use Rattle.shape.specs.Change.{Links, Grown, Trimmed};
ghost use Rattle.shape.specs.Effects.{Leads};
ghost use Rattle.links.specs.Words.{cell_of, parent_of, first_of, next_of, Node, shape, hook};
ghost use Rattle.tree.specs.Promises.{Sound, Found, Descended, PlantedOf, Hangable, Hung};
ghost use Rattle.tree.specs.Needs.{ChildWith, Room, Next, Growing, Childless, Unlinked};
ghost use Rattle.links.specs.Siblings.{Before, Ready};

// ---- hooks

// A place for a link among the children of `parent`: behind the sibling `behind`, or before all where that is 0, as in the links of
// the memory.
#[derive(Clone, Copy)]
struct Hook {
    parent: usize,
    behind: usize,
}

// One reads the link and one stores it; what they share is which word has it, one test.
impl Hook {
    fn get(self, m: &[u64]) -> usize
        requires m_len { length m.now ≡ tree_words }
        requires parent_le_last_link { self.parent ≤ last_link }
        requires behind_le_last_link { self.behind ≤ last_link }
        ensures { to (shape m.now) (hook self.parent self.behind) ≡ result }
    {
        if self.behind == 0 {
            links::first_of(m[layout::LINKS_AT + self.parent]) as usize
        } else {
            links::next_of(m[layout::LINKS_AT + self.behind]) as usize
        }
    }

    fn put(self, m: &mut [u64], x: u64)
        requires m_len { length m.old ≡ tree_words }
        requires parent_le_last_link { self.parent ≤ last_link }
        requires behind_le_last_link { self.behind ≤ last_link }
        requires x_bound { x < 65536 }
        ensures { Leads (shape m.old) (shape m.new) (hook self.parent self.behind) x }
    {
        if self.behind == 0 {
            let at = layout::LINKS_AT + self.parent;
            m[at] = links::with_first(m[at], x);
        } else {
            let at = layout::LINKS_AT + self.behind;
            m[at] = links::with_next(m[at], x);
        }
    }
}

// The hook of the cell c among the children of a node. It is looked for from a hook on that is not behind it.
fn find(m: &[u64], from: Hook, c: u64) -> Hook
    requires ready { Ready m.now from.parent }
    requires before { Before (shape m.now) from.parent from.behind c }
    ensures parent { result.parent ≡ from.parent }
    ensures found { Found (shape m.now) from.parent result.behind c }
{
    let mut at = from;
    let mut x = at.get(m);
    // By links, not by an index.
    while x != 0 {
        let w = m[layout::LINKS_AT + x];
        if links::cell_of(w) >= c {
            return at;
        }
        at.behind = x;
        x = links::next_of(w) as usize;
    }
    at
}

// ---- adding

// How far the nodes of a form exist: the link of the last, and how many there are; and the child of the last behind which the
// next cell has its hook, or 0 as in the links, so that no one looks for it again.
#[derive(Clone, Copy, Debug, PartialEq, Eq)]
pub struct Down {
    pub link: usize,
    pub depth: usize,
    pub behind: usize,
}

// The child at the hook of the cell c, if it has that cell.
fn child_with(m: &[u64], at: Hook, c: u64) -> Option<usize>
    requires ready { Ready m.now at.parent }
    requires found { Found (shape m.now) at.parent at.behind c }
    ensures { ChildWith (shape m.now) at.parent c result }
{
    let x = at.get(m);
    if x == 0 || links::cell_of(m[layout::LINKS_AT + x]) != c {
        return None;
    }
    Some(x)
}

pub fn descend(m: &[u64], signs: &[u64], form: &[u16]) -> Down
    requires sound { Sound m.now }
    requires signs_len { length signs.now ≡ sign_words }
    ensures descended { Descended (shape m.now) form.now result.link result.depth }
    ensures next { Next (shape m.now) form.now result.link result.depth result.behind }
{
    let mut link: usize = 0;
    for (depth, cell) in form.iter().enumerate() {
        let c = u64::from(*cell);
        let from = Hook {
            parent: link,
            behind: links::signs::before(m, signs, link, c),
        };
        let hook = find(m, from, c);
        let Some(child) = child_with(m, hook, c) else {
            return Down {
                link,
                depth,
                behind: hook.behind,
            };
        };
        link = child;
    }
    Down {
        link,
        depth: form.len(),
        behind: 0,
    }
}

// The free node n comes in with the cell c at a hook.
fn link(m: &mut [u64], at: Hook, n: usize, c: u64)
    requires { Room m.old at.parent at.behind n c }
    ensures { Links (shape m.old) (shape m.new) (hook at.parent at.behind) c n }
{
    let x = at.get(m);
    m[layout::NODES_AT + n] = links::pack(c, at.parent as u64, 0, x as u64);
    at.put(m, n as u64 + 1);
    bits::mark(&mut m[0..layout::MAP_WORDS], n);
}

// A chain of new nodes with the cells of a form, the first at a hook: the link of the last. A new node has no child, so the hook of
// the next one is known; and the words of the map before `full` have no free node.
fn grow(m: &mut [u64], from: Hook, form: &[u16]) -> usize
    requires { Growing m.old from.parent from.behind form.now 0 }
    ensures { Grown (shape m.old) from.parent (reverse form.now) (shape m.new) result }
{
    let mut at = from;
    let mut full: usize = 0;
    for cell in form {
        let n = bits::lowest_free_from(&m[0..layout::NODE_MAP_WORDS], full).unwrap();
        link(m, at, n, u64::from(*cell));
        at = Hook {
            parent: n + 1,
            behind: 0,
        };
        full = n / 64;
    }
    at.parent
}

// Are as many nodes free? Always the lowest free node is taken, so the last word of the map is nearly always 0: then 64 are, and
// the others need no count.
fn has_nodes(m: &[u64], missing: usize) -> bool
    requires { (length m.now ≡ tree_words) × (missing ≤ 32) }
    ensures yes { result ≡ true → tally (shape m.now).used nodes_limit + missing ≤ nodes_limit }
    ensures no { result ≡ false → nodes_limit < tally (shape m.now).used nodes_limit + missing }
{
    m[layout::NODE_MAP_LAST] == 0
        || bits::count(&m[0..layout::NODE_MAP_WORDS]) + missing <= layout::NODES_LIMIT
}

// The nodes of a form that are missing are linked in, from where `descend` ended: the link of its last node, or none where there
// would be more than 4,096 nodes.
pub fn plant(m: &mut [u64], form: &[u16], d: Down) -> Option<usize>
    requires sound { Sound m.old }
    requires form_nonzero { 0 < length form.now }
    requires form_len_bound { length form.now ≤ 32 }
    requires descended { Descended (shape m.old) form.now d.link d.depth }
    requires next { Next (shape m.old) form.now d.link d.depth d.behind }
    ensures { PlantedOf m.old m.new form.now result }
{
    if !has_nodes(m, form.len() - d.depth) {
        return None;
    }
    let from = Hook {
        parent: d.link,
        behind: d.behind,
    };
    Some(grow(m, from, &form[d.depth..]))
}

// The rule r, with its number, hangs below the last node of its form, whose link is p.
pub fn hang(m: &mut [u64], p: usize, r: usize, number: u64)
    requires { Hangable m.old p r number }
    ensures { Hung (shape m.old) (shape m.new) p r number }
{
    let first = Hook {
        parent: p,
        behind: 0,
    };
    let at = find(m, first, number);
    link(m, at, layout::NODES_LIMIT + r, number);
}

// ---- removing

// The node n, which has no child, goes.
fn unlink(m: &mut [u64], n: usize)
    requires { Childless m.old n }
    ensures { Unlinked (shape m.old) (shape m.new) n }
{
    let w = m[layout::NODES_AT + n];
    let first = Hook {
        parent: links::parent_of(w) as usize,
        behind: 0,
    };
    let at = find(m, first, links::cell_of(w));
    at.put(m, links::next_of(w));
    bits::clear(&mut m[0..layout::MAP_WORDS], n);
}

// From the node `last` up, each node that has no child goes.
pub fn trim(m: &mut [u64], last: usize)
    requires sound { Sound m.old }
    requires used { Used (shape m.old) last }
    ensures { Trimmed (shape m.old) (suc last) (shape m.new) }
{
    let mut l = last + 1;
    // By links, not by an index: up, as far as the root, which is 0.
    while l != 0 {
        let w = m[layout::LINKS_AT + l];
        if links::first_of(w) != 0 {
            return;
        }
        unlink(m, l - 1);
        l = links::parent_of(w) as usize;
    }
}
