// Signs: hints that lead to a child of a node past its siblings, so that a question need not walk along long lists of them.
//
// They stand in words of their own, as fields of 16 bits: first, for the root and each node, the link of its last child; and from
// `layout::FIRST_SIGN` on the signs. A parent and a key give the field of a child's link.
//
// A child that came in beside others has up to three: by its own cell, and where it is the first of its group, by the 16 or the 256
// cells around it. Different keys may share a field, and then the later one has it.
//
// The words of the tree and of the signs are lent as two slices, parts of one book, as docs/CONTRACTS.md has it.
//
// A sign is a hint: who follows one looks first where it leads. So the check doesn't read them, removing a rule leaves them, and a
// wrong one costs time and never an answer.
ghost use Rattle.std.specs.Prelude.{◌≡◌, true, ◌≤◌, ◌<◌, length};
ghost use Rattle.layout.specs.Layout.{last_link, tree_words, sign_words, sign_fields, no_sign};
ghost use Rattle.links.specs.Words.{shape};
ghost use Rattle.links.specs.Siblings.{Further, Onward, Leap, Before, Ready};

// The field of the sign for a parent and a key. The factors spread keys that follow each other in any steps.
fn sign(p: u64, key: u64) -> usize
    ensures { result < sign_fields }
{
    let spread = (p % 65536 * 31153 + key % 65536 * 40503) % 65536;
    layout::FIRST_SIGN + (spread * layout::SIGN_COUNT / 65536) as usize
}

// What a sign goes by: a cell, a symbol's; its small group, of 16 cells, and the one before; its large group, of 256, and the one before.
#[derive(Clone, Copy, Debug, PartialEq, Eq)]
pub enum Key {
    Cell,
    Small,
    SmallBefore,
    Large,
    LargeBefore,
}

// In the order in which they are tried.
const KEYS: [Key; 5] = [
    Key::Cell,
    Key::Small,
    Key::SmallBefore,
    Key::Large,
    Key::LargeBefore,
];

impl Key {
    // The key as a number, for the cell c.
    fn number(self, c: u64) -> u64 {
        match self {
            Key::Cell => c,
            Key::Small => 36864 + c % 65536 / 16,
            Key::SmallBefore => 36863 + c % 65536 / 16,
            Key::Large => 45056 + c % 65536 / 256,
            Key::LargeBefore => 45055 + c % 65536 / 256,
        }
    }

    // The lowest cell that is followed under the key, for the cell c.
    fn least(self, c: u64) -> u64 {
        match self {
            Key::Cell => c,
            _ => 0,
        }
    }

    // The first cell of the group of c under the key.
    fn group_start(self, c: u64) -> u64 {
        match self {
            Key::Cell => c,
            Key::Small => c / 16 * 16,
            _ => c / 256 * 256,
        }
    }
}

// Does the link f lead to a sibling further on than the node with the word w, with a cell from `least` to `most`?
fn is_further(m: &[u64], w: u64, f: usize, least: u64, most: u64) -> bool
    requires { length m.now ≡ tree_words }
    ensures { result ≡ true → Further (shape m.now) w most f }
{
    if f == 0 || layout::LAST_LINK < f {
        return false;
    }
    let v = m[layout::LINKS_AT + f];
    let c = crate::cell_of(v);
    crate::parent_of(v) == crate::parent_of(w)
        && crate::cell_of(w) < c
        && least <= c
        && c <= most
        && bits::is_marked(&m[0..layout::MAP_WORDS], f - 1)
}

// From the node x with the word w, which has a cell below c: to the sibling with the cell c, or to one not far before it, if a sign
// leads there; else to x itself.
pub fn known(m: &[u64], signs: &[u64], x: usize, w: u64, c: u64) -> usize
    requires m_len { length m.now ≡ tree_words }
    requires signs_len { length signs.now ≡ sign_words }
    ensures { Leap (shape m.now) x w c result }
{
    for key in KEYS {
        let f = usize::from(bits::field(signs, sign(crate::parent_of(w), key.number(c))));
        if is_further(m, w, f, key.least(c), c) {
            return f;
        }
    }
    x
}

// A child of p with a cell below c, close to it if a sign leads there, or 0: from there on the hook of c is looked for.
// 0 for none, as in the links of the memory: `Before` reads it so.
pub fn before(m: &[u64], signs: &[u64], p: usize, c: u64) -> usize
    requires ready { Ready m.now p }
    requires signs_len { length signs.now ≡ sign_words }
    ensures { Before (shape m.now) p result c }
{
    let x = crate::first_of(m[layout::LINKS_AT + p]) as usize;
    if x == 0 {
        return 0;
    }
    let w = m[layout::LINKS_AT + x];
    if c <= crate::cell_of(w) {
        return 0;
    }
    if crate::next_of(w) == 0 {
        return x;
    }
    known(m, signs, x, w, c - 1)
}

// What the parent of the node with the word w knows as its last child. A field is a link of the memory, with 0 for none.
fn last_beside(signs: &[u64], w: u64) -> usize
    requires { length signs.now ≡ sign_words }
{
    let p = crate::parent_of(w) as usize;
    if layout::NODES_LIMIT < p {
        return 0;
    }
    usize::from(bits::field(signs, p))
}

// From the node with the word w to the last child of its parent, which is the blank if there is one, or to the next sibling, which is a
// link of the memory, 0 for none.
pub fn to_last(m: &[u64], signs: &[u64], w: u64) -> usize
    requires m_len { length m.now ≡ tree_words }
    requires signs_len { length signs.now ≡ sign_words }
    ensures { Onward (shape m.now) w 32768 result }
{
    let l = last_beside(signs, w);
    if is_further(m, w, l, 0, crate::MARK) {
        return l;
    }
    crate::next_of(w) as usize
}

// Going up from the node `last`, past those that are the only child: the node that came in beside others. A new rule's nodes came
// in one below the other, and this is the only one with siblings.
pub fn highest(m: &[u64], last: usize) -> usize
    requires m_len { length m.now ≡ tree_words }
    requires last_le_last_link { last ≤ last_link }
    ensures { result ≤ last_link }
{
    let mut l = last;
    for _ in 0..33 {
        let w = m[layout::LINKS_AT + l];
        if crate::next_of(w) != 0 {
            return l;
        }
        let p = crate::parent_of(w) as usize;
        if p == 0 {
            return l;
        }
        if layout::LAST_LINK < p {
            return l;
        }
        if crate::first_of(m[layout::LINKS_AT + p]) as usize != l {
            return l;
        }
        l = p;
    }
    l
}

// The link whose last child the node `at` is, or a field that nobody reads: a sign is stored there with no test.
pub fn list_ended(m: &[u64], at: usize) -> usize
    requires m_len { length m.now ≡ tree_words }
    requires at_le_last_link { at ≤ last_link }
    ensures { result ≤ no_sign }
{
    let w = m[layout::LINKS_AT + at];
    let p = crate::parent_of(w) as usize;
    if crate::next_of(w) != 0 {
        return layout::NO_SIGN;
    }
    if layout::NODES_LIMIT < p {
        return layout::NO_SIGN;
    }
    p
}

// The field of the sign under a key for the new node `at`, or, as in `list_ended`, one that nobody reads, where it has none: rules
// have none, and the sign of a group stays with its first child. That is one further on than a node with the same parent and the
// cell 0.
pub fn field_for(m: &[u64], signs: &[u64], at: usize, key: Key) -> usize
    requires m_len { length m.now ≡ tree_words }
    requires signs_len { length signs.now ≡ sign_words }
    requires at_le_last_link { at ≤ last_link }
    ensures { result < sign_fields }
{
    if layout::NODES_LIMIT < at {
        return layout::NO_SIGN;
    }
    let w = m[layout::LINKS_AT + at];
    let c = crate::cell_of(w);
    let k = sign(crate::parent_of(w), key.number(c));
    let f = usize::from(bits::field(signs, k));
    if is_further(m, w % crate::CELL, f, key.group_start(c), c) {
        return layout::NO_SIGN;
    }
    k
}
