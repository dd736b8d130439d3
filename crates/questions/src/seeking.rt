// Seeking among siblings: the first that is the cell wanted, or a blank.
ghost use Rattle.std.specs.Prelude.{◌≡◌, length};
ghost use Rattle.layout.specs.Layout.{book_words};
ghost use Rattle.links.specs.Words.{cell_of};
ghost use Rattle.questions.specs.Promises.{Onwards, LeapsTo, Sought, Threaded};

use links::MARK;

// Links are numbers here, as the memory has them: 0 where there is none.

// The sibling to look at after the node with the word w: the next, as long as a symbol wanted is ahead; else the last, if it is known,
// since it alone may be a blank.
fn onward(m: &[u64], cell: u64, w: u64) -> usize
    requires m_len { length m.now ≡ book_words }
    requires not_it { cell_of w ≡ cell → ⊥ }
    ensures { Onwards m.now cell w result }
{
    if cell < MARK && links::cell_of(w) < cell {
        return links::next_of(w) as usize;
    }
    links::signs::to_last(
        &m[0..layout::TREE_WORDS],
        &m[layout::SIGNS_AT..layout::SIGNS_END],
        w,
    )
}

// Where to begin looking for the cell from the link on: where a sign leads to it or near it, or at the link.
fn leap(m: &[u64], cell: u64, link: usize) -> usize
    requires { Threaded m.now link × (link ≡ 0 → ⊥) }
    ensures { LeapsTo m.now cell link result }
{
    if MARK <= cell {
        return link;
    }
    let w = m[layout::LINKS_AT + link];
    if cell <= links::cell_of(w) || links::next_of(w) == 0 {
        return link;
    }
    links::signs::known(
        &m[0..layout::TREE_WORDS],
        &m[layout::SIGNS_AT..layout::SIGNS_END],
        link,
        w,
        cell,
    )
}

// The first sibling from the link on whose cell is the one wanted, or that is a blank; none where a symbol above `last` comes
// before. Siblings are passed here at one load each and nothing stored, and long lists of them by a leap.
pub fn sibling(m: &[u64], cell: u64, last: u64, link: usize) -> Option<usize>
    requires { Threaded m.now link × (link ≡ 0 → ⊥) }
    ensures { Sought m.now cell last link result }
{
    // No index: the walk follows links, to the memory's 0.
    let mut x = leap(m, cell, link);
    while x != 0 {
        let w = m[layout::LINKS_AT + x];
        let c = links::cell_of(w);
        if c == cell || MARK <= c {
            return Some(x);
        }
        if last < c {
            return None;
        }
        x = onward(m, cell, w);
    }
    None
}
