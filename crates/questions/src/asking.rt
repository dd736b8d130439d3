// What is asked: the memory of a book, the cells of a question, and which blanks may be filled.

// No ghost field says that the memory passes: `Passing` is data, and a ghost field is a proposition. So clauses say it.

// A question to a book. Variants, instances, generalisations and unifiables differ in the two flags and in nothing else.
#[derive(Clone, Copy)]
pub struct Question<'a> {
    pub m: &'a [u64],
    pub fills_question: bool,
    pub fills_rule: bool,
    pub cells: &'a [u16],
}
