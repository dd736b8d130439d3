// Where what stands in a book's memory: the constants of specs/Layout, which draws it. The code above names words and parts by them.
#![tactic(auto)]

// ---- limits

// Rule numbers are those of 12 bits.
pub const RULE_NUMBERS: usize = 4096;

pub const NODE_MAP_WORDS: usize = 64;

pub const RULE_MAP_WORDS: usize = 8;
// How many nodes of forms there is room for.
pub const NODES_LIMIT: usize = 64 * NODE_MAP_WORDS;
// How many rules.
pub const RULES_LIMIT: usize = 64 * RULE_MAP_WORDS;

// ---- the tree

pub const NODE_MAP_LAST: usize = NODE_MAP_WORDS - 1;

pub const RULE_MAP_AT: usize = NODE_MAP_WORDS;

pub const MAP_WORDS: usize = RULE_MAP_AT + RULE_MAP_WORDS;

pub const LINKS_AT: usize = MAP_WORDS;

pub const NODES_AT: usize = LINKS_AT + 1;

pub const FIRST_RULE: usize = NODES_LIMIT + 1;

pub const RULES_AT: usize = LINKS_AT + FIRST_RULE;

pub const LAST_LINK: usize = NODES_LIMIT + RULES_LIMIT;

pub const TREE_WORDS: usize = LINKS_AT + LAST_LINK + 1;

// ---- signs

pub const SIGNS_AT: usize = TREE_WORDS;

pub const SIGN_WORDS: usize = 2305;

pub const SIGNS_END: usize = SIGNS_AT + SIGN_WORDS;
// A field of them that nobody reads.
pub const NO_SIGN: usize = NODES_LIMIT + 1;

pub const FIRST_SIGN: usize = NODES_LIMIT + 4;

pub const SIGN_COUNT: u64 = 5120;

// ---- places

pub const PLACES_AT: usize = SIGNS_END;

pub const PLACE_WORDS: usize = 1024;

pub const PLACES_END: usize = PLACES_AT + PLACE_WORDS;

// ---- records

pub const TERM_WORDS: usize = 8;

pub const RECORD_WORDS: usize = 1 + TERM_WORDS;

pub const RECORDS_AT: usize = PLACES_END;

pub const TERMS_AT: usize = RECORDS_AT + 1;

pub const BOOK_WORDS: usize = RECORDS_AT + RECORD_WORDS * RULES_LIMIT;
