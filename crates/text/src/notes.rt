// The notes of a reading: for each cell the place of its token, the place after it, and its shape.
ghost use Rattle.std.specs.Prelude.{◌≡◌, ◌+◌, ◌<◌, ◌≤◌, length, set};

// The cells of a term.
pub const CELLS: usize = 32;

// Where the token of a cell begins; where reading goes on after it, of a name with a bracket after the bracket; and its shape: the cell
// without its number.
#[derive(Clone, Copy, Debug, PartialEq, Eq)]
pub struct Note {
    pub place: usize,
    pub after: usize,
    pub shape: usize,
}

// The notes of the cells that are filled so far.
#[derive(Drop)]
pub struct Notes {
    pub all: [Note; CELLS],
    pub size: usize,
    ghost room: { length all ≡ 32 },
    ghost few: { size ≤ 32 },
}

impl Notes {
    pub fn none() -> Notes
        ensures { result.size ≡ 0 }
    {
        Notes {
            all: [Note {
                place: 0,
                after: 0,
                shape: 0,
            }; CELLS],
            size: 0,
        }
    }

    pub fn push(&mut self, note: Note)
        requires { self.old.size < 32 }
        ensures { (self.new.all ≡ set self.old.all self.old.size note) × (self.new.size ≡ self.old.size + 1) }
    {
        self.all[self.size] = note;
        self.size += 1;
    }
}
