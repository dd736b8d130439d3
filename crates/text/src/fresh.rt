// New names, gathered in a table apart, so a text that is refused can't have touched the lent one.
ghost use Rattle.std.specs.Prelude.{◌≡◌, ◌≤◌, length, replicate};

// A table of 32 slots, and how many of them are used.
#[derive(Drop)]
pub struct Fresh {
    pub table: [u8; 1024],
    pub count: usize,
    ghost room: { length table ≡ 1024 },
    ghost few: { count ≤ 32 },
}

impl Fresh {
    pub fn none() -> Fresh
        ensures { (result.table ≡ replicate 1024 0) × (result.count ≡ 0) }
    {
        Fresh {
            table: [0u8; 1024],
            count: 0,
        }
    }
}
