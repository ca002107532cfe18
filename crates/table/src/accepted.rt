// Accepted tables.

ghost use Rattle.table.specs.Accepted.{Accepted};
ghost use Rattle.table.specs.Checks.{Starts};

// The words of an accepted table, and what its first words say: the number of checks, the places and the bytes of a packet.
#[derive(Clone, Copy)]
pub struct Table<'a> {
    pub words: &'a [u16],
    pub checks: usize,
    pub places: usize,
    pub size: usize,
    pub ghost accepted: { Accepted words.now checks places size },
}

// The same, and where the places of each check start.
#[derive(Clone, Copy)]
pub struct Located<'a> {
    pub table: Table<'a>,
    pub starts: &'a [u16],
    pub ghost starts_at: { Starts table.words.now table.checks starts.now },
}
