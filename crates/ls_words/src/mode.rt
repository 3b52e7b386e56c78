// What the program is asked to do.

use ls_cutting::Word;

/// What the program is asked to do.
#[derive(Drop)]
pub enum Mode {
    /// It answers the script that comes as its input.
    Input,
    /// It answers the script that the named file has.
    File { name: Word },
    /// It runs the drill with the given number on the given number of items.
    Drill { n: u32, number: u64 },
}
