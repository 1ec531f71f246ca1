// How much is read (this project's own).

/// The greatest number of lines of a refutation behind the header.
pub const LINES: usize = 10000000;

/// The greatest number of literals of a line, and of hints.
pub const WIDTH: usize = 1000000;

/// The greatest number of a pair.
pub const PAIR: u32 = 2147483647;

/// The greatest number of a goal, of a clause of a field or of a line.
pub const NUMBER: u32 = 4294967295;
