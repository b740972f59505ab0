/// The most bytes of a line, its newline not counted, and of the whole input, newlines counted.
#[derive(Clone, Copy, Debug, PartialEq, Eq)]
pub struct Limits {
    pub line: u64,
    pub input: u64,
}

/// The most bytes of a line, its newline not counted.
pub const LINE_LIMIT: u64 = 34_603_008;

/// The most bytes of an input, newlines counted.
pub const INPUT_LIMIT: u64 = 67_108_864;
