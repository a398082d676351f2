/// The most bytes of an input that are looked at.
pub const INPUT_LIMIT: usize = 67_108_864;

/// The most bytes of a line, without the byte 0a that ends it.
pub const LINE_LIMIT: usize = 1_048_576;
