// Scripts: bytes with one command to a line.
pub(crate) mod digits;
pub(crate) mod fault;
pub(crate) mod find;
pub(crate) mod line;
pub(crate) mod lines;
pub(crate) mod number;
pub(crate) mod word;
