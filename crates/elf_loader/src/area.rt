// Where the parts of a program may stand.

/// The addresses from a first one up to an end, which is none of them.
#[derive(Clone, Copy)]
pub struct Area {
    pub start: u64,
    pub end: u64,
}
