// What a program's open numbers stand for.

/// A file that a program opened.
#[derive(Clone, Copy, Debug, PartialEq, Eq)]
pub struct OpenFile {
    /// The file's number in its folder.
    pub number: u64,
    /// The place of the next byte that is read or written.
    pub position: u64,
    /// It may be read.
    pub reads: bool,
    /// It may be written.
    pub writes: bool,
    /// What is written goes to the file's end.
    pub appends: bool,
}

/// What stands at an open number.
#[derive(Clone, Copy, Debug, PartialEq, Eq)]
pub enum Open {
    /// Nothing stands there.
    Closed,
    /// The program's input, which is read alone.
    Input,
    /// The console, which is written alone.
    Console,
    /// A file of the folder, which the program opened.
    File(OpenFile),
}
