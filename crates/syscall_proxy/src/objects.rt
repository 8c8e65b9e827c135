// What a call works on.
ghost use Rattle.std.specs.Prelude.{◌≡◌};

use chunk_memory::Chunked;

/// The guest's memory, the folder, the input and the console, lent for one call.
#[derive(Drop)]
pub(crate) struct Objects<'m, 'f, 'i, 'c, P, F, I, C> {
    pub mem: &'m mut Chunked<P>,
    pub folder: &'f mut F,
    pub input: &'i mut I,
    pub console: &'c mut C,
}

impl<'m, 'f, 'i, 'c, P, F, I, C> Objects<'m, 'f, 'i, 'c, P, F, I, C> {
    /// Gives up what it was lent, as it is.
    pub fn end(self)
        ensures mem { self.exit.0.now ≡ self.entry.mem.now }
        ensures folder { self.exit.1.0.now ≡ self.entry.folder.now }
        ensures input { self.exit.1.1.0.now ≡ self.entry.input.now }
        ensures console { self.exit.1.1.1.0.now ≡ self.entry.console.now }
    {
        let Objects {
            mem: _,
            folder: _,
            input: _,
            console: _,
        } = self;
    }
}
