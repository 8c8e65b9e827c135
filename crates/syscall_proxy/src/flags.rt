// The flags of openat.
ghost use Rattle.std.specs.Prelude.{⊤, ◌≡◌, [], ◌∷◌, codes};
ghost use Rattle.syscall_proxy.specs.OpenFlags.{appends, creates, cuts, has, reads, wants_new, writes};

use bitflags::{Flag, Flags, bitflag_items};

/// How a file is opened, by the bits of Linux (include/uapi/asm-generic/fcntl.h); other bits are ignored.
#[derive(Clone, Copy, PartialEq, Eq, Debug)]
pub struct OpenFlags(pub u32);

bitflag_items! {
    impl OpenFlags: u32 {
        const WRITE = 1;
        const BOTH = 2;
        const NEITHER = 3;
        const CREATE = 0x40;
        const NEW = 0xc0;
        const TRUNCATE = 0x200;
        const APPEND = 0x400;
    }
}

impl Flags for OpenFlags {
    type Bits = u32;

    ghost exact = { ⊤ };

    ghost table = { (codes "WRITE", 1) ∷ (codes "BOTH", 2) ∷ (codes "NEITHER", 3) ∷ (codes "CREATE", 0x40) ∷ (codes "NEW", 0xc0) ∷ (codes "TRUNCATE", 0x200) ∷ (codes "APPEND", 0x400) ∷ [] };

    ghost set_of = { λ f. f.0 };

    fn flags<'a>() -> &'a [Flag<OpenFlags>] {
        OpenFlags::FLAGS
    }

    fn bits(&self) -> u32 {
        self.0
    }

    fn from_bits_retain(bits: u32) -> OpenFlags {
        OpenFlags(bits)
    }
}

impl OpenFlags {
    /// The access is none of reading, writing and both.
    pub fn is_invalid(self) -> bool
        ensures { result ≡ has self.0 3 }
    {
        self.contains(OpenFlags::NEITHER)
    }

    /// A name that is free becomes a file (O_CREAT).
    pub fn creates(self) -> bool
        ensures { result ≡ creates self.0 }
    {
        self.contains(OpenFlags::CREATE)
    }

    /// A name that is not free is refused (O_CREAT and O_EXCL together).
    pub fn wants_new(self) -> bool
        ensures { result ≡ wants_new self.0 }
    {
        self.contains(OpenFlags::NEW)
    }

    /// The file may be read.
    pub fn reads(self) -> bool
        ensures { result ≡ reads self.0 }
    {
        !self.contains(OpenFlags::WRITE)
    }

    /// The file may be written.
    pub fn writes(self) -> bool
        ensures { result ≡ writes self.0 }
    {
        self.contains(OpenFlags::WRITE) || self.contains(OpenFlags::BOTH)
    }

    /// Each write goes to the end of the file (O_APPEND).
    pub fn appends(self) -> bool
        ensures { result ≡ appends self.0 }
    {
        self.contains(OpenFlags::APPEND)
    }

    /// The file loses its bytes (O_TRUNC) where it may be written.
    pub fn cuts(self) -> bool
        ensures { result ≡ cuts self.0 }
    {
        self.contains(OpenFlags::TRUNCATE) && self.writes()
    }
}
