// The words by which host and guest speak (HTIF of riscv-isa-sim's fesvr): a device, a command of it, and a payload.
ghost use Rattle.std.specs.Prelude.{◌≡◌, ◌<◌, ◌^◌};
ghost use Rattle.fe_base.specs.HostWords as spec;
ghost use Rattle.fe_base.specs.HostWords.{device_of, command_of, payload_of};

/// A word that the guest leaves in tohost.
#[derive(Clone, Copy, Debug, PartialEq, Eq)]
pub struct ToHost(pub u64);

impl ToHost {
    /// The device, bits 63 to 56.
    pub fn device(self) -> u8
        ensures { result ≡ device_of self.0 }
    {
        (self.0 >> 56) as u8
    }

    /// The command of that device, bits 55 to 48.
    pub fn command(self) -> u8
        ensures { result ≡ command_of self.0 }
    {
        ((self.0 >> 48) & 0xff) as u8
    }

    /// The payload, bits 47 to 0.
    pub fn payload(self) -> u64
        ensures { result ≡ payload_of self.0 }
    {
        self.0 & 0xffff_ffff_ffff
    }
}

/// The word that the host leaves in fromhost: an answer below 2^48 of a device's command.
pub fn from_host(device: u8, command: u8, answer: u64) -> u64
    requires { answer < 2 ^ 48 }
    ensures { result ≡ spec.from_host device command answer }
{
    (u64::from(device) << 56) + (u64::from(command) << 48) + answer
}
