// The request of a system call as it stands in the guest.
ghost use Rattle.std.specs.Prelude.{◌≡◌};
ghost use Rattle.syscall_proxy.specs.Request.{doublewords};

use byteorder::{ByteOrder, LittleEndian};

/// The bytes of a request.
pub const REQUEST_SIZE: usize = 64;

/// The eight doublewords of a request: its number, and behind it its arguments.
pub fn request_of(bytes: &[u8; REQUEST_SIZE]) -> [u64; 8]
    ensures { result ≡ doublewords 8 bytes.now }
{
    let mut request = [0; 8];
    LittleEndian::read_u64_into(bytes, &mut request);
    request
}
