// Numbers as hexadecimal digits.
ghost use Rattle.std.specs.Prelude.{◌≡◌, ◌<◌, ◌≤◌, ◌+◌, ◌++◌, false};
ghost use Rattle.std.specs.Fmt.{digit_glyph};
ghost use Rattle.arrayvec.specs.ArrayString.{array_string_len};
ghost use Rattle.fe_base.specs.Digits.{hexadecimal};

use arrayvec::ArrayString;

fn digit(number: u8) -> char
    requires { number < 16 }
    ensures value { result ≡ digit_glyph false number }
    ensures ascii { result < 128 }
{
    if number < 10 {
        char::from(b'0' + number)
    } else {
        char::from(b'a' + (number - 10))
    }
}

/// Adds so many hexadecimal digits of a number to a text, the lowest last, in lower case. Higher digits are left out.
pub fn push_hexadecimal<const CAP: usize>(text: &mut ArrayString<CAP>, number: u64, digits: usize)
    requires { array_string_len text.old + digits ≤ CAP }
    ensures bytes { text.new.bytes ≡ text.old.bytes ++ hexadecimal digits number }
    ensures length { array_string_len text.new ≡ array_string_len text.old + digits }
{
    if digits > 0 {
        push_hexadecimal(text, number / 16, digits - 1);
        text.push(digit((number % 16) as u8));
    }
}
