// The line that a trace has for a transaction.
ghost use Rattle.std.specs.Prelude.{◌≡◌, ◌≤◌, ◌<◌, ◌++◌, length, codes, decimal};
ghost use Rattle.arrayvec.specs.ArrayString.{array_string_len};
ghost use Rattle.fe_base.specs.Limits.{pause_limit};
ghost use Rattle.target_box.specs.TraceLine.{beat_text};

use arrayvec::ArrayString;
use fe_base::push_hexadecimal;
use itoa::Buffer;

// The most bytes of a line.
pub(crate) const LINE_SIZE: usize = 64;

// The text of a line.
pub(crate) type Text = ArrayString<LINE_SIZE>;

// The line of a beat, by its pause, ` r ` or ` w `, its address and the doubleword that it moved.
pub(crate) fn beat_line(pause: u32, kind: &str, at: u64, value: u64) -> Text
    requires pause { pause ≤ pause_limit }
    requires kind { length kind.now ≡ 3 }
    ensures text { result.bytes ≡ beat_text pause kind.now at value }
    ensures short { length result.bytes ≤ 64 }
{
    let mut text = Text::new();
    let mut decimal = Buffer::new();
    text.push_str("b ");
    text.push_str(decimal.format(pause));
    text.push_str(kind);
    push_hexadecimal(&mut text, at, 16);
    text.push_str(" ");
    push_hexadecimal(&mut text, value, 16);
    text.push_str("\n");
    text
}
