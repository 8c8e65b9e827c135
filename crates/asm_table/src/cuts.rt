// A text in two parts, at a byte.
ghost use Rattle.std.specs.Prelude.{◌≡◌, ◌+◌, ◌<◌, length, IfSome};
ghost use Rattle.std.specs.Option.{option_copied};
ghost use Rattle.asm_table.specs.Cuts.{before, behind};

/// What stands before the first byte of this value, and what stands behind it, if there is one.
pub fn cut(text: &[u8], stop: u8) -> (&[u8], Option<&[u8]>)
    ensures before { result.0.now ≡ before stop text.now }
    ensures behind { option_copied result.1 ≡ behind stop text.now }
    ensures shorter { IfSome result.1 (λ rest. length rest.now < length text.now) }
{
    for (i, byte) in text.iter().enumerate() {
        if *byte == stop {
            return (&text[..i], Some(&text[i + 1..]));
        }
    }
    (text, None)
}
