// Lines without comments and blanks.
ghost use Rattle.std.specs.Prelude.{◌≡◌, ◌≤◌, ◌+◌, ◌<◌, length, IfSome, Bool, true, false};
ghost use Rattle.std.specs.Option.{option_copied};
ghost use Rattle.asm_text.specs.Layout.{bare, begins_comment, drop_while, ends_with, is_blank, next_quote};
ghost use Rattle.asm_text.specs.Layout.{without_comment, without_end, without_last};

// Where a byte stands: outside a string, inside one, or behind a backslash in one.
#[derive(Clone, Copy)]
enum At {
    Outside,
    Inside,
    Escaped,
}

fn next_place(at: At, byte: u8) -> At
    ensures { result ≡ next_quote at byte }
{
    match at {
        At::Outside if byte == b'"' => At::Inside,
        At::Outside => At::Outside,
        At::Inside if byte == b'"' => At::Outside,
        At::Inside if byte == b'\\' => At::Escaped,
        At::Inside | At::Escaped => At::Inside,
    }
}

fn is_comment(at: At, byte: u8) -> bool
    ensures { result ≡ begins_comment at byte }
{
    matches!(at, At::Outside) && byte == b'#'
}

fn uncommented(line: &[u8]) -> &[u8]
    ensures { result.now ≡ without_comment At.Outside line.now }
{
    let mut at = At::Outside;
    for (i, byte) in line.iter().enumerate() {
        if is_comment(at, *byte) {
            return &line[..i];
        }
        at = next_place(at, *byte);
    }
    line
}

fn is_blank_byte(byte: u8) -> bool
    ensures { result ≡ is_blank byte }
{
    byte == b' ' || byte == b'\t'
}

fn trimmed_start(text: &[u8]) -> &[u8]
    ensures { result.now ≡ drop_while is_blank text.now }
{
    for (i, byte) in text.iter().enumerate() {
        if !is_blank_byte(*byte) {
            return &text[i..];
        }
    }
    &[]
}

fn trimmed_end(text: &[u8]) -> &[u8]
    ensures { result.now ≡ without_end text.now }
{
    let mut rest = text;
    while let [front @ .., last] = rest {
        if !is_blank_byte(*last) {
            return rest;
        }
        rest = front;
    }
    rest
}

/// The line without its comment and without the blanks at both ends.
#[tactic(auto, unfolding(crate::specs::Layout::bare))]
pub fn bare_line(line: &[u8]) -> &[u8]
    ensures { result.now ≡ bare line.now }
{
    trimmed_end(trimmed_start(uncommented(line)))
}

/// The text ends with this byte.
pub fn ends_in(text: &[u8], value: u8) -> bool
    ensures { result ≡ ends_with value text.now }
{
    match text {
        [.., last] => *last == value,
        [] => false,
    }
}

/// The text without its last byte.
pub fn all_but_last(text: &[u8]) -> &[u8]
    ensures { result.now ≡ without_last text.now }
{
    match text {
        [front @ .., _] => front,
        [] => text,
    }
}
