ghost use Rattle.std.specs.Prelude.{◌≡◌, ◌≤◌, length};
ghost use Rattle.rtapp_dialect.specs.Places.{place_at, continues};

/// A place in a file.
#[derive(Clone, Copy, Debug)]
pub struct Place {
    /// The line, from 1.
    pub line: usize,
    /// The column in characters, from 1.
    pub column: usize,
}

/// Whether a byte continues a character of UTF-8.
fn is_continuing(byte: u8) -> bool
    ensures { result ≡ continues byte }
{
    128 <= byte && byte < 192
}

/// The place of the byte at an offset, or of the end of the text. LF ends a line (CR LF too), and a
/// column counts characters, a tab as one.
pub fn place_of(text: &[u8], offset: usize) -> Place
    requires { offset ≤ length text.now }
    ensures { result ≡ place_at text.now offset }
{
    let mut place = Place { line: 1, column: 1 };
    for byte in &text[..offset] {
        if *byte == b'\n' {
            place = Place {
                line: place.line + 1,
                column: 1,
            };
        } else if !is_continuing(*byte) {
            place.column += 1;
        }
    }
    place
}
