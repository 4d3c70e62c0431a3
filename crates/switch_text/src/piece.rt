//! A short text that is kept ready, and copied at one width.

ghost use Rattle.std.specs.Prelude.{◌≤◌};

use std::simd::Simd;

/// At most 64 bytes. They stand in front of a place for 64, so that all 64 are copied, without a
/// look at the length.
#[derive(Clone, Copy)]
pub(crate) struct Piece {
    bytes: [u8; 64],
    len: usize,
    ghost short: { len ≤ 64 },
}

impl Piece {
    ghost use Rattle.std.specs.Prelude.{◌≡◌, ◌+◌, [], ◌++◌, length, take};
    ghost use Rattle.switch_text.specs.private.Pieces.{piece_text};

    /// No byte.
    #[inline(always)]
    pub(crate) fn empty() -> Piece
        ensures { piece_text result ≡ [] }
    {
        Piece {
            bytes: [0; 64],
            len: 0,
        }
    }

    /// The front of a text.
    #[inline(always)]
    pub(crate) fn front(bytes: [u8; 64], len: usize) -> Piece
        requires { len ≤ 64 }
        ensures { piece_text result ≡ take len bytes }
    {
        Piece { bytes, len }
    }

    /// Copies it to a place that has room for 64 bytes, and gives the place after the text.
    #[inline(always)]
    pub(crate) fn put(&self, out: &mut [u8], at: usize) -> usize
        requires { at + 64 ≤ length out.old }
        ensures place { result ≡ at + length (piece_text self.now) }
        ensures short { result ≤ at + 64 }
        ensures text { take result out.new ≡ take at out.old ++ piece_text self.now }
    {
        Simd::<u8, 64>::from_slice(&self.bytes).copy_to_slice(&mut out[at..]);
        at + self.len
    }
}

/// At most 32 bytes, which are copied as those of a [`Piece`] are.
#[derive(Clone, Copy)]
pub(crate) struct ShortPiece {
    bytes: [u8; 32],
    len: usize,
    ghost short: { len ≤ 32 },
}

impl ShortPiece {
    ghost use Rattle.std.specs.Prelude.{◌≡◌, ◌+◌, [], ◌++◌, length, take, replicate};
    ghost use Rattle.switch_text.specs.private.Pieces.{short_text_of};

    /// No byte.
    #[inline(always)]
    pub(crate) fn empty() -> ShortPiece
        ensures { short_text_of result ≡ [] }
    {
        ShortPiece {
            bytes: [0; 32],
            len: 0,
        }
    }

    /// A copy of a text.
    pub(crate) fn of(text: &[u8]) -> ShortPiece
        requires { length text.now ≤ 32 }
        ensures { short_text_of result ≡ text.now }
    {
        let len = text.len();
        let mut bytes = [0; 32];
        bytes[..len].copy_from_slice(text);
        ShortPiece { bytes, len }
    }

    /// The front of a text.
    #[inline(always)]
    pub(crate) fn front(text: &[u8; 64], len: usize) -> ShortPiece
        requires { len ≤ 32 }
        ensures { short_text_of result ≡ take len text.now }
    {
        let mut bytes = [0; 32];
        bytes.copy_from_slice(&text[..32]);
        ShortPiece { bytes, len }
    }

    /// The number of spaces.
    #[inline(always)]
    pub(crate) fn spaces(times: usize) -> ShortPiece
        requires { times ≤ 32 }
        ensures { short_text_of result ≡ replicate times 32 }
    {
        ShortPiece {
            bytes: [b' '; 32],
            len: times,
        }
    }

    /// How many bytes.
    #[inline(always)]
    pub(crate) fn len(&self) -> usize
        ensures value { result ≡ length (short_text_of self.now) }
        ensures short { result ≤ 32 }
    {
        self.len
    }

    /// Copies it to a place that has room for 32 bytes, and gives the place after the text.
    #[inline(always)]
    pub(crate) fn put(&self, out: &mut [u8], at: usize) -> usize
        requires { at + 32 ≤ length out.old }
        ensures place { result ≡ at + length (short_text_of self.now) }
        ensures short { result ≤ at + 32 }
        ensures text { take result out.new ≡ take at out.old ++ short_text_of self.now }
    {
        Simd::<u8, 32>::from_slice(&self.bytes).copy_to_slice(&mut out[at..]);
        at + self.len
    }
}
