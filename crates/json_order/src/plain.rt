//! How many plain bytes a string has in front. They are looked at a vector at a time.
ghost use Rattle.std.specs.Prelude.{◌≡◌, ◌<◌, ◌≤◌, ◌+◌, length, drop, map, slice_index};
ghost use Rattle.std.specs.List.{prefix_len};
ghost use Rattle.std.specs.Simd.Lanes.{mask_l};
ghost use Rattle.json_order.specs.Grammar as grammar;
ghost use Rattle.json_order.specs.private.AtOnce.{is_end};

use std::simd::prelude::*;

/// So many bytes make a vector, and a wide one.
const LANES: usize = 16;

const WIDE_LANES: usize = 64;

/// Behind so many plain bytes, wide vectors are looked at.
const NEAR: usize = 128;

/// A byte that stands for itself in a string: from the space on, and no quote or backslash.
#[inline(always)]
fn is_plain(byte: u8) -> bool
    ensures { result ≡ grammar.is_plain byte }
{
    (byte >= b' ') & (byte != b'"') & (byte != b'\\')
}

/// A mask of the bytes that are not plain: the lowest bit is that of the first byte.
#[inline(always)]
fn ends_of(bytes: u8x16) -> u64
    ensures { result ≡ mask_l (map is_end bytes) }
{
    (bytes.simd_eq(u8x16::splat(b'"'))
        | bytes.simd_eq(u8x16::splat(b'\\'))
        | bytes.simd_lt(u8x16::splat(b' '))).to_bitmask()
}

/// The same of a wide vector.
#[inline(always)]
fn ends_of_wide(bytes: u8x64) -> u64
    ensures { result ≡ mask_l (map is_end bytes) }
{
    (bytes.simd_eq(u8x64::splat(b'"'))
        | bytes.simd_eq(u8x64::splat(b'\\'))
        | bytes.simd_lt(u8x64::splat(b' '))).to_bitmask()
}

/// How many bytes in front are plain, where too few for a vector are left.
#[inline(never)]
fn plain_by_one(bytes: &[u8]) -> usize
    ensures { result ≡ prefix_len grammar.is_plain bytes.now }
{
    for (i, byte) in bytes.iter().enumerate() {
        if !is_plain(*byte) {
            return i;
        }
    }
    bytes.len()
}

/// How many bytes in front are in wide vectors of plain bytes.
#[inline(never)]
fn wide_len(bytes: &[u8]) -> usize
    ensures within { result ≤ length bytes.now }
    ensures run { prefix_len grammar.is_plain bytes.now
        ≡ result + prefix_len grammar.is_plain (drop result bytes.now) }
{
    let mut len = 0;
    'wide: while bytes.len() - len >= WIDE_LANES
        && ends_of_wide(u8x64::from_slice(&bytes[len..])) == 0
    {
        len += WIDE_LANES;
    }
    len
}

/// How many bytes in front are plain.
#[inline(always)]
pub(crate) fn plain_len(bytes: &[u8]) -> usize
    ensures value { result ≡ prefix_len grammar.is_plain bytes.now }
    ensures within { result ≤ length bytes.now }
    // A character begins there.
    ensures ends { result < length bytes.now → slice_index bytes.now result < 128 }
{
    let mut len = 0;
    'vectors: while bytes.len() - len >= LANES {
        let ends = ends_of(u8x16::from_slice(&bytes[len..]));
        if ends != 0 {
            return len + ends.trailing_zeros() as usize;
        }
        len += LANES;
        if len == NEAR {
            len += wide_len(&bytes[len..]);
        }
    }
    len + plain_by_one(&bytes[len..])
}
