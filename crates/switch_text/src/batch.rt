//! A buffer of a fixed size that goes out in one write when it is full.

ghost use Rattle.std.specs.Prelude.{◌≡◌, ◌+◌, ◌<◌, ◌≤◌, ◌^◌, [], ◌++◌, length, is_ok, IfOk, IfErr, OnOk, IsTrue, ◌↔◌};
ghost use Rattle.counted_io.specs.Sides.{inner_of, faults_of};
ghost use Rattle.counted_io.specs.Faults.{one_more_unless, TakesFront};
ghost use Rattle.switch_text.specs.private.Pieces.{piece_text};
ghost use Rattle.switch_text.specs.private.Fronts.{front_text};
ghost use Rattle.switch_text.specs.private.Sending.{Sends};

use crate::lines::{put_event, put_micros};
use crate::piece::{Piece, ShortPiece};
use counted_io::Counted;
use std::io::Write;
use std::marker::Model;

/// How many bytes wait at most: 64 KiB, so that a long trace takes one write for some 400 lines.
const SIZE: usize = 65536;

/// Where no more wait, a line has room.
const LOW: usize = 65152;

/// A line, up to the name of who comes.
#[derive(Clone, Copy)]
pub(crate) struct Front<'a> {
    pub(crate) head: &'a ShortPiece,
    pub(crate) lane: &'a ShortPiece,
    pub(crate) micros: u64,
    pub(crate) leaving: &'a Piece,
    pub(crate) state: &'a ShortPiece,
}

/// Bytes that wait to be written together.
#[derive(Drop)]
pub(crate) struct Batch {
    bytes: [u8; SIZE],
    len: usize,
}

impl Model for Batch {
    ghost use Rattle.std.specs.Prelude.{ℕ, List, take, ◌≤◌};

    ghost Value = { List ℕ };

    ghost view = { λ b. take b.len b.bytes };

    ghost invariant = { λ b. b.len ≤ 65536 };
}

impl Batch {
    #[inline(always)]
    pub(crate) fn new() -> Batch
        ensures { result ≡ [] }
    {
        Batch {
            bytes: [0; SIZE],
            len: 0,
        }
    }

    fn is_low(&self) -> bool
        ensures { IsTrue result ↔ (length self.now ≤ LOW) }
    {
        self.len <= LOW
    }

    /// Adds a text that has room.
    pub(crate) fn append(&mut self, text: &[u8])
        requires { length self.old + length text.now ≤ SIZE }
        ensures { self.new ≡ self.old ++ text.now }
    {
        let end = self.len + text.len();
        self.bytes[self.len..end].copy_from_slice(text);
        self.len = end;
    }

    /// Writes all that waits: how many bytes went out, also where the writer failed before the
    /// last.
    pub(crate) fn flush<W: Write>(&mut self, writer: &mut Counted<W>) -> Result<usize, usize>
        requires { faults_of writer.old < 2 ^ 63 }
        ensures ok { IfOk result (λ n.
            Sends (W.contents (inner_of writer.old))
            (W.contents (inner_of writer.new)) self.old n self.new) }
        ensures emptied { OnOk result (self.new ≡ []) }
        ensures err { IfErr result
            (TakesFront (W.contents (inner_of writer.old))
            (W.contents (inner_of writer.new)) self.old) }
        ensures faults { faults_of writer.new
            ≡ one_more_unless (is_ok result) (faults_of writer.old) }
    {
        let waiting = self.len;
        match writer.write_all(&self.bytes[..waiting]) {
            Ok(()) => {
                self.len = 0;
                Ok(waiting)
            }
            Err(n) => Err(n),
        }
    }

    /// Makes room for a line: where too much waits, all of it is written. How many bytes went out,
    /// also where the writer failed.
    #[inline]
    pub(crate) fn make_room<W: Write>(&mut self, writer: &mut Counted<W>) -> Result<usize, usize>
        requires faults { faults_of writer.old < 2 ^ 63 }
        ensures ok { IfOk result (λ n.
            Sends (W.contents (inner_of writer.old))
            (W.contents (inner_of writer.new)) self.old n self.new) }
        ensures room { OnOk result (length self.new ≤ LOW) }
        ensures err { IfErr result
            (TakesFront (W.contents (inner_of writer.old))
            (W.contents (inner_of writer.new)) self.old) }
        ensures faults { faults_of writer.new
            ≡ one_more_unless (is_ok result) (faults_of writer.old) }
    {
        if self.is_low() {
            return Ok(0);
        }
        self.flush(writer)
    }

    /// Adds the front of a line, up to the name of who comes.
    #[inline(always)]
    pub(crate) fn append_front(&mut self, front: &Front<'_>)
        requires room { length self.old ≤ LOW }
        requires micros { front.now.micros < 1000000 }
        ensures text { self.new ≡ self.old ++ front_text front.now }
        ensures short { length self.new ≤ length self.old + 320 }
    {
        let out = &mut self.bytes;
        let at = front.head.put(out, self.len);
        let at = front.lane.put(out, at);
        let at = put_micros(out, at, front.micros);
        let at = put_event(out, at);
        let at = front.leaving.put(out, at);
        self.len = front.state.put(out, at);
    }

    /// Adds the end of a line, from the name of who comes.
    #[inline(always)]
    pub(crate) fn append_end(&mut self, coming: &Piece)
        requires { length self.old ≤ LOW + 320 }
        ensures text { self.new ≡ self.old ++ piece_text coming.now }
        ensures short { length self.new ≤ length self.old + 64 }
    {
        self.len = coming.put(&mut self.bytes, self.len);
    }
}
