//! A buffer of a fixed size, through which a text goes out.

ghost use Rattle.std.specs.Prelude.{◌≡◌, ◌+◌, ◌<◌, ◌≤◌, ◌^◌, [], ◌++◌, length, is_ok, OnErr, OnOk, IsTrue, ◌↔◌};
ghost use Rattle.counted_io.specs.Sides.{inner_of, faults_of};
ghost use Rattle.counted_io.specs.Faults.{one_more_unless};
ghost use Rattle.figure_text.specs.private.Outgoing.{Puts, Stops};

use counted_io::Counted;
use std::io::Write;
use std::marker::Model;

/// How many bytes wait at most: 64 KiB.
const SIZE: usize = 65536;

/// The writer failed. The buffer has counted the bytes that it took before.
#[derive(Clone, Copy)]
pub(crate) struct Stopped {}

/// Bytes that wait to be written together, and how many were written before them, around at 2^64.
#[derive(Drop)]
pub(crate) struct Outgoing {
    bytes: [u8; SIZE],
    len: usize,
    written: u64,
}

impl Model for Outgoing {
    ghost use Rattle.std.specs.Prelude.{take, ◌≤◌};
    ghost use Rattle.figure_text.specs.private.Outgoing.{OutgoingView};

    ghost Value = { OutgoingView };

    ghost view = { λ o. record { waiting = take o.len o.bytes; written = o.written } };

    ghost invariant = { λ o. o.len ≤ 65536 };
}

impl Outgoing {
    /// Nothing waits, and nothing was written.
    #[inline(always)]
    pub(crate) fn new() -> Outgoing
        ensures { result ≡ record { waiting = []; written = 0 } }
    {
        Outgoing {
            bytes: [0; SIZE],
            len: 0,
            written: 0,
        }
    }

    /// How many bytes were written, around at 2^64.
    pub(crate) fn written(&self) -> u64
        ensures { result ≡ self.now.written }
    {
        self.written
    }

    fn has_room(&self, len: usize) -> bool
        ensures { IsTrue result ↔ (length self.now.waiting + len ≤ SIZE) }
    {
        len <= SIZE - self.len
    }

    /// Adds a text that has room.
    fn append(&mut self, text: &[u8])
        requires { length self.old.waiting + length text.now ≤ SIZE }
        ensures { self.new ≡ record self.old { waiting = self.old.waiting ++ text.now } }
    {
        let end = self.len + text.len();
        self.bytes[self.len..end].copy_from_slice(text);
        self.len = end;
    }

    /// Writes all that waits.
    pub(crate) fn flush<W: Write>(&mut self, writer: &mut Counted<W>) -> Result<(), Stopped>
        requires faults { faults_of writer.old < 2 ^ 63 }
        ensures ok { OnOk result (Puts
            (W.contents (inner_of writer.old)) (W.contents (inner_of writer.new))
            self.old self.new []) }
        ensures emptied { OnOk result (self.new.waiting ≡ []) }
        ensures err { OnErr result (Stops
            (W.contents (inner_of writer.old)) (W.contents (inner_of writer.new))
            self.old self.new []) }
        ensures faults { faults_of writer.new
            ≡ one_more_unless (is_ok result) (faults_of writer.old) }
    {
        match writer.write_all(&self.bytes[..self.len]) {
            Ok(()) => {
                self.written = self.written.wrapping_add(self.len as u64);
                self.len = 0;
                Ok(())
            }
            Err(n) => {
                self.written = self.written.wrapping_add(n as u64);
                Err(Stopped {})
            }
        }
    }

    /// Writes a text at once. Nothing waits before it.
    fn write<W: Write>(&mut self, text: &[u8], writer: &mut Counted<W>) -> Result<(), Stopped>
        requires empty { self.old.waiting ≡ [] }
        requires faults { faults_of writer.old < 2 ^ 63 }
        ensures ok { OnOk result (Puts
            (W.contents (inner_of writer.old)) (W.contents (inner_of writer.new))
            self.old self.new text.now) }
        ensures err { OnErr result (Stops
            (W.contents (inner_of writer.old)) (W.contents (inner_of writer.new))
            self.old self.new text.now) }
        ensures faults { faults_of writer.new
            ≡ one_more_unless (is_ok result) (faults_of writer.old) }
    {
        match writer.write_all(text) {
            Ok(()) => {
                self.written = self.written.wrapping_add(text.len() as u64);
                Ok(())
            }
            Err(n) => {
                self.written = self.written.wrapping_add(n as u64);
                Err(Stopped {})
            }
        }
    }

    /// Adds a text to an empty buffer. A text that is longer than the buffer is written at once.
    fn start<W: Write>(&mut self, text: &[u8], writer: &mut Counted<W>) -> Result<(), Stopped>
        requires empty { self.old.waiting ≡ [] }
        requires faults { faults_of writer.old < 2 ^ 63 }
        ensures ok { OnOk result (Puts
            (W.contents (inner_of writer.old)) (W.contents (inner_of writer.new))
            self.old self.new text.now) }
        ensures err { OnErr result (Stops
            (W.contents (inner_of writer.old)) (W.contents (inner_of writer.new))
            self.old self.new text.now) }
        ensures faults { faults_of writer.new
            ≡ one_more_unless (is_ok result) (faults_of writer.old) }
    {
        if !self.has_room(text.len()) {
            return self.write(text, writer);
        }
        self.append(text);
        Ok(())
    }

    /// Adds a text of any length. If it has no room, what waits is written first.
    pub(crate) fn put<W: Write>(
        &mut self,
        text: &[u8],
        writer: &mut Counted<W>,
    ) -> Result<(), Stopped>
        requires faults { faults_of writer.old < 2 ^ 63 }
        ensures ok { OnOk result (Puts
            (W.contents (inner_of writer.old)) (W.contents (inner_of writer.new))
            self.old self.new text.now) }
        ensures err { OnErr result (Stops
            (W.contents (inner_of writer.old)) (W.contents (inner_of writer.new))
            self.old self.new text.now) }
        ensures faults { faults_of writer.new
            ≡ one_more_unless (is_ok result) (faults_of writer.old) }
    {
        if self.has_room(text.len()) {
            self.append(text);
            return Ok(());
        }
        self.flush(writer)?;
        self.start(text, writer)
    }
}
