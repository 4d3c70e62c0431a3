//! Readers and writers whose faults are counted.

ghost use Rattle.std.specs.Prelude.{◌≡◌, ◌<◌, ◌≤◌, ◌^◌, ◌++◌, ◌∷◌, [], ℕ, List, Option, length, take, is_some, is_ok, IfSome, IfNone, IfOk, IfErr, OnOk, OnErr};
ghost use Rattle.std.specs.Io.KnownBytes.{Appends, Consumes, IsAtEnd, Keeps};
ghost use Rattle.counted_io.specs.declared.call.Call.{Call};
ghost use Rattle.counted_io.specs.Sides.{inner_of, port_calls, faults_of};
ghost use Rattle.counted_io.specs.Calls.{IsTakenBy, IsReading, IsWrittenBy};
ghost use Rattle.counted_io.specs.Faults.{one_more_unless, faults_after, ConsumesSome, TakesFront};

use crate::fault::ReadFault;
use crate::port::Port;
use std::alloc::Global;
use std::io::{Read, Write};

/// So many reads without an end are a fault (own).
const READS: u64 = 1 << 32;

/// A reader or a writer, and how many of its calls failed (own).
///
/// Every call goes to the reader or writer once and takes its answer as it is: no error is tried
/// again, also not `Interrupted`. Nobody else reaches the reader or writer meanwhile, and nothing
/// but a call that failed is counted. What the contracts say of bytes holds where the reader or
/// writer tells its bytes (a slice, a `Cursor`, a queue, a `Vec`); of a file, a pipe or a terminal
/// they claim nothing.
#[derive(Drop)]
pub struct Counted<T> {
    port: Port<T>,
    faults: u64,
}

impl<T> Counted<T> {
    /// A reader or writer of which no call has failed yet. Takes no memory.
    pub fn new(inner: T) -> Counted<T>
        ensures inner { inner_of result ≡ inner }
        ensures calls { port_calls result ≡ [] }
        ensures faults { faults_of result ≡ 0 }
    {
        Counted {
            port: Port::new(inner),
            faults: 0,
        }
    }

    /// How many calls failed so far: reads and writes that answered an error, writes that took 0
    /// bytes, and each [`Counted::read_all`] that met no end.
    pub fn faults(&self) -> u64
        ensures { result ≡ faults_of self.now }
    {
        self.faults
    }

    /// The reader or writer itself, as the calls left it; the count is gone.
    pub fn into_inner(self) -> T
        ensures { result ≡ inner_of self }
    {
        self.port.into_inner()
    }
}

impl<R: Read> Counted<R> {
    /// Reads once, into the front of the buffer: how many bytes came, 0 at the end and where the
    /// buffer has no room. `None` is a fault: the reader answered an error, of any kind, and gave
    /// nothing. Takes no memory.
    pub fn read(&mut self, buf: &mut [u8]) -> Option<usize>
        requires { faults_of self.old < 2 ^ 63 }
        ensures count { IfSome result (λ n. n ≤ length buf.new) }
        ensures given { IfSome result (λ n.
            Consumes (R.remaining (inner_of self.old)) (R.remaining (inner_of self.new))
            (take n buf.new)) }
        ensures end { IfSome result (λ n.
            n ≡ 0 → 0 < length buf.new → IsAtEnd (R.remaining (inner_of self.new))) }
        ensures kept { IfNone result
            (Keeps (R.remaining (inner_of self.old)) (R.remaining (inner_of self.new))) }
        ensures faults { faults_of self.new
            ≡ one_more_unless (is_some result) (faults_of self.old) }
        ensures asked { port_calls self.new
            ≡ port_calls self.old ++ record { most = length buf.new; answer = result } ∷ [] }
    {
        let answer = self.port.read(buf);
        if answer.is_none() {
            self.faults += 1;
        }
        answer
    }

    /// Reads to the end: all bytes that were left.
    ///
    /// # Errors
    /// [`ReadFault::Failed`] where a read is a fault, or 2^32 reads met no end; both count as one
    /// fault. [`ReadFault::Memory`] where a growth was refused, which is no fault of the reader.
    /// After an error the bytes read so far are gone.
    pub fn read_all(&mut self, alloc: Global) -> Result<Vec<u8>, ReadFault>
        requires { faults_of self.old < 2 ^ 63 }
        ensures all { IfOk result (λ v. IfSome (R.remaining (inner_of self.old))
            (λ bytes. v.items ≡ bytes)) }
        ensures end { OnOk result (IsAtEnd (R.remaining (inner_of self.new))) }
        ensures err { OnErr result
            (ConsumesSome (R.remaining (inner_of self.old)) (R.remaining (inner_of self.new))) }
        ensures faults { faults_of self.new ≡ faults_after (faults_of self.old) result }
        ensures asked { (calls : List Call)
            × (port_calls self.new ≡ port_calls self.old ++ calls) × IsReading calls result }
    {
        let mut bytes = Vec::new(alloc);
        let mut piece = [0u8; 16384];
        for _ in 0..READS {
            match self.read(&mut piece) {
                None => return Err(ReadFault::Failed),
                Some(0) => return Ok(bytes),
                Some(n) => {
                    if bytes.extend_from_slice(&piece[..n]).is_err() {
                        return Err(ReadFault::Memory);
                    }
                }
            }
        }
        self.faults += 1;
        Err(ReadFault::Failed)
    }
}

impl<W: Write> Counted<W> {
    /// Writes once, at least one byte: how many of the bytes the writer took, from their front; at
    /// least one. `None` is a fault: the writer answered an error, of any kind, or took 0 bytes,
    /// and took nothing. Takes no memory.
    pub fn write(&mut self, bytes: &[u8]) -> Option<usize>
        requires some { 0 < length bytes.now }
        requires faults { faults_of self.old < 2 ^ 63 }
        ensures count { IfSome result (λ n. (0 < n) × (n ≤ length bytes.now)) }
        ensures taken { IfSome result (λ n.
            Appends (W.contents (inner_of self.old)) (W.contents (inner_of self.new))
            (take n bytes.now)) }
        ensures kept { IfNone result
            (Keeps (W.contents (inner_of self.old)) (W.contents (inner_of self.new))) }
        ensures faults { faults_of self.new
            ≡ one_more_unless (is_some result) (faults_of self.old) }
        ensures asked { (answer : Option ℕ)
            × (port_calls self.new
            ≡ port_calls self.old ++ record { most = length bytes.now; answer = answer } ∷ [])
            × IsTakenBy answer result }
    {
        match self.port.write(bytes) {
            None | Some(0) => {
                self.faults += 1;
                None
            }
            Some(n) => Some(n),
        }
    }

    /// Writes until all bytes are taken; where there are none, the writer is not called. Takes no
    /// memory.
    ///
    /// # Errors
    /// At the writer's first fault, which is counted: how many bytes it took before, from the front
    /// of these, and not all.
    pub fn write_all(&mut self, bytes: &[u8]) -> Result<(), usize>
        requires { faults_of self.old < 2 ^ 63 }
        ensures ok { OnOk result
            (Appends (W.contents (inner_of self.old)) (W.contents (inner_of self.new)) bytes.now) }
        ensures err { IfErr result
            (TakesFront (W.contents (inner_of self.old))
            (W.contents (inner_of self.new)) bytes.now) }
        ensures empty { length bytes.now ≡ 0 → self.new ≡ self.old }
        ensures faults { faults_of self.new ≡ one_more_unless (is_ok result) (faults_of self.old) }
        ensures asked { (calls : List Call)
            × (port_calls self.new ≡ port_calls self.old ++ calls)
            × IsWrittenBy (length bytes.now) calls result }
    {
        let mut at = 0;
        while at < bytes.len() {
            match self.write(&bytes[at..]) {
                Some(n) => at += n,
                None => return Err(at),
            }
        }
        Ok(())
    }
}
