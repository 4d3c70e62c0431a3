//! A reader or a writer, and its calls. That a call of [`Port`] is one call of what it holds is
//! seen in its two methods below, which alone can reach it.

ghost use Rattle.std.specs.Prelude.{◌≡◌, ◌<◌, ◌≤◌, ◌++◌, ◌∷◌, [], length, take, IfSome, IfNone};
ghost use Rattle.std.specs.Io.KnownBytes.{Appends, Consumes, IsAtEnd, Keeps};
ghost use Rattle.past.specs.Past.{items_of_past};

use crate::call::Call;
use past::Past;
use std::io::{Read, Write};

/// A reader or a writer that is called once for each call here, and what each answered.
#[derive(Drop)]
pub(crate) struct Port<T> {
    inner: T,
    calls: Past<Call>,
}

impl<T> Port<T> {
    /// A reader or writer that was not called yet.
    pub(crate) fn new(inner: T) -> Port<T>
        ensures inner { result.inner ≡ inner }
        ensures calls { items_of_past result.calls ≡ [] }
    {
        Port {
            inner,
            calls: Past::new(),
        }
    }

    /// The reader or writer itself.
    pub(crate) fn into_inner(self) -> T
        ensures { result ≡ self.inner }
    {
        self.inner
    }
}

impl<R: Read> Port<R> {
    /// Reads once: how many bytes came; none where the reader answered an error.
    pub(crate) fn read(&mut self, buf: &mut [u8]) -> Option<usize>
        ensures count { IfSome result (λ n. n ≤ length buf.new) }
        ensures given { IfSome result (λ n.
            Consumes (R.remaining self.old.inner) (R.remaining self.new.inner) (take n buf.new)) }
        ensures end { IfSome result (λ n.
            n ≡ 0 → 0 < length buf.new → IsAtEnd (R.remaining self.new.inner)) }
        ensures kept { IfNone result
            (Keeps (R.remaining self.old.inner) (R.remaining self.new.inner)) }
        ensures asked { items_of_past self.new.calls
            ≡ items_of_past self.old.calls
            ++ record { most = length buf.new; answer = result } ∷ [] }
    {
        let answer = match self.inner.read(buf) {
            Ok(n) => Some(n),
            Err(_) => None,
        };
        let most = buf.len();
        self.calls.push(&Call { most, answer });
        answer
    }
}

impl<W: Write> Port<W> {
    /// Writes once: how many of the bytes the writer took, from their front; none where it answered
    /// an error.
    pub(crate) fn write(&mut self, bytes: &[u8]) -> Option<usize>
        ensures count { IfSome result (λ n. n ≤ length bytes.now) }
        ensures taken { IfSome result (λ n.
            Appends (W.contents self.old.inner) (W.contents self.new.inner) (take n bytes.now)) }
        ensures kept { IfNone result
            (Keeps (W.contents self.old.inner) (W.contents self.new.inner)) }
        ensures asked { items_of_past self.new.calls
            ≡ items_of_past self.old.calls
            ++ record { most = length bytes.now; answer = result } ∷ [] }
    {
        let answer = match self.inner.write(bytes) {
            Ok(n) => Some(n),
            Err(_) => None,
        };
        let most = bytes.len();
        self.calls.push(&Call { most, answer });
        answer
    }
}
