//! The stretches of work in some events that follow one another, in four numbers: so two scripts
//! of a million rounds and one round are read alike.

ghost use Rattle.std.specs.Prelude.{◌≡◌, ◌≤◌, ◌^◌};
ghost use Rattle.deadline_promise.specs.private.Spans as spec;
ghost use Rattle.limits.specs.Limits.{max_script_number};

use task_script::Event;

/// Where nothing blocks, all is one stretch, the first.
#[derive(Clone, Copy)]
pub(crate) struct Span {
    /// Whether nothing in it blocks.
    pub free: bool,
    /// The work up to the first event that blocks.
    pub first: u128,
    /// The greatest stretch between two events that block.
    pub inner: u128,
    /// The work after the last event that blocks.
    pub last: u128,
}

impl Span {
    /// Of no events.
    pub fn empty() -> Span
        ensures { result ≡ spec.empty_span }
    {
        Span {
            free: true,
            first: 0,
            inner: 0,
            last: 0,
        }
    }

    fn with_work(self, n: u64) -> Span
        requires small { spec.IsSmallSpan (2 ^ 100) self }
        ensures { result ≡ spec.span_with_work self n }
    {
        if self.free {
            Span {
                first: self.first + n as u128,
                ..self
            }
        } else {
            Span {
                last: self.last + n as u128,
                ..self
            }
        }
    }

    fn with_end(self) -> Span
        ensures { result ≡ spec.span_with_end self }
    {
        if self.free {
            Span {
                free: false,
                inner: 0,
                last: 0,
                ..self
            }
        } else {
            Span {
                inner: self.inner.max(self.last),
                last: 0,
                ..self
            }
        }
    }

    /// With one event more.
    pub fn with_event(self, event: Event) -> Span
        requires small { spec.IsSmallSpan (2 ^ 100) self }
        ensures { result ≡ spec.span_with_event self event }
    {
        match event {
            Event::Run(n) => self.with_work(n),
            Event::Sleep(_) | Event::Timer(_) | Event::Wait => self.with_end(),
        }
    }

    /// With the events of another one after it.
    pub fn joined(self, next: Span) -> Span
        requires small { spec.IsSmallSpan (2 ^ 100) self }
        requires next { spec.IsSmallSpan (2 ^ 100) next }
        ensures { result ≡ spec.joined_spans self next }
    {
        if self.free {
            Span {
                first: self.first + next.first,
                ..next
            }
        } else if next.free {
            Span {
                last: self.last + next.first,
                ..self
            }
        } else {
            Span {
                free: false,
                first: self.first,
                inner: self.inner.max((self.last + next.first).max(next.inner)),
                last: next.last,
            }
        }
    }

    /// So many times over, at least once.
    pub fn times(self, count: u64) -> Span
        requires small { spec.IsSmallSpan (2 ^ 90) self }
        requires count { count ≤ max_script_number }
        ensures { result ≡ spec.span_times self count }
    {
        if self.free {
            Span {
                first: self.first * count as u128,
                ..self
            }
        } else if count == 1 {
            self
        } else {
            Span {
                inner: self.inner.max(self.last + self.first),
                ..self
            }
        }
    }

    /// The greatest stretch.
    pub fn greatest(self) -> u128
        ensures { result ≡ spec.greatest self }
    {
        if self.free {
            self.first
        } else {
            self.first.max(self.inner.max(self.last))
        }
    }
}
