// Readers and writers that stop short, and that fail in one of their calls, each in turn.
use super::{THROTTLED, THROTTLED_TRACE};
use crate::begun::options_on;
use dl_session::{AllPass, SessionFault, replay, run};
use std::alloc::Global;
use std::io;
use std::io::{ErrorKind, Read, Write};
use std::sync::Wait;
use std::test::Fail;
use std::thread::Threads;
use switch_text::Counted;

const THROTTLED_TASK: &[u8] =
    br#"{"tasks":{"a":{"policy":"SCHED_DEADLINE","dl-runtime":2,"dl-period":5,"loop":1,"run":4}},"global":{"duration":1}}"#;

/// A task that is throttled in each of 5000 periods.
const LONG: &[u8] =
    b"dlcalls 1\ndomain 1 1048576\nadmit 1 1 a 2 5 5 - 0 1:1{r100000}\nadvance 1 25000\n";

/// The same, and a domain where nothing happens.
const LONG_BESIDE_NOTHING: &[u8] =
    b"dlcalls 1\ndomain 1 1048576\nadmit 1 1 a 2 5 5 - 0 1:1{r100000}\nadvance 1 25000\ndomain 1 1048576\n";

/// A reader or a writer of at most `step` bytes a call, whose call `bad`, counted from 0, fails.
/// The calls behind it go on where it stopped, so that a fault which is tried again is no fault.
#[derive(Drop)]
struct Stumbler<T> {
    inner: T,
    step: usize,
    calls: usize,
    bad: usize,
}

impl<T> Stumbler<T> {
    fn new(inner: T, step: usize, bad: usize) -> Stumbler<T> {
        Stumbler {
            inner,
            step,
            calls: 0,
            bad,
        }
    }

    /// Whether a call fails.
    fn stumbles(&mut self) -> bool {
        let call = self.calls;
        self.calls = call.saturating_add(1);
        call == self.bad
    }
}

impl<R: Read> Read for Stumbler<R> {
    fn read(&mut self, buf: &mut [u8]) -> io::Result<usize> {
        if self.stumbles() {
            return Err(io::Error::from(ErrorKind::Interrupted));
        }
        let n = buf.len().min(self.step);
        self.inner.read(&mut buf[..n])
    }
}

impl<W: Write> Write for Stumbler<W> {
    fn write(&mut self, buf: &[u8]) -> io::Result<usize> {
        if self.stumbles() {
            return Err(io::Error::from(ErrorKind::Interrupted));
        }
        let n = buf.len().min(self.step);
        self.inner.write(&buf[..n])
    }

    fn flush(&mut self) -> io::Result<()> {
        self.inner.flush()
    }
}

/// What a fault says; nothing where there is none.
fn said_of(alloc: Global, fault: Option<SessionFault>) -> Result<String, Fail> {
    match fault {
        Some(fault) => Ok(format!(in alloc; "{fault}")?),
        None => Ok(String::new(alloc)),
    }
}

/// What a run of this scenario on one CPU says, or a replay of these calls, between a reader and a
/// writer of so many bytes a call, of which these calls fail; and what was written.
fn logged<X: Threads + Wait + Sync>(
    rt: &X,
    alloc: Global,
    input: (bool, &[u8]),
    step: usize,
    bad: (usize, usize),
) -> Result<(String, Vec<u8>), Fail> {
    let (runs, text) = input;
    let options = options_on(vec![in alloc; 1]?, 996147, 1, 4);
    let mut reader = Counted::new(Stumbler::new(text, step, bad.0));
    let mut writer = Counted::new(Stumbler::new(Vec::new(alloc), step, bad.1));
    let fault = if runs {
        run(rt, alloc, &mut reader, &mut writer, &options, &AllPass).err()
    } else {
        replay(alloc, &mut reader, &mut writer).err()
    };
    let written = writer.into_inner().inner;
    Ok((said_of(alloc, fault)?, written))
}

/// Whether it says and writes this.
fn has_logged<X: Threads + Wait + Sync>(
    rt: &X,
    alloc: Global,
    input: (bool, &[u8]),
    step: usize,
    bad: (usize, usize),
    wanted: (&str, &[u8]),
) -> Result<bool, Fail> {
    let (said, written) = logged(rt, alloc, input, step, bad)?;
    Ok(said.as_str() == wanted.0 && written.as_slice() == wanted.1)
}

/// A scenario, which is run, and calls, which are replayed, of one trace.
const INPUTS: [(bool, &[u8]); 2] = [(true, THROTTLED_TASK), (false, THROTTLED)];

/// No call of the reader fails, and none of the writer.
const NEVER: (usize, usize) = (usize::MAX, usize::MAX);

// Where no call fails, it does not matter how far each goes.
#[test]
fn short_calls(rt: HostRuntime) -> Result<(), Fail> {
    let wanted = ("", THROTTLED_TRACE);
    for input in INPUTS {
        for step in [1, 7, 300] {
            assert!(rt;
                has_logged(&rt, rt.alloc(), input, step, NEVER, wanted)?,
                "{step}"
            );
        }
    }
    Ok(())
}

/// Whether a writer of one byte a call, whose call fails, ends with this front of the trace.
fn ends_with<X: Threads + Wait + Sync>(
    rt: &X,
    alloc: Global,
    input: (bool, &[u8]),
    call: usize,
    front: &[u8],
) -> Result<bool, Fail> {
    let said = format!(in alloc; "write failed after {call}")?;
    let wanted = (said.as_str(), front);
    has_logged(rt, alloc, input, 1, (usize::MAX, call), wanted)
}

// A byte a call, and each call of the writer fails in turn.
#[test]
fn writer_fails_in_each_call(rt: HostRuntime) -> Result<(), Fail> {
    for input in INPUTS {
        for call in 0..THROTTLED_TRACE.len() {
            let front = &THROTTLED_TRACE[..call];
            assert!(rt; ends_with(&rt, rt.alloc(), input, call, front)?, "{call}");
        }
    }
    Ok(())
}

// A trace that goes out while its run is made has the bytes of one that is written behind the run,
// as that of several domains is: here of the same one beside a domain where nothing happens. It has
// more switches than wait at once.
#[test]
fn trace_in_slices(rt: HostRuntime) -> Result<(), Fail> {
    let (said, alone) = logged(&rt, rt.alloc(), (false, LONG), 1 << 20, NEVER)?;
    assert!(rt; said.as_str() == "" && alone.len() > 1 << 20);
    let beside = (false, LONG_BESIDE_NOTHING);
    let wanted = ("", alone.as_slice());
    assert!(rt; has_logged(&rt, rt.alloc(), beside, 1 << 20, NEVER, wanted)?);
    Ok(())
}

/// Whether a writer whose call fails takes a front of this trace, and so much is told.
fn stops_within<X: Threads + Wait + Sync>(
    rt: &X,
    alloc: Global,
    call: usize,
    whole: &[u8],
) -> Result<bool, Fail> {
    let (said, written) = logged(rt, alloc, (false, LONG), 1 << 20, (usize::MAX, call))?;
    let wanted = format!(in alloc; "write failed after {}", written.len())?;
    let is_front = written.len() < whole.len() && whole.starts_with(&written);
    Ok(is_front && said.as_str() == wanted.as_str())
}

// A writer that fails while the run is made: exactly so many bytes went out, the front of the
// trace.
#[test]
fn writer_fails_between_slices(rt: HostRuntime) -> Result<(), Fail> {
    let (_, whole) = logged(&rt, rt.alloc(), (false, LONG), 1 << 20, NEVER)?;
    for call in [0, 3, 9] {
        assert!(rt; stops_within(&rt, rt.alloc(), call, &whole)?, "{call}");
    }
    Ok(())
}

// The call that gives each byte, and that which would tell the end.
#[test]
fn reader_fails_in_each_call(rt: HostRuntime) -> Result<(), Fail> {
    let wanted = ("read failed", b"".as_slice());
    for input in INPUTS {
        for call in 0..=input.1.len() {
            let bad = (call, usize::MAX);
            assert!(rt;
                has_logged(&rt, rt.alloc(), input, 1, bad, wanted)?,
                "{call}"
            );
        }
    }
    Ok(())
}
