//! What a test sees of the turns on pieces of work: which are taken, in what order, and in whose
//! thread.

use jump_run::Turn;
use std::fs;
use std::io::Read;
use std::sync::atomic::{AtomicBool, AtomicUsize, Ordering};
use std::thread::sleep;
use std::time::{Clock, Duration};

/// Two pieces in an order, each time that both are worked on: the second begins when the first has
/// ended, or is late after ten seconds.
#[derive(Drop)]
pub(crate) struct InOrder<C> {
    clock: C,
    first: usize,
    begun: AtomicUsize,
    ended: AtomicUsize,
    late: AtomicBool,
}

impl<C: Clock + Sync> Turn for InOrder<C> {
    fn begin(&self, piece: usize) {
        if piece == self.first {
            return;
        }
        let before = self.begun.fetch_add(1, Ordering::SeqCst);
        for _ in 0..10000 {
            if self.ended.load(Ordering::SeqCst) > before {
                return;
            }
            sleep(&self.clock, Duration::from_millis(1));
        }
        self.late.store(true, Ordering::SeqCst);
    }

    fn end(&self, piece: usize) {
        if piece == self.first {
            self.ended.fetch_add(1, Ordering::SeqCst);
        }
    }
}

impl<C: Clock> InOrder<C> {
    pub(crate) fn new(clock: C, first: usize) -> InOrder<C> {
        InOrder {
            clock,
            first,
            begun: AtomicUsize::new(0),
            ended: AtomicUsize::new(0),
            late: AtomicBool::new(false),
        }
    }

    /// How often the other piece was begun and the first one ended, and whether one was late.
    pub(crate) fn logged(&self) -> (usize, usize, bool) {
        let begun = self.begun.load(Ordering::SeqCst);
        let ended = self.ended.load(Ordering::SeqCst);
        (begun, ended, self.late.load(Ordering::SeqCst))
    }
}

/// The number of the thread that calls, as Linux tells it, or else 0.
fn thread_number(rt: &HostRuntime) -> usize {
    let mut bytes = [0; 32];
    let Ok(mut file) = fs::open(rt, "/proc/thread-self/stat") else {
        return 0;
    };
    if file.read(&mut bytes).is_err() {
        return 0;
    }
    let mut number: usize = 0;
    for byte in bytes {
        if !byte.is_ascii_digit() {
            return number;
        }
        number = number
            .wrapping_mul(10)
            .wrapping_add(usize::from(byte.wrapping_sub(48)));
    }
    number
}

/// Counts turns as they are taken.
#[derive(Drop)]
pub(crate) struct Tally {
    rt: HostRuntime,
    caller: usize,
    begun: AtomicUsize,
    ended: AtomicUsize,
    order: AtomicUsize,
    elsewhere: AtomicUsize,
}

/// The turns of some work: how often each piece was begun and ended, a hexadecimal digit for each,
/// the lowest for piece 0; all turns in their order, the last one in the lowest digit, 1 where a
/// piece begins, 2 where it ends; and how many were taken in another thread than the caller's.
#[derive(Clone, Copy)]
pub(crate) struct Logged {
    pub(crate) begun: usize,
    pub(crate) ended: usize,
    pub(crate) order: usize,
    pub(crate) elsewhere: usize,
}

impl Logged {
    /// Whether each piece was begun and ended so often, and so many turns were taken elsewhere.
    pub(crate) fn is(&self, each: usize, elsewhere: usize) -> bool {
        self.begun == each && self.ended == each && self.elsewhere == elsewhere
    }
}

fn digit(piece: usize) -> usize {
    match piece {
        0 => 0x1,
        1 => 0x10,
        2 => 0x100,
        3 => 0x1000,
        4 => 0x10000,
        5 => 0x100000,
        6 => 0x1000000,
        7 => 0x10000000,
        _ => 0x100000000,
    }
}

impl Tally {
    pub(crate) fn new(rt: HostRuntime) -> Tally {
        Tally {
            rt,
            caller: thread_number(&rt),
            begun: AtomicUsize::new(0),
            ended: AtomicUsize::new(0),
            order: AtomicUsize::new(0),
            elsewhere: AtomicUsize::new(0),
        }
    }

    fn add(&self, turns: &AtomicUsize, piece: usize, kind: usize) {
        turns.fetch_add(digit(piece), Ordering::SeqCst);
        let seen = self.order.load(Ordering::SeqCst);
        self.order
            .store(seen.wrapping_mul(16).wrapping_add(kind), Ordering::SeqCst);
        if thread_number(&self.rt) != self.caller {
            self.elsewhere.fetch_add(1, Ordering::SeqCst);
        }
    }

    pub(crate) fn logged(&self) -> Logged {
        Logged {
            begun: self.begun.load(Ordering::SeqCst),
            ended: self.ended.load(Ordering::SeqCst),
            order: self.order.load(Ordering::SeqCst),
            elsewhere: self.elsewhere.load(Ordering::SeqCst),
        }
    }
}

impl Turn for Tally {
    fn begin(&self, piece: usize) {
        self.add(&self.begun, piece, 1);
    }

    fn end(&self, piece: usize) {
        self.add(&self.ended, piece, 2);
    }
}
