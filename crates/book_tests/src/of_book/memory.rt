// Calls for which no memory is left. Under `prlimit --as=500000000` each test takes what there is
// before every call, and prints that it is gone; else it takes a gigabyte of addresses at most, and
// the calls have memory.

use super::{Desk, admit, calls_of, end, opened};
use call_book::{Prepared, prepare};
use domain_run::{Call, Reply};
use std::alloc::{AllocError, Global};
use std::process::Abort;
use std::test::Fail;

// Takes blocks of a size until one is refused, at most 64 of them, and no more than there is room
// for.
fn hoard_of(alloc: Global, blocks: &mut Vec<Vec<u8>>, size: usize) {
    for _ in 0..64 {
        if blocks.len() == blocks.capacity() {
            return;
        }
        let block: Result<Vec<u8>, AllocError> = Vec::with_capacity(alloc, size);
        let Ok(block) = block else {
            return;
        };
        let _ = blocks.push(block);
    }
}

// Takes the memory that is left, from large blocks to the smallest, and says whether it is gone.
fn hoard(alloc: Global, blocks: &mut Vec<Vec<u8>>) -> bool {
    for size in [16777216, 1048576, 65536, 4096] {
        hoard_of(alloc, blocks, size);
    }
    for k in 0..65 {
        hoard_of(alloc, blocks, 1040 - 16 * k);
    }
    let block: Result<Vec<u8>, AllocError> = Vec::with_capacity(alloc, 1);
    block.is_err()
}

const ADMISSIONS: &[u8] =
    b"dlcalls 1\ndomain 1 1048576\nadmit 1 1 a 2 8 8 - 0 1:1{r1}\nadmit 1 2 a 2 8 8 - 0 1:1{r1}\nadmit 1 3 a 8 8 8 - 0 1:1{r1}\nadmit 1 1 a 2 8 8 - 0 1:1{r1}\nadmit 1 4 a 2 8 8 - 0 1:1{r1}\nadmit 1 5 a 2 8 8 - 0 1:1{r1}\n";

// The admissions of a text, ready to be made, the last one first.
fn all_ready(rt: &impl Abort, alloc: Global, text: &[u8]) -> Result<Vec<Prepared>, Fail> {
    let mut ready = Vec::new(alloc);
    for entry in &calls_of(rt, alloc, text)? {
        if let Call::Admit {
            number,
            name,
            params,
            delay,
            script,
        } = &entry.call
        {
            ready.push(prepare(alloc, *number, name, *params, *delay, script)?)?;
        }
    }
    ready.reverse();
    Ok(ready)
}

// Makes admissions for which no memory is left: the replies, for which there is room, and whether
// the memory was gone at each.
fn admit_all(
    rt: &impl Abort,
    alloc: Global,
    desk: &mut Desk,
    mut ready: Vec<Prepared>,
    replies: &mut Vec<Reply>,
    blocks: &mut Vec<Vec<u8>>,
) -> bool {
    let mut gone = true;
    for _ in 0..ready.len() {
        if let Some(prepared) = ready.pop() {
            gone = hoard(alloc, blocks) && gone;
            let _ = replies.push(admit(rt, desk, prepared));
        }
    }
    gone
}

// Makes the admissions of ADMISSIONS in a book of three entries: whether the memory was gone at
// each, and what the book ends with.
fn admitted_without_memory(
    rt: &impl Abort,
    alloc: Global,
    replies: &mut Vec<Reply>,
) -> Result<(bool, (u64, u64, usize)), Fail> {
    let ready = all_ready(rt, alloc, ADMISSIONS)?;
    let mut blocks = Vec::with_capacity(alloc, 4416)?;
    let mut desk = opened(rt, alloc, 1048576, 3)?;
    let gone = admit_all(rt, alloc, &mut desk, ready, replies, &mut blocks);
    blocks.clear();
    Ok((gone, end(alloc, desk)))
}

// An admission that is prepared takes no memory more, whatever it is answered: by the word, by the
// list of tasks, by a history that is full.
#[test]
fn no_memory_after_prepare(rt: HostRuntime) -> Result<(), Fail> {
    let mut replies = Vec::with_capacity(rt.alloc(), 6)?;
    let (gone, ends) = admitted_without_memory(&rt, rt.alloc(), &mut replies)?;
    println!(rt; "memory is gone: {gone}")?;
    let (granted, busy) = (Reply::Admitted, Reply::Busy { seen: 524288 });
    let wanted = [granted, granted, busy, Reply::Twice, granted, Reply::Full];
    assert!(rt; replies.as_slice() == wanted.as_slice());
    assert!(rt; ends == (786432, 786432, 3));
    Ok(())
}
