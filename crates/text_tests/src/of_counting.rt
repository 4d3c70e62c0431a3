use crate::fakes::{Giver, Taker};
use counted_io::{Counted, ReadFault};
use std::alloc::{AllocError, Global};
use std::io::ErrorKind;
use std::test::Fail;

const TEXT: &[u8] = b"# tracer: nop\n";

fn long_text(alloc: Global) -> Result<Vec<u8>, AllocError> {
    let mut text = Vec::new(alloc);
    for i in 0..5000u64 {
        text.push((i % 251) as u8)?;
    }
    Ok(text)
}

// A long input that comes byte by byte is read whole: far more reads than a small bound would let
// through.
#[test]
fn all_is_read_in_5000_reads(rt: HostRuntime) -> Result<(), Fail> {
    let text = long_text(rt.alloc())?;
    let mut reader = Counted::new(Giver::new(&text, usize::MAX));
    let read = reader.read_all(rt.alloc())?;
    assert!(rt; read.as_slice() == text.as_slice());
    assert!(rt; reader.faults() == 0 && reader.into_inner().calls == 5001);
    Ok(())
}

// The call that gives each byte fails once, and that which would tell the end; the others give all
// bytes.
#[test]
fn a_reader_fails_in_each_call(rt: HostRuntime) {
    for bad in 0..=TEXT.len() {
        let mut reader = Counted::new(Giver::new(TEXT, bad));
        let read = reader.read_all(rt.alloc());
        assert!(rt; matches!(read, Err(ReadFault::Failed)), "in call {bad}");
        assert!(rt; reader.faults() == 1, "in call {bad}");
    }
}

// A call goes to the reader once: neither is a fault tried again, nor is the end one.
#[test]
fn a_read_is_one_call(rt: HostRuntime) {
    let mut buf = [0u8; 4];
    let mut reader = Counted::new(Giver::new(b"ab", 1));
    for answer in [Some(1), None, Some(1), Some(0), Some(0)] {
        assert!(rt; reader.faults() < 2);
        assert!(rt; reader.read(&mut buf) == answer);
    }
    assert!(rt; reader.faults() == 1);
}

#[test]
fn a_write_is_one_call(rt: HostRuntime) {
    for kind in [Some(ErrorKind::Interrupted), None] {
        let mut writer = Counted::new(Taker::new(rt.alloc(), 4, 6, kind));
        for answer in [Some(4), Some(2), None, Some(4)] {
            assert!(rt; writer.faults() < 2);
            assert!(rt; writer.write(b"abcdef") == answer);
        }
        assert!(rt; writer.faults() == 1 && writer.into_inner().calls == 4);
    }
}

// A text is written in as few calls as its writer takes, and none of them is a flush.
#[test]
fn a_text_is_three_writes(rt: HostRuntime) {
    let mut writer = Counted::new(Taker::new(rt.alloc(), 4, usize::MAX, None));
    assert!(rt; writer.write_all(b"abcdefghi").is_ok());
    let writer = writer.into_inner();
    assert!(rt; writer.calls == 3);
    assert!(rt; writer.taken.as_slice() == b"abcdefghi".as_slice());
}
