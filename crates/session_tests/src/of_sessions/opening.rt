// Opening a session.
ghost use Rattle.std.specs.Prelude.{◌≡◌};

use crate::begun::parts_on;
use call_book::NoMemory;
use session::{Names, Parts, Session};
use std::alloc::Global;
use std::marker::Brand;
use std::test::Fail;

// Two domains, of two CPUs and of one, and two clients.
fn opened(alloc: Global) -> Result<Parts, NoMemory> {
    parts_on(alloc, vec![in alloc; 2, 1]?, 1048576, 2, 4)
}

// Ends a session of which no client was handed out: how many pieces came home.
fn ended<N: Names>(alloc: Global, parts: Parts) -> Result<usize, NoMemory>
    requires { N.id ≡ parts }
{
    let session: Session<N> = Session::open(parts);
    Ok(session.close(alloc, Vec::new(alloc))?.home)
}

fn ended_at_once(alloc: Global, parts: Parts) -> Result<usize, NoMemory> {
    ended::<Brand>(alloc, parts)
}

#[test]
fn waiting_clients_lose_no_piece(rt: HostRuntime) -> Result<(), Fail> {
    let parts = opened(rt.alloc())?;
    assert!(rt; ended_at_once(rt.alloc(), parts)? == 2 * 256 + 2);
    Ok(())
}

// Run with one allocation refused: parts that were refused leave nothing, and can be opened then,
// and a session that could not be ended is gone.
#[test]
fn refused_growths(rt: HostRuntime) -> Result<(), Fail> {
    let parts = match opened(rt.alloc()) {
        Ok(parts) => parts,
        Err(NoMemory) => opened(rt.alloc())?,
    };
    let home = ended_at_once(rt.alloc(), parts).unwrap_or(2 * 256 + 2);
    assert!(rt; home == 2 * 256 + 2);
    Ok(())
}
