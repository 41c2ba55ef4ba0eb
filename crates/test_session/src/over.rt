// What no clause says: that a room for connections has memory for each session that comes, and how lines of those that are over
// are refused.

use ifdb_db::ServedRoom;
use ifdb_wire::Out;
use std::alloc::Global;
use std::test::Fail;

const HELLO: &str = "HELLO admin KEY 'admin'";

const OVER: &str = "ERR 28 NoSession\n";

// Asks a line for a session, which is to be told this.
fn expect(
    alloc: Global,
    room: &mut ServedRoom,
    n: u64,
    line: &str,
    reply: &str,
) -> Result<(), Fail> {
    let mut out = Out::new(alloc)?;
    room.ask(n, None, line.as_bytes(), &mut out);
    if out.bytes() == reply.as_bytes() {
        Ok(())
    } else {
        Err(Fail::from("another reply"))
    }
}

// A session comes, says HELLO, and goes, by BYE or without it; then its lines and those of the second one are refused.
fn come_and_go(alloc: Global, room: &mut ServedRoom, n: u64) -> Result<(), Fail> {
    room.open_next()?;
    expect(alloc, room, n, HELLO, "OK\n")?;
    if n % 2 == 0 {
        expect(alloc, room, n, "BYE", "OK\n")?;
    } else {
        room.leave(n);
    }
    expect(alloc, room, n, HELLO, OVER)?;
    expect(alloc, room, 2, "BYE", OVER)
}

// The first session stays, in a transaction, while others come and go.
#[test]
fn sessions_come_and_go(rt: HostRuntime) -> Result<(), Fail> {
    let alloc = rt.alloc();
    let mut room = ServedRoom::opening(alloc)?;
    room.open_next()?;
    expect(alloc, &mut room, 1, HELLO, "OK\n")?;
    expect(alloc, &mut room, 1, "BEGIN", "OK\n")?;
    for n in 2..202u64 {
        come_and_go(alloc, &mut room, n)?;
    }
    assert_eq!(rt; room.sessions(), 201);
    assert!(rt; room.in_transaction(1));
    expect(alloc, &mut room, 1, "COMMIT", "OK\n")
}
