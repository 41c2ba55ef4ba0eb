// Worked scripts of ceilings, with their replies as they were written by hand.
use super::*;

/// A clearance is the ceiling of its principal's sessions, whatever it names.
const CLEARED: (&[u8], &[u8]) = (
    b"1 CREATE COMPOUND TAG ward\n1 CREATE TAG w1 IN (ward)\n1 CREATE PRINCIPAL nurse KEY 'n' CLEARANCE (ward)\n\
    1 CREATE PRINCIPAL desk KEY 'd' CLEARANCE ()\n1 CREATE PRINCIPAL q KEY 'q' CLEARANCE (nope)\nOPEN\n3 HELLO nurse KEY 'n'\n\
    3 SET LABEL (w1)\n3 SET LABEL (w1, a)\n3 SHOW LABEL\n3 SET LABEL (ward)\n3 SET LABEL ()\nOPEN\n4 HELLO desk KEY 'd'\n\
    4 SET LABEL (a)\n",
    b"1 OK\n1 OK\n1 OK\n1 OK\n1 ERR 6 UnknownName\n3 OPEN\n3 OK\n3 OK\n3 ERR 29 OverClearance\n3 LABEL (w1)\n3 OK\n\
    3 ERR 8 NoAuthority\n4 OPEN\n4 OK\n4 ERR 29 OverClearance\n",
);

/// It holds in a transaction too, and whoever holds the tags; without CLEARANCE there is none.
const WITHIN: (&[u8], &[u8]) = (
    b"1 CREATE PRINCIPAL desk KEY 'd' CLEARANCE (b)\n1 GRANT a TO desk\nOPEN\n3 SET LABEL (a)\n3 HELLO desk KEY 'd'\n\
    3 SET LABEL (a)\n3 BEGIN\n3 SET LABEL (a, b)\n3 SET LABEL (b)\n3 SET LABEL (a)\n3 ROLLBACK\n2 SET LABEL (a, b)\n",
    b"1 OK\n1 OK\n3 OPEN\n3 ERR 2 NotHello\n3 OK\n3 ERR 29 OverClearance\n3 OK\n3 ERR 29 OverClearance\n3 OK\n\
    3 ERR 29 OverClearance\n3 OK\n2 OK\n",
);

static WORKED: [(&[u8], &[u8]); 2] = [CLEARED, WITHIN];

#[test]
fn ceilings_have_their_replies(rt: HostRuntime) -> Result<(), Fail> {
    for (script, replies) in &WORKED {
        let script = both(rt.alloc(), NOTES.0, script)?;
        let wanted = both(rt.alloc(), NOTES.1, replies)?;
        let end = (MoreStatus::Base(Status::Done), wanted.as_slice());
        let ran = ended_more(&rt, "run", &script, (all_of(65_536), all_of(65_536)))?;
        assert_eq!(rt; (ran.end, ran.written.as_slice()), end);
    }
    Ok(())
}
