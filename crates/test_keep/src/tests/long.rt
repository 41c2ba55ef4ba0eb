// A long journal is done again.
use super::support::keep;
use ifdb_disk::MemoryDisk;
use ifdb_keep::KeepEnd;
use std::fmt::Write;
use std::test::Fail;

const STEPS: u64 = 10_000;

const TABLE: &str =
    "OPEN\n1 HELLO admin KEY 'admin'\n1 CREATE TABLE note (id INT, PRIMARY KEY (id))\n";

#[test]
fn ten_thousand_steps(rt: HostRuntime) -> Result<(), Fail> {
    let alloc = rt.alloc();
    let mut script = String::from_str(alloc, TABLE)?;
    for step in 0..STEPS {
        writeln!(script, "1 INSERT INTO note VALUES ({step})")?;
    }
    let mut disk = MemoryDisk::new(alloc, Vec::new(alloc), 1_000_000, 50_000, Vec::new(alloc))?;
    let (end, text) = keep(alloc, &mut disk, &script)?;
    assert_eq!(rt; end, KeepEnd::Done);
    assert_eq!(rt; text.iter().filter(|b| **b == b'\n').count(), 10_003);
    let look =
        "OPEN\n1 HELLO admin KEY 'admin'\n1 SELECT COUNT(*) FROM note\n1 SELECT id FROM note WHERE id = 9999\n";
    let (end, text) = keep(alloc, &mut disk, look)?;
    assert_eq!(rt; end, KeepEnd::Done);
    assert_eq!(rt;
        text.as_slice(),
        b"1 OPEN\n1 OK\n1 ROWS 1 1\n1 10000\n1 ROWS 1 1\n1 9999\n".as_slice()
    );
    Ok(())
}
