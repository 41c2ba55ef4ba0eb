// What no clause says: that calls succeed, and what clients see. Each client is a socket of the
// same thread: the system takes its connection, and what it sends, before a door asks for them.
use crate::{IDLE_READ_SECONDS, IDLE_WRITE_SECONDS, TcpDoor, TcpSite};
use ifdb_io::{Door, Failed, Sink, Site, SiteFault, Source, write_all};
use std::io;
use std::io::{Read, Write};
use std::net::{Ipv4Addr, TcpStream};
use std::test::Fail;
use std::time::Duration;

// A client of the door.
fn client(rt: &HostRuntime, door: &TcpDoor) -> io::Result<TcpStream> {
    TcpStream::connect(rt, (Ipv4Addr::LOCALHOST, door.port().unwrap_or(0)))
}

// Serves the next client of a door: reads a piece, sends it back, and ends the connection. What the
// read answered, or none where no connection came.
fn serve<D: Door>(door: &mut D) -> Option<Result<usize, Failed>> {
    let Ok(Some(mut link)) = door.next() else {
        return None;
    };
    let mut piece = [0; 5];
    let read = link.read(&mut piece);
    let _ = write_all(&mut link, &piece[..read.unwrap_or(0)]);
    door.done(link);
    Some(read)
}

// Takes the next client of a door, which leaves with an unread reply, and then reads from it and
// writes to it. What these answered.
fn serve_gone<D: Door>(
    door: &mut D,
    client: TcpStream,
) -> Option<(Result<usize, Failed>, Result<usize, Failed>)> {
    let Ok(Some(mut link)) = door.next() else {
        return None;
    };
    let _ = write_all(&mut link, b"hello");
    drop(client);
    let read = link.read(&mut [0; 5]);
    let written = link.write(b"hello");
    door.done(link);
    Some((read, written))
}

#[test]
fn two_doors_share_a_port(rt: HostRuntime) -> Result<(), Fail> {
    let mut site = TcpSite::new(&rt, rt.alloc());
    let mut doors = site.doors(0, 2, 1)?;
    let mut first = client(&rt, &doors[0])?;
    let mut second = client(&rt, &doors[1])?;
    second.write_all(b"pong\n")?;
    first.write_all(b"ping\n")?;
    assert_eq!(rt; serve(&mut doors[1]), Some(Ok(5)));
    assert_eq!(rt; serve(&mut doors[0]), Some(Ok(5)));
    for (mut client, want) in [(first, b"ping\n"), (second, b"pong\n")] {
        let mut piece = [0; 9];
        assert_eq!(rt; client.read(&mut piece)?, 5);
        assert_eq!(rt; &piece[..5], want.as_slice());
        assert_eq!(rt; client.read(&mut piece)?, 0);
    }
    // Each door gave the most that it may give.
    assert!(rt; matches!(doors[0].next(), Ok(None)));
    assert!(rt; matches!(doors[0].next(), Ok(None)));
    site.close(doors);
    Ok(())
}

#[test]
fn unread_bytes_cost_no_reply(rt: HostRuntime) -> Result<(), Fail> {
    let mut site = TcpSite::new(&rt, rt.alloc());
    let mut doors = site.doors(0, 1, 1)?;
    let mut client = client(&rt, &doors[0])?;
    client.write_all(&[b'x'; 40000])?;
    assert_eq!(rt; serve(&mut doors[0]), Some(Ok(5)));
    let mut piece = [0; 9];
    assert_eq!(rt; client.read(&mut piece)?, 5);
    assert_eq!(rt; client.read(&mut piece)?, 0);
    Ok(())
}

#[test]
fn clients_that_leave_cost_no_other(rt: HostRuntime) -> Result<(), Fail> {
    let mut site = TcpSite::new(&rt, rt.alloc());
    let mut doors = site.doors(0, 1, 9)?;
    drop(client(&rt, &doors[0])?);
    let mut half = client(&rt, &doors[0])?;
    half.write_all(b"pi")?;
    drop(half);
    let reset = client(&rt, &doors[0])?;
    let mut last = client(&rt, &doors[0])?;
    last.write_all(b"ping\n")?;
    assert_eq!(rt; serve(&mut doors[0]), Some(Ok(0)));
    assert_eq!(rt; serve(&mut doors[0]), Some(Ok(2)));
    assert_eq!(rt;
        serve_gone(&mut doors[0], reset),
        Some((Err(Failed), Err(Failed)))
    );
    assert_eq!(rt; serve(&mut doors[0]), Some(Ok(5)));
    assert_eq!(rt; last.read(&mut [0; 9])?, 5);
    Ok(())
}

#[test]
fn taken_port_is_a_fault(rt: HostRuntime) -> Result<(), Fail> {
    let mut site = TcpSite::new(&rt, rt.alloc());
    let doors = site.doors(0, 1, 1)?;
    let port = doors[0].port().unwrap_or(0);
    assert_eq!(rt; site.doors(port, 1, 1).err(), Some(SiteFault::Failed));
    site.close(doors);
    // The listener is closed with its last door, and its port is free again.
    assert!(rt; site.doors(port, 1, 1).is_ok());
    Ok(())
}

#[test]
fn settings_of_a_link(rt: HostRuntime) -> Result<(), Fail> {
    let mut site = TcpSite::new(&rt, rt.alloc());
    let mut doors = site.doors(0, 1, 1)?;
    let _client = client(&rt, &doors[0])?;
    let Ok(Some(link)) = doors[0].next() else {
        return Err(Fail::new("no link"));
    };
    assert!(rt; link.stream.nodelay()?);
    assert_eq!(rt;
        link.stream.read_timeout()?,
        Some(Duration::from_secs(IDLE_READ_SECONDS))
    );
    assert_eq!(rt;
        link.stream.write_timeout()?,
        Some(Duration::from_secs(IDLE_WRITE_SECONDS))
    );
    Ok(())
}
