// Loops in threads of their own, over gates of one port.
use ifdb_loop::{GateSite, Loop, Terms, serve};
use ifdb_ready::{TcpGate, TcpGates};
use std::alloc::Global;
use std::net::{Net, TcpListener, TcpStream};
use std::rt::Clock;
use std::sync::Wait;
use std::thread;
use std::thread::Threads;
use test_loop::Echo;

// A loop, and the gate through which its connections come.
#[derive(Drop)]
struct Served<'a, R> {
    gate: TcpGate<'a, R>,
    looping: Loop,
}

// The rounds of a loop, if no connection is out yet.
fn go_round<R: Net + Wait + Clock>(alloc: Global, limit: usize, one: &mut Served<'_, R>) {
    let mut echo = Echo::new(alloc, limit, 0);
    if one.gate.out() == 0 {
        let _ = serve(&mut one.gate, &mut echo, &mut one.looping);
    }
}

/// Serves this port by so many loops, each of whose connections may give so many bytes.
pub fn serve_port<R>(
    rt: &R,
    alloc: Global,
    port: u16,
    count: usize,
    terms: Terms,
    limit: usize,
) -> anyhow::Result<()>
where
    R: Net<Listener = TcpListener, Stream = TcpStream> + Threads + Wait + Clock + Sync,
{
    let mut site = TcpGates::new(rt, alloc);
    let mut loops = Vec::with_capacity(alloc, count)?;
    for gate in site.open(port, count)? {
        loops.push(Served {
            gate,
            looping: Loop::new(alloc, terms)?,
        })?;
    }
    let count = loops.len();
    if count == 0 {
        return Ok(());
    }
    thread::for_each_mut(
        rt,
        &mut loops,
        count,
        &|_, one: &mut Served<'_, R>| { go_round(alloc, limit, one) },
    );
    Ok(())
}
