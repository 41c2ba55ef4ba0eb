// Where a loop is handed its connections.
use crossbeam_queue::SegQueue;
use mio::net::TcpStream;
use mio::{Registry, Token, Waker};
use std::alloc::Global;
use std::io;
use std::sync::Wait;
use std::sync::atomic::{AtomicUsize, Ordering};

// Where the connections of one loop are put, by another thread.
#[derive(Drop)]
pub(crate) struct Hand {
    queue: SegQueue<TcpStream>,
    waker: Waker,
    // How many connections were put in and aren't over yet.
    load: AtomicUsize,
}

impl Hand {
    // An empty hand, which wakes the loop of these sources by this token.
    pub(crate) fn new(alloc: Global, registry: &Registry, token: Token) -> io::Result<Hand> {
        Ok(Hand {
            queue: SegQueue::new(alloc)?,
            waker: Waker::new(registry, token)?,
            load: AtomicUsize::new(0),
        })
    }

    // Puts a connection in, and wakes the loop. Without memory for that the connection is closed.
    pub(crate) fn give<R: Wait>(&self, rt: &R, stream: TcpStream) {
        self.load.fetch_add(1, Ordering::Relaxed);
        match self.queue.push(rt, stream) {
            Ok(()) => {
                let _ = self.waker.wake();
            }
            Err(_) => self.lose(),
        }
    }

    // How many connections the loop has, with those that it hasn't taken yet.
    pub(crate) fn load(&self) -> usize {
        self.load.load(Ordering::Relaxed)
    }

    // Notes that one of them is over.
    pub(crate) fn lose(&self) {
        self.load.fetch_sub(1, Ordering::Relaxed);
    }

    // Takes out a connection, the first that was put in.
    pub(crate) fn take<R: Wait>(&self, rt: &R) -> Option<TcpStream> {
        self.queue.pop(rt)
    }
}
