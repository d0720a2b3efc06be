//! What sessions need of the machine that they run on.

use std::net::{Net, TcpListener, TcpStream};
use std::random::RandomSource;
use std::rt::Clock;
use std::sync::Wait;
use std::thread::Threads;

/// A machine with TCP, randomness, threads that wait for one another, and clocks.
pub trait Host: Net<Listener = TcpListener, Stream = TcpStream>
    + RandomSource
    + Threads
    + Wait
    + Clock
    + Sync {}

impl<
    R: Net<Listener = TcpListener, Stream = TcpStream>
        + RandomSource
        + Threads
        + Wait
        + Clock
        + Sync,
> Host for R {}
