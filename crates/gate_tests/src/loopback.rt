//! The command `serve` over real sockets, in one process with its clients and its upstream, in one thread and in several.
ghost use Rattle.gate_words.specs.Commands.{IsInRange};
ghost use Rattle.gate_words.specs.declared.command.Command.TheVariants.{Serve};

use crate::outside::{Ending, Outside, none, was_written, with_input, words_of};
use crate::serving::{ANSWERS, CALLS, REPLIES};
use crew_server::{Worker, serve_crew};
use gate_base::{OutOfMemory, Text, Word};
use gate_memory::{MemFiles, MemSink};
use gate_run::run;
use gate_words::{Command, Declared, Serving, read_command};
use mio_crew::{Bell, CrewNetwork, Member, open_crew};
use mio_edge::{MioFan, MioHub};
use std::alloc::Global;
use std::io::{ErrorKind, Read, Write};
use std::net::{Net, Shutdown, SocketAddr, TcpListener, TcpStream};
use std::sync::Arc;
use std::test::*;
use std::thread::Threads;
use std::{io, thread};

/// The client tries so often to connect.
const MOST_TRIES: u32 = 100_000;

/// The client reads so often in all, without waiting.
const MOST_READS: u32 = 5_000_000;

/// A server whose upstream has a name that nobody knows: no label of one has over 63 letters, so the system asks no one.
const NOBODY: &[u8] =
    b"serve compact json 127.0.0.2:9 aaaaaaaaaaaaaaaaaaaaaaaaaaaaaaaaaaaaaaaaaaaaaaaaaaaaaaaaaaaaaaaa:9";

/// How it ends.
const UNFOUND: Ending<'static> = Ending {
    code: 7,
    output: b"",
    report: b"target not found: aaaaaaaaaaaaaaaaaaaaaaaaaaaaaaaaaaaaaaaaaaaaaaaaaaaaaaaaaaaaaaaa\nhub fault\n",
};

/// Calls 1 and 2 of three.
const FIRST_CALLS: usize = 35;

/// The answers to calls 1 and 2.
const FIRST_ANSWERS: usize = 39;

/// The bytes of a call and of an answer to it, on the side of the upstream.
const MESSAGE: usize = 21;

/// Takes one connection, and answers two calls.
fn answer(listener: &TcpListener) -> io::Result<()> {
    let (mut stream, _) = listener.accept()?;
    let mut call = [0; MESSAGE];
    stream.read_exact(&mut call)?;
    stream.write_all(&REPLIES[..MESSAGE])?;
    stream.read_exact(&mut call)?;
    stream.write_all(&REPLIES[MESSAGE..])
}

/// Runs the server of these words over real sockets, and gives its status.
fn serve_over<N: Net>(net: &N, alloc: Global, words: &[Word], outside: &mut Outside) -> u8 {
    let mut hub = MioHub::new(net);
    let mut fan = MioFan::new(net);
    let status = run(
        alloc,
        words,
        &mut outside.files,
        &mut outside.input,
        &mut outside.output,
        &mut outside.report,
        &mut hub,
        &mut fan,
    );
    status.code
}

/// Serves one connection.
fn serve<N: Net>(net: &N, alloc: Global, line: &[u8]) -> Result<u8, OutOfMemory> {
    let words = words_of(alloc, line)?;
    let mut outside = with_input(alloc, b"")?;
    Ok(serve_over(net, alloc, &words, &mut outside))
}

/// A worker over real sockets.
type Hand<'n, N> = Worker<MioHub<CrewNetwork<'n, N>>, MemSink, Bell>;

fn hire<'n, N: Net>(
    alloc: Global,
    members: Vec<Member<'n, N>>,
    crew: &mut Vec<Hand<'n, N>>,
) -> Result<(), OutOfMemory> {
    for member in members {
        let hub = MioHub::over(member.network);
        let output = MemSink::new(alloc, 64, none(alloc))?;
        crew.push(Worker::new(alloc, hub, output, member.exit)?)?;
    }
    Ok(())
}

/// Serves in as many threads as the words say, and gives the status: that of a hub fault where the system refuses a poll.
fn serve_in_threads<R: Threads + Sync>(
    rt: &HostRuntime,
    starter: &R,
    serving: &Serving,
    declared: &Declared,
) -> Result<u8, OutOfMemory>
    requires { IsInRange (Serve serving.now declared.now) }
{
    let alloc = rt.alloc();
    let target = [Text::new(alloc, serving.target.as_slice())?];
    let Some(members) = open_crew(rt, alloc, serving.threads as usize, &target)? else {
        return Ok(7);
    };
    let mut crew = Vec::new(alloc);
    hire(alloc, members, &mut crew)?;
    let mut files = MemFiles::new(alloc, none(alloc))?;
    let mut report = MemSink::new(alloc, 64, none(alloc))?;
    Ok(
        serve_crew(
            starter,
            alloc,
            serving,
            declared,
            &mut files,
            &mut report,
            &mut crew,
        )
        .code,
    )
}

/// The same of the server of a line.
fn serve_line<R: Threads + Sync>(
    rt: &HostRuntime,
    starter: &R,
    line: &[u8],
) -> Result<u8, OutOfMemory> {
    let words = words_of(rt.alloc(), line)?;
    let command = read_command(rt.alloc(), &words)?;
    match &command {
        Some(Command::Serve(serving, declared)) => {
            serve_in_threads(rt, starter, serving, declared)
        }
        _ => Ok(2),
    }
}

/// Connects once the server listens.
fn connect<N: Net<Stream = TcpStream>>(net: &N, address: SocketAddr) -> io::Result<TcpStream> {
    for _ in 0..MOST_TRIES {
        if let Ok(stream) = TcpStream::connect(net, address) {
            return Ok(stream);
        }
    }
    Err(io::Error::from(ErrorKind::ConnectionRefused))
}

/// Reads once into a slice, and says how many bytes came, where any did or the end is there.
fn read_once(stream: &mut TcpStream, into: &mut [u8]) -> io::Result<Option<usize>> {
    match stream.read(into) {
        Ok(count) => Ok(Some(count)),
        Err(error) if error.kind() == ErrorKind::WouldBlock => Ok(None),
        Err(error) => Err(error),
    }
}

/// Reads as many bytes as the slice has, without waiting, and says how many reads are left.
fn read_all(stream: &mut TcpStream, into: &mut [u8], reads: u32) -> io::Result<u32> {
    let mut got = 0;
    for left in (0..reads).rev() {
        if got >= into.len() {
            return Ok(left);
        }
        match read_once(stream, &mut into[got..])? {
            Some(0) => return Err(io::Error::from(ErrorKind::UnexpectedEof)),
            Some(count) => got = got.saturating_add(count),
            None => (),
        }
    }
    Err(io::Error::from(ErrorKind::TimedOut))
}

/// Whether the end is read, without waiting.
fn sees_end(stream: &mut TcpStream, reads: u32) -> io::Result<bool> {
    let mut byte = [0];
    for _ in 0..reads {
        if let Some(count) = read_once(stream, &mut byte)? {
            return Ok(count == 0);
        }
    }
    Ok(false)
}

/// The client: a later call is sent only behind the answers to the earlier ones.
fn ask(stream: &mut TcpStream, answers: &mut [u8; 52]) -> io::Result<bool> {
    stream.write_all(&CALLS[..FIRST_CALLS])?;
    stream.set_nonblocking(true)?;
    let left = read_all(stream, &mut answers[..FIRST_ANSWERS], MOST_READS)?;
    stream.write_all(&CALLS[FIRST_CALLS..])?;
    let left = read_all(stream, &mut answers[FIRST_ANSWERS..], left)?;
    stream.shutdown(Shutdown::Write)?;
    sees_end(stream, left)
}

/// An address of this machine at which nothing listens. It isn't the one that connections go out from, so that no
/// connection can meet itself.
fn free_address<N: Net<Listener = TcpListener, Stream = TcpStream>>(
    net: &N,
) -> io::Result<SocketAddr> {
    TcpListener::bind(net, SocketAddr::from(([127, 0, 0, 2], 0)))?.local_addr()
}

#[test]
fn loopback(rt: HostRuntime) -> Result<(), Fail> {
    let upstream = TcpListener::bind(&rt, SocketAddr::from(([127, 0, 0, 1], 0)))?;
    let target = upstream.local_addr()?;
    let listen = free_address(&rt)?;
    let line = format!(in rt.alloc(); "serve compact json {listen} {target} --accept 1")?;
    thread::spawn(&rt, move || answer(&upstream).is_ok())?;
    thread::spawn(&rt, move || serve(&rt, rt.alloc(), line.as_bytes()).is_ok())?;
    let mut stream = connect(&rt, listen)?;
    let mut answers = [0; 52];
    assert!(rt; ask(&mut stream, &mut answers)?);
    assert_eq!(rt; answers, ANSWERS);
    Ok(())
}

#[test]
fn a_name_that_nobody_knows_is_told(rt: HostRuntime) -> Result<(), Fail> {
    let words = words_of(rt.alloc(), NOBODY)?;
    let mut outside = with_input(rt.alloc(), b"")?;
    let code = serve_over(&rt, rt.alloc(), &words, &mut outside);
    assert_eq!(rt; code, UNFOUND.code);
    assert!(rt; was_written(&outside, &UNFOUND));
    Ok(())
}

#[test]
fn three_threads_over_loopback(rt: HostRuntime) -> Result<(), Fail> {
    let upstream = TcpListener::bind(&rt, SocketAddr::from(([127, 0, 0, 1], 0)))?;
    let target = upstream.local_addr()?;
    let listen = free_address(&rt)?;
    let line = format!(in rt.alloc();
        "serve compact json {listen} {target} --accept 3 --threads 3"
    )?;
    let upstream = Arc::new(rt.alloc(), upstream)?;
    for _ in 0..3 {
        let listener = Arc::try_clone(&upstream)?;
        thread::spawn(&rt, move || answer(&listener).is_ok())?;
    }
    thread::spawn(&rt, move || serve_line(&rt, &rt, line.as_bytes()).is_ok())?;
    let mut streams = [
        connect(&rt, listen)?,
        connect(&rt, listen)?,
        connect(&rt, listen)?,
    ];
    for stream in &mut streams {
        let mut answers = [0; 52];
        assert!(rt; ask(stream, &mut answers)?);
        assert_eq!(rt; answers, ANSWERS);
    }
    Ok(())
}
