//! Reads requests from a port in memory, and keeps their bodies. The words are a form (`length`, `chunks`
//! of one byte, or `head`, whose size is that of a field), a size in bytes, how many bytes come at once,
//! and how many requests come behind one another; it prints how many bytes the bodies have and how many
//! microseconds that took. Without words it reads three small requests of each form, and prints the
//! sizes alone.

use std::alloc::{AllocError, Global};
use std::time::Instant;
use std::{env, io};
use wef_base::{Bytes, List};
use wef_http::{HttpRequest, read_request};
use wef_http_heads::Side;
use wef_ports::MemPort;

/// How the body of a request stands in bytes.
#[derive(Clone, Copy)]
enum Form {
    Length,
    Chunks,
    Head,
}

/// Which requests come, and how.
#[derive(Clone, Copy)]
struct Task {
    form: Form,
    size: usize,
    piece: usize,
    count: usize,
}

/// Reads the requests that the words ask for, and prints what that took.
pub fn measure(rt: &HostRuntime) -> io::Result<()> {
    let alloc = rt.alloc();
    let Some(asked) = asked(rt)? else {
        for form in [Form::Length, Form::Chunks, Form::Head] {
            let small = Task {
                form,
                size: 1_000,
                piece: 7,
                count: 3,
            };
            let mut port = port_of(alloc, small)?;
            let size = size_read(alloc, &mut port, 3)?;
            println!(rt; "{size}")?;
        }
        return Ok(());
    };
    let mut port = port_of(alloc, asked)?;
    let begun = Instant::now(rt)?;
    let size = size_read(alloc, &mut port, asked.count)?;
    let took = begun.elapsed(rt)?;
    println!(rt; "{size} in {}", took.as_micros())
}

/// What the words ask for.
fn asked(rt: &HostRuntime) -> io::Result<Option<Task>> {
    let Some(word) = env::args(rt)?.nth(2) else {
        return Ok(None);
    };
    let form = match word.as_str() {
        "chunks" => Form::Chunks,
        "head" => Form::Head,
        _ => Form::Length,
    };
    Ok(Some(Task {
        form,
        size: number_at(rt, 3)?,
        piece: number_at(rt, 4)?,
        count: number_at(rt, 5)?,
    }))
}

/// The number that is this word.
fn number_at(rt: &HostRuntime, place: usize) -> io::Result<usize> {
    match env::args(rt)?.nth(place) {
        Some(word) => Ok(word.as_str().parse::<usize>().unwrap_or(0)),
        None => Ok(0),
    }
}

/// How many bytes the bodies have of the requests that come.
fn size_read(alloc: Global, port: &mut MemPort, count: usize) -> io::Result<usize> {
    let mut rest = Bytes::new(alloc);
    let mut bodies: List<Bytes> = List::new(alloc);
    for _ in 0..count {
        bodies.push(body_read(alloc, port, &mut rest)?)?;
    }
    let mut size = 0_usize;
    for body in bodies.as_slice() {
        size = size.saturating_add(body.len());
    }
    Ok(size)
}

/// The body of the next request.
fn body_read(alloc: Global, port: &mut MemPort, rest: &mut Bytes) -> io::Result<Bytes> {
    match read_request(alloc, port, Side::Source, rest) {
        Ok(
            HttpRequest {
                target: _,
                host: _,
                charset: _,
                body,
                keep: _,
            },
        ) => Ok(body),
        Err(_) => Err(io::ErrorKind::InvalidData.into()),
    }
}

/// A port to which these requests come.
fn port_of(alloc: Global, asked: Task) -> Result<MemPort, AllocError> {
    let mut bytes = Bytes::new(alloc);
    for _ in 0..asked.count {
        push_request(alloc, &mut bytes, asked.form, asked.size)?;
    }
    let cuts = cuts_of(alloc, bytes.len(), asked.piece)?;
    Ok(MemPort::of(alloc, bytes, cuts, List::new(alloc)))
}

/// The places at which reads end, each so many bytes behind the one before.
fn cuts_of(alloc: Global, size: usize, piece: usize) -> Result<List<usize>, AllocError> {
    let mut cuts = List::new(alloc);
    if piece > 0 {
        for place in 1..size {
            if place % piece == 0 {
                cuts.push(place)?;
            }
        }
    }
    Ok(cuts)
}

/// A request of a form.
fn push_request(
    alloc: Global,
    bytes: &mut Bytes,
    form: Form,
    size: usize,
) -> Result<(), AllocError> {
    bytes.extend(b"POST /wsman HTTP/1.1\r\nHost: pc1\r\n")?;
    bytes.extend(b"Content-Type: application/soap+xml;charset=UTF-8\r\n")?;
    match form {
        Form::Length => push_counted(alloc, bytes, size),
        Form::Chunks => push_chunked(bytes, size),
        Form::Head => push_field(bytes, size),
    }
}

fn push_counted(alloc: Global, bytes: &mut Bytes, size: usize) -> Result<(), AllocError> {
    bytes.extend(b"Content-Length: ")?;
    let digits = size.to_string(alloc)?;
    bytes.extend(digits.as_bytes())?;
    bytes.extend(b"\r\n\r\n")?;
    push_many(bytes, size)
}

fn push_chunked(bytes: &mut Bytes, size: usize) -> Result<(), AllocError> {
    bytes.extend(b"Transfer-Encoding: chunked\r\n\r\n")?;
    for _ in 0..size {
        bytes.extend(b"1\r\nx\r\n")?;
    }
    bytes.extend(b"0\r\n\r\n")
}

fn push_field(bytes: &mut Bytes, size: usize) -> Result<(), AllocError> {
    bytes.extend(b"Content-Length: 0\r\nPadding: ")?;
    push_many(bytes, size)?;
    bytes.extend(b"\r\n\r\n")
}

fn push_many(bytes: &mut Bytes, size: usize) -> Result<(), AllocError> {
    for _ in 0..size {
        bytes.extend(b"x")?;
    }
    Ok(())
}
