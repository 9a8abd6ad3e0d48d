// Messages that are refused, each for the first test that it fails, and neighbours of them that are not.
use crate::show;
use crate::show::{End, Fields};
use format::{Header, MESSAGE_BYTES};
use ops::{CREATE, DEPOSIT, EXAMINE, NOP, STATUS};
use std::io;
use std::io::Write;

// The header of a request.
fn request(host: u8, cmd: u8, pid: u8, arg1: u16, arg2: u16) -> Header {
    Header {
        host,
        cmd,
        pid,
        arg1,
        arg2,
    }
}

// What the desk writes, and what it refuses to write.
pub(crate) fn show_writer<W: Write>(out: &mut W) -> io::Result<()> {
    writeln!(
        out,
        "\nWhat the desk's writer is given, and what it writes or the number of the first test that fails:"
    )?;
    let unknown = request(0, 17, 1, 65535, 1);
    write(out, unknown, 257, &mut [0u8; 265])?;
    for (h, count) in [
        (unknown, 257),
        (unknown, 0),
        (request(5, 17, 1, 65535, 1), 0),
        (request(5, NOP, 1, 65535, 0), 0),
        (request(5, DEPOSIT, 1, 65535, 3), 2),
        (request(5, DEPOSIT, 1, 65535, 3), 4),
        (request(5, EXAMINE, 1, 65535, 3), 3),
        (request(255, DEPOSIT, 255, 65535, 257), 256),
        (request(255, DEPOSIT, 255, 65535, 256), 256),
        (request(5, CREATE, 0, 1, 0), 0),
        (request(5, CREATE, 0, 4095, 0), 0),
        (request(5, CREATE, 0, 4098, 0), 0),
        (request(5, CREATE, 0, 4096, 0), 0),
        (request(5, CREATE, 0, 0, 0), 0),
        (request(5, STATUS, 2, 1, 0), 0),
        (request(5, STATUS, 2, 0, 1), 0),
        (request(5, STATUS, 255, 0, 0), 0),
    ] {
        write(out, h, count, &mut [0u8; MESSAGE_BYTES])?;
    }
    Ok(())
}

// What the desk's writer makes of these fields and a string of so many x.
fn write<W: Write>(out: &mut W, h: Header, count: usize, buffer: &mut [u8]) -> io::Result<()> {
    let x = [b'x'; 257];
    let string = show::front(&x, count);
    writeln!(
        out,
        " {} string of {} into {}",
        Fields(h),
        string.len(),
        buffer.len()
    )?;
    let written = message::write_request(h, string, buffer);
    show::written(out, written, buffer, End::Gateway)
}

// What each end reads of messages, most of which it refuses.
pub(crate) fn show_readers<W: Write>(out: &mut W) -> io::Result<()> {
    writeln!(
        out,
        "\nWhat the gateway reads of some messages:\n 267 bytes"
    )?;
    show::read(out, &[0u8; 267], End::Gateway)?;
    for request in REQUESTS {
        show::message(out, request, End::Gateway)?;
    }
    writeln!(out, "\nWhat the desk reads of some messages:")?;
    for answer in ANSWERS {
        show::message(out, answer, End::Desk)?;
    }
    Ok(())
}

// Messages to the gateway.
const REQUESTS: [&[u8]; 25] = [
    b"",
    b"\x00\x05\xff\x00\x00\x00\x00\x00\x00",
    b"\x01\x00\xfe\x01\x80\x01\x00\x00\x00\x00",
    b"\x01\x05\xff\x00\x00\x00\x00\x00\x00\x00",
    b"\x00\x05\xfe\x00\x00\x00\x00\x00\x00\x00",
    b"\x00\x05\xff\x01\x00\x00\x00\x00\x00\x00",
    b"\x00\x00\xff\x00\x00\x00\x00\x00\x00\x00",
    b"\x00\x05\xff\x00\x11\x01\x00\x00\x00\x00",
    b"\x00\x05\xff\x00\x40\x01\x00\x00\x00\x00",
    b"\x00\x05\xff\x00\x80\x00\x00\x00\x00\x00",
    b"\x00\x05\xff\x00\x81\x01\x00\x00\x00\x00",
    b"\x00\x05\xff\x00\x0c\x01\x00\x00\x00\x00",
    b"\x00\x05\xff\x00\x01\x01\x00\x01\x00\x00",
    b"\x00\x05\xff\x00\x09\x01\x01\x00\x01\x00",
    b"\x00\x05\xff\x00\x04\x01\x00\x00\x00\x02a",
    b"\x00\x05\xff\x00\x04\x01\x00\x00\x00\x02abc",
    b"\x00\x05\xff\x00\x06\x01\x00\x00\x00\x01a",
    b"\x00\x05\xff\x00\x04\xc8\xff\xff\x00\x01a",
    b"\x00\x05\xff\x00\x0c\x00\x00\x01\x00\x00",
    b"\x00\x05\xff\x00\x0c\x00\x10\x02\x00\x00",
    b"\x00\x05\xff\x00\x0c\x00\x10\x00\x00\x00",
    b"\x00\x05\xff\x00\x10\x02\x00\x01\x00\x00",
    b"\x00\x05\xff\x00\x10\x02\x00\x00\x00\x01",
    b"\x00\x05\xff\x00\x10\x02\x00\x00\x00\x00a",
    b"\x00\x05\xff\x00\x90\x02\x00\x00\x00\x00",
];

// Messages to the desk.
const ANSWERS: [&[u8]; 28] = [
    b"\x00\x05\xff\x00\x00\x00\x00\x00\x00",
    b"\x00\x00\xff\x00\x00\x00\x00\x00\x00\x00",
    b"\x00\x05\xff\x00\x11\x00\x00\x00\x00\x00",
    b"\x00\x05\xff\x00\x3f\x00\x00\x00\x00\x00",
    b"\x00\x05\xff\x00\x44\x00\x00\x00\x00\x00",
    b"\x00\x05\xff\x00\x80\x00\x00\x00\x00\x00",
    b"\x00\x05\xff\x00\x91\x00\x00\x00\x00\x00",
    b"\x00\x05\xff\x00\xff\x00\x00\x00\x00\x00",
    b"\x00\x05\xff\x00\x00\x01\x00\x00\x00\x00",
    b"\x00\x05\xff\x00\x8c\x01\x00\x00\x00\x00",
    b"\x00\x05\xff\x00\x04\x01\x00\x00\x00\x01a",
    b"\x00\x05\xff\x00\x06\x01\x00\x00\x00\x02a",
    b"\x00\x05\xff\x00\x86\x01\x00\x00\x01\x01",
    b"\x00\x05\xff\x00\x42\x01\x00\x00\x00\x00abcdefghijklmnopq",
    b"\x00\x05\xff\x00\x42\x01\x00\x00\x00\x12abcdefghijklmnopqr",
    b"\x00\x05\xff\x00\x41\x01\x00\x01\x00\x00abcdefghijklmnopqr",
    b"\x00\x05\xff\x00\x40\x01\x00\x01\x00\x00abcdefghijklmnopqr",
    b"\x00\x05\xff\x00\x0c\x07\x00\x01\x00\x00",
    b"\x00\x05\xff\x00\x0c\x07\x10\x02\x00\x00",
    b"\x00\x05\xff\x00\x0c\x07\x10\x00\x00\x00",
    b"\x00\x05\xff\x00\x8c\x00\x00\x01\x00\x00",
    b"\x00\x05\xff\x00\x8c\x00\x10\x02\x00\x00",
    b"\x00\x05\xff\x00\x8c\x00\x10\x00\x00\x00",
    b"\x00\x05\xff\x00\x10\x02\xff\xff\xff\xff",
    b"\x00\x05\xff\x00\x10\x02\x00\x01\x00\x01a",
    b"\x00\x05\xff\x00\x90\x02\x00\x01\x00\x00",
    b"\x00\x05\xff\x00\x90\x02\x00\x00\x00\x01",
    b"\x00\x05\xff\x00\x90\xc8\x00\x00\x00\x00",
];
