// The written form of every message, each with what the other end reads of it. The fields that a form uses are PID 2, ARG1 258 and
// ARG2 3, and a counted string is "abc".
use crate::show;
use crate::show::End;
use format::{Header, MESSAGE_BYTES};
use ops::{ArgUse, Carried, Form};
use std::io;
use std::io::Write;

// Of each op code the request, the reply that grants it and, but for NOP, the CAN'T.
pub(crate) fn show_ops<W: Write>(out: &mut W) -> io::Result<()> {
    writeln!(
        out,
        "\nOf each op code the request, the reply and the CAN'T, each with what the other end reads of it:"
    )?;
    for cmd in 0..128u8 {
        if let Some(form) = ops::request_form(cmd) {
            op(out, sample(form, cmd), string(form))?;
        }
    }
    Ok(())
}

// The header of a request with an op code, in which each field that its form uses has a number.
fn sample(form: Form, cmd: u8) -> Header {
    Header {
        host: 5,
        cmd,
        pid: if form.pid { 2 } else { 0 },
        arg1: if matches!(form.arg1, ArgUse::Unused) {
            0
        } else {
            258
        },
        arg2: if form.arg2 { 3 } else { 0 },
    }
}

// The string of a request.
fn string(form: Form) -> &'static [u8] {
    match form.carried {
        Carried::Counted => b"abc",
        Carried::Nothing | Carried::Vector => b"",
    }
}

// Each is written into the same buffer: what stands after the ten bytes of EXAMINE's reply is then its string.
fn op<W: Write>(out: &mut W, h: Header, string: &[u8]) -> io::Result<()> {
    let mut buffer = [b'a'; MESSAGE_BYTES];
    writeln!(out)?;
    let request = message::write_request(h, string, &mut buffer);
    show::written(out, request, &buffer, End::Gateway)?;
    let reply = write_reply(h, &mut buffer);
    show::message(out, show::front(&buffer, reply), End::Desk)?;
    if h.cmd == ops::NOP {
        return Ok(());
    }
    let cant = message::write_reply(h.cant(), &mut buffer);
    show::message(out, show::front(&buffer, cant), End::Desk)
}

// CREATE's reply has the number of the new process, and that of STATUS the number of breakpoints and the run state.
fn write_reply(h: Header, buffer: &mut [u8; MESSAGE_BYTES]) -> usize {
    match h.cmd {
        ops::EXAMINE => message::write_contents(h, buffer),
        ops::CREATE => message::write_reply(h.created(7), buffer),
        ops::STATUS => message::write_reply(h.with_args(8, 5), buffer),
        _ => message::write_reply(h, buffer),
    }
}

// Each notice; the first has a reason.
pub(crate) fn show_notices<W: Write>(out: &mut W) -> io::Result<()> {
    writeln!(out, "\nThe notices:")?;
    for (kind, reason) in [(0, 4), (1, 0), (2, 0), (3, 0)] {
        notice(out, kind, reason)?;
    }
    Ok(())
}

// A notice of that kind, with that reason and a state vector.
fn notice<W: Write>(out: &mut W, kind: u8, reason: u16) -> io::Result<()> {
    let mut buffer = [0u8; MESSAGE_BYTES];
    let vector = [1, 2, 3, 4, 5, 6, 4094, 256, 61440];
    let written = message::write_notice(5, kind, 2, reason, vector, &mut buffer);
    show::message(out, show::front(&buffer, written), End::Desk)
}
