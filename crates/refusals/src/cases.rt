// Requests and the reasons for which they are refused.
use crate::show::show_all;
use format::Header;
use ops::{
    BREAK, CREATE, DEPOSIT, DEPOSIT_VECTOR, END_WATCH, EXAMINE, NOP, PROCEED, RESUME, SINGLE_STEP,
    STOP, UNBREAK, WATCH,
};
use reasons::{Limit, Reason};
use std::io;
use std::io::Write;

// The header of a request.
fn request(host: u8, cmd: u8, pid: u8, arg1: u16, arg2: u16) -> Header {
    Header {
        host,
        cmd,
        pid,
        arg1,
        arg2,
    }
}

// Granted, and what is wrong with the message itself.
pub(crate) fn show_form<W: Write>(out: &mut W) -> io::Result<()> {
    show_all(
        out,
        &[
            &(request(5, NOP, 0, 0, 0), Reason::Granted),
            &(request(5, EXAMINE, 2, 0, 0), Reason::Length(9)),
            &(request(0, NOP, 0, 0, 0), Reason::Length(1)),
            &(request(5, DEPOSIT, 2, 0, 256), Reason::Length(267)),
            &(
                request(0, NOP, 0, 0, 0),
                Reason::Length(18446744073709551615),
            ),
            &(request(0, EXAMINE, 2, 0, 4), Reason::Other(4)),
            &(request(5, 99, 2, 0, 0), Reason::Other(5)),
            &(request(5, EXAMINE, 2, 0, 4), Reason::Other(6)),
            &(request(5, CREATE, 0, 4098, 0), Reason::Other(6)),
        ],
    )
}

// Who debugs and who watches.
pub(crate) fn show_hosts<W: Write>(out: &mut W) -> io::Result<()> {
    show_all(
        out,
        &[
            &(request(6, RESUME, 2, 0, 0), Reason::Debugger(5)),
            &(request(5, WATCH, 2, 0, 0), Reason::Debugger(5)),
            &(request(6, END_WATCH, 2, 0, 0), Reason::Debugger(5)),
            &(request(6, END_WATCH, 2, 0, 0), Reason::Debugger(0)),
            &(request(6, STOP, 2, 0, 0), Reason::Debugger(0)),
            &(request(6, WATCH, 2, 0, 0), Reason::Watcher(9)),
        ],
    )
}

// What the process is doing, by every run state.
pub(crate) fn show_run_states<W: Write>(out: &mut W) -> io::Result<()> {
    show_all(
        out,
        &[
            &(request(5, RESUME, 2, 0, 0), Reason::RunState(0)),
            &(request(5, SINGLE_STEP, 2, 0, 0), Reason::RunState(1)),
            &(request(5, PROCEED, 2, 0, 0), Reason::RunState(2)),
            &(request(5, RESUME, 2, 0, 0), Reason::RunState(3)),
            &(request(5, PROCEED, 2, 0, 0), Reason::RunState(4)),
            &(request(5, RESUME, 2, 0, 0), Reason::RunState(5)),
            &(request(5, 99, 2, 0, 0), Reason::RunState(6)),
        ],
    )
}

// Which limit is passed.
pub(crate) fn show_limits<W: Write>(out: &mut W) -> io::Result<()> {
    show_all(
        out,
        &[
            &(
                request(5, EXAMINE, 2, 4090, 16),
                Reason::Past(Limit::End, 10),
            ),
            &(request(5, DEPOSIT, 2, 4096, 1), Reason::Past(Limit::End, 1)),
            &(
                request(5, DEPOSIT_VECTOR, 2, 16, 4),
                Reason::Past(Limit::End, 2),
            ),
            &(
                request(255, DEPOSIT_VECTOR, 255, 65535, 65535),
                Reason::Past(Limit::End, 131052),
            ),
            &(
                request(5, EXAMINE, 2, 0, 1),
                Reason::Past(Limit::End, 4294967295),
            ),
            &(
                request(5, EXAMINE, 2, 0, 300),
                Reason::Past(Limit::Count, 44),
            ),
            &(request(5, BREAK, 2, 257, 0), Reason::Past(Limit::Last, 0)),
            &(request(5, BREAK, 2, 4096, 0), Reason::Past(Limit::Last, 2)),
            &(request(5, BREAK, 2, 1, 0), Reason::Past(Limit::Last, 2)),
        ],
    )
}

// What there is of breakpoints.
pub(crate) fn show_breakpoints<W: Write>(out: &mut W) -> io::Result<()> {
    show_all(
        out,
        &[
            &(request(5, BREAK, 2, 256, 0), Reason::Full(8)),
            &(request(6, BREAK, 2, 256, 0), Reason::Full(4)),
            &(request(6, UNBREAK, 2, 256, 0), Reason::Setter(9)),
            &(request(6, UNBREAK, 2, 256, 0), Reason::Other(12)),
        ],
    )
}

// The tests that have no facts.
pub(crate) fn show_others<W: Write>(out: &mut W) -> io::Result<()> {
    show_all(
        out,
        &[
            &(request(5, EXAMINE, 2, 0, 4), Reason::Other(2)),
            &(request(5, EXAMINE, 2, 0, 4), Reason::Other(7)),
            &(request(5, CREATE, 0, 4096, 0), Reason::Other(13)),
            &(request(5, EXAMINE, 2, 0, 4), Reason::Other(14)),
            &(request(5, EXAMINE, 2, 0, 4), Reason::Other(255)),
        ],
    )
}
