// Where a request goes.
ghost use Rattle.std.specs.Prelude.{◌≡◌};
ghost use Rattle.service.specs.At.{target_of};

use format::Header;
use ops::{CREATE, Form};

#[derive(Clone, Copy)]
pub enum Target {
    // The process with this number, which the request names.
    Named(usize),
    // The request names a process, and the number is over 7.
    OutOfRange,
    // CREATE: a process that is not there yet.
    New,
    // NOP: no process.
    Nowhere,
}

// Where a request of this form goes.
pub fn target_of(form: Form, h: Header) -> Target
    ensures { result ≡ target_of form h }
{
    let pid = h.pid as usize;
    if form.pid {
        if pid < 8 {
            return Target::Named(pid);
        }
        return Target::OutOfRange;
    }
    if h.cmd == CREATE {
        return Target::New;
    }
    Target::Nowhere
}
