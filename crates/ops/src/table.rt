// The table of op codes: which fields each message uses, and what string it carries. Nothing else knows which op uses what.
ghost use Rattle.std.specs.Prelude.{◌≡◌};
ghost use Rattle.ops.specs.Table.{row_of, request_form, answer_form, reply_form, notice_form, cant_form, without_string};

use crate::codes::{CANT, NOP, NOTICE};

// What stands after the ten bytes of the header.
#[derive(Clone, Copy)]
pub enum Carried {
    // No string.
    Nothing,
    // A string of exactly ARG2 bytes.
    Counted,
    // The 18 bytes of a state vector.
    Vector,
}

// How a message uses ARG1.
#[derive(Clone, Copy)]
pub enum ArgUse {
    // It is zero.
    Unused,
    // It holds any number.
    Any,
    // It holds a size: an even number up to 4,096, 0 included.
    Size,
}

// Which fields a message uses, and what it carries. An unused field is zero.
#[derive(Clone, Copy)]
pub struct Form {
    pub pid: bool,
    pub arg1: ArgUse,
    pub arg2: bool,
    pub carried: Carried,
}

// One op code: the form of its request, and the form of the reply that grants it.
#[derive(Clone, Copy)]
pub struct Op(pub Form, pub Form);

const BARE: Form = Form {
    pid: false,
    arg1: ArgUse::Unused,
    arg2: false,
    carried: Carried::Nothing,
};

const PROCESS: Form = Form {
    pid: true,
    arg1: ArgUse::Unused,
    arg2: false,
    carried: Carried::Nothing,
};

const ADDRESS: Form = Form {
    pid: true,
    arg1: ArgUse::Any,
    arg2: false,
    carried: Carried::Nothing,
};

const RANGE: Form = Form {
    pid: true,
    arg1: ArgUse::Any,
    arg2: true,
    carried: Carried::Nothing,
};

const STRING: Form = Form {
    pid: true,
    arg1: ArgUse::Any,
    arg2: true,
    carried: Carried::Counted,
};

const REASON: Form = Form {
    pid: true,
    arg1: ArgUse::Any,
    arg2: false,
    carried: Carried::Vector,
};

const STOPPED: Form = Form {
    pid: true,
    arg1: ArgUse::Unused,
    arg2: false,
    carried: Carried::Vector,
};

const SIZED: Form = Form {
    pid: false,
    arg1: ArgUse::Size,
    arg2: false,
    carried: Carried::Nothing,
};

const SIZED_PROCESS: Form = Form {
    pid: true,
    arg1: ArgUse::Size,
    arg2: false,
    carried: Carried::Nothing,
};

// A row is the request's form, then the form of the reply that grants it.
const OPS: [Op; 17] = [
    Op(BARE, BARE), // 0 NOP
    Op(PROCESS, PROCESS), // 1 DEBUG
    Op(PROCESS, PROCESS), // 2 END DEBUG
    Op(PROCESS, PROCESS), // 3 STOP
    Op(STRING, RANGE), // 4 DEPOSIT
    Op(PROCESS, PROCESS), // 5 RESUME
    Op(RANGE, STRING), // 6 EXAMINE
    Op(STRING, RANGE), // 7 DEPOSIT STATE VECTOR
    Op(RANGE, RANGE), // 8 BREAK
    Op(ADDRESS, ADDRESS), // 9 UNBREAK
    Op(PROCESS, PROCESS), // 10 SINGLE STEP
    Op(PROCESS, PROCESS), // 11 PROCEED BPT
    Op(SIZED, SIZED_PROCESS), // 12 CREATE PROCESS
    Op(PROCESS, PROCESS), // 13 DESTROY PROCESS
    Op(PROCESS, PROCESS), // 14 WATCH
    Op(PROCESS, PROCESS), // 15 END WATCH
    Op(PROCESS, RANGE), // 16 STATUS
];

// The notices by their kind, 0 to 3: CMD is 64 more.
const NOTICES: [Form; 4] = [
    REASON, // 64 TRAP
    STOPPED, // 65 HALT
    STOPPED, // 66 BPT
    STOPPED, // 67 TTRAP
];

impl Form {
    // The same fields, with no string.
    fn without_string(self) -> Form
        ensures { result ≡ without_string self }
    {
        Form {
            carried: Carried::Nothing,
            ..self
        }
    }
}

// The row of an op code.
fn row_of(cmd: u8) -> Option<Op>
    ensures { result ≡ row_of cmd }
{
    let i = cmd as usize;
    if i < OPS.len() { Some(OPS[i]) } else { None }
}

// The form of a request with this CMD.
pub fn request_form(cmd: u8) -> Option<Form>
    ensures { result ≡ request_form cmd }
{
    let row = row_of(cmd)?;
    Some(row.0)
}

// The form of the reply that grants the request with this CMD.
fn reply_form(cmd: u8) -> Option<Form>
    ensures { result ≡ reply_form cmd }
{
    let row = row_of(cmd)?;
    Some(row.1)
}

// The form of the CAN'T that refuses the request with this CMD. NOP is never refused.
fn cant_form(cmd: u8) -> Option<Form>
    ensures { result ≡ cant_form cmd }
{
    if cmd == NOP {
        return None;
    }
    let form = request_form(cmd)?;
    Some(form.without_string())
}

// The form of the notice of this kind.
fn notice_form(kind: u8) -> Option<Form>
    ensures { result ≡ notice_form kind }
{
    NOTICES.get(kind as usize).copied()
}

// The form of an answer, that is of a reply, a notice or a CAN'T, with this CMD.
pub fn answer_form(cmd: u8) -> Option<Form>
    ensures { result ≡ answer_form cmd }
{
    if cmd < NOTICE {
        return reply_form(cmd);
    }
    if cmd < CANT {
        return notice_form(cmd - NOTICE);
    }
    cant_form(cmd - CANT)
}
