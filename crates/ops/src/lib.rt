// The table of op codes: which fields each message of RFC 643 uses, and what string it carries.
//
// As the program message_tables prints it from table.rt: the fields that a message uses, and the string that it carries, which is none,
// ARG2 bytes, or the 18 bytes of a state vector, low byte first. An unused field is zero, and where the table says size, ARG1 is an even
// number up to 4,096, 0 included.
//
//   CMD  request              reply
//     0  --- ---- ---- none   --- ---- ---- none   NOP
//     1  PID ---- ---- none   PID ---- ---- none   DEBUG
//     2  PID ---- ---- none   PID ---- ---- none   END DEBUG
//     3  PID ---- ---- none   PID ---- ---- none   STOP
//     4  PID ARG1 ARG2 ARG2   PID ARG1 ARG2 none   DEPOSIT
//     5  PID ---- ---- none   PID ---- ---- none   RESUME
//     6  PID ARG1 ARG2 none   PID ARG1 ARG2 ARG2   EXAMINE
//     7  PID ARG1 ARG2 ARG2   PID ARG1 ARG2 none   DEPOSIT STATE VECTOR
//     8  PID ARG1 ARG2 none   PID ARG1 ARG2 none   BREAK
//     9  PID ARG1 ---- none   PID ARG1 ---- none   UNBREAK
//    10  PID ---- ---- none   PID ---- ---- none   SINGLE STEP
//    11  PID ---- ---- none   PID ---- ---- none   PROCEED BPT
//    12  --- size ---- none   PID size ---- none   CREATE PROCESS
//    13  PID ---- ---- none   PID ---- ---- none   DESTROY PROCESS
//    14  PID ---- ---- none   PID ---- ---- none   WATCH
//    15  PID ---- ---- none   PID ---- ---- none   END WATCH
//    16  PID ---- ---- none   PID ARG1 ARG2 none   STATUS
//    64                       PID ARG1 ---- 18     TRAP, a notice
//    65                       PID ---- ---- 18     HALT, a notice
//    66                       PID ---- ---- 18     BPT, a notice
//    67                       PID ---- ---- 18     TTRAP, a notice
//   CAN'T: CMD + 128, the request's fields and no string; none for NOP.
#![tactic(auto)]

mod codes;
mod table;

pub use codes::{
    BREAK, CANT, CREATE, DEBUG, DEPOSIT, DEPOSIT_VECTOR, DESTROY, END_DEBUG, END_WATCH, EXAMINE,
    NOP, NOTICE, PROCEED, RESUME, SINGLE_STEP, STATUS, STOP, UNBREAK, WATCH,
};
pub use table::{ArgUse, Carried, Form, Op, answer_form, request_form};
