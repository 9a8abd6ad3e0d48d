// What a text line asks for, by its letter.
ghost use Rattle.std.specs.Prelude.{◌≡◌};
ghost use Rattle.text_door.specs.At.{request_of};

use fields::{
    CONTINUE, READ_CODE, READ_DATA, READ_REGISTER, WRITE_CODE, WRITE_DATA, WRITE_REGISTER,
};

#[derive(Clone, Copy)]
pub enum TextRequest {
    // `i` and `d`: a word of memory.
    ReadWord,
    // `I` and `D`: another word in its place.
    WriteWord,
    // `r`: what a register holds.
    ReadRegister,
    // `R`: another value in its place.
    WriteRegister,
    // `c`: the process goes on.
    Continue,
    // `s`: the process executes one instruction.
    Step,
}

// What a letter asks for; a line with a letter that asks for nothing does not get this far.
pub(crate) fn request_of(letter: u8) -> TextRequest
    ensures { result ≡ request_of letter }
{
    match letter {
        READ_CODE => TextRequest::ReadWord,
        READ_DATA => TextRequest::ReadWord,
        WRITE_CODE => TextRequest::WriteWord,
        WRITE_DATA => TextRequest::WriteWord,
        READ_REGISTER => TextRequest::ReadRegister,
        WRITE_REGISTER => TextRequest::WriteRegister,
        CONTINUE => TextRequest::Continue,
        _ => TextRequest::Step,
    }
}
