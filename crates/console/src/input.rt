// A reader, fed block by block, and what comes of it written to a writer. They are standard input and output, and what these give or take no
// contract can say.
ghost use Rattle.std.specs.Prelude.{◌≡◌, ◌≤◌, IfOk, length};
ghost use Rattle.recording.specs.Session.{through};
ghost use Rattle.console.specs.Gateway.{session_of};

use calls::{MEMORY, STATE};
use recording::{KEPT, Language, Partial, begin, feed};
use std::io;
use std::io::{ErrorKind, Read, Write};

// How much is read at a time, if so much is there, and how much text is put before it is written out.
const BLOCK: usize = 65536;

// Some of the input: how many bytes, and none at its end. A read that a signal interrupts is made again.
fn read<R: Read>(input: &mut R, block: &mut [u8]) -> io::Result<usize>
    ensures { IfOk result (λ n. n ≤ length block.new) }
{
    for _ in 0..u64::MAX {
        match input.read(block) {
            Err(e) if e.kind() == ErrorKind::Interrupted => {}
            done => return done,
        }
    }
    Ok(0)
}

// A gateway that plays lines: what was read of a line that has not ended, the bytes that are kept of it, the gateway's state and memory, and room for
// what a block prints. The language is none of its fields: each program has one, and what is passed on as a parameter is compiled for that one, where
// a field would be asked at the first characters of each line.
#[derive(Drop)]
struct Gateway {
    partial: Partial,
    line: [u8; KEPT],
    state: [u8; STATE],
    memory: [u8; MEMORY],
    text: [u8; BLOCK],
}

impl Gateway {
    // A gateway before the first line.
    fn new(language: Language) -> Gateway {
        let mut state = [0u8; STATE];
        begin(language, &mut state);
        Gateway {
            partial: Partial::new(),
            line: [0u8; KEPT],
            state,
            memory: [0u8; MEMORY],
            text: [0u8; BLOCK],
        }
    }

    // Feeds all of a block, and writes out what it prints, until a write fails; the error of that write.
    fn play<W: Write>(&mut self, language: Language, block: &[u8], output: &mut W) -> io::Result<()>
        ensures { session_of self.new ≡ through language (session_of self.old) block.now }
    {
        let mut done = Ok(());
        let mut rest = block;
        while !rest.is_empty() {
            let fed = feed(
                language,
                self.partial,
                &mut self.state,
                &mut self.memory,
                &mut self.line,
                rest,
                &mut self.text,
            );
            self.partial = fed.partial;
            if done.is_ok() {
                done = output.write_all(&self.text[..fed.len]);
            }
            rest = &rest[fed.used..];
        }
        done
    }

    // Plays blocks of the input until it ends, or until it cannot be read or nothing can be written.
    fn play_input<R: Read, W: Write>(
        &mut self,
        language: Language,
        input: &mut R,
        output: &mut W,
    ) -> io::Result<()> {
        let mut block = [0u8; BLOCK];
        for _ in 0..u64::MAX {
            let n = read(input, &mut block)?;
            if n == 0 {
                return Ok(());
            }
            self.play(language, &block[..n], output)?;
        }
        Ok(())
    }
}

// Plays all of standard input; a last line needs no newline.
fn run<R: Input + Print>(rt: &R, language: Language) -> io::Result<()> {
    let mut input = rt.reader();
    let mut output = io::writer(rt);
    let mut gateway = Gateway::new(language);
    let done = gateway.play_input(language, &mut input, &mut output);
    if gateway.partial.len == 0 {
        return done;
    }
    done.and(gateway.play(language, b"\n", &mut output))
}

// Each line is a request.
pub fn bench<R: Input + Print>(rt: &R) -> io::Result<()> {
    run(rt, Language::Bench)
}

// Each line is a call of a recording.
pub fn replay<R: Input + Print>(rt: &R) -> io::Result<()> {
    run(rt, Language::Recording)
}

// Each line is a text line, or a call of a recording.
pub fn text_door<R: Input + Print>(rt: &R) -> io::Result<()> {
    run(rt, Language::TextDoor)
}
