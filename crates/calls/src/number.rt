// The numbers of a report.
ghost use Rattle.std.specs.Prelude.{◌≡◌, false, MatchOption};
ghost use Rattle.calls.specs.Words.{last_of, words_of, report_in, IsReport};

use decimal::Number;

// The nine words, and the last of them as it was read.
#[derive(Clone, Copy)]
pub struct Words {
    pub last: Number,
    pub words: [u16; 9],
}

// The nine numbers after another. No twin of `data_behind`, which stops where the line ends: `words_of` and `data_in` tell them apart.
pub(crate) fn words_behind(number: Number, line: &[u8]) -> Words
    ensures last_value { result.last ≡ last_of 9 line.now number }
    ensures words_value { result.words ≡ words_of 9 line.now number }
{
    let mut last = number;
    let mut words = [0u16; 9];
    for word in &mut words {
        last = last.then(line, 65535);
        *word = last.value as u16;
    }
    Words { last, words }
}

// The numbers of a report.
#[derive(Clone, Copy)]
pub struct Report {
    pub process: u8,
    pub kind: u8,
    pub reason: u16,
    pub words: [u16; 9],
}

// The numbers after the word, if they are right.
pub(crate) fn read_report(line: &[u8]) -> Option<Report>
    ensures { MatchOption result (report_in line.now ≡ false) (IsReport line.now) }
{
    let process = Number::start(6).then(line, 255);
    let kind = process.then(line, 255);
    let reason = kind.then(line, 65535);
    let Words { last, words } = words_behind(reason, line);
    if !last.ends(line) {
        return None;
    }
    Some(Report {
        process: process.value as u8,
        kind: kind.value as u8,
        reason: reason.value as u16,
        words,
    })
}
