// A process's bytes, and what is seen of them: the saved word stands in place of each planted breakpoint.
//
// Bytes are moved in blocks, and the at most eight planted words are dealt with before or after, so that the cost of a request
// goes by the number of its bytes and not by bytes times breakpoints.
ghost use Rattle.std.specs.Prelude.{◌≡◌, map};
ghost use Rattle.process.specs.Local.{Tested};
ghost use Rattle.process.specs.Record.{with_breaks};
ghost use Rattle.breakpoints.specs.Seen.{seen, saved_from, overlay_saved_words};

use crate::record::Process;

impl Process {
    // Lays the saved words over a part of memory that starts at address at.
    pub(crate) fn overlay_saved_words(self, at: usize, out: &mut [u8])
        ensures { out.new ≡ overlay_saved_words at self.breaks out.old }
    {
        for b in &self.breaks {
            b.overlay_saved_word(at, out);
        }
    }

    // Exchanges the saved words and the words in memory, so that memory holds what is seen.
    pub(crate) fn exchange(mut self, bytes: &mut [u8]) -> Self
        requires { Tested self bytes.old }
        ensures value { result ≡ with_breaks (map (saved_from bytes.old) self.breaks) self }
        ensures bytes_after { bytes.new ≡ seen self.breaks bytes.old }
    {
        for b in self.breaks.iter_mut() {
            *b = b.exchange(bytes);
        }
        self
    }
}
