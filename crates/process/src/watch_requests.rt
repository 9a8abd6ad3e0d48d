// The requests that begin and end the watching of a process that another host debugs: WATCH and END WATCH.
ghost use Rattle.std.specs.Prelude.{◌≡◌, true, map, ◌+◌, ◌<◌, length};
ghost use Rattle.breakpoints.specs.Seen.{restored, seen};
ghost use Rattle.process.specs.Local.{local, Tested};
ghost use Rattle.process.specs.Record.{watched_by, with_breaks, recounted};
ghost use Rattle.process.specs.Request.{without_his, only_his, end_watched};
ghost use Rattle.breakpoints.specs.Entry.{in_use};

use crate::record::Process;
use breakpoints::Breakpoint;

// An entry as it is left when this host's breakpoints go: one of his is freed, and its word put back if it is planted.
#[tactic(auto, unfolding(crate::specs::Request::without_his, crate::specs::Request::only_his, breakpoints::specs::Seen::restored))]
fn without_his(b: Breakpoint, host: u8, bytes: &mut [u8]) -> Breakpoint
    requires { in_use b ≡ true → b.address + 1 < length bytes.old }
    ensures value { result ≡ without_his host b }
    ensures bytes_after { bytes.new ≡ restored (only_his host b) bytes.old }
{
    if b.is_set_by(host) {
        b.restore(bytes);
        return Breakpoint::free();
    }
    b
}

impl Process {
    pub fn watch(self, host: u8) -> Self
        ensures { result ≡ watched_by host self }
    {
        self.watched_by(host)
    }

    // Frees the breakpoints that this host has set, and puts the words of those that are planted back.
    fn remove_set_by(mut self, host: u8, bytes: &mut [u8]) -> Self
        requires { Tested self bytes.old }
        ensures value { result ≡ recounted (with_breaks (map (without_his host) self.breaks) self) }
        ensures bytes_after { bytes.new ≡ seen (map (only_his host) self.breaks) bytes.old }
    {
        let mut number = self.number;
        for b in self.breaks.iter_mut() {
            if b.is_set_by(host) {
                number -= 1;
            }
            *b = without_his(*b, host, bytes);
        }
        self.number = number;
        self
    }

    #[tactic(auto, unfolding(crate::specs::Request::end_watched))]
    pub fn end_watch(self, bytes: &mut [u8]) -> Self
        requires { Tested self bytes.old }
        ensures value { result ≡ (end_watched (local self bytes.old)).process }
        ensures bytes_after { bytes.new ≡ (end_watched (local self bytes.old)).bytes }
    {
        self.remove_set_by(self.session.watcher, bytes)
            .watched_by(0)
    }
}
