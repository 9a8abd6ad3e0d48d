// Who may do what to a process, and who may look into it.
ghost use Rattle.std.specs.Prelude.{◌≡◌};
ghost use Rattle.rules.specs.Rule.{public, holds, insider, watches, another_debugs, no_other_watches};

use process::Process;

// Whether this host debugs the process.
pub fn debugs(process: Process, host: u8) -> bool
    ensures { result ≡ holds (public «process») host }
{
    process.host == host
}

// Whether this host may see the inside of the process.
pub fn may_look(process: Process, host: u8) -> bool
    ensures { result ≡ insider (public «process») host }
{
    host != 0 && (debugs(process, host) || watches(process, host))
}

// Whether this host watches the process.
pub(crate) fn watches(process: Process, host: u8) -> bool
    ensures { result ≡ watches (public «process») host }
{
    process.session.watcher == host
}

// Whether another host than this one debugs the process.
pub(crate) fn another_debugs(process: Process, host: u8) -> bool
    ensures { result ≡ another_debugs (public «process») host }
{
    process.host != 0 && process.host != host
}

// Whether no other host than this one watches the process.
pub(crate) fn no_other_watches(process: Process, host: u8) -> bool
    ensures { result ≡ no_other_watches (public «process») host }
{
    process.session.watcher == 0 || process.session.watcher == host
}
