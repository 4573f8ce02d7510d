//! What is done while the updaters run.
ghost use Rattle.volume_sessions.specs.Shown.{IsLent, ComesBack};

use crate::watch::Watch;
use rdf_disk::Disk;

/// What the calling thread does while the updaters of a session run.
pub trait Inside<D: Disk> {
    ghost use Rattle.volume_sessions.specs.Shown.{Shown};

    type Out;

    // What it needs of the open session.
    ghost ready: { Self → Shown D → Type 0 };

    // How its answer, and the session as it leaves it, go with it and the session as it was opened.
    ghost drives: { Self → Shown D → Self.Out → Shown D → Type 0 };

    /// Drives the volumes of a session. The watch is there, and is to be put back where it is taken out.
    fn drive(self, watch: &mut Option<Watch<'_, D>>) -> Self::Out
        requires ready { IsLent (ready self) watch.old }
        ensures drives { ComesBack (λ old new. drives self old result new) watch.old watch.new };
}
