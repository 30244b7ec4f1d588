// What a capture's commands have come to.
ghost use Rattle.std.specs.Prelude.{◌≡◌};
ghost use Rattle.capture.specs.Session.{ended};

#[derive(Clone, Copy, Debug, PartialEq, Eq)]
pub enum Phase {
    // C has not come.
    Before,
    Reading,
    // An unknown command came, or a call was refused.
    Ended,
}

#[derive(Clone, Copy, Default)]
pub struct Tally {
    // Frames so far, lost ones too.
    pub frames: u64,
    // The slot of the events that next gives, from 1; 0 for a lost frame.
    pub slot: u64,
    pub units: u64,
    pub notes: u64,
}

// What is kept beside the state memory, which has the receiver's state.
#[derive(Clone, Copy)]
pub struct Session {
    pub phase: Phase,
    pub tally: Tally,
}

// The session, and the place behind what was written.
#[derive(Clone, Copy)]
pub struct Progress {
    pub session: Session,
    pub at: usize,
}

// The session ends: nothing is read any more.
pub fn end(session: Session) -> Session
    ensures { result ≡ ended session }
{
    Session {
        phase: Phase::Ended,
        ..session
    }
}
