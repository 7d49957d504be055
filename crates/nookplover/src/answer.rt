//! What a call answers.
use refusals::Refusal;

/// What a call that was done answered.
#[derive(Clone, Copy)]
pub(crate) enum Answer {
    Accepted,
    /// A slip was closed; the hours that were not settled, each as a bit.
    Waiting(u32),
    /// So many rows were taken in.
    Taken(usize),
    /// A listing of so many bytes lies in the desk's memory.
    Listed(usize),
    /// The archive holds so many rows.
    Held(usize),
}

/// Why a call was not done.
#[derive(Clone, Copy)]
pub(crate) enum Denial {
    /// No slip of the day is open in the stage that the call is for.
    NoSlip,
    Refused(Refusal),
}

impl From<Refusal> for Denial {
    fn from(refusal: Refusal) -> Denial {
        Denial::Refused(refusal)
    }
}
