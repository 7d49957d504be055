use rows::Kind;

/// The kind, day, hour and stage of rows that are to be added.
#[derive(Clone, Copy)]
pub struct Slot {
    pub kind: Kind,
    pub day: u16,
    pub hour: u8,
    // As wide as in a row's bytes; one out of range is refused by number.
    pub stage: u8,
}

mod calls;

pub use calls::adjust;
