//! Why a call was refused, and where: one vocabulary for every crate above the row format.
#![tactic(auto)]

ghost use Rattle.std.specs.Prelude.{◌≡◌};
ghost use Rattle.refusals.specs.Numbers.{number_of, layer_number, refusal};

/// The cause of a refusal. Each has one number, by which users know it.
#[derive(Clone, Copy, PartialEq, Eq, Debug)]
pub enum Cause {
    /// A figure outside its range.
    OutOfRange = 10,
    /// No place is left in the roster.
    RosterFull = 11,
    /// Enrolment of an account that is served.
    AlreadyServed = 12,
    /// The account is not served.
    NotServed = 13,
    /// A switch to the supplier that serves already.
    SameSupplier = 14,
    /// A from-day not after that of the account's last entry.
    NotAfterLastEntry = 15,
    /// A from-day not after the last opened day.
    NotAfterLastOpened = 16,
    /// A day to be opened that is not after the last opened one.
    DayNotAfter = 17,
    /// A list shorter than the sheet.
    ListTooShort = 20,
    /// A line whose account is not above that of the line before.
    AccountNotAbove = 21,
    /// A billed usage over 100 times the profile usage.
    UsageTooHigh = 22,
    /// Loads or weights that sum above 3,000,000,000.
    LoadsTooHigh = 23,
    /// A total other than 0 for a group of load 0.
    UnloadedGroup = 24,
    /// A group total below 0.
    NegativeTotal = 25,
    /// An amount outside a row's range.
    AmountTooLarge = 26,
    /// More rows than free places in the archive.
    ArchiveFull = 27,
    /// Bytes that are not whole rows.
    PartialRow = 30,
    /// A row whose mark is unknown.
    UnknownMark = 31,
    /// A row with a field out of its range.
    UnlawfulRow = 32,
    /// A text that does not fit the memory given for it.
    TextTooLong = 33,
}

/// The part of the work that refused.
#[derive(Clone, Copy, PartialEq, Eq, Debug)]
pub enum Layer {
    Roster = 1,
    Sheet = 2,
    Sharing = 3,
    Archive = 4,
}

/// A refusal: its cause, the layer that refused, and the place: a sheet's line from 1, or a row's byte
/// offset; 0 where there is neither.
#[derive(Clone, Copy, PartialEq, Eq, Debug)]
pub struct Refusal {
    pub cause: Cause,
    pub layer: Layer,
    pub place: usize,
}

impl Cause {
    /// The number by which users know the cause.
    pub fn number(self) -> u8
        ensures { result ≡ number_of self }
    {
        self as u8
    }
}

impl Layer {
    /// The layer's number, 1 to 4.
    pub fn number(self) -> u8
        ensures { result ≡ layer_number self }
    {
        self as u8
    }
}

impl Refusal {
    /// A refusal that has no place.
    pub fn new(cause: Cause, layer: Layer) -> Refusal
        ensures { result ≡ refusal cause layer 0 }
    {
        Refusal {
            cause,
            layer,
            place: 0,
        }
    }

    /// The refusal at a place.
    pub fn at(self, place: usize) -> Refusal
        ensures { result ≡ refusal self.cause self.layer place }
    {
        Refusal { place, ..self }
    }

    /// Its number, its layer's number and its place.
    pub fn numbers(self) -> (u8, u8, usize)
        ensures { result ≡ (number_of self.cause, layer_number self.layer, self.place) }
    {
        (self.cause.number(), self.layer.number(), self.place)
    }
}
