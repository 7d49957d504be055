//! The row format: what one row of the archive says, when it is lawful, and its fifteen bytes.
//! This crate stands below all others and relies on none of them.
#![tactic(auto)]

ghost use Rattle.std.specs.Prelude.{◌≡◌, drop, Ok, Err};
ghost use Rattle.rows.specs.Lawful.{between, bookable, timely, lawful};
ghost use Rattle.rows.specs.Format.{mark_bytes, kind_by, bytes_of, reading, fault_number, ReadsBack, WritesBack};

/// What a row's amount is: energy of an hour, or a contribution to the peak.
#[derive(Clone, Copy, PartialEq, Eq, Debug)]
pub enum Kind {
    Energy,
    Peak,
}

/// One row of the archive. The amount is in hundredths of a kWh, in a peak row of a kW.
#[derive(Clone, Copy, PartialEq, Eq, Debug)]
pub struct Row {
    pub kind: Kind,
    pub day: u16,
    pub hour: u8,
    // As wide as in its bytes: one out of range is refused by number.
    pub stage: u8,
    pub supplier: u8,
    pub amount: i64,
}

/// The two bytes that begin an energy row.
pub const ENERGY_MARK: &[u8; 2] = b"EH";
/// The two bytes that begin a peak row.
pub const PEAK_MARK: &[u8; 2] = b"PL";

/// Why bytes are not a row.
#[derive(Clone, Copy, PartialEq, Eq, Debug)]
pub enum Fault {
    /// There are fewer than fifteen bytes.
    Short = 30,
    /// The first two bytes are no mark.
    Mark = 31,
    /// Another field is out of its range.
    Field = 32,
}

/// A row that was read, and the bytes after it.
#[derive(Clone, Copy, Debug)]
pub struct Read<'a> {
    pub row: Row,
    pub rest: &'a [u8],
}

impl Fault {
    /// The number by which users know the fault.
    pub fn number(self) -> u8
        ensures { result ≡ fault_number self }
    {
        self as u8
    }
}

/// Whether a number is that of a day.
pub fn is_day(day: u32) -> bool
    ensures { result ≡ between 1 60000 day }
{
    (1..=60_000).contains(&day)
}

/// Whether a number is that of a supplier.
pub fn is_supplier(supplier: u32) -> bool
    ensures { result ≡ between 1 32 supplier }
{
    (1..=32).contains(&supplier)
}

fn is_bookable(amount: i64) -> bool
    ensures { result ≡ bookable amount }
{
    // With `contains` taking in and listing a row costs a tenth more.
    -3_000_000_000 <= amount && amount <= 3_000_000_000 && amount != 0
}

impl Kind {
    /// Whether rows of the kind have that hour and stage.
    pub fn is_timely(self, hour: u8, stage: u8) -> bool
        ensures { result ≡ timely self hour stage }
    {
        match self {
            Kind::Energy => (1..=25).contains(&hour) && (1..=2).contains(&stage),
            Kind::Peak => hour == 0 && stage == 0,
        }
    }
}

/// The mark of a kind.
impl From<Kind> for [u8; 2] {
    ghost from_gives = { λ kind mark. mark ≡ mark_bytes kind };

    fn from(kind: Kind) -> [u8; 2] {
        match kind {
            Kind::Energy => *ENERGY_MARK,
            Kind::Peak => *PEAK_MARK,
        }
    }
}

/// The kind whose mark it is.
impl TryFrom<[u8; 2]> for Kind {
    type Error = Fault;

    ghost try_from_gives = { λ mark r. r ≡ kind_by mark };

    fn try_from(mark: [u8; 2]) -> Result<Kind, Fault> {
        match &mark {
            ENERGY_MARK => Ok(Kind::Energy),
            PEAK_MARK => Ok(Kind::Peak),
            _ => Err(Fault::Mark),
        }
    }
}

impl Row {
    /// Whether every field is in its range.
    #[tactic(auto, unfolding(crate::specs::Lawful::lawful))]
    pub fn is_lawful(self) -> bool
        ensures { result ≡ lawful self }
    {
        is_day(u32::from(self.day))
            && is_supplier(u32::from(self.supplier))
            && is_bookable(self.amount)
            && self.kind.is_timely(self.hour, self.stage)
    }

    /// The row's fifteen bytes. A lawful row is read back from them, whatever follows.
    pub fn to_bytes(self) -> [u8; 15]
        ensures bytes { result ≡ bytes_of self }
        ensures back { ReadsBack }
    {
        let mark = <[u8; 2]>::from(self.kind);
        let d = self.day.to_be_bytes();
        let a = self.amount.to_be_bytes();
        [
            mark[0],
            mark[1],
            d[0],
            d[1],
            self.hour,
            self.stage,
            self.supplier,
            a[0],
            a[1],
            a[2],
            a[3],
            a[4],
            a[5],
            a[6],
            a[7],
        ]
    }

    /// Reads the row that begins the bytes. What is read is written again as the same bytes.
    #[tactic(auto, using(crate::proofs::Found::writes_back, std::proofs::lemmas::List::take_rest), unfolding(crate::specs::Format::reading))]
    pub fn read(bytes: &[u8]) -> Result<Read<'_>, Fault>
        ensures reads { elim result [ Ok v ↦ (reading bytes.now ≡ Ok v.row) × (v.rest.now ≡ drop 15 bytes.now) | Err f ↦ reading bytes.now ≡ Err f ] }
        ensures again { WritesBack }
    {
        let [
            m0,
            m1,
            d0,
            d1,
            hour,
            stage,
            supplier,
            a0,
            a1,
            a2,
            a3,
            a4,
            a5,
            a6,
            a7,
            rest @ ..,
        ] = bytes
        else {
            return Err(Fault::Short);
        };
        let kind = Kind::try_from([*m0, *m1])?;
        let day = u16::from_be_bytes([*d0, *d1]);
        let amount = i64::from_be_bytes([*a0, *a1, *a2, *a3, *a4, *a5, *a6, *a7]);
        let row = Row {
            kind,
            day,
            hour: *hour,
            stage: *stage,
            supplier: *supplier,
            amount,
        };
        if row.is_lawful() {
            Ok(Read { row, rest })
        } else {
            Err(Fault::Field)
        }
    }
}
