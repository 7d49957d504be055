//! Settling an hour.
ghost use Rattle.std.specs.Prelude.{◌≡◌, ◌≤◌, map, length, sum, OnOk};
ghost use Rattle.rules.specs.Ranges.{most};
ghost use Rattle.rules.specs.Lines.{account_of, cause_of, interval_weight, profiled_weight};
ghost use Rattle.rules.specs.Totals.{group_totals};
ghost use Rattle.archive.specs.Contents.{kept};
ghost use Rattle.archive.specs.Intake.{entered};
ghost use Rattle.book.specs.Settled.{Settled, SettlingLaw};
ghost use Rattle.book.specs.Settling.{hour_of, in_order, admitted, owed, owed_in, rows_in, settling, settled_archive, settled_list, settled_slip};

use crate::checks::{Checked, check_sheet};
use crate::roster::Roster;
use crate::sheet::Accounted;
use crate::slip::Slip;
use archive::Archive;
use archive::adjusting::{Slot, adjust};
use refusals::{Cause, Layer, Refusal};
use rows::Kind;
use rules::{Arrangement, Energy, Line, MOST, group_totals, obligations, share, weigh};

/// The most lines of a sheet.
const LINES: usize = 65_536;

/// A settle line names its account.
impl Accounted for Line {
    ghost account_of = { account_of };

    fn account(&self) -> u32 {
        self.account()
    }
}

/// A settle line is checked by itself.
impl Checked for Line {
    ghost cause_in = { cause_of };

    fn cause(&self) -> Option<Cause> {
        self.cause()
    }
}

fn is_in_order(hours: u32, hour: u32, zone_load: u32, lines: usize) -> bool
    ensures { result ≡ in_order hours hour zone_load lines }
{
    (1..=hours).contains(&hour) && u64::from(zone_load) <= MOST && lines <= LINES
}

/// The totals of the two groups of a sheet.
fn sheet_totals<R: Arrangement>(
    arrangement: &R,
    zone_load: u32,
    sheet: &[Line],
) -> Result<(u64, u64), Refusal>
    requires { zone_load ≤ most }
    ensures { result ≡ group_totals (R.meaning arrangement.now) zone_load (sum (map interval_weight sheet.now)) (sum (map profiled_weight sheet.now)) }
{
    let (interval, profiled) = weigh(sheet)?;
    group_totals(arrangement, u64::from(zone_load), interval, profiled)
}

/// What a settling comes to: the totals of the two groups, and each supplier's obligation.
#[derive(Clone, Copy)]
struct Owed {
    interval: u64,
    profiled: u64,
    suppliers: [u64; 32],
}

/// The checks up to the totals of the groups, and then the obligations.
// What an hour is settled by stays apart and in no struct: a clause makes one value of it (`hour_of`), and only two functions take it.
fn hour_owed<const STAGE: u8, R: Arrangement>(
    slip: &Slip<STAGE>,
    hour: u32,
    zone_load: u32,
    sheet: &[Line],
    roster: &Roster,
    arrangement: &R,
    places: usize,
) -> Result<Owed, Refusal>
    ensures { result ≡ owed (admitted (hour_of (R.meaning arrangement.now) slip.now hour zone_load sheet.now roster.now.entries) places) (owed_in (hour_of (R.meaning arrangement.now) slip.now hour zone_load sheet.now roster.now.entries)) }
{
    if !is_in_order(slip.hours(), hour, zone_load, sheet.len()) {
        return Err(Refusal::new(Cause::OutOfRange, Layer::Sheet));
    }
    if places < sheet.len() {
        return Err(Refusal::new(Cause::ListTooShort, Layer::Sheet));
    }
    let mut table = [0u8; LINES];
    check_sheet(sheet, roster, slip.day(), &mut table)?;
    let (interval, profiled) = sheet_totals(arrangement, zone_load, sheet)?;
    let suppliers = obligations(interval, profiled, sheet, &table[..sheet.len()])?;
    Ok(Owed {
        interval,
        profiled,
        suppliers,
    })
}

/// Settles an hour of the slip's day by a sheet, and answers how many rows it added.
///
/// Each supplier in rising number gets a row of its obligation less the sum of its energy rows of that day and hour, unless
/// that is 0. The list's first places receive the final loads, and the hour is marked. Refused, nothing is altered: hour, zone
/// load and sheet length (10), a list shorter than the sheet (20), each line in turn (10, 21, 22, 13), all loads too
/// high (23), a total for a group without load (24), a group total below 0 (25), an amount that no row holds (26), more
/// rows than free places (27).
pub(crate) fn settle<const STAGE: u8, R: Arrangement, A: Archive>(
    slip: &mut Slip<STAGE>,
    hour: u32,
    zone_load: u32,
    sheet: &[Line],
    roster: &Roster,
    arrangement: &R,
    archive: &mut A,
    list: &mut [Energy],
) -> Result<usize, Refusal>
    ensures answer { result ≡ settling (hour_of (R.Arrangement.meaning arrangement.now) slip.old hour zone_load sheet.now roster.now.entries) (length list.old) (A.Archive.meaning archive.old) }
    ensures archive { A.Archive.meaning archive.new ≡ settled_archive (hour_of (R.Arrangement.meaning arrangement.now) slip.old hour zone_load sheet.now roster.now.entries) (length list.old) (A.Archive.meaning archive.old) }
    ensures list { list.new ≡ settled_list (hour_of (R.Arrangement.meaning arrangement.now) slip.old hour zone_load sheet.now roster.now.entries) list.old (A.Archive.meaning archive.old) }
    ensures slip { slip.new ≡ settled_slip (hour_of (R.Arrangement.meaning arrangement.now) slip.old hour zone_load sheet.now roster.now.entries) (length list.old) (A.Archive.meaning archive.old) }
    ensures memory { A.Archive.memory archive.new ≡ kept result (entered A.Archive.stamped (A.Archive.memory archive.old) (length (A.Archive.meaning archive.old).rows) (rows_in (hour_of (R.Arrangement.meaning arrangement.now) slip.old hour zone_load sheet.now roster.now.entries) (A.Archive.meaning archive.old))) (A.Archive.memory archive.old) }
    ensures lent { A.Archive.lent archive.new ≡ A.Archive.lent archive.old }
    ensures settled { OnOk result (Settled (hour_of (R.Arrangement.meaning arrangement.now) slip.old hour zone_load sheet.now roster.now.entries) (A.Archive.meaning archive.old).rows (A.Archive.meaning archive.new).rows) }
    ensures law { SettlingLaw }
{
    // What an archive holds is lawful: its count says so.
    let _held = archive.count();
    let owed = hour_owed(
        slip,
        hour,
        zone_load,
        sheet,
        roster,
        arrangement,
        list.len(),
    )?;
    let slot = Slot {
        kind: Kind::Energy,
        day: slip.day() as u16,
        hour: hour as u8,
        stage: STAGE,
    };
    let rows = adjust(archive, slot, &owed.suppliers)?;
    let _ = share(owed.interval, owed.profiled, sheet, list);
    slip.mark(hour);
    Ok(rows)
}
