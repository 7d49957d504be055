//! The lines of a sheet, checked in turn.
ghost use Rattle.std.specs.Prelude.{◌≡◌, ◌≤◌, map, length, take, Option as OptionT, OnOk};
ghost use Rattle.refusals.specs.declared.Cause.{Cause as CauseT};
ghost use Rattle.book.specs.Sheets.{suppliers_on};
ghost use Rattle.book.specs.Checks.{sheet_line, line_cause, checked_lines};

use crate::roster::Roster;
use crate::sheet::{Accounted, is_above};
use refusals::{Cause, Layer, Refusal};

/// A line of a sheet that may meet a cause of refusal by itself.
pub trait Checked: Accounted {
    ghost cause_in: { Self → OptionT CauseT };

    /// The cause that the line meets by itself.
    fn cause(&self) -> Option<Cause>
        ensures { result ≡ cause_in self.now };
}

/// What a line meets: its ranges, its order, its billed usage, its supplier (0 for nobody, as the table has it).
fn line_cause(cause: Option<Cause>, above: bool, supplier: u8) -> Option<Cause>
    ensures { result ≡ line_cause cause above supplier }
{
    match cause {
        Some(Cause::OutOfRange) => cause,
        _ if !above => Some(Cause::AccountNotAbove),
        None if supplier == 0 => Some(Cause::NotServed),
        _ => cause,
    }
}

/// Each line in turn, with its supplier.
fn check_lines<L: Checked>(lines: &[L], suppliers: &[u8]) -> Result<(), Refusal>
    requires { length lines.now ≤ length suppliers.now }
    ensures { result ≡ checked_lines (map (λ l. sheet_line (L.account_of l) (L.cause_in l)) lines.now) suppliers.now }
{
    let mut before = None;
    for (i, (line, supplier)) in lines.iter().zip(suppliers).enumerate() {
        let account = line.account();
        let above = is_above(account, before);
        if let Some(cause) = line_cause(line.cause(), above, *supplier) {
            return Err(Refusal::new(cause, Layer::Sheet).at(i + 1));
        }
        before = Some(account);
    }
    Ok(())
}

/// Checks the lines of a sheet by the roster on a day. Where none is refused, the table's first places then hold the lines'
/// suppliers.
pub(crate) fn check_sheet<L: Checked>(
    lines: &[L],
    roster: &Roster,
    day: u32,
    table: &mut [u8],
) -> Result<(), Refusal>
    requires { length lines.now ≤ length table.old }
    ensures answer { result ≡ checked_lines (map (λ l. sheet_line (L.account_of l) (L.cause_in l)) lines.now) (suppliers_on day roster.now.entries (map L.account_of lines.now)) }
    ensures told { OnOk result (take (length lines.now) table.new ≡ suppliers_on day roster.now.entries (map L.account_of lines.now)) }
{
    roster.suppliers(lines, day, table);
    check_lines(lines, table)
}
