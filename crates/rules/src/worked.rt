//! The published worked example, whose figures are proved.
ghost use Rattle.std.specs.Prelude.{◌≡◌};
ghost use Rattle.rules.specs.Figures.{Figures, worked_sheet, worked_peaks};

use crate::lines::Line;
use crate::peaks::PeakLine;

fn interval(account: u32, loss_factor: u32, reading: u32) -> Line
    ensures { result ≡ Line.Interval account loss_factor reading }
{
    Line::Interval {
        account,
        loss_factor,
        reading,
    }
}

/// All have the loss factor 10,930 and the profile usage 100,000.
fn profiled(account: u32, profile_load: u32, billed_usage: u32) -> Line
    ensures { result ≡ Line.Profiled account 10930 profile_load billed_usage 100000 }
{
    Line::Profiled {
        account,
        loss_factor: 10_930,
        profile_load,
        billed_usage,
        profile_usage: 100_000,
    }
}

/// Two interval lines and four profiled ones, of accounts 1 to 6.
pub fn worked_sheet() -> [Line; 6]
    ensures sheet { result ≡ worked_sheet }
    ensures figures { Figures }
{
    [
        interval(1, 10_930, 3_915),
        interval(2, 10_850, 69_255),
        profiled(3, 153, 21_600),
        profiled(4, 1_587, 183_500),
        profiled(5, 185, 68_500),
        profiled(6, 185, 85_600),
    ]
}

/// A peak line of readings and one of coincidence factors.
pub fn worked_peaks() -> [PeakLine; 2]
    ensures { result ≡ worked_peaks }
{
    [
        PeakLine {
            account: 1,
            loss_factor: 10_200,
            kind: 1,
            figures: [12_400, 13_100, 9_000, 12_500, 12_600],
            usage: 0,
            profile_usage: 0,
        },
        PeakLine {
            account: 2,
            loss_factor: 10_000,
            kind: 3,
            figures: [9_000, 8_000, 8_500, 9_500, 10_000],
            usage: 5_000,
            profile_usage: 0,
        },
    ]
}
