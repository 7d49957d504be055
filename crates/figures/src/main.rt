//! Prints the published worked example as the rules give it: loads, parts, final loads, peak weights and contributions.
#![tactic(auto)]

use refusals::Refusal;
use rules::{
    Arrangement, Energy, Line, PeakLine, Percent, Power, ProRata, group_totals, share, weigh,
    worked_peaks, worked_sheet,
};
use std::io;

const ZONE_LOAD: u64 = 83_000;

const UNACCOUNTED: i64 = 51;

const ALLOCATION: u64 = 17_000;

/// The group totals at the zone load, and the final loads of the lines.
fn settled<A: Arrangement>(
    arrangement: &A,
    sheet: &[Line],
    list: &mut [Energy],
) -> Result<(u64, u64), Refusal> {
    let (interval, profiled) = weigh(sheet)?;
    let (first, second) = group_totals(arrangement, ZONE_LOAD, interval, profiled)?;
    share(first, second, sheet, list)?;
    Ok((first, second))
}

fn print_settled<A: Arrangement>(
    rt: HostRuntime,
    arrangement: &A,
    sheet: &[Line],
) -> io::Result<()> {
    let mut list = [Energy(0); 6];
    match settled(arrangement, sheet, &mut list) {
        Ok((interval, profiled)) => println!(rt; "totals {interval} {profiled}")?,
        Err(refusal) => println!(rt; "refused {}", refusal.cause.number())?,
    }
    for load in list {
        println!(rt; "final {}", load.0)?;
    }
    Ok(())
}

fn print_peaks(rt: HostRuntime, sheet: &[PeakLine]) -> io::Result<()> {
    for line in sheet {
        println!(rt; "weight {}", line.weight().0)?;
    }
    let mut list = [Power(0); 2];
    if let Err(refusal) = share(ALLOCATION, 0, sheet, &mut list) {
        println!(rt; "refused {}", refusal.cause.number())?;
    }
    for contribution in list {
        println!(rt; "contribution {}", contribution.0)?;
    }
    Ok(())
}

fn print_parts(rt: HostRuntime, parts: (i64, i64)) -> io::Result<()> {
    println!(rt; "parts {} {}", parts.0, parts.1)
}

fn print_at_five_percent(
    rt: HostRuntime,
    sheet: &[Line],
    interval: u64,
    profiled: u64,
) -> io::Result<()> {
    let Ok(five) = Percent::new(5) else {
        return Ok(());
    };
    println!(rt; "at 5 percent")?;
    print_parts(rt, five.parts(UNACCOUNTED, interval, profiled))?;
    print_settled(rt, &five, sheet)?;
    println!(rt; "-49 at 5 percent")?;
    print_parts(rt, five.parts(-49, interval, profiled))
}

fn print_sheet(rt: HostRuntime, sheet: &[Line]) -> io::Result<()> {
    for line in sheet {
        println!(rt; "load {}", line.load().0)?;
    }
    let Ok((interval, profiled)) = weigh(sheet) else {
        return Ok(());
    };
    println!(rt; "interval {interval}, profiled {profiled}")?;
    print_at_five_percent(rt, sheet, interval, profiled)?;
    println!(rt; "pro rata")?;
    print_parts(rt, ProRata.parts(UNACCOUNTED, interval, profiled))?;
    print_settled(rt, &ProRata, sheet)
}

fn main(rt: HostRuntime) -> io::Result<()> {
    print_sheet(rt, &worked_sheet())?;
    println!(rt; "peak")?;
    print_peaks(rt, &worked_peaks())
}
