//! A new zone's own split of unaccounted energy: what an arrangement made outside `rules` has to show.
#![tactic(auto)]

ghost use Rattle.zone_split.specs.Split.{interval_first};
ghost use Rattle.std.proofs.Common.{rules};

use rules::{Arrangement, can_part};

/// The interval lines bear all of it, as long as they have any load.
#[derive(Clone, Copy)]
pub struct IntervalFirst;

impl Arrangement for IntervalFirst {
    ghost meaning = { λ _. interval_first };

    ghost whole = { Prim.search rules };

    ghost sided = { Prim.search rules };

    ghost bounded = { Prim.search rules };

    fn parts(&self, unaccounted: i64, interval: u64, profiled: u64) -> (i64, i64) {
        if can_part(unaccounted, interval, profiled) && interval > 0 {
            (unaccounted, 0)
        } else {
            (0, unaccounted)
        }
    }
}

#[cfg(test)]
mod tests {
    use super::*;

    #[test]
    fn interval_lines_bear_all(rt: HostRuntime) {
        assert_eq!(rt; IntervalFirst.parts(-49, 1, 0), (-49, 0));
        assert_eq!(rt; IntervalFirst.parts(51, 79_420, 3_529), (51, 0));
    }

    #[test]
    fn else_profiled_lines_do(rt: HostRuntime) {
        assert_eq!(rt; IntervalFirst.parts(51, 0, 3_529), (0, 51));
        assert_eq!(rt; IntervalFirst.parts(51, 3_000_000_000, 1), (0, 51));
        assert_eq!(rt;
            IntervalFirst.parts(-3_000_000_001, 1, 1),
            (0, -3_000_000_001)
        );
        assert_eq!(rt;
            IntervalFirst.parts(i64::MIN, u64::MAX, u64::MAX),
            (0, i64::MIN)
        );
    }
}
