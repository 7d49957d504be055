//! Tables at the ends of every range: what lines meet by themselves, what they weigh, how they share, and what
//! the arrangements part.
#![tactic(auto)]

#[cfg(test)]
mod tests {
    use refusals::{Cause, Refusal};
    use rules::{
        Arrangement, Energy, Line, MISSING, PeakLine, Percent, Power, ProRata, can_part,
        group_totals, is_account, obligations, share,
    };
    use std::test::Fail;

    // Those of a refusal: cause, layer and place.
    type Numbers = (u8, u8, usize);

    fn interval(account: u32, loss_factor: u32, reading: u32) -> Line {
        Line::Interval {
            account,
            loss_factor,
            reading,
        }
    }

    fn profiled(
        loss_factor: u32,
        profile_load: u32,
        billed_usage: u32,
        profile_usage: u32,
    ) -> Line {
        Line::Profiled {
            account: 1,
            loss_factor,
            profile_load,
            billed_usage,
            profile_usage,
        }
    }

    fn peak(kind: u32, figures: [u32; 5], usage: u32, profile_usage: u32) -> PeakLine {
        PeakLine {
            account: 1,
            loss_factor: 10_000,
            kind,
            figures,
            usage,
            profile_usage,
        }
    }

    // Of loads 1, 7 and 2.
    fn three_lines() -> [Line; 3] {
        [
            interval(1, 10_000, 1),
            profiled(10_000, 7, 1, 1),
            interval(2, 10_000, 2),
        ]
    }

    #[test]
    fn accounts(rt: HostRuntime) {
        let table = [
            (0, false),
            (1, true),
            (999_999_999, true),
            (1_000_000_000, false),
        ];
        for (n, wanted) in table {
            assert_eq!(rt; is_account(n), wanted);
        }
    }

    #[test]
    fn interval_lines(rt: HostRuntime) {
        let table = [
            (1, 10_000, 0, None),
            (999_999_999, 20_000, 100_000_000, None),
            (1, 10_000, MISSING, None),
            (0, 10_000, 0, Some(10)),
            (1_000_000_000, 10_000, 0, Some(10)),
            (1, 9_999, 0, Some(10)),
            (1, 20_001, 0, Some(10)),
            (1, 10_000, 100_000_001, Some(10)),
            (1, 10_000, MISSING - 1, Some(10)),
        ];
        for (account, loss_factor, reading, wanted) in table {
            assert_eq!(rt;
                interval(account, loss_factor, reading)
                    .cause()
                    .map(Cause::number),
                wanted
            );
        }
    }

    #[test]
    fn profiled_lines(rt: HostRuntime) {
        let table = [
            (10_000, 0, 0, 1, None),
            (20_000, 1_000_000, 100_000_000, 2_000_000_000, None),
            (10_000, 1_000_001, 0, 1, Some(10)),
            (10_000, MISSING, 0, 1, Some(10)),
            (10_000, 0, 100_000_001, 2_000_000_000, Some(10)),
            (10_000, 0, 0, 0, Some(10)),
            (10_000, 0, 0, 2_000_000_001, Some(10)),
            (10_000, 0, 100, 1, None),
            (10_000, 0, 101, 1, Some(22)),
            (10_000, 0, 100_000_000, 999_999, Some(22)),
            (9_999, 0, 101, 1, Some(10)),
        ];
        for (loss_factor, profile_load, billed, usage, wanted) in table {
            assert_eq!(rt;
                profiled(loss_factor, profile_load, billed, usage)
                    .cause()
                    .map(Cause::number),
                wanted
            );
        }
    }

    #[test]
    fn peak_lines(rt: HostRuntime) {
        let table = [
            (0, 0, 0, 0, Some(10)),
            (1, MISSING, 0, 0, None),
            (1, 100_000_001, 0, 0, Some(10)),
            (1, 0, 1, 0, Some(10)),
            (1, 0, 0, 1, Some(10)),
            (2, 1_000_000, 100_000_000, 1_000_000, None),
            (2, 1_000_000, 100_000_000, 999_999, Some(22)),
            (2, 1_000_001, 100_000_000, 999_999, Some(10)),
            (2, MISSING, 0, 1, Some(10)),
            (2, 0, 0, 0, Some(10)),
            (3, 10_000, 100_000_000, 0, None),
            (3, 10_001, 0, 0, Some(10)),
            (3, 0, 100_000_001, 0, Some(10)),
            (3, 0, 0, 1, Some(10)),
            (4, 0, 0, 0, Some(10)),
        ];
        for (kind, last, usage, profile_usage, wanted) in table {
            let line = peak(kind, [0, 0, 0, 0, last], usage, profile_usage);
            assert_eq!(rt; line.cause().map(Cause::number), wanted);
        }
    }

    #[test]
    fn loads(rt: HostRuntime) {
        let table = [
            (interval(1, 20_000, 100_000_000), 200_000_000),
            (interval(1, 20_000, MISSING), 0),
            (interval(1, 19_999, 1), 1),
            (interval(1, 20_001, 1), 0),
            (
                profiled(20_000, 1_000_000, 100_000_000, 1_000_000),
                200_000_000,
            ),
            (
                profiled(20_000, 1_000_000, 100_000_000, 2_000_000_000),
                100_000,
            ),
            (profiled(19_999, 1, 1, 1), 1),
            (profiled(10_000, 3, 3, 10), 0),
            (profiled(10_000, 1, 101, 1), 0),
        ];
        for (line, wanted) in table {
            assert_eq!(rt; line.load(), Energy(wanted));
        }
    }

    #[test]
    fn peak_weights(rt: HostRuntime) {
        let table = [
            (peak(1, [10, MISSING, 20, MISSING, 31], 0, 0), 20),
            (peak(1, [MISSING; 5], 0, 0), 0),
            (peak(1, [0, 0, 0, 0, 9], 0, 0), 1),
            (peak(2, [1_000_000; 5], 100_000_000, 1_000_000), 100_000_000),
            (peak(3, [10_000, 9_999, 1, 0, 0], 5, 0), 1),
            (peak(4, [1; 5], 0, 0), 0),
        ];
        for (line, wanted) in table {
            assert_eq!(rt; line.weight(), Power(wanted));
        }
    }

    #[test]
    fn sharing_keeps_the_rest(rt: HostRuntime) -> Result<(), Fail> {
        let sheet = three_lines();
        let mut list = [Energy(9); 4];
        share(10, 5, &sheet, &mut list)?;
        assert_eq!(rt; list, [Energy(3), Energy(5), Energy(7), Energy(9)]);
        Ok(())
    }

    // What sharing answers over lines of load 200,000,000, and what the list's first and last places then hold.
    fn shared(
        first: u64,
        second: u64,
        lines: usize,
        places: usize,
    ) -> (Option<Numbers>, Energy, Energy) {
        let sheet = [interval(1, 20_000, 100_000_000); 16];
        let mut list = [Energy(9); 16];
        let answer = share(
            first,
            second,
            &sheet[..lines.min(16)],
            &mut list[..places.min(16)],
        );
        (answer.err().map(Refusal::numbers), list[0], list[15])
    }

    #[test]
    fn sharing_refuses(rt: HostRuntime) {
        let table = [
            (3_000_000_001, 0, 16, 16, Some((10, 2, 0)), 9),
            (0, 3_000_000_001, 16, 15, Some((10, 2, 0)), 9),
            (3_000_000_000, 0, 16, 15, Some((20, 2, 0)), 9),
            (3_000_000_000, 0, 16, 16, Some((23, 3, 0)), 9),
            (3_000_000_000, 0, 15, 15, None, 200_000_000),
        ];
        for (first, second, lines, places, wanted, received) in table {
            assert_eq!(rt;
                shared(first, second, lines, places),
                (wanted, Energy(received), Energy(9))
            );
        }
    }

    // Of 3, 5 and 7: to the last supplier and the first, and to numbers that are nobody's.
    #[test]
    fn obligations_by_supplier(rt: HostRuntime) -> Result<(), Fail> {
        let sheet = three_lines();
        let sums = obligations(10, 5, &sheet, &[32, 1, 32])?;
        assert_eq!(rt; (sums[0], sums[1], sums[30], sums[31]), (5, 0, 0, 10));
        let sums = obligations(10, 5, &sheet, &[0, 33, 2, 1])?;
        assert_eq!(rt; (sums[0], sums[1], sums[31]), (0, 7, 0));
        assert_eq!(rt;
            obligations(10, 5, &sheet, &[1, 1])
                .err()
                .map(Refusal::numbers),
            Some((20, 2, 0))
        );
        Ok(())
    }

    #[test]
    fn percentages(rt: HostRuntime) {
        assert_eq!(rt; Percent::new(100).err().map(Refusal::numbers), None);
        assert_eq!(rt;
            Percent::new(101).err().map(Refusal::numbers),
            Some((10, 2, 0))
        );
    }

    #[test]
    fn parts(rt: HostRuntime) -> Result<(), Fail> {
        let five = Percent::new(5)?;
        let all = Percent::new(100)?;
        assert_eq!(rt; five.parts(-49, 1, 1), (-2, -47));
        assert_eq!(rt; five.parts(0, 1, 1), (0, 0));
        assert_eq!(rt; five.parts(3_000_000_001, 1, 1), (0, 3_000_000_001));
        assert_eq!(rt;
            all.parts(-3_000_000_000, 0, 3_000_000_000),
            (-3_000_000_000, 0)
        );
        assert_eq!(rt; all.parts(1, 1, 3_000_000_000), (0, 1));
        assert_eq!(rt; ProRata.parts(-5, 1, 2), (-1, -4));
        assert_eq!(rt; ProRata.parts(-5, 0, 0), (0, -5));
        assert_eq!(rt;
            ProRata.parts(3_000_000_000, 3_000_000_000, 0),
            (3_000_000_000, 0)
        );
        assert_eq!(rt; ProRata.parts(i64::MIN, u64::MAX, 1), (0, i64::MIN));
        Ok(())
    }

    #[test]
    fn what_can_be_parted(rt: HostRuntime) {
        let table = [
            (-3_000_000_000, 1, 2_999_999_999, true),
            (3_000_000_001, 0, 0, false),
            (-3_000_000_001, 0, 0, false),
            (0, 1, 3_000_000_000, false),
            (0, 3_000_000_001, 0, false),
            (i64::MIN, u64::MAX, u64::MAX, false),
        ];
        for (unaccounted, interval, profiled, wanted) in table {
            assert_eq!(rt; can_part(unaccounted, interval, profiled), wanted);
        }
    }

    #[test]
    fn totals_refused(rt: HostRuntime) -> Result<(), Fail> {
        let none = Percent::new(0)?;
        let table = [
            (3_000_000_000, 1, 1, None),
            (3_000_000_001, 1, 1, Some((10, 2, 0))),
            (0, 3_000_000_000, 1, Some((23, 3, 0))),
            (1, 0, 0, Some((24, 3, 0))),
            (0, 0, 0, None),
            (5, 5, 3, None),
            (4, 5, 3, Some((25, 3, 0))),
        ];
        for (zone, interval, profiled, wanted) in table {
            assert_eq!(rt;
                group_totals(&none, zone, interval, profiled)
                    .err()
                    .map(Refusal::numbers),
                wanted
            );
        }
        Ok(())
    }
}
