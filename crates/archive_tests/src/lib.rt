//! Rows and archives on examples written by hand: the bytes of rows, rows at the ends of their ranges, take-in,
//! full archives, listings.
#![tactic(auto)]

#[cfg(test)]
mod one_row;

#[cfg(test)]
mod tests {
    use crate::one_row::OneRow;
    use archive::Archive;
    use archive::bytes::ByteArchive;
    use archive::intake::take_in;
    use archive::listing::list;
    use archive::table::TableArchive;
    use refusals::Refusal;
    use rows::Kind::{Energy, Peak};
    use rows::{Fault, Kind, Row};
    use std::process::Abort;
    use std::test::Fail;

    // Day 9000, hour 1: suppliers 1 and 2 receive 7541 and 75459 in stage 1, and 87 and 13 in stage 2.
    const WORKED: [u8; 60] =
        *b"EH\x23\x28\x01\x01\x01\0\0\0\0\0\0\x1D\x75EH\x23\x28\x01\x01\x02\0\0\0\0\0\x01\x26\xC3EH\x23\x28\x01\x02\x01\0\0\0\0\0\0\0\x57EH\x23\x28\x01\x02\x02\0\0\0\0\0\0\0\x0D";

    fn row(kind: Kind, day: u16, hour: u8, stage: u8, supplier: u8, amount: i64) -> Row {
        Row {
            kind,
            day,
            hour,
            stage,
            supplier,
            amount,
        }
    }

    // Number, layer and place of a refusal.
    fn told<T: Drop>(answer: Result<T, Refusal>) -> Option<(u8, u8, usize)> {
        answer.err().map(Refusal::numbers)
    }

    // The number of the fault that the reader finds.
    fn fault(bytes: &[u8]) -> Option<u8> {
        Row::read(bytes).err().map(Fault::number)
    }

    #[test]
    fn bytes_of_rows(rt: HostRuntime) -> Result<(), Fail> {
        let table = [
            (
                row(Energy, 9000, 1, 2, 1, 87),
                b"EH\x23\x28\x01\x02\x01\0\0\0\0\0\0\0\x57",
            ),
            (
                row(Energy, 1, 1, 1, 1, -1),
                b"EH\0\x01\x01\x01\x01\xFF\xFF\xFF\xFF\xFF\xFF\xFF\xFF",
            ),
            (
                row(Energy, 60_000, 25, 2, 32, 3_000_000_000),
                b"EH\xEA\x60\x19\x02\x20\0\0\0\0\xB2\xD0\x5E\0",
            ),
            (
                row(Peak, 258, 0, 0, 32, -3_000_000_000),
                b"PL\x01\x02\0\0\x20\xFF\xFF\xFF\xFF\x4D\x2F\xA2\0",
            ),
        ];
        for (row, bytes) in table {
            assert_eq!(rt; &row.to_bytes(), bytes);
            let read = Row::read(bytes)?;
            assert_eq!(rt; read.row, row);
            assert_eq!(rt; read.rest.len(), 0);
        }
        Ok(())
    }

    #[test]
    fn reading_hands_on_the_rest(rt: HostRuntime) -> Result<(), Fail> {
        let read = Row::read(&WORKED)?;
        assert_eq!(rt; read.row, row(Energy, 9000, 1, 1, 1, 7541));
        let read = Row::read(read.rest)?;
        assert_eq!(rt; read.row, row(Energy, 9000, 1, 1, 2, 75_459));
        assert_eq!(rt; read.rest, &WORKED[30..60]);
        assert_eq!(rt; fault(&WORKED[0..14]), Some(30));
        assert_eq!(rt; fault(&WORKED[1..60]), Some(31));
        Ok(())
    }

    #[test]
    fn unlawful_rows(rt: HostRuntime) {
        let table = [
            row(Energy, 0, 1, 1, 1, 1),
            row(Energy, 60_001, 1, 1, 1, 1),
            row(Energy, 1, 0, 1, 1, 1),
            row(Energy, 1, 26, 1, 1, 1),
            row(Energy, 1, 1, 0, 1, 1),
            row(Energy, 1, 1, 3, 1, 1),
            row(Energy, 1, 1, 1, 0, 1),
            row(Energy, 1, 1, 1, 33, 1),
            row(Energy, 1, 1, 1, 1, 0),
            row(Energy, 1, 1, 1, 1, 3_000_000_001),
            row(Energy, 1, 1, 1, 1, -3_000_000_001),
            row(Energy, 1, 1, 1, 1, i64::MIN),
            row(Peak, 1, 1, 0, 1, 1),
            row(Peak, 1, 0, 1, 1, 1),
            row(Peak, 1, 0, 0, 1, 0),
        ];
        let mut memory = [];
        let mut bytes = ByteArchive::new(&mut memory);
        let mut records = TableArchive::new();
        for row in table {
            assert_eq!(rt; fault(&row.to_bytes()), Some(32));
            assert_eq!(rt; told(bytes.append(row)), Some((32, 4, 0)));
            assert_eq!(rt; told(records.append(row)), Some((32, 4, 0)));
        }
        assert_eq!(rt; records.count(), 0);
    }

    // The same on any archive without rows that has places for four at least.
    fn takes_in<A: Archive>(rt: &impl Abort, archive: &mut A) {
        let mut bad = WORKED;
        bad[46] = 0x49;
        bad[34] = 26;
        assert_eq!(rt; told(take_in(archive, &WORKED[0..59])), Some((30, 4, 0)));
        assert_eq!(rt; told(take_in(archive, &bad)), Some((32, 4, 30)));
        bad[34] = 25;
        assert_eq!(rt; told(take_in(archive, &bad)), Some((31, 4, 45)));
        assert_eq!(rt; archive.count(), 0);
        assert_eq!(rt; take_in(archive, &WORKED[15..30]), Ok(1));
        assert_eq!(rt; take_in(archive, &WORKED[0..0]), Ok(0));
        assert_eq!(rt; archive.append(row(Energy, 9000, 1, 2, 1, 7628)), Ok(()));
        assert_eq!(rt; take_in(archive, &WORKED[45..60]), Ok(1));
        assert_eq!(rt; archive.count(), 3);
        assert_eq!(rt; archive.row(0), Some(row(Energy, 9000, 1, 1, 2, 75_459)));
        assert_eq!(rt; archive.row(1), Some(row(Energy, 9000, 1, 2, 1, 7628)));
        assert_eq!(rt; archive.row(2), Some(row(Energy, 9000, 1, 2, 2, 13)));
        assert_eq!(rt; archive.row(3), None);
        assert_eq!(rt; archive.rows().count(), 3);
        for (position, row) in archive.rows().enumerate() {
            assert_eq!(rt; archive.row(position), Some(row));
        }
    }

    // The worked listing, after takes_in.
    fn lists<A: Archive>(rt: &impl Abort, archive: &A) {
        let mut out = [0; 27];
        assert_eq!(rt; list(archive, 9000, 1, &mut out), Ok(26));
        assert_eq!(rt; &out, b"1 7628\n2 75472\nzone 83100\n\0");
        assert_eq!(rt; list(archive, 9000, 0, &mut out), Ok(7));
        assert_eq!(rt; &out, b"zone 0\n2 75472\nzone 83100\n\0");
    }

    // What is refused after takes_in, day and hour first, and leaves the output as it was.
    fn lists_not<A: Archive>(rt: &impl Abort, archive: &A) {
        let mut out = [9; 25];
        assert_eq!(rt; told(list(archive, 9000, 1, &mut out)), Some((33, 4, 0)));
        assert_eq!(rt; told(list(archive, 0, 1, &mut out)), Some((10, 4, 0)));
        assert_eq!(rt; told(list(archive, 9000, 26, &mut out)), Some((10, 4, 0)));
        assert_eq!(rt; out, [9; 25]);
    }

    #[test]
    fn both_archives(rt: HostRuntime) {
        let mut memory = [9; 74];
        let mut bytes = ByteArchive::new(&mut memory);
        takes_in(&rt, &mut bytes);
        lists(&rt, &bytes);
        lists_not(&rt, &bytes);
        assert_eq!(rt; bytes.free_places(), 1);
        assert_eq!(rt; told(take_in(&mut bytes, &WORKED)), Some((27, 4, 0)));
        assert_eq!(rt; bytes.append(row(Peak, 1, 0, 0, 1, 1)), Ok(()));
        assert_eq!(rt;
            told(bytes.append(row(Peak, 1, 0, 0, 1, 1))),
            Some((27, 4, 0))
        );
        assert_eq!(rt; bytes.count(), 4);
        assert_eq!(rt; &memory[60..74], [9; 14].as_slice());
        let mut records = TableArchive::new();
        takes_in(&rt, &mut records);
        lists(&rt, &records);
        lists_not(&rt, &records);
        assert_eq!(rt; records.free_places(), 509);
    }

    #[test]
    fn a_full_table(rt: HostRuntime) {
        let mut records = TableArchive::new();
        for supplier in 1..=32 {
            for hour in 1..=16 {
                assert_eq!(rt;
                    records.append(row(Energy, 1, hour, 1, supplier, -1)),
                    Ok(())
                );
            }
        }
        assert_eq!(rt; records.free_places(), 0);
        assert_eq!(rt; records.row(511), Some(row(Energy, 1, 16, 1, 32, -1)));
        assert_eq!(rt; records.row(512), None);
        assert_eq!(rt;
            told(records.append(row(Energy, 1, 1, 1, 1, 0))),
            Some((32, 4, 0))
        );
        assert_eq!(rt;
            told(records.append(row(Energy, 1, 1, 1, 1, 1))),
            Some((27, 4, 0))
        );
        assert_eq!(rt; told(take_in(&mut records, &WORKED)), Some((27, 4, 0)));
        assert_eq!(rt; records.count(), 512);
    }

    #[test]
    fn an_archive_of_another(rt: HostRuntime) {
        let one = row(Energy, 9000, 1, 1, 7, 1);
        let mut archive = OneRow::new(one).expect(&rt, "a lawful row");
        let mut out = [9; 12];
        assert_eq!(rt; list(&archive, 9000, 1, &mut out), Ok(11));
        assert_eq!(rt; &out, b"7 1\nzone 1\n\x09");
        assert_eq!(rt; told(take_in(&mut archive, &WORKED)), Some((27, 4, 0)));
    }
}
