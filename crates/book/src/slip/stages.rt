//! What a slip says, and how it goes from stage to stage.
ghost use Rattle.std.specs.Prelude.{◌≡◌, ◌-◌, ◌<◌, ◌≤◌};
ghost use Rattle.book.specs.Slips.{IsSlip, turned, closing, marked, MarksOne};

use super::Slip;

impl<const STAGE: u8> Slip<STAGE> {
    /// The day.
    pub fn day(&self) -> u32
        ensures answer { result ≡ self.now.day }
        ensures kept { IsSlip STAGE self.now }
    {
        self.day
    }

    /// How many hours the day has.
    pub fn hours(&self) -> u32
        ensures answer { result ≡ self.now.hours }
        ensures kept { IsSlip STAGE self.now }
    {
        self.hours
    }

    /// Marks an hour of the day as settled in the slip's stage.
    pub(crate) fn mark(&mut self, hour: u32)
        requires begun { 1 ≤ hour }
        requires within { hour ≤ self.old.hours }
        ensures after { self.new ≡ marked hour self.old }
        ensures one { MarksOne }
    {
        let Slip { settled, .. } = self;
        *settled |= 1 << (hour - 1);
    }
}

impl Slip<1> {
    /// Exchanges the slip for one of stage 2, in which no hour is settled.
    pub fn turn(self) -> Slip<2>
        ensures answer { result ≡ turned self }
        ensures kept { IsSlip 2 result }
    {
        let Slip {
            day,
            hours,
            settled: _estimated,
        } = self;
        Slip {
            day,
            hours,
            settled: 0,
        }
    }
}

impl Slip<2> {
    /// Ends the slip. The answer is the sum of 2 to the power (h - 1) over the hours h not settled in stage 2.
    pub fn close(self) -> u32
        ensures answer { result ≡ closing self }
        ensures kept { IsSlip 2 self }
    {
        let Slip {
            day: _,
            hours,
            settled,
        } = self;
        (1 << hours) - 1 - settled
    }
}

#[cfg(test)]
mod tests {
    use crate::slip::opened::new_slip;

    #[test]
    fn hours_that_wait(rt: HostRuntime) {
        let mut slip = new_slip(7, 23);
        slip.mark(1);
        let mut slip = slip.turn();
        slip.mark(23);
        slip.mark(2);
        slip.mark(2);
        assert_eq!(rt; slip.close(), 8_388_607 - 4_194_304 - 2);
    }

    #[test]
    fn every_count_of_hours(rt: HostRuntime) {
        assert_eq!(rt; new_slip(7, 23).turn().close(), 8_388_607);
        assert_eq!(rt; new_slip(7, 24).turn().close(), 16_777_215);
        assert_eq!(rt; new_slip(7, 25).turn().close(), 33_554_431);
    }
}
