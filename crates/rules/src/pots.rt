//! A total on its way to the lines of a group.
ghost use Rattle.std.specs.Prelude.{◌≡◌, ℕ, ◌+◌, ◌≤◌, ◌∷◌, List};
ghost use Rattle.rules.specs.Ranges.{most};
ghost use Rattle.rules.specs.Shares.{up_to};

/// A total, and what of it the lines before the next one received.
#[derive(Clone, Copy)]
pub(crate) struct Pot {
    total: u64,
    /// The weight of all lines of the group.
    whole: u64,
    /// The weight of the lines that have their share.
    served: u64,
    /// What those received.
    given: u64,
    ghost total_small: { total ≤ most },
    ghost whole_small: { whole ≤ most },
    ghost within: { served ≤ whole },
    ghost exact: { given ≡ up_to total whole served },
}

impl Pot {
    ghost use Rattle.rules.specs.Pots.{left};

    pub(crate) fn new(total: u64, whole: u64) -> Pot
        requires total { total ≤ most }
        requires whole { whole ≤ most }
        ensures { (result.total ≡ total) × (result.whole ≡ whole) × (result.served ≡ 0) }
    {
        Pot {
            total,
            whole,
            served: 0,
            given: 0,
        }
    }

    /// The share of the next line. One without weight needs no quotient.
    pub(crate) fn serve(&mut self, weight: u64) -> u64
        requires { self.old.served + weight ≤ self.old.whole }
        ensures first { (ws : List ℕ) → left self.old (weight ∷ ws) ≡ result ∷ left self.new ws }
        ensures whole { self.new.whole ≡ self.old.whole }
        ensures served { self.new.served ≡ self.old.served + weight }
        ensures small { result ≤ most }
    {
        if weight == 0 {
            return 0;
        }
        self.served += weight;
        let given = self.total * self.served / self.whole;
        let share = given - self.given;
        self.given = given;
        share
    }
}
