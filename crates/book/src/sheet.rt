//! Sheets: lines in rising order of their accounts.
ghost use Rattle.std.specs.Prelude.{◌≡◌, ℕ, ◌<◌, map, length, MatchOption, ◌≢◌, slice_index};
ghost use Rattle.book.specs.Rising.{Rising};
ghost use Rattle.book.specs.Sheets.{is_above, rising_front};

/// A line that names an account.
pub trait Accounted {
    ghost account_of: { Self → ℕ };

    /// The line's account.
    fn account(&self) -> u32
        ensures { result ≡ account_of self.now };
}

/// Whether an account is above that of the line before, if there is one.
pub(crate) fn is_above(account: u32, before: Option<u32>) -> bool
    ensures { result ≡ is_above before account }
{
    before.is_none_or(|other| other < account)
}

/// How many lines stand before the first whose account is not above that of the line before it.
pub(crate) fn rising_front<L: Accounted>(lines: &[L]) -> usize
    ensures { result ≡ rising_front (map L.account_of lines.now) }
{
    let mut before = None;
    for (i, line) in lines.iter().enumerate() {
        let account = line.account();
        if !is_above(account, before) {
            return i;
        }
        before = Some(account);
    }
    lines.len()
}

/// Where an account stands among lines whose accounts rise.
pub(crate) fn place_of<L: Accounted>(lines: &[L], account: u32) -> Option<usize>
    requires { Rising (map L.account_of lines.now) }
    ensures { MatchOption result ((k : ℕ) → k < length lines.now → slice_index (map L.account_of lines.now) k ≢ account) (λ k. (k < length lines.now) × (slice_index (map L.account_of lines.now) k ≡ account)) }
{
    // Not `binary_search_by_key`, which goes on to its end: among a hundred lines it takes four times as long.
    let mut low = 0;
    let mut high = lines.len();
    while low < high {
        let middle = low + (high - low) / 2;
        let there = lines[middle].account();
        if there == account {
            return Some(middle);
        }
        if there < account {
            low = middle + 1;
        } else {
            high = middle;
        }
    }
    None
}
