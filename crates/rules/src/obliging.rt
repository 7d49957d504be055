//! What the lines of each supplier receive together.
ghost use Rattle.std.specs.Prelude.{◌≡◌, ◌+◌, ◌-◌, ◌^◌, ◌<◌, map, slice_index};
ghost use Rattle.rules.specs.Obligations.{obliging, added, ObligationsAddUp};

use crate::line_shares::Shares;
use crate::sharing::Weighted;
use refusals::Refusal;

/// Adds a share to its supplier's sum.
// Suppliers come in as plain numbers, 0 for nobody.
fn add_to(sums: &mut [u64; 32], supplier: u8, share: u64)
    requires { slice_index sums.old (supplier - 1) + share < 2 ^ 64 }
    ensures { sums.new ≡ added sums.old supplier share }
{
    if (1..=32).contains(&supplier) {
        sums[usize::from(supplier) - 1] += share;
    }
}

/// The sum of what each supplier's lines receive, supplier 1 first, if the totals are shared over the lines. A supplier
/// outside 1 to 32 is nobody's.
#[tactic(auto, using(crate::proofs::Suppliers::obligations_add_up))]
pub fn obligations<L: Weighted>(
    first: u64,
    second: u64,
    lines: &[L],
    suppliers: &[u8],
) -> Result<[u64; 32], Refusal>
    ensures answer { result ≡ obliging first second (map L.in_first lines.now) (map L.in_second lines.now) suppliers.now }
    ensures law { ObligationsAddUp }
{
    let shares = Shares::new(first, second, lines, suppliers.len())?;
    let mut sums = [0; 32];
    for (supplier, share) in suppliers.iter().zip(shares) {
        add_to(&mut sums, *supplier, share);
    }
    Ok(sums)
}
