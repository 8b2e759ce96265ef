// The ledger's sums, lent to the functions that move amounts in them: a method of the year would say the whole year for each.
ghost use Rattle.std.specs.Prelude.{◌≡◌, ℕ, ◌^◌, ◌+◌, ◌-◌, ◌*◌, ◌≤◌, ◌<◌, length, get_or, set};
ghost use Rattle.kinds.specs.Account.{place};
ghost use Rattle.kinds.specs.declared.account.Account.TheVariants.{Held};
ghost use Rattle.book.specs.Ledger.{at, cell_of, total, added, moved, raised, brings, settled};

use kinds::account::{Account, closes_to};
use plant::setup::Pair;

// The place of a sum, by its account and by its pair, stage * 8 + substance.
pub(crate) fn at(account: Account, pair: usize) -> usize
    requires { pair < 64 }
    ensures { result ≡ at (place account) pair }
{
    account as usize * 64 + pair
}

// The same by account, stage and substance.
pub(crate) fn cell_of(account: Account, stage: usize, substance: usize) -> usize
    requires { (stage < 8) × (substance < 8) }
    ensures { result ≡ cell_of account stage substance }
{
    at(account, stage * 8 + substance)
}

// An amount comes to a sum from outside, and counts as handled.
pub(crate) fn bring(
    sums: &mut [u64; 576],
    handled: &mut [u64; 8],
    cell: usize,
    substance: usize,
    amount: u64,
)
    requires place_bound { (cell < 576) × (substance < 8) }
    requires amount_bound { (get_or sums.old cell 0 + amount < 2 ^ 64) × (get_or handled.old substance 0 + amount < 2 ^ 64) }
    ensures sums_after { sums.new ≡ added sums.old cell amount }
    ensures handled_after { handled.new ≡ added handled.old substance amount }
{
    sums[cell] += amount;
    handled[substance] += amount;
}

// An amount goes from one sum to another.
pub(crate) fn shift(sums: &mut [u64; 576], from: usize, to: usize, amount: u64)
    requires from_bound { (from < 576) × (to < 576) × (amount ≤ get_or sums.old from 0) }
    requires amount_bound { get_or (set sums.old from (get_or sums.old from 0 - amount)) to 0 + amount < 2 ^ 64 }
    ensures { sums.new ≡ moved sums.old from to amount }
{
    sums[from] -= amount;
    sums[to] += amount;
}

// What grams of a material bring of each substance comes to a stage's holdings and to what was handled.
#[tactic(auto, unfolding(encoding::specs::Each::put_to))]
pub(crate) fn issue(
    sums: &mut [u64; 576],
    handled: &mut [u64; 8],
    counted: &[u32; 96],
    material: usize,
    stage: usize,
    grams: u64,
)
    requires material_bound { (material < 12) × (stage < 8) }
    requires by_index { (s : ℕ) → s < 8 → get_or sums.old (cell_of Held stage s) 0 + brings counted.now material grams s < 2 ^ 64 }
    requires by_index_2 { (s : ℕ) → s < 8 → get_or handled.old s 0 + brings counted.now material grams s < 2 ^ 64 }
    ensures sums_after { sums.new ≡ raised (cell_of Held stage) (brings counted.now material grams) sums.old 8 }
    ensures handled_after { handled.new ≡ raised (λ s. s) (brings counted.now material grams) handled.old 8 }
{
    for s in 0..8usize {
        let amount = grams * u64::from(counted[material * 8 + s]);
        sums[at(Account::Held, stage * 8 + s)] += amount;
        handled[s] += amount;
    }
}

// Each holding goes to gas or to waste water, by its pair's side.
pub(crate) fn settle(sums: &mut [u64; 576], pairs: &[Pair; 64])
    requires by_index { (s : ℕ) → s < 8 → total sums.old s < 2 ^ 64 }
    requires sums_len { length sums.old ≡ 576 }
    ensures { sums.new ≡ settled sums.old pairs.now 64 }
{
    for pair in 0..64usize {
        let from = at(Account::Held, pair);
        let to = at(closes_to(pairs[pair].to_water), pair);
        let amount = sums[from];
        shift(sums, from, to, amount);
    }
}
