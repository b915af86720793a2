// What is asked of a list of records: its shares at a demand and at each of a set of demands, and the speed for a target; and the tests of a
// target and of a set, 16, 17 and 18.
#![tactic(auto)]

ghost use Rattle.std.specs.Prelude.{◌≡◌, cond, ◌++◌, ◌+◌, ◌*◌, ◌≤◌, leb, length, take, drop};
ghost use Rattle.theory.specs.Limits.{thousandths};
ghost use Rattle.theory.specs.Refusals.{number_in};
ghost use Rattle.theory.specs.Speed.{meets, speed_for};
ghost use Rattle.plan.specs.Tests.{first_broken};
ghost use Rattle.records.specs.Records.{records_of};
ghost use Rattle.queries.specs.Shares.{shares_of, shares_bytes, encode_shares, encode_set, demand_tests, Summable};
ghost use Rattle.queries.specs.Speed.{target_tests, Searchable};

use records::Records;
use theory::{MOST_DEMANDS, Refusal, THOUSANDTHS};

// The bytes of the two shares at one demand.
pub const SHARES_BYTES: usize = 16;

// Belief and plausibility of a list at a demand, over the sum of its weights.
#[derive(Clone, Copy, Default, PartialEq, Eq)]
pub struct Shares {
    pub belief: u64,
    pub plausibility: u64,
}

// What an interval's weight counts at a demand, by one of its ends.
fn counted(end: u16, weight: u64, demand: u64) -> u64
    ensures { result ≡ cond (leb demand end) weight 0 }
{
    if demand <= u64::from(end) { weight } else { 0 }
}

// Belief and plausibility of a list at a demand. That the weights fit 64 bits together is a clause here and below: a type of such lists would
// be made in each call and say no more.
pub fn shares_at(list: Records, demand: u64) -> Shares
    requires { Summable (records_of list) }
    ensures { result ≡ shares_of demand (records_of list.entry) }
{
    let mut belief: u64 = 0;
    let mut plausibility: u64 = 0;
    for r in list.records {
        let f = records::focal_in(r);
        belief += counted(f.low, f.weight, demand);
        plausibility += counted(f.high, f.weight, demand);
    }
    Shares {
        belief,
        plausibility,
    }
}

// The tests of a set of `count` demands with `bytes` bytes for their shares: 17 unless there are 1 to 16, then 18 unless each has 16 bytes.
pub fn test_demands(count: usize, bytes: usize) -> Result<(), Refusal>
    ensures { number_in result ≡ first_broken (demand_tests count bytes) }
{
    Refusal::DemandCount.when(!(1..=MOST_DEMANDS).contains(&count))?;
    Refusal::SharesRoom.when(bytes / SHARES_BYTES < count)
}

// Writes the shares at place i.
fn put_shares(out: &mut [u8], i: usize, shares: Shares)
    requires { shares_bytes * (i + 1) ≤ length out.old }
    ensures { out.new ≡ take (shares_bytes * i) out.old ++ (encode_shares shares ++ drop (shares_bytes * (i + 1)) out.old) }
{
    let pair = [shares.belief, shares.plausibility];
    numbers::write_numbers(out, SHARES_BYTES * i, 8, &pair);
}

// Writes the shares of a list at each demand, in the order asked. The list is walked once for each.
pub fn put_set(list: Records, demands: &[u32], out: &mut [u8])
    requires summable { Summable (records_of list) }
    requires demands_in_bounds { shares_bytes * length demands.now ≤ length out.old }
    ensures { out.new ≡ encode_set demands.now (records_of list.entry) ++ drop (shares_bytes * length demands.now) out.old }
{
    for (i, demand) in demands.iter().enumerate() {
        put_shares(out, i, shares_at(list, u64::from(*demand)));
    }
}

// The test of a target: 16 unless it is 1 to 1,000.
pub fn test_target(target: u32) -> Result<(), Refusal>
    ensures { number_in result ≡ first_broken (target_tests target) }
{
    Refusal::Target.when(!(1..=THOUSANDTHS).contains(&u64::from(target)))
}

// Whether a share is at least `target` thousandths of the total. Their product does not fit 64 bits; a thousandth of it, rounded up, does.
fn target_met(share: u64, target: u32, total: u64) -> bool
    requires { target ≤ thousandths }
    ensures { result ≡ meets target total share }
{
    let t = u64::from(target);
    let quotient = t * (total / THOUSANDTHS);
    let rest = t * (total % THOUSANDTHS);
    quotient + rest.div_ceil(THOUSANDTHS) <= share
}

// The speed for a target, 0 where no low meets it: no Option, since a drive always reaches 0, and so every target is met there. The lows of the
// list are tried from the front, the fastest first, and the first that meets the target ends the search. Records with one low are tried one
// after the other: the low, and so the answer, is the same.
pub fn speed_for(list: Records, target: u32, total: u64) -> u64
    requires { Searchable (records_of list) target total }
    ensures { result ≡ speed_for target total (records_of list.entry) }
{
    let mut belief: u64 = 0;
    let mut left = list.records.iter();
    // Document 02 names this form: a loop that yields the speed by `break`.
    loop {
        let Some(r) = left.next() else {
            break 0;
        };
        let f = records::focal_in(r);
        belief += f.weight;
        if target_met(belief, target, total) {
            break u64::from(f.low);
        }
    }
}
