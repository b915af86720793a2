// The calls on a sheet: the tests and the run, which all calls share, and what each asks of the list.
// A call's parameters stand one by one, as C passes them.
#![tactic(auto)]

ghost use Rattle.std.specs.Prelude.{◌≡◌, false, length, IfOk};
ghost use Rattle.theory.specs.Masses.{total};
ghost use Rattle.theory.specs.Refusals.{number_in};
ghost use Rattle.plan.specs.Tests.{first_broken};
ghost use Rattle.plan.specs.Plan.{components_of};
ghost use Rattle.plan.specs.Valid.{Valid};
ghost use Rattle.evaluate.specs.Answer.{plan_of, call_tests, answered_as, answer};
ghost use Rattle.evaluate.specs.Store.{is_late, store_after};
ghost use Rattle.evaluate.specs.SheetRun.{run_as, sheet_run, store_then};
ghost use Rattle.evaluate.specs.Speed.{speed_as, speed_answer, speed_store_after};
ghost use Rattle.evaluate.specs.Set.{set_answer, set_store_after, shares_after};

use plan::Plan;
use queries::Shares;
use records::Records;
use theory::Refusal;

// What an accepted ordinary call answers: what tests and run answer, and the two shares of the total.
#[derive(Clone, Copy, Default, PartialEq, Eq)]
pub struct Accepted {
    pub run: AcceptedRun,
    pub shares: Shares,
}

// What an accepted call for a speed answers: the speed, and the answers of an ordinary call with that speed as its demand.
#[derive(Clone, Copy, Default, PartialEq, Eq)]
pub struct AcceptedSpeed {
    pub answer: Accepted,
    pub speed: u64,
}

// What tests and run answer, before the list is asked, and what an accepted call for a set of demands answers beside the shares: the total U,
// the pairs formed and the length of the drive's list. The last two are a `Run`, written out: as one, an answer's numbers would be three
// names deep.
#[derive(Clone, Copy, Default, PartialEq, Eq)]
pub struct AcceptedRun {
    pub total: u64,
    pub pairs: u64,
    pub intervals: usize,
}

// The tests that every call has first, on a store of `room` bytes: the plan, or the first refusal of 1 to 12.
pub fn test_sheet(sheet: &[u8], room: usize) -> Result<Plan, Refusal>
    ensures number { number_in result ≡ first_broken (call_tests sheet.now room) }
    ensures plan { IfOk result (λ p. p ≡ plan_of sheet.now) }
{
    let p = reading::read_sheet(sheet)?;
    Refusal::Store.when(room < run::store_for(p.count))?;
    Ok(p)
}

// U: the product of all T.
fn total_of(p: Plan) -> u64
    requires { Valid p }
    ensures { result ≡ total (components_of p) }
{
    p.used_components()
        .iter()
        .map(|c| u64::from(c.total))
        .product()
}

// Tests and run of every call. `own` is what the call's own tests answer, which come behind 1 to 12 and before 13 and 14.
fn run_sheet(
    sheet: &[u8],
    own: Result<(), Refusal>,
    allowance: u32,
    store: &mut [u8],
) -> Result<AcceptedRun, Refusal>
    requires { is_late (number_in own) ≡ false }
    ensures value { run_as result ≡ sheet_run sheet.now (length store.old) (number_in own) allowance }
    ensures store_after { store.new ≡ store_then sheet.now (number_in own) allowance store.old }
{
    let p = test_sheet(sheet, store.len())?;
    own?;
    let total = total_of(p);
    let ran = run::run_plan(p, allowance, store)?;
    Ok(AcceptedRun {
        total,
        pairs: ran.pairs,
        intervals: ran.intervals,
    })
}

// The ordinary call. It answers for any sheet, demand, allowance and store, and leaves every byte of the store as `store_after` says.
pub fn bounds(
    sheet: &[u8],
    demand: u32,
    allowance: u32,
    store: &mut [u8],
) -> Result<Accepted, Refusal>
    ensures value { answered_as result ≡ answer sheet.now demand allowance (length store.old) }
    ensures store_after { store.new ≡ store_after sheet.now allowance store.old }
{
    let run = run_sheet(sheet, Ok(()), allowance, store)?;
    let list = Records::new(store, run.intervals);
    let shares = queries::shares_at(list, u64::from(demand));
    Ok(Accepted { run, shares })
}

// The call for a speed. It answers for any sheet, target, allowance and store, and leaves every byte of the store as `speed_store_after` says.
pub fn speed(
    sheet: &[u8],
    target: u32,
    allowance: u32,
    store: &mut [u8],
) -> Result<AcceptedSpeed, Refusal>
    ensures value { speed_as result ≡ speed_answer sheet.now target allowance (length store.old) }
    ensures store_after { store.new ≡ speed_store_after sheet.now target allowance store.old }
{
    let run = run_sheet(sheet, queries::test_target(target), allowance, store)?;
    let list = Records::new(store, run.intervals);
    let speed = queries::speed_for(list, target, run.total);
    let shares = queries::shares_at(list, speed);
    Ok(AcceptedSpeed {
        answer: Accepted { run, shares },
        speed,
    })
}

// The call for a set of demands. It answers for any sheet, demands, allowance, store and shares' buffer, and leaves every byte of the store as
// `set_store_after` says and every byte of the shares' buffer as `shares_after` says. The plan is read and run once.
pub fn set(
    sheet: &[u8],
    demands: &[u32],
    allowance: u32,
    store: &mut [u8],
    shares: &mut [u8],
) -> Result<AcceptedRun, Refusal>
    ensures value { run_as result ≡ set_answer sheet.now demands.now allowance (length store.old) (length shares.old) }
    ensures store_after { store.new ≡ set_store_after sheet.now demands.now allowance store.old (length shares.old) }
    ensures shares_after { shares.new ≡ shares_after sheet.now demands.now allowance (length store.old) shares.old }
{
    let own = queries::test_demands(demands.len(), shares.len());
    let run = run_sheet(sheet, own, allowance, store)?;
    let list = Records::new(store, run.intervals);
    queries::put_set(list, demands, shares);
    Ok(run)
}
