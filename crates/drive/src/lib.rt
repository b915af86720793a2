// The calls for C hosts, on numbers and byte slices. Crate drive_c exports them, so each takes its buffers one by one; there the number of what
// they answer is returned. The three are alike, and no generic one: what they take, ask and write differs, and a trait for that would be longer. The
// header host/drive.h is the manual.
// Where a number is cast there is no `From`, a `TryFrom` would never fail, and the check proves that nothing is lost.
#![tactic(auto)]

ghost use Rattle.std.specs.Prelude.{◌≡◌, [], ◌∷◌};
ghost use Rattle.theory.specs.Refusals.{number_in};
ghost use Rattle.plan.specs.Tests.{first_broken};
ghost use Rattle.evaluate.specs.Answer.{call_tests};
ghost use Rattle.drive.specs.Call.{number_returned, list_after, answer_after};
ghost use Rattle.drive.specs.Speed.{speed_number, speed_list_after, speed_answer_after};
ghost use Rattle.drive.specs.Set.{set_number, set_list_after, set_shares_after, set_answer_after};

use evaluate::Accepted;
use theory::Refusal;

// The bytes that an answer takes, those of an answer with a speed, and those of the answer beside the shares of a set.
const ANSWER_BYTES: usize = 40;

const SPEED_ANSWER_BYTES: usize = 48;

const SET_ANSWER_BYTES: usize = 24;

// What a call answers whose answer buffer is too short: the first of 1 to 12, as without a store.
fn refused(sheet: &[u8]) -> Result<(), Refusal>
    ensures { number_in result ≡ first_broken (call_tests sheet.now 0) }
{
    evaluate::test_sheet(sheet, 0)?;
    Ok(())
}

// The five numbers of an answer, in their order in its buffer. No `From` in evaluate: the order is that of the buffers here.
fn numbers_of(a: Accepted) -> [u64; 5]
    ensures { result ≡ a.run.total ∷ a.shares.belief ∷ a.shares.plausibility ∷ a.run.pairs ∷ a.run.intervals ∷ [] }
{
    [
        a.run.total,
        a.shares.belief,
        a.shares.plausibility,
        a.run.pairs,
        a.run.intervals as u64,
    ]
}

// The answer goes to the front of `answer`, the drive's list to the front of `list`.
#[tactic(auto, using(crate::proofs::Call::refuses), unfolding(crate::specs::Call::encode_answer, crate::specs::Call::number_returned, crate::specs::Call::list_after, crate::specs::Call::answer_after))]
pub fn drive_bounds(
    sheet: &[u8],
    demand: u32,
    allowance: u32,
    list: &mut [u8],
    answer: &mut [u8],
) -> Result<(), Refusal>
    ensures value { number_in result ≡ number_returned sheet.now demand allowance list.old answer.old }
    ensures list_after { list.new ≡ list_after sheet.now allowance list.old answer.old }
    ensures answer_after { answer.new ≡ answer_after sheet.now demand allowance list.old answer.old }
{
    if answer.len() < ANSWER_BYTES {
        return refused(sheet);
    }
    let answered = evaluate::bounds(sheet, demand, allowance, list);
    // A refused call's answers are zeros, here and below, as the header promises C.
    let a = answered.unwrap_or_default();
    numbers::write_numbers(answer, 0, 8, &numbers_of(a));
    answered?;
    Ok(())
}

// The answer and its speed go to the front of `answer`, the drive's list to the front of `list`.
#[tactic(auto, using(crate::proofs::Speed::refuses), unfolding(crate::specs::Call::encode_answer, crate::specs::Speed::encode_speed_answer, crate::specs::Speed::speed_number, crate::specs::Speed::speed_list_after, crate::specs::Speed::speed_answer_after))]
pub fn drive_speed(
    sheet: &[u8],
    target: u32,
    allowance: u32,
    list: &mut [u8],
    answer: &mut [u8],
) -> Result<(), Refusal>
    ensures value { number_in result ≡ speed_number sheet.now target allowance list.old answer.old }
    ensures list_after { list.new ≡ speed_list_after sheet.now target allowance list.old answer.old }
    ensures answer_after { answer.new ≡ speed_answer_after sheet.now target allowance list.old answer.old }
{
    if answer.len() < SPEED_ANSWER_BYTES {
        return refused(sheet);
    }
    let answered = evaluate::speed(sheet, target, allowance, list);
    let s = answered.unwrap_or_default();
    numbers::write_numbers(answer, 0, 8, &numbers_of(s.answer));
    numbers::write_number(answer, ANSWER_BYTES, 8, s.speed);
    answered?;
    Ok(())
}

// The shares at each demand go to the front of `shares`, the other answers to the front of `answer`, the drive's list to the front of `list`.
#[tactic(auto, using(crate::proofs::Set::refuses), unfolding(crate::specs::Set::encode_set_answer, crate::specs::Set::set_number, crate::specs::Set::set_list_after, crate::specs::Set::set_shares_after, crate::specs::Set::set_answer_after))]
pub fn drive_set(
    sheet: &[u8],
    demands: &[u8],
    allowance: u32,
    list: &mut [u8],
    shares: &mut [u8],
    answer: &mut [u8],
) -> Result<(), Refusal>
    ensures value { number_in result ≡ set_number sheet.now demands.now allowance list.old shares.old answer.old }
    ensures list_after { list.new ≡ set_list_after sheet.now demands.now allowance list.old shares.old answer.old }
    ensures shares_after { shares.new ≡ set_shares_after sheet.now demands.now allowance list.old shares.old answer.old }
    ensures answer_after { answer.new ≡ set_answer_after sheet.now demands.now allowance list.old shares.old answer.old }
{
    let d = wire::decode_demands(demands);
    let demands = &d.values[..d.count];
    if answer.len() < SET_ANSWER_BYTES {
        return refused(sheet);
    }
    let answered = evaluate::set(sheet, demands, allowance, list, shares);
    let r = answered.unwrap_or_default();
    let values = [r.total, r.pairs, r.intervals as u64];
    numbers::write_numbers(answer, 0, 8, &values);
    answered?;
    Ok(())
}
