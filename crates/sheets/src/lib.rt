// The writer and the reader for C hosts, on byte slices: a plan as bytes to a sheet, and a sheet to a plan as bytes.
// Where a number is cast there is no `From`, a `TryFrom` would never fail, and the check proves that nothing is lost.
#![tactic(auto)]

ghost use Rattle.std.specs.Prelude.{◌≡◌};
ghost use Rattle.theory.specs.Refusals.{number_in};
ghost use Rattle.sheets.specs.Sheets.{write_number, sheet_after, length_after, read_number, plan_after};

use theory::Refusal;

// The bytes that the length of a sheet takes in the writer's answer.
const LENGTH_BYTES: usize = 8;

// The sheet of the plan goes to the front of `sheet`, its length to the front of `answer`.
#[tactic(auto, using(crate::proofs::Writer::write_steps))]
pub fn write_from_bytes(plan: &[u8], sheet: &mut [u8], answer: &mut [u8]) -> Result<(), Refusal>
    ensures value { number_in result ≡ write_number plan.now sheet.old answer.old }
    ensures sheet_after { sheet.new ≡ sheet_after plan.now sheet.old answer.old }
    ensures answer_after { answer.new ≡ length_after plan.now sheet.old answer.old }
{
    Refusal::Store.when(plan.len() < wire::PLAN_BYTES)?;
    let p = wire::decode_plan(plan);
    if answer.len() < LENGTH_BYTES {
        writing::test_plan(&p)?;
        return Err(Refusal::Store);
    }
    let written = writing::write_sheet(p, sheet);
    // Its length, 0 where it is refused, as the header promises C.
    numbers::write_number(answer, 0, LENGTH_BYTES, written.unwrap_or(0) as u64);
    written?;
    Ok(())
}

// The plan of the sheet goes to the front of `plan`: a plan of zeros where the sheet is refused.
#[tactic(auto, using(crate::proofs::Reader::read_steps))]
pub fn read_to_bytes(sheet: &[u8], plan: &mut [u8]) -> Result<(), Refusal>
    ensures value { number_in result ≡ read_number sheet.now plan.old }
    ensures plan_after { plan.new ≡ plan_after sheet.now plan.old }
{
    let reading = reading::read_sheet(sheet);
    if plan.len() < wire::PLAN_BYTES {
        reading?;
        return Err(Refusal::Store);
    }
    wire::encode_plan(plan, reading.unwrap_or_default());
    reading?;
    Ok(())
}
