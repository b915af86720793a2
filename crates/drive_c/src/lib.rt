// What makers link: the calls of crate drive and the writer and the reader of crate sheets under their C names, and nothing else: a crate is a
// library or what C links, and an archive has the C names of its own crate only. C gets numbers, so here what is answered becomes one. The
// header host/drive.h is the manual.
#![tactic(auto)]

ghost use Rattle.std.specs.Prelude.{◌≡◌};
ghost use Rattle.drive.specs.Call.{number_returned, list_after, answer_after};
ghost use Rattle.drive.specs.Speed.{speed_number, speed_list_after, speed_answer_after};
ghost use Rattle.drive.specs.Set.{set_number, set_list_after, set_shares_after, set_answer_after};
ghost use Rattle.sheets.specs.Sheets.{write_number, sheet_after, length_after, read_number, plan_after};

// Returns the number. The answer goes to the front of `answer`, the drive's list to the front of `list`.
#[unsafe(no_mangle)]
pub extern "C" fn drive_bounds(
    sheet: &[u8],
    demand: u32,
    allowance: u32,
    list: &mut [u8],
    answer: &mut [u8],
) -> u32
    ensures value { result ≡ number_returned sheet.now demand allowance list.old answer.old }
    ensures list_after { list.new ≡ list_after sheet.now allowance list.old answer.old }
    ensures answer_after { answer.new ≡ answer_after sheet.now demand allowance list.old answer.old }
{
    theory::number_in(drive::drive_bounds(sheet, demand, allowance, list, answer))
}

// Returns the number. The answer and its speed go to the front of `answer`, the drive's list to the front of `list`.
#[unsafe(no_mangle)]
pub extern "C" fn drive_speed(
    sheet: &[u8],
    target: u32,
    allowance: u32,
    list: &mut [u8],
    answer: &mut [u8],
) -> u32
    ensures value { result ≡ speed_number sheet.now target allowance list.old answer.old }
    ensures list_after { list.new ≡ speed_list_after sheet.now target allowance list.old answer.old }
    ensures answer_after { answer.new ≡ speed_answer_after sheet.now target allowance list.old answer.old }
{
    theory::number_in(drive::drive_speed(sheet, target, allowance, list, answer))
}

// Returns the number. The shares at each demand go to the front of `shares`, the other answers to the front of `answer`, the drive's list to
// the front of `list`.
#[unsafe(no_mangle)]
pub extern "C" fn drive_set(
    sheet: &[u8],
    demands: &[u8],
    allowance: u32,
    list: &mut [u8],
    shares: &mut [u8],
    answer: &mut [u8],
) -> u32
    ensures value { result ≡ set_number sheet.now demands.now allowance list.old shares.old answer.old }
    ensures list_after { list.new ≡ set_list_after sheet.now demands.now allowance list.old shares.old answer.old }
    ensures shares_after { shares.new ≡ set_shares_after sheet.now demands.now allowance list.old shares.old answer.old }
    ensures answer_after { answer.new ≡ set_answer_after sheet.now demands.now allowance list.old shares.old answer.old }
{
    theory::number_in(drive::drive_set(sheet, demands, allowance, list, shares, answer))
}

// Returns the number. The sheet of the plan goes to the front of `sheet`, its length to the front of `answer`.
#[unsafe(no_mangle)]
pub extern "C" fn drive_write_sheet(plan: &[u8], sheet: &mut [u8], answer: &mut [u8]) -> u32
    ensures value { result ≡ write_number plan.now sheet.old answer.old }
    ensures sheet_after { sheet.new ≡ sheet_after plan.now sheet.old answer.old }
    ensures answer_after { answer.new ≡ length_after plan.now sheet.old answer.old }
{
    theory::number_in(sheets::write_from_bytes(plan, sheet, answer))
}

// Returns the number. The plan of the sheet goes to the front of `plan`.
#[unsafe(no_mangle)]
pub extern "C" fn drive_read_sheet(sheet: &[u8], plan: &mut [u8]) -> u32
    ensures value { result ≡ read_number sheet.now plan.old }
    ensures plan_after { plan.new ≡ plan_after sheet.now plan.old }
{
    theory::number_in(sheets::read_to_bytes(sheet, plan))
}
