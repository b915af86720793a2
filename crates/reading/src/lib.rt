// A sheet read: its plan, or the refusal.
// Where a number is cast there is no `From`, a `TryFrom` would never fail, and the check proves that nothing is lost.
#![tactic(auto)]

ghost use Rattle.std.specs.Prelude.{◌≡◌, ◌+◌, ◌*◌, ◌≤◌, length, IfOk, Some};
ghost use Rattle.theory.specs.Limits.{most_components, most_entries};
ghost use Rattle.theory.specs.Refusals.{number_in};
ghost use Rattle.plan.specs.Tests.{first_broken};
ghost use Rattle.plan.specs.Sheet.{head_bytes, entry_bits};
ghost use Rattle.reading.specs.Reading.{entries_at, blocks_in, head_as, head_in, layout_tests, BlocksFound, reading_as, read_of};

use plan::{
    COMPONENT_COUNT_BITS, EDITION, EDITION_BITS, ENTRY_BITS, Flaws, HEAD_BYTES, LENGTH_BITS, Plan,
};
use reader::Reader;
use theory::{Component, HeldComponent, MOST_COMPONENTS, MOST_ENTRIES, Refusal};

// The blocks of a sheet, read in turn, where none is cut short: the components, in a row of six (no heap), whether a bit named zero is one
// (number 5; a flag, since number 4 of a later block comes first), which of the rules 6, 7 and 8 some component breaks, and the byte behind
// the last block.
#[derive(Clone, Copy)]
pub struct Blocks {
    pub components: [Component; MOST_COMPONENTS],
    pub nonzero: bool,
    pub flaws: Flaws,
    pub end: usize,
}

// Numbers 1 to 3 of a sheet, and its component count.
#[tactic(auto, unfolding(crate::specs::Reading::head_in))]
fn read_head(sheet: &[u8]) -> Result<usize, Refusal>
    ensures { head_as result ≡ head_in sheet.now }
{
    Refusal::Length.when(sheet.len() < HEAD_BYTES)?;
    let mut head = Reader::new(sheet, 0);
    let edition = head.take(EDITION_BITS);
    let n = head.take(COMPONENT_COUNT_BITS) as usize;
    let len = head.take(LENGTH_BITS) as usize;
    Refusal::Length.when(len != sheet.len())?;
    Refusal::Edition.when(edition != EDITION)?;
    Refusal::ComponentCount.when(!(1..=MOST_COMPONENTS).contains(&n))?;
    Ok(n)
}

// The first n blocks of a sheet; none where one is cut short. Each is read from its own start, as a part of the sheet, and its component is
// tested at once. That n is at most six is a clause here and below: a type for it would be made at one place and taken apart at each other.
fn read_blocks(sheet: &[u8], n: usize) -> Option<Blocks>
    requires { (n ≤ most_components) × (head_bytes ≤ length sheet.now) }
    ensures { result ≡ blocks_in sheet.now n }
{
    let mut components = [Component::default(); MOST_COMPONENTS];
    let mut nonzero = false;
    let mut flaws = Flaws::default();
    let mut end = HEAD_BYTES;
    for component in &mut components[..n] {
        let b = block::read_block(&sheet[end..])?;
        nonzero |= b.nonzero;
        flaws |= Flaws::of(HeldComponent::new(&b.component));
        end += b.size;
        *component = b.component;
    }
    Some(Blocks {
        components,
        nonzero,
        flaws,
        end,
    })
}

// The m codes from bit `place` on. Buffer, place and count stand one by one, as in `s[i..j]`.
fn read_entries(sheet: &[u8], place: usize, m: usize) -> [u16; MOST_ENTRIES]
    requires { (m ≤ most_entries) × (place + entry_bits * m ≤ 8 * length sheet.now) × (place + entry_bits * m ≤ 65536) }
    ensures { result ≡ entries_at sheet.now place m }
{
    let mut codes = Reader::new(sheet, place);
    let mut entries = [0u16; MOST_ENTRIES];
    for entry in &mut entries[..m] {
        *entry = codes.take(ENTRY_BITS) as u16;
    }
    entries
}

// Numbers 4 and 5 of a sheet, by its n blocks.
#[tactic(auto, unfolding(crate::specs::Reading::bad_layout, crate::specs::Reading::bad_zeros, crate::specs::Reading::blocks_in))]
fn test_layout(sheet: &[u8], n: usize, blocks: Option<Blocks>) -> Result<Blocks, Refusal>
    requires { BlocksFound sheet.now n blocks }
    ensures number { number_in result ≡ first_broken (layout_tests sheet.now) }
    ensures found { IfOk result (λ b. blocks ≡ Some b) }
{
    let b = blocks.ok_or(Refusal::Layout)?;
    Refusal::Layout.when(b.end + n != sheet.len())?;
    let last = Reader::new(sheet, 8 * b.end + ENTRY_BITS * plan::entry_count(n)).take(ENTRY_BITS);
    Refusal::ZeroBits.when(b.nonzero || last != 0)?;
    Ok(b)
}

// The plan of a sheet, or the first refusal of the numbers 1 to 11 that applies.
pub fn read_sheet(sheet: &[u8]) -> Result<Plan, Refusal>
    ensures { reading_as result ≡ read_of sheet.now }
{
    let n = read_head(sheet)?;
    let Blocks {
        components,
        flaws,
        end,
        ..
    } = test_layout(sheet, n, read_blocks(sheet, n))?;
    let entries = read_entries(sheet, 8 * end, plan::entry_count(n));
    let p = Plan {
        components,
        count: n,
        entries,
    };
    p.test_rules(flaws)?;
    Ok(p)
}
