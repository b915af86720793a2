// A plan written as a sheet.
// Where a number is cast there is no `From`, a `TryFrom` would never fail, and the check proves that nothing is lost.
#![tactic(auto)]

ghost use Rattle.std.specs.Prelude.{◌≡◌, ◌+◌, ◌*◌, ◌≤◌, map, length, IfOk};
ghost use Rattle.theory.specs.Refusals.{number_in};
ghost use Rattle.field.specs.Fields.{bits, put_all};
ghost use Rattle.plan.specs.Sheet.{head_bytes, entry_bits};
ghost use Rattle.plan.specs.Tests.{first_broken};
ghost use Rattle.writing.specs.Writing.{end_of, length_of, block_fields, sheet_fields, plan_tests, written_as, written_of, bytes_after};

mod sized;

use block::Extent;
use field::Field;
use plan::{
    COMPONENT_COUNT_BITS, EDITION, EDITION_BITS, ENTRY_BITS, Flaws, HEAD_BYTES, LENGTH_BITS, Plan,
};
pub use sized::SizedPlan;
use theory::{HeldComponent, MOST_COMPONENTS, Refusal};

// The numbers 3, 4 (only k) and 6 to 11 of a plan; it has a length where they are kept.
#[tactic(auto, using(crate::proofs::Accepted::kept_tests))]
pub fn test_plan(p: &Plan) -> Result<SizedPlan<'_>, Refusal>
    ensures number { number_in result ≡ first_broken (plan_tests p.now) }
    ensures plan { IfOk result (λ s. s.plan ≡ p.entry) }
{
    Refusal::ComponentCount.when(!(1..=MOST_COMPONENTS).contains(&p.count))?;
    let components = p.used_components();
    Refusal::Layout.when(plan::bad_counts(components))?;
    p.test_rules(Flaws::of_all(components))?;
    Ok(SizedPlan { plan: p })
}

// The codes of a structure, from bit `place` on. Not by `put_fields`: a row of `Field`s would have to be made of them first.
#[tactic(auto, using(crate::proofs::Sizes::codes_next), unfolding(field::specs::Fields::put_all))]
fn put_entries(out: &mut [u8], place: usize, codes: &[u16])
    requires { (place + entry_bits * length codes.now ≤ 8 * length out.old) × (place + entry_bits * length codes.now ≤ 65536) }
    ensures { out.new ≡ put_all out.old place (map (bits entry_bits) codes.now) }
{
    for (i, code) in codes.iter().enumerate() {
        let entry = Field {
            width: ENTRY_BITS,
            value: u32::from(*code),
        };
        field::put_field(out, place + ENTRY_BITS * i, entry);
    }
}

impl<'a> SizedPlan<'a> {
    // The bytes of its sheet.
    #[tactic(auto, using(crate::proofs::Sizes::block_steps), unfolding(crate::specs::Writing::length_of))]
    fn sheet_length(self) -> usize
        ensures { result ≡ length_of self.entry.plan.now }
    {
        // No `.map(..).sum()`: its closure would not know that a component holds at most eight, nor `sum` that the total fits.
        let mut end = HEAD_BYTES;
        for c in self.plan.used_components() {
            end += Extent::of(HeldComponent::new(c)).size();
        }
        end + self.plan.count
    }

    // Its blocks, in the sheet at the front of out.
    #[tactic(auto, using(crate::proofs::Sizes::block_steps), unfolding(field::specs::Fields::put_all))]
    fn put_blocks(self, out: &mut [u8])
        requires { end_of self.plan.now ≤ length out.old }
        ensures { out.new ≡ put_all out.old (8 * head_bytes) (block_fields self.entry.plan.now) }
    {
        let mut end = HEAD_BYTES;
        for c in self.plan.used_components() {
            let held = HeldComponent::new(c);
            block::write_block(&mut out[end..], held);
            end += Extent::of(held).size();
        }
    }

    // Its sheet, of len bytes, at the front of out. `len` stands beside it, since the bytes behind are spoken of too: they stay.
    #[tactic(auto, using(crate::proofs::Sizes::sheet_parts), unfolding(field::specs::Fields::FieldsInside))]
    fn put_sheet(self, out: &mut [u8], len: usize)
        requires { (len ≡ length_of self.plan.now) × (len ≤ length out.old) }
        ensures { out.new ≡ put_all out.old 0 (sheet_fields self.entry.plan.now) }
    {
        let n = self.plan.count;
        let place = 8 * (len - n);
        let edition = Field {
            width: EDITION_BITS,
            value: EDITION,
        };
        let count = Field {
            width: COMPONENT_COUNT_BITS,
            value: n as u32,
        };
        let length = Field {
            width: LENGTH_BITS,
            value: len as u32,
        };
        field::put_fields(out, 0, &[edition, count, length]);
        self.put_blocks(out);
        put_entries(out, place, self.plan.used_codes());
        let last = Field {
            width: ENTRY_BITS,
            value: 0,
        };
        field::put_field(out, place + ENTRY_BITS * plan::entry_count(n), last);
    }
}

// The sheet of a plan at the front of out, and its length; where the plan is refused, out stays as it is.
#[tactic(auto, using(crate::proofs::Accepted::deciding_tests))]
pub fn write_sheet(p: Plan, out: &mut [u8]) -> Result<usize, Refusal>
    ensures value { written_as result ≡ written_of p (length out.old) }
    ensures out_after { out.new ≡ bytes_after p out.old }
{
    let sized = test_plan(&p)?;
    let len = sized.sheet_length();
    Refusal::SheetRoom.when(out.len() < len)?;
    sized.put_sheet(out, len);
    Ok(len)
}
