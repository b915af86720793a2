// A plan: the same facts as a sheet, as values; and the numbered rules that are asked of it.
#![tactic(auto)]

ghost use Rattle.std.specs.Prelude.{◌≡◌, ◌≤◌, ◌<◌, ◌++◌, map};
ghost use Rattle.theory.specs.Codes.{entry_of};
ghost use Rattle.theory.specs.Limits.{most_components, most_held, entry_count};
ghost use Rattle.theory.specs.Refusals.{number_in};
ghost use Rattle.plan.specs.Tests.{first_broken};
ghost use Rattle.plan.specs.Plan.{components_of, codes_of, entries_of};
ghost use Rattle.plan.specs.Rules.{rule4, bad_alone, after, bad_interval, bad_intervals, bad_sum, bad_entry, rule9, bad_naming, rule10, rule11};
ghost use Rattle.plan.specs.Rules.{flaws_of, either_flaws, flaws_in, flaw_tests, structure_tests, Counted, AllHeld};

use std::ops::{BitOr, BitOrAssign};
use theory::{
    Component, Entry, Focal, HeldComponent, MOST_COMPONENTS, MOST_ENTRIES, MOST_HELD, MOST_TOTAL,
    Refusal, TOP_SPEED,
};

// The components of a drive and its structure: the first `count` components and the first 2 `count` - 1 entries are in use.
// The entries are the sheet's codes: each code stands for one entry, but not each entry has a code of its own, as component 8 would have
// that of series. `count` may be above six until rule 3 has looked: a maker's plan is refused by number, so it keeps arrays and a count.
#[derive(Clone, Copy, Default)]
pub struct Plan {
    pub components: [Component; MOST_COMPONENTS],
    pub count: usize,
    pub entries: [u16; MOST_ENTRIES],
}

impl Plan {
    // The components in use. That there are at most six, or 1 to 6, is a clause here and below: a type for it would be made by the reader and by
    // the writer, and taken apart at each use.
    pub fn used_components(&self) -> &[Component]
        requires { self.now.count ≤ most_components }
        ensures { result.now ≡ components_of self.now }
    {
        &self.components[..self.count]
    }

    // The codes in use.
    pub fn used_codes(&self) -> &[u16]
        requires { Counted self.now.count }
        ensures { result.now ≡ codes_of self.now }
    {
        &self.entries[..entry_count(self.count)]
    }
}

// The bytes of a sheet's head, its edition, and the bits of its fields outside the blocks: specs/Sheet.antt has them with document 01's words.
pub const HEAD_BYTES: usize = 2;

pub const EDITION: u32 = 1;

pub const EDITION_BITS: usize = 4;

pub const COMPONENT_COUNT_BITS: usize = 4;

pub const LENGTH_BITS: usize = 8;

pub const ENTRY_BITS: usize = 4;

// How many entries a structure of n components has.
pub fn entry_count(n: usize) -> usize
    requires { Counted n }
    ensures { result ≡ entry_count n }
{
    2 * n - 1
}

// Rule 4.
pub fn bad_counts(components: &[Component]) -> bool
    ensures { result ≡ rule4 components.now }
{
    components
        .iter()
        .any(|c| !(1..=MOST_HELD).contains(&c.count))
}

// Rule 7 of an interval by itself.
fn bad_alone(f: Focal) -> bool
    ensures { result ≡ bad_alone f }
{
    f.high < f.low || TOP_SPEED < f.high || f.weight == 0
}

// The interval g comes strictly after f, in ascending order of low, then of high: a name for rule 7's words.
fn is_after(f: Focal, g: Focal) -> bool
    ensures { result ≡ after f g }
{
    (f.low, f.high) < (g.low, g.high)
}

// Rule 7 of interval j.
fn bad_interval(c: &Component, j: usize) -> bool
    requires { j < most_held }
    ensures { result ≡ bad_interval c.now j }
{
    bad_alone(c.focal_at(j)) || 0 < j && !is_after(c.focal_at(j - 1), c.focal_at(j))
}

// Rule 7 of a component. By place: an interval's three numbers lie in three arrays, as document 01 has them.
fn bad_intervals(c: HeldComponent) -> bool
    ensures { result ≡ bad_intervals c.entry.component.now }
{
    (0..c.component.count).any(|j| bad_interval(c.component, j))
}

// Rule 8 of a component.
fn bad_sum(c: HeldComponent) -> bool
    ensures { result ≡ bad_sum c.entry.component.now }
{
    let sum: u64 = c.component.weights[..c.component.count]
        .iter()
        .map(|weight| u64::from(*weight))
        .sum();
    u64::from(c.component.total) < sum
}

// Which of the rules 6, 7 and 8 are broken: a flag for each, since another component may break a rule with a smaller number.
#[derive(Clone, Copy, Default)]
pub struct Flaws {
    pub total: bool,
    pub intervals: bool,
    pub weights: bool,
}

impl Flaws {
    // The flaws of a component.
    pub fn of(c: HeldComponent) -> Flaws
        ensures { result ≡ flaws_of c.entry.component.now }
    {
        Flaws {
            total: !(1..=MOST_TOTAL).contains(&usize::from(c.component.total)),
            intervals: bad_intervals(c),
            weights: bad_sum(c),
        }
    }

    // The flaws of several components.
    pub fn of_all(components: &[Component]) -> Flaws
        requires { AllHeld components.now }
        ensures { result ≡ flaws_in components.now }
    {
        let mut flaws = Flaws::default();
        // Not by `fold`: that is proved too, with a proof twice as long.
        for c in components {
            flaws |= Flaws::of(HeldComponent::new(c));
        }
        flaws
    }
}

// Two components' flaws together.
impl BitOr for Flaws {
    type Output = Flaws;

    ghost bitor_gives = { λ a b result. result ≡ either_flaws a b };

    fn bitor(self, other: Flaws) -> Flaws {
        Flaws {
            total: self.total || other.total,
            intervals: self.intervals || other.intervals,
            weights: self.weights || other.weights,
        }
    }
}

impl BitOrAssign for Flaws {
    ghost bitor_assign_gives = { λ a b result. result ≡ either_flaws a b };

    fn bitor_assign(&mut self, other: Flaws) {
        *self = *self | other;
    }
}

// Rule 9 of one entry, by its code.
fn bad_entry(n: usize, code: u16) -> bool
    ensures { result ≡ bad_entry n (entry_of code) }
{
    match Entry::from(code) {
        Entry::Component(i) => MOST_COMPONENTS <= i || n <= i,
        Entry::Join(_) => false,
    }
}

// Rule 9. Here and below n stands beside the codes, and no `Plan`: the rules are asked of a structure.
fn bad_entries(codes: &[u16], n: usize) -> bool
    ensures { result ≡ rule9 n (map entry_of codes.now) }
{
    codes.iter().any(|code| bad_entry(n, *code))
}

// Rule 10 of component i. Codes are compared as numbers: those of the joins, 8 to 10, are no component's, 0 to 5.
fn bad_naming(codes: &[u16], i: usize) -> bool
    requires { i < most_components }
    ensures { result ≡ bad_naming (map entry_of codes.now) i }
{
    codes.iter().filter(|code| usize::from(**code) == i).count() != 1
}

// Rule 10.
fn bad_names(codes: &[u16], n: usize) -> bool
    requires { n ≤ most_components }
    ensures { result ≡ rule10 n (map entry_of codes.now) }
{
    (0..n).any(|i| bad_naming(codes, i))
}

// Rule 11.
fn bad_joins(codes: &[u16]) -> bool
    ensures { result ≡ rule11 (map entry_of codes.now) }
{
    let mut height: usize = 0;
    for code in codes {
        match Entry::from(*code) {
            Entry::Component(_) => height += 1,
            Entry::Join(_) if height < 2 => return true,
            Entry::Join(_) => height -= 1,
        }
    }
    false
}

impl Plan {
    // The rules 6 to 11 in their order, where the components have these flaws.
    pub fn test_rules(&self, flaws: Flaws) -> Result<(), Refusal>
        requires { Counted self.now.count }
        ensures { number_in result ≡ first_broken (flaw_tests flaws ++ structure_tests self.now.count (entries_of self.now)) }
    {
        let codes = self.used_codes();
        Refusal::Total.when(flaws.total)?;
        Refusal::Interval.when(flaws.intervals)?;
        Refusal::Weights.when(flaws.weights)?;
        Refusal::Entry.when(bad_entries(codes, self.count))?;
        Refusal::Naming.when(bad_names(codes, self.count))?;
        Refusal::Joins.when(bad_joins(codes))
    }
}
