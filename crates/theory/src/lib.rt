// What specs and code share of a drive: the limits, an interval with its weight, a component, also one that is known to hold at most eight, the
// entries of a structure with their codes, the joins of two speeds, and the refusals.
#![tactic(auto)]

ghost use Rattle.std.specs.Prelude.{◌≡◌, ◌≤◌, ◌<◌};
ghost use Rattle.theory.specs.Codes.{entry_of, code_of};
ghost use Rattle.theory.specs.Focal.{focal_at};
ghost use Rattle.theory.specs.Joins.{joined};
ghost use Rattle.theory.specs.Limits.{most_held};
ghost use Rattle.theory.specs.Refusals.{number_in, refusal_number, refused_when};

mod held;

pub use held::HeldComponent;

// The limits: specs/Limits.antt has them with the words of documents 01 and 02.
pub const TOP_SPEED: u16 = 4095;

pub const MOST_HELD: usize = 8;

pub const MOST_TOTAL: usize = 1000;

pub const MOST_COMPONENTS: usize = 6;

pub const MOST_ENTRIES: usize = 2 * MOST_COMPONENTS - 1;

pub const MOST_INTERVALS: usize = 256;

pub const RECORD_BYTES: usize = 12;

pub const STORE_BYTES: usize = 9216;

pub const THOUSANDTHS: u64 = 1000;

pub const MOST_DEMANDS: usize = 16;

// The codes of the joins in a structure.
pub const SERIES_CODE: u16 = 8;

pub const SHARED_CODE: u16 = 9;

pub const SPARE_CODE: u16 = 10;

// A focal element: an interval of speeds, both ends inside it, with its weight.
#[derive(Clone, Copy, PartialEq, Eq)]
pub struct Focal {
    pub low: u16,
    pub high: u16,
    pub weight: u64,
}

// A module: up to eight intervals of speed with their weights, the first `count` places in use, and its total T. What the weights leave of T
// is the rest: specs/Masses.antt. Document 01 names this form, arrays by value with a count; `count` may be above eight until rule 4 has looked.
#[derive(Clone, Copy, Default)]
pub struct Component {
    pub lows: [u16; MOST_HELD],
    pub highs: [u16; MOST_HELD],
    pub weights: [u16; MOST_HELD],
    pub count: usize,
    pub total: u16,
}

impl Component {
    // The interval at place i.
    pub fn focal_at(&self, i: usize) -> Focal
        requires { i < most_held }
        ensures { result ≡ focal_at self.now i }
    {
        Focal {
            low: self.lows[i],
            high: self.highs[i],
            weight: u64::from(self.weights[i]),
        }
    }
}

impl<'a> HeldComponent<'a> {
    // This component, which holds at most eight.
    pub fn new(component: &'a Component) -> HeldComponent<'a>
        requires { component.now.count ≤ most_held }
        ensures { result.component ≡ component.entry }
    {
        HeldComponent { component }
    }
}

// How two parts of a drive are joined.
#[derive(Clone, Copy)]
pub enum Join {
    Series,
    Shared,
    Spare,
}

impl Join {
    // The speed of two joined parts that run at x and y.
    pub fn speed(self, x: u16, y: u16) -> u16
        ensures { result ≡ joined self x y }
    {
        match self {
            Join::Series => x.min(y),
            Join::Shared => x.saturating_add(y).min(TOP_SPEED),
            Join::Spare => x.max(y),
        }
    }
}

// An entry of a structure: a component by its number, or a join of the two topmost lists.
#[derive(Clone, Copy)]
pub enum Entry {
    Component(usize),
    Join(Join),
}

// What a code stands for: an entry that has this code.
impl From<u16> for Entry {
    ghost from_gives = { λ code e. (e ≡ entry_of code) × (code_of e ≡ code) };

    fn from(code: u16) -> Entry {
        match code {
            SERIES_CODE => Entry::Join(Join::Series),
            SHARED_CODE => Entry::Join(Join::Shared),
            SPARE_CODE => Entry::Join(Join::Spare),
            _ => Entry::Component(usize::from(code)),
        }
    }
}

// Why a sheet, a plan or a call is refused, with its number: what breaks each rule stands with its test.
#[derive(Clone, Copy, PartialEq, Eq)]
pub enum Refusal {
    Length = 1,
    Edition = 2,
    ComponentCount = 3,
    Layout = 4,
    ZeroBits = 5,
    Total = 6,
    Interval = 7,
    Weights = 8,
    Entry = 9,
    Naming = 10,
    Joins = 11,
    Store = 12,
    Allowance = 13,
    ListLength = 14,
    SheetRoom = 15,
    Target = 16,
    DemandCount = 17,
    SharesRoom = 18,
}

impl Refusal {
    // This refusal, where its test is broken.
    pub fn when(self, broken: bool) -> Result<(), Refusal>
        ensures { result ≡ refused_when self broken }
    {
        if broken { Err(self) } else { Ok(()) }
    }
}

// The number of a refusal.
impl From<Refusal> for u32 {
    ghost from_gives = { λ refusal number. number ≡ refusal_number refusal };

    fn from(refusal: Refusal) -> u32 {
        refusal as u32
    }
}

// The number of an answer: 0 where it is accepted. No `From`: neither `Result` nor `u32` is this crate's.
pub fn number_in<T: Drop>(answer: Result<T, Refusal>) -> u32
    ensures { result ≡ number_in answer }
{
    match answer {
        Ok(_) => 0,
        Err(refusal) => u32::from(refusal),
    }
}
