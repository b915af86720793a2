// Runs every row of the bench table, and rows of its own for places of joined lists that are used again, for time that nobody accounted for,
// for the ceiling of shared joins, for a speed and for a set of demands: plans are written as sheets, and the answer of each call and its
// list, record by record, are compared with the table's. Prints a line for each row, and how many rows disagree. What is printed is open in
// the contracts of the functions that print, and so is the count of rows that disagree; every other function says what it answers.
// Where a number is cast there is no `From`, a `TryFrom` would never fail, and the check proves that nothing is lost.
// Where a slice has at most so many elements, that is a clause: each row gives a literal or a part of a constant, whose length the check sees.
#![tactic(auto)]

ghost use Rattle.std.specs.Prelude.{◌≡◌, ◌↔◌, IsTrue, ◌<◌, ◌≤◌, [], ◌∷◌, length, slice_set};
ghost use Rattle.theory.specs.Focal.{focal};
ghost use Rattle.theory.specs.Limits.{most_components, most_held, store_bytes};
ghost use Rattle.records.specs.Records.{records_of};
ghost use Rattle.bench_table.specs.Rows.{component_of, single_speeds, component_a, component_b, W0, W1, D1, D2, D3, join_code, chain, two_groups, plan_of, sheet_of};
ghost use Rattle.bench_table.specs.Rows.{bytes_of, every_speed, speeds_to_ceiling, Asks, numbers_of, Answered, refused_as, intervals_of, accepted_of};

mod call;

use call::{Asked, Call, Sheet};
use evaluate::{Accepted, AcceptedRun, AcceptedSpeed};
use plan::Plan;
use queries::Shares;
use records::Records;
use std::io::{Print, Stdout};
use std::{array, fmt, io};
use theory::{Component, Focal, Join, MOST_ENTRIES, MOST_HELD, MOST_INTERVALS, Refusal};

// The bytes of the longest sheet, and of the store.
const LONGEST: usize = 224;

const ROOM: usize = theory::STORE_BYTES;

// A list as it is printed.
macro_rules! list {
    ($([$low:literal, $high:literal] $weight:literal),*) => {
        [$(Focal { low: $low, high: $high, weight: $weight }),*]
    };
}

// The table's lists, each by the first case that has it.
const P1: [Focal; 3] = list![[1, 3] 3, [1, 1] 6, [0, 0] 3];

const P2: [Focal; 4] = list![[3, 7] 3, [3, 4] 6, [1, 4] 1, [1, 1] 2];

const P6: [Focal; 4] = list![[2, 4] 3, [2, 3] 6, [1, 4] 1, [1, 1] 2];

const P7: [Focal; 4] = list![[7, 10] 429, [3, 8] 2211, [0, 6] 5360, [0, 4] 2000];

// The lists of eight single speeds and a rest, and of two of these in series.
const NINE: [Focal; 9] = list![
    [7, 7] 1, [6, 6] 1, [5, 5] 1, [4, 4] 1, [3, 3] 1, [2, 2] 1, [1, 1] 1, [0, 4095] 1, [0, 0] 1
];

const NINES: [Focal; 16] = list![
    [7, 7] 1, [6, 6] 3, [5, 5] 5, [4, 4] 7, [3, 3] 9, [2, 2] 11, [1, 1] 13, [0, 4095] 1,
    [0, 7] 2, [0, 6] 2, [0, 5] 2, [0, 4] 2, [0, 3] 2, [0, 2] 2, [0, 1] 2, [0, 0] 17
];

// The slowest of four speeds: of D1, of D2, of D3 with 4, and of three such modules shared.
const EIGHT: [Focal; 8] = list![
    [7, 7] 5229, [6, 6] 5271, [5, 5] 5313, [4, 4] 5355, [3, 3] 5397, [2, 2] 5439, [1, 1] 5481, [0, 0] 28051
];

// The speeds of D1, D2 and D3.
const D1_SPEEDS: [u16; 8] = [0, 1, 2, 3, 4, 5, 6, 7];

const D2_SPEEDS: [u16; 8] = [0, 8, 16, 24, 32, 40, 48, 56];

const D3_SPEEDS: [u16; 8] = [0, 64, 128, 192, 256, 320, 384, 448];

// A shares' buffer has room for four demands and 8 bytes behind them: 9 numbers. Each byte is 1 before the call, so each number is ONES.
const SHARES_HELD: usize = 9;

const SHARES_ROOM: usize = 8 * SHARES_HELD;

const ONES: u64 = 0x0101_0101_0101_0101;

// A component: low, high and weight of each interval, and T.
fn component(total: u16, intervals: &[(u16, u16, u16)]) -> Component
    requires { length intervals.now ≤ most_held }
    ensures { result ≡ component_of total intervals.now }
{
    let mut c = Component {
        count: intervals.len(),
        total,
        ..Component::default()
    };
    // By place: an interval's three numbers lie in three arrays, as document 01 has them.
    for (i, (low, high, weight)) in intervals.iter().enumerate() {
        c.lows[i] = *low;
        c.highs[i] = *high;
        c.weights[i] = *weight;
    }
    c
}

// A component of single speeds, with weight 1 each.
fn single_speeds(total: u16, speeds: &[u16]) -> Component
    requires { length speeds.now ≤ most_held }
    ensures { result ≡ single_speeds total speeds.now }
{
    let n = speeds.len();
    let mut places = [0; MOST_HELD];
    places[..n].copy_from_slice(speeds);
    Component {
        lows: places,
        highs: places,
        weights: [1; MOST_HELD],
        count: n,
        total,
    }
}

// The code of a join in a structure. No `From` in theory: only these rows ask for a join's code.
fn code_of(join: Join) -> u16
    ensures { result ≡ join_code join }
{
    match join {
        Join::Series => theory::SERIES_CODE,
        Join::Shared => theory::SHARED_CODE,
        Join::Spare => theory::SPARE_CODE,
    }
}

// The sheet of components with a structure.
fn sheet_with(components: &[Component], entries: [u16; MOST_ENTRIES]) -> Sheet
    requires { length components.now ≤ most_components }
    ensures { bytes_of result ≡ sheet_of (plan_of components.now entries) }
{
    let n = components.len();
    let mut places = Plan::default().components;
    places[..n].copy_from_slice(components);
    let p = Plan {
        components: places,
        count: n,
        entries,
    };
    let mut bytes = [0u8; LONGEST];
    // A refused plan has no bytes, as `sheet_of` says: a `Result` would only be unwrapped by each row.
    let length = writing::write_sheet(p, &mut bytes).unwrap_or(0);
    Sheet { bytes, length }
}

// The sheet of components, each joined to those before it: the structure 0, 0 1 join, 0 1 join 2 join and so on.
fn sheet(components: &[Component], join: Join) -> Sheet
    requires { length components.now ≤ most_components }
    ensures { bytes_of result ≡ sheet_of (chain components.now join) }
{
    let code = code_of(join);
    sheet_with(components, [0, 1, code, 2, code, 3, code, 4, code, 5, code])
}

// The sheet of one component.
fn alone(c: Component) -> Sheet
    ensures { bytes_of result ≡ sheet_of (chain (c ∷ []) Join.Series) }
{
    sheet(&[c], Join::Series)
}

// A and B, joined.
fn a_and_b(join: Join) -> Sheet
    ensures { bytes_of result ≡ sheet_of (chain (component_a ∷ component_b ∷ []) join) }
{
    let a = component(4, &[(0, 0, 1), (2, 3, 3)]);
    let b = component(3, &[(1, 1, 2), (1, 4, 1)]);
    sheet(&[a, b], join)
}

// A and B with another structure, in bytes 24 and 25 of their sheet.
fn a_and_b_as(first: u8, second: u8) -> Sheet
    ensures { bytes_of result ≡ slice_set (slice_set (sheet_of (chain (component_a ∷ component_b ∷ []) Join.Shared)) 24 first) 25 second }
{
    a_and_b(Join::Shared).with(24, first).with(25, second)
}

// W.
fn sheet_w() -> Sheet
    ensures { bytes_of result ≡ sheet_of (chain (W0 ∷ W1 ∷ []) Join.Series) }
{
    let first = component(100, &[(0, 4, 20), (3, 8, 67), (7, 10, 13)]);
    let second = component(100, &[(0, 6, 67), (8, 10, 33)]);
    sheet(&[first, second], Join::Series)
}

// D1, D2 and a third component, of these speeds.
fn d_and(speeds: &[u16]) -> Sheet
    requires { length speeds.now ≤ most_held }
    ensures { bytes_of result ≡ sheet_of (chain (D1 ∷ D2 ∷ single_speeds (length speeds.now) speeds.now ∷ []) Join.Shared) }
{
    let d1 = single_speeds(8, &D1_SPEEDS);
    let d2 = single_speeds(8, &D2_SPEEDS);
    let d3 = single_speeds(speeds.len() as u16, speeds);
    sheet(&[d1, d2, d3], Join::Shared)
}

// D1, D2 and D3 with so many speeds.
fn d_with(count: u16) -> Sheet
    requires { count ≤ most_held }
    ensures { bytes_of result ≡ sheet_of (chain (D1 ∷ D2 ∷ D3 count ∷ []) Join.Shared) }
{
    d_and(&D3_SPEEDS[..usize::from(count)])
}

// D1, D2 and D3 with 4, twice, with a structure.
fn two_groups(entries: [u16; MOST_ENTRIES]) -> Sheet
    ensures { bytes_of result ≡ sheet_of (plan_of two_groups entries) }
{
    let d1 = single_speeds(8, &D1_SPEEDS);
    let d2 = single_speeds(8, &D2_SPEEDS);
    let d3 = single_speeds(4, &D3_SPEEDS[..4]);
    sheet_with(&[d1, d2, d3, d1, d2, d3], entries)
}

// A speed in a list, with weight 1.
fn single(speed: u16) -> Focal
    ensures { result ≡ focal speed speed 1 }
{
    Focal {
        low: speed,
        high: speed,
        weight: 1,
    }
}

// Every speed from 255 down to 0, with weights that begin at 1 and rise by `step`: by 0 it is the list of D1, D2 and D3 with 4, by 2 that of
// two such lists in series.
fn every_speed(step: u16) -> [Focal; MOST_INTERVALS]
    ensures { result ≡ every_speed step }
{
    array::from_fn(|i| Focal {
        weight: u64::from(step) * i as u64 + 1,
        ..single((MOST_INTERVALS - 1 - i) as u16)
    })
}

// From record 62 on: the speed 4,095 with weight 127, then 4,094, and the 192 from 191 down.
fn speeds_to_ceiling() -> [Focal; MOST_INTERVALS]
    ensures { result ≡ speeds_to_ceiling }
{
    let mut list = every_speed(0);
    list[62] = Focal {
        weight: 127,
        ..single(4095)
    };
    list[63] = single(4094);
    list
}

impl Sheet {
    // This sheet with another byte i.
    fn with(mut self, i: usize, byte: u8) -> Sheet
        requires { i < LONGEST }
        ensures { bytes_of result ≡ slice_set (bytes_of self) i byte }
    {
        self.bytes[i] = byte;
        self
    }

    // A call with the table's allowance, a store that is just long enough, and a whole shares' buffer.
    fn ask<'a>(&'a self, asked: Asked<'a>) -> Call<'a>
        ensures { Asks result (bytes_of self.now) asked.entry 1000 store_bytes SHARES_ROOM }
    {
        Call {
            sheet: &self.bytes[..self.length],
            asked,
            allowance: 1000,
            store: ROOM,
            shares: SHARES_ROOM,
        }
    }

    fn at(&self, demand: u32) -> Call<'_>
        ensures { Asks result (bytes_of self.now) (Asked.Bounds demand) 1000 store_bytes SHARES_ROOM }
    {
        self.ask(Asked::Bounds(demand))
    }

    fn speed(&self, target: u32) -> Call<'_>
        ensures { Asks result (bytes_of self.now) (Asked.Speed target) 1000 store_bytes SHARES_ROOM }
    {
        self.ask(Asked::Speed(target))
    }

    fn set<'a>(&'a self, demands: &'a [u32]) -> Call<'a>
        ensures { Asks result (bytes_of self.now) (Asked.Set demands.entry) 1000 store_bytes SHARES_ROOM }
    {
        self.ask(Asked::Set(demands))
    }
}

impl<'a> Call<'a> {
    // This call with another allowance.
    fn allow(mut self, allowance: u32) -> Call<'a>
        ensures { Asks result self.entry.sheet.now self.entry.asked allowance self.entry.store self.entry.shares }
    {
        self.allowance = allowance;
        self
    }

    // This call with so many bytes of store.
    fn store(mut self, store: usize) -> Call<'a>
        requires { store ≤ store_bytes }
        ensures { Asks result self.entry.sheet.now self.entry.asked self.entry.allowance store self.entry.shares }
    {
        self.store = store;
        self
    }

    // This call with so many bytes for shares.
    fn share(mut self, shares: usize) -> Call<'a>
        requires { shares ≤ SHARES_ROOM }
        ensures { Asks result self.entry.sheet.now self.entry.asked self.entry.allowance self.entry.store shares }
    {
        self.shares = shares;
        self
    }

    // What it answers on a store.
    fn answer(&self, store: &mut [u8]) -> Answer
        ensures { Answered self.now.asked self.now store.old result store.new }
    {
        let sheet = self.sheet;
        match self.asked {
            Asked::Bounds(d) => Answer::Bounds(evaluate::bounds(sheet, d, self.allowance, store)),
            Asked::Speed(t) => Answer::Speed(evaluate::speed(sheet, t, self.allowance, store)),
            Asked::Set(ds) => {
                let mut shares = [1u8; SHARES_ROOM];
                let lent = &mut shares[..self.shares];
                let run = evaluate::set(sheet, ds, self.allowance, store, lent);
                Answer::Set(run, numbers_in(&shares))
            }
        }
    }

    // The row in which it answers so, with this list in the store.
    fn gives(self, wanted: Answer, list: &'a [Focal]) -> Row<'a>
        ensures { result ≡ record { call = self.entry; wanted = wanted; list = list.entry } }
    {
        Row {
            call: self,
            wanted,
            list,
        }
    }

    // The row in which it is refused: there is no list, and a shares' buffer is left as it was.
    fn refused(self, refusal: Refusal) -> Row<'a>
        ensures { (result.call ≡ self.entry) × (result.wanted ≡ refused_as self.entry.asked refusal) × (result.list.now ≡ []) }
    {
        let wanted = match self.asked {
            Asked::Bounds(_) => Answer::Bounds(Err(refusal)),
            Asked::Speed(_) => Answer::Speed(Err(refusal)),
            Asked::Set(_) => Answer::Set(Err(refusal), [ONES; SHARES_HELD]),
        };
        self.gives(wanted, &[])
    }
}

// The numbers in a shares' buffer, 8 bytes each. No twin of crate wire's `numbers_in`, whose numbers have 2 bytes and are cast to 16 bits.
fn numbers_in(shares: &[u8; SHARES_ROOM]) -> [u64; SHARES_HELD]
    ensures { result ≡ numbers_of shares.now }
{
    array::from_fn(|i| numbers::read_number(shares, 8 * i, 8))
}

// What a call answers; for a set of demands also each number in the shares' buffer afterwards.
#[derive(Clone, Copy, PartialEq, Eq)]
enum Answer {
    Bounds(Result<Accepted, Refusal>),
    Speed(Result<AcceptedSpeed, Refusal>),
    Set(Result<AcceptedRun, Refusal>, [u64; SHARES_HELD]),
}

impl Answer {
    // The length of the list in the store.
    fn intervals(&self) -> usize
        ensures { result ≡ intervals_of self.now }
    {
        match self {
            Answer::Bounds(a) => a.unwrap_or_default().run.intervals,
            Answer::Speed(a) => a.unwrap_or_default().answer.run.intervals,
            Answer::Set(r, _) => r.unwrap_or_default().intervals,
        }
    }
}

// What accepted calls answer.
fn accepted(total: u64, belief: u64, plausibility: u64, pairs: u64, intervals: usize) -> Accepted
    ensures { result ≡ accepted_of total belief plausibility pairs intervals }
{
    let run = AcceptedRun {
        total,
        pairs,
        intervals,
    };
    let shares = Shares {
        belief,
        plausibility,
    };
    Accepted { run, shares }
}

fn ok(answer: Accepted) -> Answer
    ensures { result ≡ Answer.Bounds (Ok answer) }
{
    Answer::Bounds(Ok(answer))
}

fn ok_speed(speed: u64, answer: Accepted) -> Answer
    ensures { result ≡ Answer.Speed (Ok (record { answer = answer; speed = speed })) }
{
    Answer::Speed(Ok(AcceptedSpeed { answer, speed }))
}

fn ok_set(total: u64, pairs: u64, intervals: usize, numbers: [u64; SHARES_HELD]) -> Answer
    ensures { result ≡ Answer.Set (Ok (record { total = total; pairs = pairs; intervals = intervals })) numbers }
{
    let run = AcceptedRun {
        total,
        pairs,
        intervals,
    };
    Answer::Set(Ok(run), numbers)
}

// The list in the store is this one.
fn holds(list: Records, wanted: &[Focal]) -> bool
    ensures { IsTrue result ↔ records_of list.entry ≡ wanted.now }
{
    let read = list.records.iter().map(records::focal_in);
    // Not by the iterators' `eq`: tried, and the proof did not close.
    list.records.len() == wanted.len() && read.zip(wanted).all(|(f, g)| f == *g)
}

// A row of the table: a call, what it has to answer, and the list that then stands in the store.
#[derive(Clone, Copy)]
struct Row<'a> {
    call: Call<'a>,
    wanted: Answer,
    list: &'a [Focal],
}

// An answer with its shares as it is printed.
#[derive(Drop)]
struct Values(Result<Accepted, Refusal>);

impl fmt::Display for Values {
    fn fmt<W: fmt::Write>(&self, f: &mut fmt::Formatter<W>) -> fmt::Result {
        let number = theory::number_in(self.0);
        let Accepted { run, shares } = self.0.unwrap_or_default();
        write!(f, ": number {number}, total {}", run.total)?;
        write!(f, ", belief {}", shares.belief)?;
        write!(f, ", plausibility {}", shares.plausibility)?;
        write!(f, ", pairs {}, intervals {}", run.pairs, run.intervals)
    }
}

// A row as it is printed: what is asked and answered, and a list of at most four records.
#[derive(Drop)]
struct Line<'a> {
    asked: Asked<'a>,
    answer: Answer,
    list: Records<'a>,
}

impl<'a> fmt::Display for Line<'a> {
    fn fmt<W: fmt::Write>(&self, f: &mut fmt::Formatter<W>) -> fmt::Result {
        match &self.answer {
            Answer::Bounds(a) => write!(f, "{}", Values(*a))?,
            Answer::Speed(a) => {
                let speed = a.unwrap_or_default().speed;
                write!(f, ": speed {speed}{}", Values(a.map(|a| a.answer)))?;
            }
            Answer::Set(run, numbers) => {
                let number = theory::number_in(*run);
                let r = run.unwrap_or_default();
                write!(f, ": number {number}, total {}", r.total)?;
                write!(f, ", pairs {}, intervals {}", r.pairs, r.intervals)?;
                if let (Asked::Set(ds), Ok(_)) = (self.asked, *run) {
                    for pair in numbers.chunks_exact(2).take(ds.len()) {
                        write!(f, ", belief {} and plausibility {}", pair[0], pair[1])?;
                    }
                }
            }
        }
        if self.list.records.len() <= 4 {
            for r in self.list.records {
                let focal = records::focal_in(r);
                write!(f, " [{},{}] {}", focal.low, focal.high, focal.weight)?;
            }
        }
        Ok(())
    }
}

// The table being run: where its rows are printed, and how many of them disagree.
#[derive(Drop)]
struct Table {
    out: Stdout,
    disagree: u64,
}

impl Table {
    // Runs a row: prints its name, what the call answers, and whether that and the list in the store are as wanted.
    fn run(&mut self, name: &str, row: Row) -> io::Result<()> {
        let mut store = [0u8; ROOM];
        let answer = row.call.answer(&mut store[..row.call.store]);
        let line = Line {
            asked: row.call.asked,
            answer,
            list: Records::new(&store, answer.intervals()),
        };
        if answer == row.wanted && holds(line.list, row.list) {
            return println!(self.out; "{name}{line}: agrees");
        }
        self.disagree = self.disagree.saturating_add(1);
        println!(self.out; "{name}{line}: DISAGREES")
    }
}

// Runs rows one after the other.
macro_rules! rows {
    ($table:ident; $($name:literal: $row:expr,)*) => {
        $($table.run($name, $row)?;)*
    };
}

// P1 to P6.
fn rows_of_a_and_b(t: &mut Table) -> io::Result<()> {
    let series = a_and_b(Join::Series);
    let shared = a_and_b(Join::Shared);
    let spare = a_and_b(Join::Spare);
    rows! { t;
        "P1 A, B series, demand 2": series.at(2).gives(ok(accepted(12, 0, 3, 4, 3)), &P1),
        "P2 A, B shared, demand 1": shared.at(1).gives(ok(accepted(12, 12, 12, 4, 4)), &P2),
        "P3 same, demand 3": shared.at(3).gives(ok(accepted(12, 9, 10, 4, 4)), &P2),
        "P4 same, demand 7": shared.at(7).gives(ok(accepted(12, 0, 3, 4, 4)), &P2),
        "P4 same, demand 8": shared.at(8).gives(ok(accepted(12, 0, 0, 4, 4)), &P2),
        "P5 same, demand 0": shared.at(0).gives(ok(accepted(12, 12, 12, 4, 4)), &P2),
        "P6 A, B spare, demand 0": spare.at(0).gives(ok(accepted(12, 12, 12, 4, 4)), &P6),
    }
    Ok(())
}

// P7 to P10.
fn rows_of_w_and_refusals(t: &mut Table) -> io::Result<()> {
    let w = sheet_w();
    let p2 = a_and_b(Join::Shared);
    let other = a_and_b_as(0x80, 0x10);
    rows! { t;
        "P7 W, demand 0": w.at(0).gives(ok(accepted(10000, 10000, 10000, 6, 4)), &P7),
        "P8 W, demand 7": w.at(7).gives(ok(accepted(10000, 429, 2640, 6, 4)), &P7),
        "P9 case P2, demand 3, allowance 4": p2.at(3).allow(4).gives(ok(accepted(12, 9, 10, 4, 4)), &P2),
        "P9 case P2, demand 3, allowance 3": p2.at(3).allow(3).refused(Refusal::Allowance),
        "P10 structure 8 0 1": other.at(0).refused(Refusal::Joins),
    }
    Ok(())
}

// The table's rows without a P. Byte 3 of a sheet ends the first component's T.
fn rows_of_limits(t: &mut Table) -> io::Result<()> {
    let five = d_with(5);
    let any = alone(component(1000, &[(0, 4095, 1000)]));
    let above = any.with(3, 0xE9);
    let p2 = a_and_b(Join::Shared);
    let other = a_and_b_as(0x00, 0x80);
    rows! { t;
        "D1, D2, D3 with 4, demand 0": d_with(4).at(0).gives(ok(accepted(256, 256, 256, 320, 256)), &every_speed(0)),
        "D1, D2, D3 with 5, allowance 384": five.at(0).allow(384).refused(Refusal::ListLength),
        "D1, D2, D3 with 5, allowance 383": five.at(0).allow(383).refused(Refusal::Allowance),
        "T 1,000, demand 1": any.at(1).gives(ok(accepted(1000, 0, 1000, 0, 1)), &list![[0, 4095] 1000]),
        "T 1,001, demand 1": above.at(1).refused(Refusal::Total),
        "buffer 9,216 bytes, demand 3": p2.at(3).store(9216).gives(ok(accepted(12, 9, 10, 4, 4)), &P2),
        "buffer 9,215 bytes, demand 3": p2.at(3).store(9215).refused(Refusal::Store),
        "structure 0 0 8": other.at(0).refused(Refusal::Naming),
    }
    Ok(())
}

// Places of joined lists that are used again: two lists of 256 joined to one of 256, six lists of components one behind the other, and lists
// of components behind one of 256.
fn rows_of_places(t: &mut Table) -> io::Result<()> {
    let shared = code_of(Join::Shared);
    let series = code_of(Join::Series);
    let two = two_groups([0, 1, shared, 2, shared, 3, 4, shared, 5, shared, series]);
    let two_list = every_speed(2);
    let six = two_groups([0, 1, 2, 3, 4, 5, shared, shared, series, series, series]);
    let behind = two_groups([0, 1, shared, 2, shared, 3, 4, 5, series, series, series]);
    rows! { t;
        "D1, D2, D3 with 4, twice in series, demand 128, allowance 66,176":
            two.at(128).allow(66176).gives(ok(accepted(65536, 16384, 16384, 66176, 256)), &two_list),
        "same, allowance 66,175": two.at(128).allow(66175).refused(Refusal::Allowance),
        "six components, then the joins, demand 7, allowance 3,312":
            six.at(7).allow(3312).gives(ok(accepted(65536, 5229, 5229, 3312, 8)), &EIGHT),
        "three components behind a list of 256, demand 7, allowance 2,464":
            behind.at(7).allow(2464).gives(ok(accepted(65536, 5229, 5229, 2464, 8)), &EIGHT),
    }
    Ok(())
}

// Time that nobody accounted for. Byte 3 of the sheet of A and B ends A's T.
fn rows_of_rests(t: &mut Table) -> io::Result<()> {
    let logged = alone(component(1000, &[(900, 1400, 500), (1200, 2000, 440)]));
    let logged_list = list![[1200, 2000] 440, [900, 1400] 500, [0, 4095] 60];
    let any = alone(component(10, &[(0, 4095, 3), (5, 6, 4)]));
    let any_list = list![[5, 6] 4, [0, 4095] 6];
    let little = alone(component(1000, &[(4095, 4095, 1)]));
    let little_list = list![[4095, 4095] 1, [0, 4095] 999];
    let eight = single_speeds(9, &D1_SPEEDS);
    let nine = alone(eight);
    let nines = sheet(&[eight, eight], Join::Series);
    let above = a_and_b(Join::Shared).with(3, 3);
    let below = a_and_b(Join::Shared).with(3, 5);
    let below_list = list![[3, 7] 3, [3, 4] 6, [1, 4095] 3, [1, 4] 1, [1, 1] 2];
    rows! { t;
        "940 of 1,000 accounted for, demand 1,000": logged.at(1000).allow(0).gives(ok(accepted(1000, 440, 1000, 0, 3)), &logged_list),
        "a rest where [0,4095] is listed, demand 5": any.at(5).allow(0).gives(ok(accepted(10, 4, 10, 0, 2)), &any_list),
        "weight 1 of T 1,000, demand 4,095": little.at(4095).allow(0).gives(ok(accepted(1000, 1, 1000, 0, 2)), &little_list),
        "eight intervals and a rest, demand 7": nine.at(7).allow(0).gives(ok(accepted(9, 1, 2, 0, 9)), &NINE),
        "two of these in series, demand 7, allowance 81": nines.at(7).allow(81).gives(ok(accepted(81, 1, 4, 81, 16)), &NINES),
        "two of these in series, allowance 80": nines.at(7).allow(80).refused(Refusal::Allowance),
        "case P2, A with T 3": above.at(3).refused(Refusal::Weights),
        "case P2, A with T 5, demand 3": below.at(3).gives(ok(accepted(15, 9, 13, 6, 5)), &below_list),
    }
    Ok(())
}

// The ceiling of shared joins. Without it the second sheet's list would have six intervals, and the third's 257.
fn rows_of_ceiling(t: &mut Table) -> io::Result<()> {
    let top = component(1, &[(4095, 4095, 1)]);
    let one = component(1, &[(1, 1, 1)]);
    let both = sheet(&[top, one], Join::Shared);
    let fast = component(6, &[(3000, 4000, 1), (4000, 4050, 2), (4050, 4095, 3)]);
    let slow = component(2, &[(50, 60, 1), (95, 200, 1)]);
    let short = sheet(&[fast, slow], Join::Shared);
    let short_list = list![[4095, 4095] 8, [4050, 4095] 2, [3095, 4095] 1, [3050, 4060] 1];
    let d = d_and(&[0, 64, 128, 4094, 4095]);
    let d_list = speeds_to_ceiling();
    rows! { t;
        "4,095 and 1 shared, demand 4,095": both.at(4095).gives(ok(accepted(1, 1, 1, 1, 1)), &list![[4095, 4095] 1]),
        "same, demand 4,096": both.at(4096).gives(ok(accepted(1, 0, 0, 1, 1)), &list![[4095, 4095] 1]),
        "a list that the ceiling shortens, demand 4,095": short.at(4095).gives(ok(accepted(12, 8, 11, 6, 4)), &short_list),
        "D1, D2 and 0, 64, 128, 4,094, 4,095, demand 4,095, allowance 384":
            d.at(4095).allow(384).gives(ok(accepted(320, 127, 127, 384, 194)), &d_list[62..]),
        "D1, D2 and 0, 64, 128, 4,094, 4,095, allowance 383": d.at(4095).allow(383).refused(Refusal::Allowance),
    }
    Ok(())
}

// The speeds of W and of case P2, whose total is no multiple of 1,000.
fn rows_of_speeds(t: &mut Table) -> io::Result<()> {
    let w = sheet_w();
    let p2 = a_and_b(Join::Shared);
    rows! { t;
        "W, target 1": w.speed(1).gives(ok_speed(7, accepted(10000, 429, 2640, 6, 4)), &P7),
        "W, target 42": w.speed(42).gives(ok_speed(7, accepted(10000, 429, 2640, 6, 4)), &P7),
        "W, target 43": w.speed(43).gives(ok_speed(3, accepted(10000, 2640, 10000, 6, 4)), &P7),
        "W, target 264": w.speed(264).gives(ok_speed(3, accepted(10000, 2640, 10000, 6, 4)), &P7),
        "W, target 265": w.speed(265).gives(ok_speed(0, accepted(10000, 10000, 10000, 6, 4)), &P7),
        "W, target 1,000": w.speed(1000).gives(ok_speed(0, accepted(10000, 10000, 10000, 6, 4)), &P7),
        "case P2, target 750": p2.speed(750).gives(ok_speed(3, accepted(12, 9, 10, 4, 4)), &P2),
        "case P2, target 751": p2.speed(751).gives(ok_speed(1, accepted(12, 12, 12, 4, 4)), &P2),
    }
    Ok(())
}

// The order of refusals: 11, 12, 16, then 13 and 14.
fn rows_of_refused_speeds(t: &mut Table) -> io::Result<()> {
    let other = a_and_b_as(0x80, 0x10);
    let p2 = a_and_b(Join::Shared);
    let five = d_with(5);
    rows! { t;
        "structure 8 0 1, target 0, buffer 9,215 bytes": other.speed(0).store(ROOM - 1).refused(Refusal::Joins),
        "target 0, buffer 9,215 bytes": p2.speed(0).store(ROOM - 1).refused(Refusal::Store),
        "target 0": p2.speed(0).refused(Refusal::Target),
        "target 1,001, allowance 3": p2.speed(1001).allow(3).refused(Refusal::Target),
        "target 1,000, allowance 3": p2.speed(1000).allow(3).refused(Refusal::Allowance),
        "D1, D2, D3 with 5, target 1,001, allowance 384": five.speed(1001).allow(384).refused(Refusal::Target),
        "D1, D2, D3 with 5, target 1, allowance 384": five.speed(1).allow(384).refused(Refusal::ListLength),
    }
    Ok(())
}

// Sets of demands, in no order and with equal ones.
fn rows_of_sets(t: &mut Table) -> io::Result<()> {
    let w = sheet_w();
    let p2 = a_and_b(Join::Shared);
    let four = [429, 2640, 2640, 10000, 10000, 10000, 429, 2640, ONES];
    let one = [0, 0, ONES, ONES, ONES, ONES, ONES, ONES, ONES];
    let three = [0, 0, 0, 3, 9, 10, ONES, ONES, ONES];
    rows! { t;
        "W, demands 7, 3, 0, 7": w.set(&[7, 3, 0, 7]).gives(ok_set(10000, 6, 4, four), &P7),
        "W, demand 11, 16 bytes for shares": w.set(&[11]).share(16).gives(ok_set(10000, 6, 4, one), &P7),
        "case P2, demands 8, 7, 3": p2.set(&[8, 7, 3]).allow(4).gives(ok_set(12, 4, 4, three), &P2),
    }
    Ok(())
}

// The order of refusals: 11, 12, 17, 18, then 13 and 14.
fn rows_of_refused_sets(t: &mut Table) -> io::Result<()> {
    let other = a_and_b_as(0x80, 0x10);
    let p2 = a_and_b(Join::Shared);
    let five = d_with(5);
    rows! { t;
        "structure 8 0 1, no demand, buffer 9,215 bytes": other.set(&[]).store(ROOM - 1).refused(Refusal::Joins),
        "no demand, buffer 9,215 bytes": p2.set(&[]).store(ROOM - 1).refused(Refusal::Store),
        "no demand": p2.set(&[]).refused(Refusal::DemandCount),
        "17 demands, 72 bytes for shares, allowance 3": p2.set(&[3; 17]).allow(3).refused(Refusal::DemandCount),
        "2 demands, 31 bytes for shares, allowance 3": p2.set(&[3, 7]).allow(3).share(31).refused(Refusal::SharesRoom),
        "2 demands, 32 bytes for shares, allowance 3": p2.set(&[3, 7]).allow(3).share(32).refused(Refusal::Allowance),
        "D1, D2, D3 with 5, 1 demand, 15 bytes for shares, allowance 384":
            five.set(&[0]).allow(384).share(15).refused(Refusal::SharesRoom),
        "D1, D2, D3 with 5, 1 demand, allowance 384": five.set(&[0]).allow(384).refused(Refusal::ListLength),
    }
    Ok(())
}

fn main(rt: HostRuntime) -> io::Result<()> {
    let mut table = Table {
        out: rt.stdout(),
        disagree: 0,
    };
    rows_of_a_and_b(&mut table)?;
    rows_of_w_and_refusals(&mut table)?;
    rows_of_limits(&mut table)?;
    rows_of_places(&mut table)?;
    rows_of_rests(&mut table)?;
    rows_of_ceiling(&mut table)?;
    rows_of_speeds(&mut table)?;
    rows_of_refused_speeds(&mut table)?;
    rows_of_sets(&mut table)?;
    rows_of_refused_sets(&mut table)?;
    println!(table.out; "rows that disagree: {}", table.disagree)
}
