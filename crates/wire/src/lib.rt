// What C hosts pass as bytes, most significant first: a plan, as numbers of 16 bits at fixed places; the demands of a set, 32 bits each.
// Where a number is cast there is no `From`, a `TryFrom` would never fail, and the check proves that nothing is lost.
#![tactic(auto)]

ghost use Rattle.std.specs.Prelude.{◌≡◌, ◌++◌, ◌+◌, ◌*◌, ◌≤◌, length, take, drop};
ghost use Rattle.theory.specs.Limits.{most_entries, most_demands};
ghost use Rattle.wire.specs.Wire.{number_bytes, component_size, plan_bytes, number_in, numbers_in, decode_component, decode_plan};
ghost use Rattle.wire.specs.Wire.{with_numbers, component_numbers_of, encode_plan};
ghost use Rattle.wire.specs.Demands.{demand_count, demands_in, decode_demands};

use plan::Plan;
use std::array;
use theory::{Component, MOST_COMPONENTS, MOST_DEMANDS, MOST_ENTRIES, MOST_HELD};

// The places: specs/Wire.antt has them with their reasons.
const NUMBER_BYTES: usize = 2;

const COMPONENT_SIZE: usize = 2 + 3 * MOST_HELD;

const ENTRIES_START: usize = 1 + COMPONENT_SIZE * MOST_COMPONENTS;

pub const PLAN_BYTES: usize = NUMBER_BYTES * (ENTRIES_START + MOST_ENTRIES);

// Number i. Buffer and place are two parameters here and below, as the two of `s[i]`: a struct of them would say no more.
fn number_in(s: &[u8], i: usize) -> u16
    requires { number_bytes * (i + 1) ≤ length s.now }
    ensures { result ≡ number_in s.now i }
{
    numbers::read_number(s, NUMBER_BYTES * i, NUMBER_BYTES) as u16
}

// The N numbers from number i on. Of 16 bits: a function for any width would answer 64 bits, and each caller would cast them.
fn numbers_in<const N: usize>(s: &[u8], i: usize) -> [u16; N]
    requires { number_bytes * (i + N) ≤ length s.now }
    ensures { result ≡ numbers_in s.now i N }
{
    array::from_fn(|j| number_in(s, i + j))
}

// The component whose numbers start at number i.
#[tactic(auto, unfolding(crate::specs::Wire::decode_component))]
fn decode_component(s: &[u8], i: usize) -> Component
    requires { number_bytes * (i + component_size) ≤ length s.now }
    ensures { result ≡ decode_component s.now i }
{
    Component {
        lows: numbers_in(s, i + 2),
        highs: numbers_in(s, i + 2 + MOST_HELD),
        weights: numbers_in(s, i + 2 + 2 * MOST_HELD),
        count: usize::from(number_in(s, i)),
        total: number_in(s, i + 1),
    }
}

// The plan that the bytes spell. No `From`: it asks for enough bytes. The components not by `array::from_fn`: tried, the compiled writer makes
// four more rows of them, and clears each.
#[tactic(auto, using(crate::proofs::Decoding::filled_next))]
pub fn decode_plan(s: &[u8]) -> Plan
    requires { plan_bytes ≤ length s.now }
    ensures { result ≡ decode_plan s.now }
{
    let mut components = [Component::default(); MOST_COMPONENTS];
    for (i, component) in components.iter_mut().enumerate() {
        *component = decode_component(s, 1 + COMPONENT_SIZE * i);
    }
    Plan {
        components,
        count: usize::from(number_in(s, 0)),
        entries: numbers_in(s, ENTRIES_START),
    }
}

// Writes the N numbers from number i on. `few`: the row is copied as numbers of 64 bits, and the copy has to fit memory.
fn encode_numbers<const N: usize>(out: &mut [u8], i: usize, ns: [u16; N])
    requires few { N ≤ most_entries }
    requires in_bounds { number_bytes * (i + N) ≤ length out.old }
    ensures { out.new ≡ with_numbers out.old i N ns.entry }
{
    numbers::write_numbers(out, NUMBER_BYTES * i, NUMBER_BYTES, &ns.map(u64::from));
}

// Writes a component from number i on.
fn encode_component(out: &mut [u8], i: usize, c: &Component)
    requires { number_bytes * (i + component_size) ≤ length out.old }
    ensures { out.new ≡ with_numbers out.old i component_size (component_numbers_of c.now) }
{
    numbers::write_number(out, NUMBER_BYTES * i, NUMBER_BYTES, c.count as u64);
    encode_numbers(out, i + 1, [c.total]);
    encode_numbers(out, i + 2, c.lows);
    encode_numbers(out, i + 2 + MOST_HELD, c.highs);
    encode_numbers(out, i + 2 + 2 * MOST_HELD, c.weights);
}

// Writes a plan at the front of out.
pub fn encode_plan(out: &mut [u8], p: Plan)
    requires { plan_bytes ≤ length out.old }
    ensures { out.new ≡ encode_plan p ++ drop plan_bytes out.old }
{
    numbers::write_number(out, 0, NUMBER_BYTES, p.count as u64);
    for (i, c) in p.components.iter().enumerate() {
        encode_component(out, 1 + COMPONENT_SIZE * i, c);
    }
    encode_numbers(out, ENTRIES_START, p.entries);
}

const DEMAND_BYTES: usize = 4;

// How many demands so many bytes are: none where they are not 4 times 1 to 16. No `Option`: a set of none is refused by the test of a set, 17.
fn demand_count(bytes: usize) -> usize
    ensures { result ≡ demand_count bytes }
{
    if bytes % DEMAND_BYTES == 0 && bytes <= DEMAND_BYTES * MOST_DEMANDS {
        bytes / DEMAND_BYTES
    } else {
        0
    }
}

// The demands of a set: the first `count` places are used; `decode_demands` makes the others 0.
#[derive(Clone, Copy)]
pub struct Demands {
    pub values: [u32; MOST_DEMANDS],
    pub count: usize,
}

// Puts the demands that the bytes spell into the first places of a row, and answers how many they are; the other places stay.
#[tactic(auto, using(crate::proofs::Decoding::filled_next))]
fn put_demands(s: &[u8], row: &mut [u32; MOST_DEMANDS]) -> usize
    ensures value { result ≡ demand_count (length s.now) }
    ensures row_after { row.new ≡ demands_in s.now ++ drop (demand_count (length s.now)) row.old }
{
    let count = demand_count(s.len());
    for (i, demand) in row[..count].iter_mut().enumerate() {
        *demand = numbers::read_number(s, DEMAND_BYTES * i, DEMAND_BYTES) as u32;
    }
    count
}

// The demands that the bytes spell.
pub fn decode_demands(s: &[u8]) -> Demands
    ensures value { result ≡ decode_demands s.now }
    ensures few { result.count ≤ most_demands }
    ensures used { take result.count result.values ≡ demands_in s.now }
{
    let mut values = [0; MOST_DEMANDS];
    let count = put_demands(s, &mut values);
    Demands { values, count }
}
