// The block of one component, read and written.
// Where a number is cast there is no `From`, a `TryFrom` would never fail, and the check proves that nothing is lost.
#![tactic(auto)]

ghost use Rattle.std.specs.Prelude.{◌≡◌, ◌≤◌, ◌*◌, length};
ghost use Rattle.field.specs.Fields.{WindowInside, put_all};
ghost use Rattle.theory.specs.Limits.{most_held};
ghost use Rattle.block.specs.Block.{interval_bits, place_of, size_of, padding_of, interval_at, component_of};
ghost use Rattle.block.specs.Block.{block_in, intervals_of, fields_of};

mod extent;

pub use extent::Extent;
use field::Field;
use reader::Reader;
use theory::{Component, Focal, HeldComponent, MOST_HELD};

// The widths of a block's fields: specs/Block.antt has them with document 01's words.
const COUNT_BITS: usize = 4;

const ZERO_BITS: usize = 2;

const TOTAL_BITS: usize = 10;

const SPEED_BITS: usize = 12;

const WEIGHT_BITS: usize = 10;

const BLOCK_HEAD_BITS: usize = COUNT_BITS + ZERO_BITS + TOTAL_BITS;

const BLOCK_HEAD_BYTES: usize = BLOCK_HEAD_BITS / 8;

const INTERVAL_BITS: usize = SPEED_BITS + SPEED_BITS + WEIGHT_BITS;

// What stands at the front of a part of a sheet that is not cut short: whether a bit of it that is named zero is one (number 5, and no
// refusal here: number 4 of a later block comes first), how many bytes it has, and its component.
#[derive(Clone, Copy)]
pub struct Block {
    pub nonzero: bool,
    pub size: usize,
    pub component: Component,
}

// The bit at which interval i of a block starts.
fn interval_place(i: usize) -> usize
    requires { i ≤ most_held }
    ensures { result ≡ place_of i }
{
    BLOCK_HEAD_BITS + INTERVAL_BITS * i
}

impl Extent {
    // That of a block of this component.
    pub fn of(c: HeldComponent) -> Extent
        ensures { result.count ≡ c.entry.component.now.count }
    {
        Extent {
            count: c.component.count,
        }
    }

    // Its bytes.
    pub fn size(self) -> usize
        ensures { result ≡ size_of self.count }
    {
        // Not `div_ceil`: crate field says why.
        (interval_place(self.count) + 7) / 8
    }

    // How many zero bits stand behind the last interval, up to the byte: fewer than 8, which the compiler sees in this form.
    fn padding_bits(self) -> usize
        ensures { result ≡ padding_of self.count }
    {
        (8 - interval_place(self.count) % 8) % 8
    }
}

// The interval at bit `place`. Its bits are gathered once; the sizes of its fields are fixed entries of the table. Buffer and place stand one by
// one, as in `s[i..]`.
fn read_interval(part: &[u8], place: usize) -> Focal
    requires { WindowInside part.now place interval_bits }
    ensures { result ≡ interval_at part.now place }
{
    let bits = Reader::new(part, place).window(INTERVAL_BITS);
    let speed_size = powers::pow2(SPEED_BITS);
    let weight_size = powers::pow2(WEIGHT_BITS);
    let high_weight_size = powers::pow2(SPEED_BITS + WEIGHT_BITS);
    Focal {
        low: (bits / high_weight_size % speed_size) as u16,
        high: (bits / weight_size % speed_size) as u16,
        weight: bits % weight_size,
    }
}

// The component in the block at the front of part; T is total.
fn read_component(part: &[u8], extent: Extent, total: u16) -> Component
    requires { size_of extent.count ≤ length part.now }
    ensures { result ≡ component_of part.now extent.count total }
{
    let mut c = Component::default();
    // By place: an interval's three numbers lie in three arrays, as document 01 has them.
    for i in 0..extent.count {
        let f = read_interval(part, interval_place(i));
        c.lows[i] = f.low;
        c.highs[i] = f.high;
        c.weights[i] = f.weight as u16;
    }
    c.count = extent.count;
    c.total = total;
    c
}

// The block at the front of part, which is the rest of a sheet from the block's first byte on; none where it is cut short or its k is not
// 1 to 8 (number 4).
pub fn read_block(part: &[u8]) -> Option<Block>
    ensures { result ≡ block_in part.now }
{
    if part.len() < BLOCK_HEAD_BYTES {
        return None;
    }
    let mut head = Reader::new(part, 0);
    let k = head.take(COUNT_BITS) as usize;
    let zero = head.take(ZERO_BITS);
    let total = head.take(TOTAL_BITS) as u16;
    if !(1..=MOST_HELD).contains(&k) {
        return None;
    }
    let extent = Extent { count: k };
    let size = extent.size();
    if part.len() < size {
        return None;
    }
    let padding = Reader::new(part, interval_place(k)).take(extent.padding_bits());
    Some(Block {
        nonzero: 0 < zero || 0 < padding,
        size,
        component: read_component(part, extent, total),
    })
}

// The intervals of c, in a block at the front of dst.
fn put_intervals(dst: &mut [u8], c: HeldComponent)
    requires { place_of c.component.now.count ≤ 8 * length dst.old }
    ensures { dst.new ≡ put_all dst.old (place_of 0) (intervals_of c.entry.component.now c.entry.component.now.count) }
{
    let c = c.component;
    // By place, as they are read.
    for i in 0..c.count {
        let low = Field {
            width: SPEED_BITS,
            value: u32::from(c.lows[i]),
        };
        let high = Field {
            width: SPEED_BITS,
            value: u32::from(c.highs[i]),
        };
        let weight = Field {
            width: WEIGHT_BITS,
            value: u32::from(c.weights[i]),
        };
        field::put_fields(dst, interval_place(i), &[low, high, weight]);
    }
}

// The block of c, at the front of dst.
pub fn write_block(dst: &mut [u8], c: HeldComponent)
    requires { size_of c.component.now.count ≤ length dst.old }
    ensures { dst.new ≡ put_all dst.old 0 (fields_of c.entry.component.now) }
{
    let k = c.component.count;
    let count = Field {
        width: COUNT_BITS,
        value: k as u32,
    };
    let zero = Field {
        width: ZERO_BITS,
        value: 0,
    };
    let total = Field {
        width: TOTAL_BITS,
        value: u32::from(c.component.total),
    };
    field::put_fields(dst, 0, &[count, zero, total]);
    put_intervals(dst, c);
    let padding = Field {
        width: Extent::of(c).padding_bits(),
        value: 0,
    };
    field::put_field(dst, interval_place(k), padding);
}
