// Fields of bits in a slice of bytes, most significant bit first. 8 is the width of a byte; powers of two come from crate powers.
// Where a number is cast there is no `From`, a `TryFrom` would never fail, and the check proves that nothing is lost.
#![tactic(auto)]

ghost use Rattle.std.specs.Prelude.{◌≡◌, ◌*◌, ◌%◌, ◌^◌, ◌≤◌, ◌<◌, length};
ghost use Rattle.field.specs.Bits.{field_at, window_at, with_bit, set_bit, put_at};
ghost use Rattle.field.specs.Fields.{FieldInside, FieldsInside, WindowInside, put_all};

// A field: a number and its width in bits.
#[derive(Clone, Copy)]
pub struct Field {
    pub width: usize,
    pub value: u32,
}

// Buffer, place and width are parameters here and below, as those of `s[i..j]`: a struct of them would say no more.

// The window of width bits at bit at: the number that begins with the bits before them in their first byte and ends with them. At most eight
// bytes are gathered.
pub fn window(src: &[u8], at: usize, width: usize) -> u64
    requires { WindowInside src.now at width }
    ensures { result ≡ window_at src.now at width }
{
    let end = at + width;
    let first = at / 8;
    // Not `div_ceil`, here and in block: tried, reading takes 5 % longer, and the call for a chair with rests goes from 0.94 to 1.05 times plain C.
    let last = (end + 7) / 8;
    let acc = numbers::read_number(src, first, last - first);
    acc / powers::byte_pow2(last * 8 - end)
}

// The lowest width bits of x. A padding's width is known only at run time; it is below 8 and takes one of eight fixed entries.
fn lowest_bits(x: u64, width: usize) -> u64
    requires { width ≤ 32 }
    ensures { result ≡ x % 2 ^ width }
{
    if width < 8 {
        x % powers::byte_pow2(width)
    } else {
        x % powers::pow2(width)
    }
}

// The field of width bits at bit at.
pub fn field_at(src: &[u8], at: usize, width: usize) -> u32
    requires { FieldInside src.now at width }
    ensures { result ≡ field_at src.now at width }
{
    lowest_bits(window(src, at, width), width) as u32
}

// The byte x with the bit of weight p set to b.
fn with_bit(x: u64, p: u64, b: u64) -> u64
    requires { (x < 256) × (0 < p) × (p ≤ 128) × (b < 2) }
    ensures { result ≡ with_bit x p b }
{
    x - x / p % powers::pow2(1) * p + b * p
}

// Sets bit j to b.
fn put_bit(dst: &mut [u8], j: usize, b: u64)
    requires { (j < 8 * length dst.old) × (b < 2) }
    ensures { dst.new ≡ set_bit dst.old j b }
{
    let i = j / 8;
    let p = powers::byte_pow2(7 - j % 8);
    let x = u64::from(dst[i]);
    dst[i] = with_bit(x, p, b) as u8;
}

// Sets the bits of a field from bit at to the lowest bits of its value; every other bit stays.
pub fn put_field(dst: &mut [u8], at: usize, field: Field)
    requires { FieldInside dst.old at field.width }
    ensures { dst.new ≡ put_at dst.old at field.width field.value }
{
    let two = powers::pow2(1);
    let mut x = u64::from(field.value);
    // Bits have no slice: by place, the lowest first.
    for i in (0..field.width).rev() {
        put_bit(dst, at + i, x % two);
        x /= two;
    }
}

// Puts fields in a row from bit at.
pub fn put_fields(dst: &mut [u8], at: usize, fields: &[Field])
    requires { FieldsInside dst.old at fields.now }
    ensures { dst.new ≡ put_all dst.old at fields.now }
{
    let mut place = at;
    for field in fields {
        put_field(dst, place, *field);
        place += field.width;
    }
}
