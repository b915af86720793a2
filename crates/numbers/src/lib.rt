// Numbers in bytes, each most significant byte first.
// Where a number is cast there is no `From`, a `TryFrom` would never fail, and the check proves that nothing is lost.
#![tactic(auto)]

ghost use Rattle.std.specs.Prelude.{◌≡◌, ◌++◌, ◌+◌, ◌*◌, ◌≤◌, length, take, drop};
ghost use Rattle.theory.specs.Sums.{for_each};
ghost use Rattle.numbers.specs.Numbers.{big_endian, number_at};

// The number in n bytes from `at` on, most significant first. Buffer, place and width are parameters here and below, as those of `s[i..j]`: a
// struct of them would say no more.
pub fn read_number(s: &[u8], at: usize, n: usize) -> u64
    requires n_in_bounds { at + n ≤ length s.now }
    requires n_bound { n ≤ 8 }
    ensures { result ≡ number_at s.now at n }
{
    // Not `from_be_bytes`: a power by which a field is read comes from the table, as document 02 asks. Where the width is fixed, as in records,
    // plans and demands, it is this function too: its laws serve every width.
    let base = powers::pow2(8);
    let mut acc: u64 = 0;
    for x in &s[at..at + n] {
        acc = acc * base + u64::from(*x);
    }
    acc
}

// Writes the last n bytes of v from `at` on, most significant first: records, answers, and plans as bytes; fields of a sheet are written by
// crate field.
pub fn write_number(s: &mut [u8], at: usize, n: usize, v: u64)
    requires { at + n ≤ length s.old }
    ensures { s.new ≡ take at s.old ++ (big_endian n v ++ drop (at + n) s.old) }
{
    let mut x = v;
    // Not `to_be_bytes`: n is any number. By place: where n is a constant, the compiler makes one store of it; over `iter_mut().rev()` it was
    // tried, and the proof did not close.
    for i in (0..n).rev() {
        s[at + i] = (x % 256) as u8;
        x /= 256;
    }
}

// Writes the last n bytes of each of a row of numbers from `at` on, most significant first.
pub fn write_numbers(s: &mut [u8], at: usize, n: usize, vs: &[u64])
    requires { at + n * length vs.now ≤ length s.old }
    ensures { s.new ≡ take at s.old ++ (for_each vs.now (big_endian n) ++ drop (at + n * length vs.now) s.old) }
{
    for (i, v) in vs.iter().enumerate() {
        write_number(s, at + n * i, n, *v);
    }
}
