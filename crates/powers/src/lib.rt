// Powers of two for the widths 0 to 32, as a data sheet prints them: the number, then its width. That entry k is 2 ^ k is the contract of
// `pow2`, which reads it.
#![tactic(auto)]

ghost use Rattle.std.specs.Prelude.{◌≡◌, ◌^◌, ◌≤◌};

const POWERS: [u64; 33] = [
    1, // 0
    2, // 1
    4, // 2
    8, // 3
    16, // 4
    32, // 5
    64, // 6
    128, // 7
    256, // 8
    512, // 9
    1024, // 10
    2048, // 11
    4096, // 12
    8192, // 13
    16384, // 14
    32768, // 15
    65536, // 16
    131072, // 17
    262144, // 18
    524288, // 19
    1048576, // 20
    2097152, // 21
    4194304, // 22
    8388608, // 23
    16777216, // 24
    33554432, // 25
    67108864, // 26
    134217728, // 27
    268435456, // 28
    536870912, // 29
    1073741824, // 30
    2147483648, // 31
    4294967296, // 32
];

// Two to the k: the table's entry k.
pub fn pow2(k: usize) -> u64
    requires { k ≤ 32 }
    ensures { result ≡ 2 ^ k }
{
    POWERS[k]
}

// Two to the k for k below 8: a bit's place in a byte, or fewer bits than a byte has. Each case reads the table at a fixed entry, which the
// compiler replaces by its number; at an entry known only when it runs, the compiled code builds the table anew. Not `1 << k`: document 02
// asks that each power of two that a field is read or written by comes from the table.
pub fn byte_pow2(k: usize) -> u64
    requires { k ≤ 7 }
    ensures { result ≡ 2 ^ k }
{
    match k {
        0 => pow2(0),
        1 => pow2(1),
        2 => pow2(2),
        3 => pow2(3),
        4 => pow2(4),
        5 => pow2(5),
        6 => pow2(6),
        _ => pow2(7),
    }
}
