// Sheets, and calls on them. The structs have a file of their own: what their ghost fields name may not lead back to the file that declares them.

ghost use Rattle.std.specs.Prelude.{◌≤◌};
ghost use Rattle.theory.specs.Limits.{store_bytes};
ghost use Rattle.bench_table.specs.declared.TheConstants.{LONGEST, SHARES_ROOM};

use crate::{LONGEST, SHARES_ROOM};

// A sheet: the first `length` bytes. No heap: a fixed array, as long as the longest sheet.
#[derive(Clone, Copy)]
pub struct Sheet {
    pub bytes: [u8; LONGEST],
    pub length: usize,
    ghost inside: { length ≤ LONGEST },
}

// What is asked: the shares at a demand, the speed for a target, or the shares at each of some demands. An enum and no closure: it is printed too,
// and decides what a refusal answers.
#[derive(Clone, Copy)]
pub enum Asked<'a> {
    Bounds(u32),
    Speed(u32),
    Set(&'a [u32]),
}

// A call on a sheet, with the first `store` bytes of a store and the first `shares` bytes of a shares' buffer.
#[derive(Clone, Copy)]
pub struct Call<'a> {
    pub sheet: &'a [u8],
    pub asked: Asked<'a>,
    pub allowance: u32,
    pub store: usize,
    pub shares: usize,
    ghost store_inside: { store ≤ store_bytes },
    ghost shares_inside: { shares ≤ SHARES_ROOM },
}
