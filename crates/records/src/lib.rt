// Lists of intervals in a buffer that the caller lends: records of 12 bytes, low 16 bits, high 16 bits, weight 64 bits, each most
// significant byte first. Low and high as one number are a record's key.
// Where a number is cast there is no `From`, a `TryFrom` would never fail, and the check proves that nothing is lost.
#![tactic(auto)]

ghost use Rattle.std.specs.Prelude.{◌≡◌, ◌+◌, ◌*◌, ◌/◌, ◌^◌, ◌≤◌, ◌<◌, ◌&&◌, ltb, min, length};
ghost use Rattle.std.proofs.Math.Dec.{compare_is_eq};
ghost use Rattle.theory.specs.Order.{order, InOrder};
ghost use Rattle.theory.specs.Limits.{record_bytes};
ghost use Rattle.numbers.specs.Numbers.{Bytes};
ghost use Rattle.records.specs.Records.{head_record, records, records_of, nth_interval, key_of, keyed};
ghost use Rattle.records.specs.Store.{with_record, zeroed, holding, moved, settled};
ghost use Rattle.records.specs.Insertion.{is_before, place, insertion_of, insert_or_stay, Insertable};

mod view;

use std::ops::Range;
use theory::{Focal, MOST_INTERVALS, RECORD_BYTES};
pub use view::{Record, Records};

// Low and high take 16 bits each: a key is low * SPEED_LIMIT + high.
pub const SPEED_LIMIT: u64 = 65536;

// The key of an interval. A number, and not the pair (low, high), which is ordered alike: a record's key is one load, and two keys are one
// comparison.
pub fn key_of(f: Focal) -> u64
    ensures { result ≡ key_of f }
{
    u64::from(f.low) * SPEED_LIMIT + u64::from(f.high)
}

// The interval of a record. Each number is one load; the weight is taken in two halves of 32 bits, so that it is loads too. No `From`: a record
// is an array.
pub fn focal_in(bytes: &Record) -> Focal
    ensures { result ≡ head_record bytes.now }
{
    let weight_high = numbers::read_number(bytes, 4, 4);
    let weight_low = numbers::read_number(bytes, 8, 4);
    Focal {
        low: numbers::read_number(bytes, 0, 2) as u16,
        high: numbers::read_number(bytes, 2, 2) as u16,
        weight: weight_high * 4294967296 + weight_low,
    }
}

// The key of a record.
fn key_in(bytes: &Record) -> u64
    ensures { result ≡ key_of (head_record bytes.now) }
{
    numbers::read_number(bytes, 0, 4)
}

// Whether a record comes before the interval of the key: the greater key comes first. The one comparison by which lists are ordered.
fn precedes(bytes: &Record, key: u64) -> bool
    ensures { result ≡ is_before (order (head_record bytes.now) (keyed key 0)) }
{
    key < key_in(bytes)
}

impl<'a> Records<'a> {
    // The first n records of bytes. `bytes_fit` is for a caller whose slice is a `Listing`'s: that it holds bytes is not known there otherwise.
    fn first(bytes: &'a [u8], n: usize) -> Records<'a>
        requires { record_bytes * n ≤ length bytes.now }
        ensures list { records_of result ≡ records n bytes.now }
        ensures bytes_fit { Bytes bytes.now }
    {
        Records {
            records: &bytes.as_chunks().0[..n],
        }
    }

    // The first `count` records of bytes, or as many as they hold.
    pub fn new(bytes: &'a [u8], count: usize) -> Records<'a>
        ensures all { records_of result ≡ records (min count (length bytes.now / record_bytes)) bytes.now }
        ensures inside { record_bytes * count ≤ length bytes.now → records_of result ≡ records count bytes.now }
    {
        Records::first(bytes, count.min(bytes.len() / RECORD_BYTES))
    }

    // Whether there is a record i, and it is the interval of the key. Asked once, behind the search, whose steps tell two cases, where
    // `binary_search_by` would tell three.
    fn matches(&self, i: usize, key: u64) -> bool
        ensures { result ≡ (ltb i (length self.now.records.now) && compare_is_eq (order (nth_interval (records_of self.now) i) (keyed key 0))) }
    {
        i < self.records.len() && key_in(&self.records[i]) == key
    }

    // The place of the key's interval, which lies from `from` to `to`; these stand one by one here and below, as in `s[from..to]`. Order is a
    // clause here and below, and no field of `Records`: `new` takes any bytes.
    fn bisect(&self, key: u64, from: usize, to: usize) -> usize
        requires in_order { InOrder (records_of self.now) }
        requires between { (from ≤ place (keyed key 0) (records_of self.now)) × (place (keyed key 0) (records_of self.now) ≤ to) × (to ≤ length self.now.records.now) }
        ensures { result ≡ place (keyed key 0) (records_of self.now) }
    {
        from + self.records[from..to].partition_point(|r| precedes(r, key))
    }

    // The place of the key's interval. The hint is any number, and no Option, since it is tested against the length anyway: where it is that
    // of a record, the search begins there. By hand: by `partition_point` alone, as tried, the call for a chair with rests goes from 0.93 to
    // 1.32 times plain C, and that for 128 intervals joined to 128 from 0.38 to 1.37.
    #[tactic(auto, using(crate::proofs::Place::place_count))]
    fn find(&self, key: u64, hint: usize) -> usize
        requires { InOrder (records_of self.now) }
        ensures { result ≡ place (keyed key 0) (records_of self.now) }
    {
        let n = self.records.len();
        if n <= hint {
            return self.bisect(key, 0, n);
        }
        if precedes(&self.records[hint], key) {
            let next = hint + 1;
            if next == n {
                return n;
            }
            if precedes(&self.records[next], key) {
                self.bisect(key, next + 1, n)
            } else {
                next
            }
        } else {
            if hint == 0 {
                return 0;
            }
            let previous = hint - 1;
            if precedes(&self.records[previous], key) {
                hint
            } else {
                self.bisect(key, 0, previous)
            }
        }
    }
}

// A list that is written: the first `count` records of bytes. The library's `as_chunks_mut` says nothing of the bytes afterwards, so a record is
// written by its place.
#[derive(Drop)]
pub struct Listing<'a> {
    pub bytes: &'a mut [u8],
    pub count: usize,
}

// Writes record i: the key's interval with its weight.
fn write_record(s: &mut [u8], i: usize, key: u64, weight: u64)
    requires { record_bytes * i + record_bytes ≤ length s.old }
    ensures { s.new ≡ with_record s.old i (keyed key weight) }
{
    numbers::write_number(s, RECORD_BYTES * i + 4, 8, weight);
    numbers::write_number(s, RECORD_BYTES * i, 4, key);
}

impl<'a> Listing<'a> {
    // Puts the key's interval with its weight into the list, and answers its place: an equal interval gets the weight added. Where the list
    // would then have 257, all bytes stay as they are, and the place is an error: it is promised in both cases.
    #[tactic(auto, using(crate::proofs::Place::place_in))]
    pub fn insert_by_key(&mut self, key: u64, weight: u64, hint: usize) -> Result<usize, usize>
        requires { Insertable self.old.bytes.now self.old.count weight }
        ensures value { result ≡ insertion_of (keyed key weight) (records self.old.count self.old.bytes.now) }
        ensures bytes { self.new.bytes.now ≡ holding self.old.bytes.now (insert_or_stay (keyed key weight) (records self.old.count self.old.bytes.now)) }
        ensures count { self.new.count ≡ length (insert_or_stay (keyed key weight) (records self.old.count self.old.bytes.now)) }
        ensures same_reference { self.new.bytes.ghost_name ≡ self.old.bytes.ghost_name }
    {
        // By a name of its own: of a field that is lent only the length would be known.
        let bytes = &mut *self.bytes;
        let n = self.count;
        let list = Records::first(bytes, n);
        let place = list.find(key, hint);
        if list.matches(place, key) {
            let old = focal_in(&list.records[place]);
            write_record(bytes, place, key, weight + old.weight);
            return Ok(place);
        }
        if n == MOST_INTERVALS {
            return Err(place);
        }
        let at = RECORD_BYTES * place;
        // Within the bytes from `at` on, so that the distance is a constant: the compiler makes one `memmove` of it then.
        bytes[at..].copy_within(..RECORD_BYTES * n - at, RECORD_BYTES);
        write_record(bytes, place, key, weight);
        self.count = n + 1;
        Ok(place)
    }

    // The same of an interval, whose ends have 16 bits each.
    pub fn insert(&mut self, f: Focal, hint: usize) -> Result<usize, usize>
        requires { Insertable self.old.bytes.now self.old.count f.weight }
        ensures value { result ≡ insertion_of f (records self.old.count self.old.bytes.now) }
        ensures bytes { self.new.bytes.now ≡ holding self.old.bytes.now (insert_or_stay f (records self.old.count self.old.bytes.now)) }
        ensures count { self.new.count ≡ length (insert_or_stay f (records self.old.count self.old.bytes.now)) }
        ensures same_reference { self.new.bytes.ghost_name ≡ self.old.bytes.ghost_name }
    {
        self.insert_by_key(key_of(f), f.weight, hint)
    }
}

// A list in a store: the byte at which it starts, and how many records it has. No slice: the store is written while its lists stand in it.
#[derive(Clone, Copy, Default)]
pub struct Span {
    pub start: usize,
    pub count: usize,
}

impl Span {
    // Its bytes in the store.
    pub fn range(self) -> Range<usize>
        requires { self.start + record_bytes * self.count < 2 ^ 64 }
        ensures { result ≡ record { start = self.start; end = self.start + record_bytes * self.count } }
    {
        self.start..self.start + RECORD_BYTES * self.count
    }
}

// Makes the bytes from `from` up to `to` zero.
pub fn clear(s: &mut [u8], from: usize, to: usize)
    requires { (from ≤ to) × (to ≤ length s.old) }
    ensures { s.new ≡ zeroed s.old from to }
{
    s[from..to].fill(0);
}

// Moves a list to another place of its store.
pub fn move_list(store: &mut [u8], list: Span, start: usize)
    requires { (list.start + record_bytes * list.count ≤ length store.old) × (start + record_bytes * list.count ≤ length store.old) }
    ensures { store.new ≡ moved store.old list start }
{
    store.copy_within(list.range(), start);
}

// Makes the bytes zero that stand behind the n records at the front of a store, up to `end`, which stands beside the store, since the bytes
// behind it are spoken of too: they stay.
pub fn settle(store: &mut [u8], n: usize, end: usize)
    requires { (record_bytes * n ≤ end) × (end ≤ length store.old) }
    ensures { store.new ≡ settled end (records n store.old) store.old }
{
    clear(store, RECORD_BYTES * n, end);
}
