// Lists in a store: a component's list, and the join of two lists, each put into the store's free rest.
#![tactic(auto)]

ghost use Rattle.std.specs.Prelude.{◌≡◌, [], ◌+◌, ◌*◌, ◌^◌, ◌≤◌, ◌<◌, length};
ghost use Rattle.theory.specs.Masses.{rest, masses};
ghost use Rattle.theory.specs.Focal.{listed, weights};
ghost use Rattle.theory.specs.Joins.{joined_focal, pairs};
ghost use Rattle.theory.specs.Order.{collect};
ghost use Rattle.theory.specs.Limits.{list_bytes};
ghost use Rattle.theory.specs.Refusals.{number_in};
ghost use Rattle.records.specs.Records.{records_of};
ghost use Rattle.records.specs.Store.{holding, holding_from};
ghost use Rattle.joins.specs.Filling.{fill, length_of_filled};
ghost use Rattle.joins.specs.Joins.{RestFits, joined_as, join_length, number_of_join, length_of_join};
ghost use Rattle.joins.specs.Joins.{join_in, joined_store, Joinable};

use records::{Listing, Records, Span};
use theory::{Focal, HeldComponent, Join, Refusal, TOP_SPEED};

// Two intervals joined.
fn join_focals(op: Join, f: Focal, g: Focal) -> Focal
    requires { f.weight * g.weight < 2 ^ 64 }
    ensures { result ≡ joined_focal op f g }
{
    Focal {
        low: op.speed(f.low, g.low),
        high: op.speed(f.high, g.high),
        weight: f.weight * g.weight,
    }
}

// Joins the lists a and b: their list at the front of out, and its length; none where a 257th interval would be needed. A row is one interval of
// a with each of b: its pairs go in one after the other, and the search for each begins where the one before it went. Both lists descend: as a
// rule a row's first pair falls where that of the row before went, or behind it, and its search begins there.
// Room for a list is a clause here and below: a type of slices that long would be made by each caller, and say no more.
fn join_lists(op: Join, a: Records, b: Records, out: &mut [u8]) -> Option<usize>
    requires room { list_bytes ≤ length out.old }
    requires fits { weights (pairs op (records_of a) (records_of b)) < 2 ^ 64 }
    ensures value { result ≡ length_of_filled (fill [] (pairs op (records_of a.entry) (records_of b.entry))) }
    ensures out_after { out.new ≡ holding out.old (fill [] (pairs op (records_of a.entry) (records_of b.entry))).list }
{
    let mut list = Listing {
        bytes: out,
        count: 0,
    };
    let mut hint = 0;
    for r in a.records {
        let f = records::focal_in(r);
        let mut first = None;
        let mut place = hint;
        // A row has no function of its own: its clauses would be the invariant of this loop once more.
        for s in b.records {
            place = list
                .insert(join_focals(op, f, records::focal_in(s)), place)
                .ok()?;
            first = first.or(Some(place));
        }
        hint = first.unwrap_or(hint);
    }
    Some(list.count)
}

// Joins two lists of a store into its free rest, which is lent while they are read where they stand: the length of their list, or refused where
// it has more than 256 different intervals. Store and free byte stand one by one here and below, as in `s[free..]`.
pub fn join_in_store(
    op: Join,
    store: &mut [u8],
    left: Span,
    right: Span,
    free: usize,
) -> Result<usize, Refusal>
    requires { Joinable op store.old left right free }
    ensures value { result ≡ joined_as (join_in op store.old left right) }
    ensures number { number_in result ≡ number_of_join (join_in op store.old left right) }
    ensures list_length { join_length result ≡ length_of_join (join_in op store.old left right) }
    ensures store_after { store.new ≡ joined_store op store.old left right free }
{
    let (lists, rest) = store.split_at_mut(free);
    join_lists(
        op,
        Records::new(&lists[left.range()], left.count),
        Records::new(&lists[right.range()], right.count),
        rest,
    )
    .ok_or(Refusal::ListLength)
}

// Puts what a component lists into an empty list, and answers the rest. A block ascends and a list descends: from the block's last interval to
// its first, each falls behind those already there.
fn put_listed(c: HeldComponent, out: &mut Listing) -> u64
    requires { (out.old.count ≡ 0) × (list_bytes ≤ length out.old.bytes.now) }
    ensures value { result ≡ rest c.entry.component.now }
    ensures bytes { out.new.bytes.now ≡ holding out.old.bytes.now (collect (listed c.entry.component.now)) }
    ensures count { out.new.count ≡ length (collect (listed c.entry.component.now)) }
    ensures same_reference { out.new.bytes.ghost_name ≡ out.old.bytes.ghost_name }
    ensures rest_fits { RestFits c.entry.component.now }
{
    let c = c.component;
    let mut hint = 0;
    let mut rest = u64::from(c.total);
    // By place: an interval's three numbers lie in three arrays, as document 01 has them.
    for i in (0..c.count).rev() {
        // The weight is read here: that it has 16 bits is not known of what focal_at answers.
        let weight = u64::from(c.weights[i]);
        hint = out.insert(c.focal_at(i), hint).unwrap();
        rest = rest.saturating_sub(weight);
    }
    rest
}

// Builds the list of a component's mass assignment at the front of out: what it lists, and the rest, if there is one, on the interval from 0
// to 4,095. The hint names no record: the whole list is searched.
fn put_masses(c: HeldComponent, out: &mut [u8]) -> usize
    requires { list_bytes ≤ length out.old }
    ensures value { result ≡ length (collect (masses c.entry.component.now)) }
    ensures out_after { out.new ≡ holding out.old (collect (masses c.entry.component.now)) }
{
    let mut list = Listing {
        bytes: out,
        count: 0,
    };
    let rest = put_listed(c, &mut list);
    let n = list.count;
    if rest == 0 {
        return n;
    }
    let whole = Focal {
        low: 0,
        high: TOP_SPEED,
        weight: rest,
    };
    list.insert(whole, n).unwrap();
    list.count
}

// Builds the list of a component's mass assignment in the free rest of a store.
pub fn put_in_store(c: HeldComponent, store: &mut [u8], free: usize) -> usize
    requires { free + list_bytes ≤ length store.old }
    ensures value { result ≡ length (collect (masses c.entry.component.now)) }
    ensures store_after { store.new ≡ holding_from store.old free (collect (masses c.entry.component.now)) }
{
    put_masses(c, &mut store[free..])
}
