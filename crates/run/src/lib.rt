// The run of a plan in a store that the caller lends: its entries one after the other, on a stack of lists.
// Where a number is cast there is no `From`, a `TryFrom` would never fail, and the check proves that nothing is lost.
#![tactic(auto)]

ghost use Rattle.std.specs.Prelude.{◌≡◌, ◌+◌, ◌*◌, ◌^◌, ◌<◌};
ghost use Rattle.theory.specs.Limits.{most_components, record_bytes};
ghost use Rattle.run.specs.Stack.{with_list, Pushable, pushed, pushed_store, Applicable, join_step, stack_then, join_store};
ghost use Rattle.run.specs.Run.{store_for, needed, walked, ran_as, ran_of, store_of, Runnable};

use plan::Plan;
use records::Span;
use theory::{Entry, HeldComponent, Join, MOST_COMPONENTS, Refusal, STORE_BYTES};

// The lists on the stack, the first `depth` in use, each directly behind the one below it; the byte behind them all; the pairs formed so far.
// No heap: a vector of fixed capacity in place of array and depth would be as long, with two unwraps and a further crate in what C links. The
// store stands beside it: a stack is a plain value in the definitions.
#[derive(Clone, Copy, Default)]
pub struct Stack {
    pub lists: [Span; MOST_COMPONENTS],
    pub depth: usize,
    pub free: usize,
    pub pairs: u64,
}

// What a plan's run answers: the pairs formed and the length of the list that is left.
#[derive(Clone, Copy)]
pub struct Run {
    pub pairs: u64,
    pub intervals: usize,
}

// The bytes of the store that a plan of n components needs: the same for every n.
pub fn store_for(n: usize) -> usize
    ensures { result ≡ store_for n }
{
    STORE_BYTES
}

impl Stack {
    // Makes a list the topmost one, at place d. The free rest is then behind it.
    fn put_list(&mut self, d: usize, list: Span)
        requires { (d < most_components) × (list.start + record_bytes * list.count < 2 ^ 64) }
        ensures { self.new ≡ with_list self.old d list self.old.pairs }
    {
        self.lists[d] = list;
        self.depth = d + 1;
        self.free = list.range().end;
    }

    // A component's entry: its list goes into the store behind the lists already there.
    fn push(&mut self, c: HeldComponent, store: &mut [u8])
        requires { Pushable store.old self.old }
        ensures self_after { self.new ≡ pushed c.entry.component.now self.old }
        ensures store_after { store.new ≡ pushed_store c.entry.component.now store.old self.old }
    {
        let count = joins::put_in_store(c, store, self.free);
        let start = self.free;
        self.put_list(self.depth, Span { start, count });
    }

    // A join's entry: the pairs are tested against the allowance, then the two topmost lists are joined into the free rest of the store, and
    // their list takes the place of the left one.
    fn join(&mut self, op: Join, store: &mut [u8], allowance: u32) -> Result<(), Refusal>
        requires { Applicable op allowance store.old self.old }
        ensures value { result ≡ join_step op allowance store.old self.old }
        ensures self_after { self.new ≡ stack_then op allowance store.old self.old }
        ensures store_after { store.new ≡ join_store op allowance store.old self.old }
    {
        let left = self.lists[self.depth - 2];
        let right = self.lists[self.depth - 1];
        let spent = self.pairs + left.count as u64 * right.count as u64;
        Refusal::Allowance.when(u64::from(allowance) < spent)?;
        let start = self.free;
        let count = joins::join_in_store(op, store, left, right, start)?;
        records::move_list(store, Span { start, count }, left.start);
        self.put_list(self.depth - 2, Span { count, ..left });
        self.pairs = spent;
        Ok(())
    }
}

// The entries of a plan, one after the other. After a refusal at a join the bytes that the plan needs are zero; at the end the one list
// that is left stands at the front, and the rest of them is zero. Later bytes stay as they were.
pub fn run_plan(p: Plan, allowance: u32, store: &mut [u8]) -> Result<Run, Refusal>
    requires { Runnable p store.old }
    ensures value { ran_as result ≡ ran_of (walked p allowance) }
    ensures store_after { store.new ≡ store_of (needed p) (walked p allowance) store.old }
{
    let size = store_for(p.count);
    let mut stack = Stack::default();
    for code in p.used_codes() {
        match Entry::from(*code) {
            Entry::Component(i) => stack.push(HeldComponent::new(&p.used_components()[i]), store),
            Entry::Join(op) => {
                if let Err(refusal) = stack.join(op, store, allowance) {
                    records::clear(store, 0, size);
                    return Err(refusal);
                }
            }
        }
    }
    let intervals = stack.lists[0].count;
    records::settle(store, intervals, size);
    Ok(Run {
        pairs: stack.pairs,
        intervals,
    })
}
