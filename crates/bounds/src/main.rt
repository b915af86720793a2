// The program: reads a demand, an allowance and a sheet from standard input, and prints the answer and the drive's list. What is read
// and printed, and whether it could be, is open in the contracts of the functions that read and print: no contract can speak of it.
#![tactic(auto)]

ghost use Rattle.std.specs.Prelude.{◌≡◌, ◌+◌, ◌*◌, ◌≤◌, length};
ghost use Rattle.field.specs.Bits.{field_at};

use evaluate::Accepted;
use reader::Reader;
use records::Records;
use std::io::{Eprint, Print, Read, Stderr, Stdin, Stdout};
use std::{fmt, io};
use theory::Refusal;

// The number in four bytes from `at` on, most significant first: by the reader of a sheet's fields, whose law serves here.
fn word(input: &[u8], at: usize) -> u32
    requires { (at ≤ 4) × (at + 4 ≤ length input.now) }
    ensures { result ≡ field_at input.now (8 * at) 32 }
{
    Reader::new(input, 8 * at).take(32)
}

// Reads once, and answers how many bytes it put at the start of the buffer. A failed read counts as the input's end.
fn read_some(mut from: Stdin, buffer: &mut [u8]) -> usize
    ensures { result ≤ length buffer.new }
{
    from.read(buffer).unwrap_or(0)
}

// Reads until the buffer is full or the input ends, and answers what it read. A loop: std's `read_exact` does not say how much that is where the
// input ends early.
fn read_full(from: Stdin, buffer: &mut [u8]) -> &[u8]
    ensures { length result.now ≤ length buffer.old }
{
    let mut done = 0;
    while done < buffer.len() {
        let n = read_some(from, &mut buffer[done..]);
        if n == 0 {
            break;
        }
        done += n;
    }
    &buffer[..done]
}

// Reads the input to its end, so that a writer of a pipe can finish. A failed read counts as the input's end.
fn skip_rest(mut from: Stdin) {
    let _ = io::copy(&mut from, &mut io::sink());
}

// What is printed of a call: its answer, where it is refused the number and zeros, and the list in the store. It stops at the first failed write.
#[derive(Clone, Copy)]
struct Report<'a> {
    answer: Result<Accepted, Refusal>,
    list: Records<'a>,
}

impl<'a> fmt::Display for Report<'a> {
    fn fmt<W: fmt::Write>(&self, f: &mut fmt::Formatter<W>) -> fmt::Result {
        let number = theory::number_in(self.answer);
        let Accepted { run, shares } = self.answer.unwrap_or_default();
        write!(f, "answer {number} total {}", run.total)?;
        write!(f, " belief {}", shares.belief)?;
        write!(f, " plausibility {}", shares.plausibility)?;
        writeln!(f, " pairs {} intervals {}", run.pairs, run.intervals)?;
        for r in self.list.records {
            let focal = records::focal_in(r);
            writeln!(f, "{} {} {}", focal.low, focal.high, focal.weight)?;
        }
        Ok(())
    }
}

// Says on standard error that the output could not be written, where it could not.
fn warn(to: Stderr, written: io::Result<()>) {
    if written.is_err() {
        let _ = eprintln!(to; "bounds: the output could not be written");
    }
}

// A sheet has at most 255 bytes: with 256, as with more, it is refused whatever they are, so the rest of a longer input is not kept.
fn main(rt: HostRuntime) {
    let out = rt.stdout();
    let mut buffer = [0u8; 264];
    let input = read_full(rt.stdin(), &mut buffer);
    if input.len() < 8 {
        warn(rt.stderr(), println!(out; "input short"));
        return;
    }
    if input.len() == 264 {
        skip_rest(rt.stdin());
    }
    let demand = word(input, 0);
    let allowance = word(input, 4);
    let mut store = [0u8; theory::STORE_BYTES];
    let answer = evaluate::bounds(&input[8..], demand, allowance, &mut store);
    // A refused call leaves no list.
    let count = answer.map_or(0, |a| a.run.intervals);
    let report = Report {
        answer,
        list: Records::new(&store, count),
    };
    warn(rt.stderr(), print!(out; "{report}"));
}
