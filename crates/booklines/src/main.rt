// The book program: reads a book from standard input and prints a line a record (document 01, 'Figures to meet').
#![tactic(auto)]

ghost use Rattle.std.specs.Prelude.{◌≡◌, ◌+◌, ◌*◌, ◌≤◌, ◌<◌, ℕ, ◌≤ℤ◌, pos, length, get_or, Some};
ghost use Rattle.refusal.specs.Refusal.{number_of, Answers};
ghost use Rattle.depths.specs.Depths.{listed};
ghost use Rattle.depths.specs.Answers.{depths_refusal};
ghost use Rattle.booklines.specs.Line.{bending_in, LineOf, line_text};

use refusal::Refusal;
use section::Section;
use std::fmt;
use std::io::{self, Read};

// How many depths are listed, the first of them with its kind, and the least moment.
#[derive(Clone, Copy, Default)]
struct Bending {
    count: u32,
    depth: i64,
    kind: i64,
    moment: i64,
}

// What a record's line has: its bending, and its shear.
#[derive(Clone, Copy)]
struct Line {
    bending: Result<Bending, Refusal>,
    shear: Result<i64, Refusal>,
}

// Three words for each depth of the highest section.
const ROW: usize = 3000;

// The least of the moments in the words of a list: the third of each depth's three.
fn least_moment(words: &[i64]) -> i64
    requires { 2 < length words.now }
    ensures none_below { (j : ℕ) → 3 * j + 2 < length words.now → result ≤ℤ get_or words.now (3 * j + 2) (pos 0) }
    ensures one_of_them { (j : ℕ) × (3 * j + 2 < length words.now) × (result ≡ get_or words.now (3 * j + 2) (pos 0)) }
{
    *words[2..].iter().step_by(3).min().unwrap()
}

fn bending_of(section: Section) -> Result<Bending, Refusal>
    ensures { Answers (depths_refusal section) (bending_in (listed section)) result }
{
    let mut row = [0; ROW];
    let count = depths::depths(section, &mut row)?.count;
    Ok(Bending {
        count,
        depth: row[0],
        kind: row[1],
        moment: least_moment(&row[..3 * count as usize]),
    })
}

fn line_of(part: &[u8]) -> Line
    ensures { LineOf part.now result }
{
    let section = record::section_of(part);
    Line {
        bending: section.and_then(bending_of),
        shear: section.and_then(shear::shear),
    }
}

// The number of a refusal, or 0.
fn number_of<T: Drop>(answer: Result<T, Refusal>) -> u32
    ensures { result ≡ number_of answer }
{
    answer.err().map_or(0, u32::from)
}

// Zeros where refused.
impl fmt::Display for Line {
    ghost output = { λ line. Some (line_text line) };

    fn fmt<W: fmt::Write>(&self, f: &mut fmt::Formatter<W>) -> fmt::Result {
        let Line { bending, shear } = *self;
        let Bending {
            count,
            depth,
            kind,
            moment,
        } = bending.unwrap_or_default();
        let amount = shear.unwrap_or_default();
        write!(
            f,
            "{} {count} {depth} {kind} {moment} {} {amount}",
            number_of(bending),
            number_of(shear)
        )
    }
}

// Stops where a line can't be written.
fn print_lines(rt: &HostRuntime, bytes: &[u8], count: u32) -> io::Result<()> {
    for number in 0..count {
        let line = line_of(book::record(bytes, number));
        println!(rt; "{number} {line}")?;
    }
    Ok(())
}

fn print_book(rt: &HostRuntime, bytes: &[u8]) -> io::Result<()> {
    match book::book(bytes) {
        Ok(count) => print_lines(rt, bytes, count),
        Err(refusal) => println!(rt; "B {}", u32::from(refusal)),
    }
}

// One byte more than a book may have, so that a longer one is refused and not cut.
const ROOM: usize = 65537;

// Fills the space from its start until it is full, the input ends or a read fails, and says how much of it is filled.
fn read_full<R: Read>(input: &mut R, space: &mut [u8]) -> usize
    ensures { result ≤ length space.new }
{
    let mut done = 0;
    while let Ok(n @ 1..) = input.read(&mut space[done..]) {
        done += n;
    }
    done
}

fn main(rt: HostRuntime) {
    let mut space = [0; ROOM];
    let n = read_full(&mut rt.stdin(), &mut space);
    // There is nobody to tell where nothing can be written.
    let _ = print_book(&rt, &space[..n]);
}
