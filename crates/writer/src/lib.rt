// Books written on the unit (document 02 [1]): a book out of sections, and a record with a layer added.
#![tactic(auto)]

ghost use Rattle.std.specs.Prelude.{◌≡◌, ◌+◌, ◌*◌, ◌≤◌, length, IfOk};
ghost use Rattle.arith.specs.Joined.{joined};
ghost use Rattle.refusal.specs.Refusal.{number_of, Answers};
ghost use Rattle.section.specs.declared.Layer.{Layer};
ghost use Rattle.record.specs.Record.{section_in};
ghost use Rattle.record.specs.Filed.{bytes32, as_written, filed};
ghost use Rattle.writer.specs.Records.{lone_refusal, section_at, count_in, records_refusal};
ghost use Rattle.writer.specs.Written.{records_of, place_of, last_bytes, book_in, write_refusal, book_after, layer_record, added_refusal, added_size, record_after};
ghost use Rattle.writer.specs.Code.{put_at, layered_refusal};

use record::{RecordBytes, filed, record_of, section_of, size_at};
use refusal::Refusal;

// ---- records out of a string

// The records of a string, one after another: as many bytes as each says; at the end what is left.
#[derive(Drop)]
struct Records<'a> {
    rest: &'a [u8],
}

impl<'a> Iterator for Records<'a> {
    ghost use Rattle.std.specs.Iterator.{item_count};
    ghost use Rattle.writer.specs.Code.{GivesPart};

    type Item = &'a [u8];

    ghost next_gives = { GivesPart };

    ghost remaining = { item_count (λ s. s.rest.now) };

    fn next(&mut self) -> Option<&'a [u8]> {
        if self.rest.is_empty() {
            return None;
        }
        let size = size_at(self.rest, 0).min(self.rest.len());
        let (part, rest) = self.rest.split_at(size);
        self.rest = rest;
        Some(part)
    }
}

// 6 of a record, then 7 to 13 with 20 of its section.
fn check(part: &[u8]) -> Result<(), Refusal>
    ensures { number_of result ≡ lone_refusal part.now }
{
    section_of(part)?.check()
}

// A record that passes, as a book has it.
#[tactic(auto, using(crate::proofs::Strings::few_in))]
fn rewritten(part: &[u8]) -> RecordBytes
    requires { lone_refusal part.now ≡ 0 }
    ensures { result ≡ filed (as_written (section_in part.now)) }
{
    record_of(section_of(part).unwrap()).unwrap()
}

// ---- bytes into a book

// From a place on.
fn put(bytes: &[u8], book: &mut [u8], at: usize)
    requires { at + length bytes.now ≤ length book.old }
    ensures { book.new ≡ put_at at bytes.now book.old }
{
    book[at..at + bytes.len()].copy_from_slice(bytes);
}

fn put_number(number: u32, book: &mut [u8], at: usize)
    requires { at + 4 ≤ length book.old }
    ensures { book.new ≡ put_at at (bytes32 number) book.old }
{
    put(&number.to_le_bytes(), book, at);
}

// ---- a book

// A string of records none of which is refused, and how many they are.
#[derive(Clone, Copy)]
struct Sections<'a> {
    records: &'a [u8],
    count: usize,
    ghost none: { records_refusal records.now ≡ 0 },
    ghost counted: { count ≡ count_in records.now },
}

impl<'a> Sections<'a> {
    // Or the refusal of the first that is refused.
    #[tactic(auto, using(crate::proofs::Walk::passes))]
    fn of(records: &'a [u8]) -> Result<Sections<'a>, Refusal>
        ensures number { number_of result ≡ records_refusal records.now }
        ensures of { IfOk result (λ s. s.records.now ≡ records.now) }
    {
        let mut count = 0;
        for part in (Records { rest: records }) {
            check(part)?;
            count += 1;
        }
        Ok(Sections { records, count })
    }

    fn parts(self) -> Records<'a>
        ensures { result.rest.now ≡ self.entry.records.now }
    {
        Records { rest: self.records }
    }

    // The length of their book.
    #[tactic(auto, using(crate::proofs::Strings::few_records))]
    fn book_len(self) -> usize
        ensures { result ≡ length self.entry.records.now + 4 * self.entry.count + 16 }
    {
        self.records.len() + 4 * self.count + 16
    }

    // Each record stands in the book where it stands in the string.
    fn put_records(self, book: &mut [u8])
        requires { length self.records.now ≤ length book.old }
        ensures { book.new ≡ put_at 0 (records_of (section_at self.entry.records.now) self.entry.count) book.old }
    {
        let mut at = 0;
        for part in self.parts() {
            put(rewritten(part).as_slice(), book, at);
            at += part.len();
        }
    }

    fn put_index(self, book: &mut [u8])
        requires room { length self.records.now + 4 * self.count ≤ length book.old }
        requires few { length self.records.now ≤ 65536 }
        ensures { book.new ≡ put_at (length self.entry.records.now) (joined (place_of (section_at self.entry.records.now)) self.entry.count) book.old }
    {
        let mut at = self.records.len();
        let mut place = 0;
        for part in self.parts() {
            put_number(place, book, at);
            place += part.len() as u32;
            at += 4;
        }
    }

    fn put_last(self, book: &mut [u8])
        requires room { length self.records.now + 4 * self.count + 16 ≤ length book.old }
        requires few { length self.records.now + 4 * self.count + 16 ≤ 65536 }
        ensures { let index = length self.entry.records.now in book.new ≡ put_at (index + 4 * self.entry.count) (last_bytes index self.entry.count) book.old }
    {
        let index = self.records.len();
        let len = self.book_len();
        let at = index + 4 * self.count;
        put_number(index as u32, book, at);
        put_number(self.count as u32, book, at + 4);
        put_number(len as u32, book, at + 8);
        put(b"BOOK", book, at + 12);
    }
}

// The length of the book of the sections of a string of records; or 6, 7 to 13 with 20 of the first that is refused, or 19, and the lent
// bytes as they were.
pub fn write_book(records: &[u8], book: &mut [u8]) -> Result<u32, Refusal>
    ensures answer { Answers (write_refusal records.now (length book.old)) (length (book_in records.now)) result }
    ensures after { book.new ≡ book_after records.now book.old }
{
    let sections = Sections::of(records)?;
    let len = sections.book_len();
    if book.len().min(65536) < len {
        return Err(Refusal::Room);
    }
    sections.put_records(book);
    sections.put_index(book);
    sections.put_last(book);
    Ok(len as u32)
}

// ---- a layer

// A record with one layer more; or 6 or 12.
#[tactic(auto, using(crate::proofs::Layers::few_layers))]
fn layer_record(part: &[u8], depth: u16, area: u16) -> Result<RecordBytes, Refusal>
    ensures { let l : Layer = record { depth = depth; area = area } in Answers (layered_refusal part.now l) (layer_record (section_in part.now) l) result }
{
    let section = section_of(part)?;
    filed(section.with_layer(depth, area)?)
}

// The length of a record with one layer more; or 6, 12 or 19, and the lent bytes as they were.
pub fn add_layer(part: &[u8], depth: u16, area: u16, out: &mut [u8]) -> Result<u32, Refusal>
    ensures answer { Answers (added_refusal part.now (record { depth = depth; area = area }) (length out.old)) (added_size part.now) result }
    ensures after { out.new ≡ record_after part.now (record { depth = depth; area = area }) out.old }
{
    let record = layer_record(part, depth, area)?;
    let bytes = record.as_slice();
    if out.len() < bytes.len() {
        return Err(Refusal::Room);
    }
    put(bytes, out, 0);
    Ok(bytes.len() as u32)
}
