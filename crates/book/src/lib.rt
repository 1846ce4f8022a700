// The section book (document 01): its checks, and a record as a part of it.
#![tactic(auto)]

ghost use Rattle.std.specs.Prelude.{◌≡◌, length, IfOk};
ghost use Rattle.arith.specs.Below.{all_below};
ghost use Rattle.arith.specs.Lines.{line, Between};
ghost use Rattle.refusal.specs.Refusal.{number_of, Answers};
ghost use Rattle.book.specs.Book.{index_of, count_of, start_of, length_right, letters_right, index_right, ends_right, records_right, book_refusal, asked_refusal, place_in, record_of};

use record::{layers_at, le32, size_at};
use refusal::Refusal;

// Where a record of a book is, and its bytes.
#[derive(Clone, Copy)]
pub struct Place {
    pub at: u32,
    pub len: u32,
}

// A book of a length that it may have and states, with the place of its index and its number of records as it states them.
#[derive(Clone, Copy)]
struct Stated<'a> {
    bytes: &'a [u8],
    index: u32,
    count: u32,
    ghost sized: { Between 16 65536 (length bytes.now) },
    ghost index_is: { index ≡ index_of bytes.now },
    ghost count_is: { count ≡ count_of bytes.now },
}

impl<'a> Stated<'a> {
    #[tactic(auto, unfolding(crate::specs::Book::length_right))]
    fn of(bytes: &'a [u8]) -> Result<Stated<'a>, Refusal>
        ensures number { number_of result ≡ line (length_right bytes.now) 1 0 }
        ensures of { IfOk result (λ b. b.bytes.now ≡ bytes.now) }
    {
        let len = bytes.len();
        if !(16..=65536).contains(&len) || le32(bytes, len - 8) as usize != len {
            return Err(Refusal::BookLength);
        }
        Ok(Stated {
            bytes,
            index: le32(bytes, len - 16),
            count: le32(bytes, len - 12),
        })
    }

    #[tactic(auto, unfolding(crate::specs::Book::letters_right))]
    fn letters_right(self) -> bool
        ensures { result ≡ letters_right self.entry.bytes.now }
    {
        self.bytes.ends_with(b"BOOK")
    }

    // In 64 bits: the three numbers may be any of 32.
    #[tactic(auto, unfolding(crate::specs::Book::index_right))]
    fn index_right(self) -> bool
        ensures { result ≡ index_right self.entry.bytes.now }
    {
        self.index as usize + 4 * self.count as usize + 16 == self.bytes.len()
    }

    #[tactic(auto, unfolding(crate::specs::Book::start_of))]
    fn start(self, i: usize) -> u32
        ensures { result ≡ start_of self.entry.bytes.now i }
    {
        if i < self.count as usize {
            return le32(self.bytes, self.index as usize + 4 * i);
        }
        self.index
    }

    // A place past the end is met too: what is read there is 0. Where 3 has passed, such a record ends past the index.
    #[tactic(auto, unfolding(crate::specs::Book::ends_right))]
    fn ends_right(self, i: u32) -> bool
        ensures { result ≡ ends_right self.entry.bytes.now i }
    {
        let start = self.start(i as usize) as usize;
        let end = start + size_at(self.bytes, start);
        layers_at(self.bytes, start) <= 8
            && end <= self.index as usize
            && end == self.start(i as usize + 1) as usize
    }

    #[tactic(auto, unfolding(crate::specs::Book::records_right))]
    fn records_right(self) -> bool
        ensures { result ≡ records_right self.entry.bytes.now }
    {
        self.start(0) == 0 && (0..self.count).all(|i| self.ends_right(i))
    }
}

// A book that passes 1 to 4.
#[tactic(auto, unfolding(crate::specs::Book::book_refusal))]
fn checked(bytes: &[u8]) -> Result<Stated<'_>, Refusal>
    ensures number { number_of result ≡ book_refusal bytes.now }
    ensures of { IfOk result (λ b. b.bytes.now ≡ bytes.now) }
{
    let book = Stated::of(bytes)?;
    if !book.letters_right() {
        return Err(Refusal::BookLetters);
    }
    if !book.index_right() {
        return Err(Refusal::BookIndex);
    }
    if !book.records_right() {
        return Err(Refusal::BookRecords);
    }
    Ok(book)
}

// The number of records of a book; or 1 to 4.
pub fn book(bytes: &[u8]) -> Result<u32, Refusal>
    ensures { Answers (book_refusal bytes.now) (count_of bytes.now) result }
{
    Ok(checked(bytes)?.count)
}

// Where a record of a book is, and its bytes; or 1 to 5.
#[tactic(auto, unfolding(crate::specs::Book::asked_refusal))]
pub fn record_place(bytes: &[u8], number: u32) -> Result<Place, Refusal>
    ensures { Answers (asked_refusal bytes.now number) (place_in bytes.now number) result }
{
    let book = checked(bytes)?;
    if book.count <= number {
        return Err(Refusal::RecordNumber);
    }
    let at = book.start(number as usize);
    Ok(Place {
        at,
        len: size_at(bytes, at as usize) as u32,
    })
}

// That part of the caller's book; where it is refused, the empty part.
#[tactic(auto, using(crate::proofs::Parts::parts))]
pub fn record(bytes: &[u8], number: u32) -> &[u8]
    ensures { result.now ≡ record_of bytes.now number }
{
    let Ok(place) = record_place(bytes, number) else {
        return &[];
    };
    let at = place.at as usize;
    &bytes[at..at + place.len as usize]
}
