// The C face: the exports that include/fordwhistle.h declares, each the function of its name in `panel`. That is a library, which Rattle crates
// stand on, and a crate is no library and static library at once.
#![tactic(auto)]

ghost use Rattle.std.specs.Prelude.{◌≡◌, length};
ghost use Rattle.writer.specs.Written.{book_after, record_after};
ghost use Rattle.panel.specs.Face.{book_answer, record_answer, write_answer, add_answer, class_answer, strength_answer, drawn_of, imbalance_of, moment_of, list_of, row_of, first_depth_of, shear_of};

use panel::{
    Amount, BookAnswer, ClassAnswer, Drawn, FirstDepth, Listing, RecordAnswer, StrengthAnswer,
    Written,
};

// The number of records of a book; or 1 to 4, and zero.
#[unsafe(no_mangle)]
pub extern "C" fn fw_book(bytes: &[u8]) -> BookAnswer
    ensures { result ≡ book_answer bytes.now }
{
    panel::fw_book(bytes)
}

// Where a record of a book is, and its bytes; or 1 to 5, and zeros.
#[unsafe(no_mangle)]
pub extern "C" fn fw_record(bytes: &[u8], number: u32) -> RecordAnswer
    ensures { result ≡ record_answer bytes.now number }
{
    panel::fw_record(bytes, number)
}

// A book of the sections of a string of records, into lent bytes; or 6, 7 to 13 with 20 of the first that is refused, or 19, and the bytes as they were.
#[unsafe(no_mangle)]
pub extern "C" fn fw_write_book(records: &[u8], book: &mut [u8]) -> Written
    ensures { (result ≡ write_answer records.now (length book.old)) × (book.new ≡ book_after records.now book.old) }
{
    panel::fw_write_book(records, book)
}

// A record with one layer more, into lent bytes; or 6, 12 or 19, and the bytes as they were.
#[unsafe(no_mangle)]
pub extern "C" fn fw_add_layer(part: &[u8], depth: u16, area: u16, out: &mut [u8]) -> Written
    ensures { (result ≡ add_answer part.now (record { depth = depth; area = area }) (length out.old)) × (out.new ≡ record_after part.now (record { depth = depth; area = area }) out.old) }
{
    panel::fw_add_layer(part, depth, area, out)
}

// The class of a fibre concrete; or 17 and zeros.
#[unsafe(no_mangle)]
pub extern "C" fn fw_class(fr1: u16, fr3: u16) -> ClassAnswer
    ensures { result ≡ class_answer fr1 fr3 }
{
    panel::fw_class(fr1, fr3)
}

// The characteristic strength of a series of beam results; or 21 to 23, and zeros.
#[unsafe(no_mangle)]
pub extern "C" fn fw_strength(results: &[u32]) -> StrengthAnswer
    ensures { result ≡ strength_answer results.now }
{
    panel::fw_strength(results)
}

// The point of a record's law at a whole strain; or 6, 7 to 13 with 20, or 18, and a point of plus zeros.
#[unsafe(no_mangle)]
pub extern "C" fn fw_draw(part: &[u8], strain: i32) -> Drawn
    ensures { result ≡ drawn_of part.now strain }
{
    panel::fw_draw(part, strain)
}

// The imbalance of a record's section with the neutral axis at depth x, in mN; or 6, 7 to 13 with 20, or 18, and zero.
#[unsafe(no_mangle)]
pub extern "C" fn fw_imbalance(part: &[u8], x: u32) -> Amount
    ensures { result ≡ imbalance_of part.now x }
{
    panel::fw_imbalance(part, x)
}

// Its moment about mid-height, in mN half-mm; refused likewise.
#[unsafe(no_mangle)]
pub extern "C" fn fw_moment(part: &[u8], x: u32) -> Amount
    ensures { result ≡ moment_of part.now x }
{
    panel::fw_moment(part, x)
}

// Every depth where the forces of a record's section balance, into a lent row, and the work that it took; or 6, 7 to 13 with 20, 14 or
// 15, and the row as it was.
#[unsafe(no_mangle)]
pub extern "C" fn fw_depths(part: &[u8], row: &mut [i64]) -> Listing
    ensures { (result ≡ list_of part.now (length row.old)) × (row.new ≡ row_of part.now row.old) }
{
    panel::fw_depths(part, row)
}

// The first listed depth of a record's section alone, its kind, its moment, and the work that it took; or 6, 7 to 13 with 20, or 14, and
// zeros but for the work of 14.
#[unsafe(no_mangle)]
pub extern "C" fn fw_first(part: &[u8]) -> FirstDepth
    ensures { result ≡ first_depth_of part.now }
{
    panel::fw_first(part)
}

// The shear that a record's section resists, in mN; or 6, 7 to 13 with 20, or 16, and zero.
#[unsafe(no_mangle)]
pub extern "C" fn fw_shear(part: &[u8]) -> Amount
    ensures { result ≡ shear_of part.now }
{
    panel::fw_shear(part)
}
