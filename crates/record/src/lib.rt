// One record (document 01, 'The section book'): numbers out of bytes, its section, and a section's record.
#![tactic(auto)]

ghost use Rattle.std.specs.Prelude.{ℕ, ◌≡◌, ◌+◌, ◌*◌, ◌≤◌, ◌<◌, ◌^◌, [], ◌++◌, length, get_or, take};
ghost use Rattle.arith.specs.Joined.{joined};
ghost use Rattle.refusal.specs.Refusal.{Answers};
ghost use Rattle.record.specs.Record.{le16_at, le32_at, layers_end, record_size, layers_at, flange_at, size_at, record_right, record_refusal, layer_in, layers_in, flange_width, section_in};
ghost use Rattle.record.specs.Filed.{bytes16, places_of, number_bytes, as_written, filed, filed_refusal};

use refusal::Refusal;
use section::{Layer, Section};
use std::array;
use std::marker::Model;

// The bytes of a record, 60 at most; zeros past them.
#[derive(Clone, Copy)]
pub struct RecordBytes {
    bytes: [u8; 60],
    len: usize,
}

impl Model for RecordBytes {
    ghost use Rattle.std.specs.Prelude.{ℕ, List, length, take};
    ghost use Rattle.std.proofs.Common.{length-take-le};

    ghost Value = { List ℕ };

    ghost use Rattle.record.specs.Held.{in_places, Held};

    ghost view = { λ r. take r.len r.bytes };

    ghost invariant = { Held };

    ghost inverse = { λ bytes. record { bytes = in_places bytes; len = length bytes } };

    ghost inverse_ok = { λ r h i. record {
      bytes = h.past i;
      len = length-take-le r.len r.bytes h.few i;
    } };
}

impl RecordBytes {
    fn new() -> RecordBytes
        ensures { result ≡ [] }
    {
        RecordBytes {
            bytes: [0; 60],
            len: 0,
        }
    }

    // A number behind it, little-endian.
    fn push(&mut self, number: u16)
        requires { length self.old + 2 ≤ 60 }
        ensures { self.new ≡ self.old ++ bytes16 number }
    {
        let end = self.len + 2;
        self.bytes[self.len..end].copy_from_slice(&number.to_le_bytes());
        self.len = end;
    }

    // And so many of them.
    #[tactic(auto, using(crate::proofs::Put::puts))]
    fn extend(&mut self, numbers: &[u16])
        requires { length self.old + 2 * length numbers.now ≤ 60 }
        ensures { self.new ≡ self.old ++ joined (number_bytes numbers.now) (length numbers.now) }
    {
        for number in numbers {
            self.push(*number);
        }
    }

    // The record alone, without what is left of the room.
    pub fn as_slice(&self) -> &[u8]
        ensures { result.now ≡ self.now }
    {
        &self.bytes[..self.len]
    }
}

// The byte at a place; 0 past the end, so that a number can be read at any place of any part.
pub fn byte(bytes: &[u8], at: usize) -> u8
    ensures { result ≡ get_or bytes.now at 0 }
{
    bytes.get(at).copied().unwrap_or(0)
}

// So many bytes from a place on. Where a place stops counting, it has passed the end of any part.
fn bytes_at<const N: usize>(bytes: &[u8], at: usize) -> [u8; N]
    ensures { (j : ℕ) → j < N → get_or result j 0 ≡ get_or bytes.now (at + j) 0 }
{
    array::from_fn(|j| byte(bytes, at.saturating_add(j)))
}

fn le16(bytes: &[u8], at: usize) -> u16
    ensures { result ≡ le16_at bytes.now at }
{
    u16::from_le_bytes(bytes_at(bytes, at))
}

// Little-endian; 0 past the end.
pub fn le32(bytes: &[u8], at: usize) -> u32
    ensures { result ≡ le32_at bytes.now at }
{
    u32::from_le_bytes(bytes_at(bytes, at))
}

// The layer count of a record that starts at a place.
pub fn layers_at(bytes: &[u8], at: usize) -> u16
    ensures { result ≡ layers_at bytes.now at }
{
    le16(bytes, at.saturating_add(20))
}

// Its flange height.
fn flange_at(bytes: &[u8], at: usize) -> u16
    ensures { result ≡ flange_at bytes.now at }
{
    le16(bytes, at.saturating_add(22))
}

// Where so many layers end and the flange begins.
fn layers_end(m: u16) -> usize
    ensures { result ≡ layers_end m }
{
    24 + 4 * m as usize
}

// The length of a record of so many layers and such a flange height.
#[tactic(auto, unfolding(crate::specs::Record::flange_size))]
fn record_size(m: u16, hf: u16) -> usize
    ensures { (result ≡ record_size m hf) × (result < 2 ^ 32) }
{
    layers_end(m) + if hf == 0 { 0 } else { 4 }
}

// The length of a record that starts at a place, by its own layer count and flange height.
pub fn size_at(bytes: &[u8], at: usize) -> usize
    ensures { (result ≡ size_at bytes.now at) × (result < 2 ^ 32) }
{
    record_size(layers_at(bytes, at), flange_at(bytes, at))
}

#[tactic(auto, unfolding(crate::specs::Record::record_right))]
fn record_right(part: &[u8]) -> bool
    ensures { result ≡ record_right part.now }
{
    let m = layers_at(part, 0);
    let hf = flange_at(part, 0);
    part.len() == record_size(m, hf) && m <= 8 && (hf == 0 || le16(part, layers_end(m) + 2) == 0)
}

// Past the layer count there is none, also where a flange follows.
fn layer_in(part: &[u8], j: usize) -> Layer
    requires { j < 8 }
    ensures { result ≡ layer_in part.now j }
{
    if j < layers_at(part, 0) as usize {
        return Layer {
            depth: le16(part, 24 + 4 * j),
            area: le16(part, 26 + 4 * j),
        };
    }
    Layer { depth: 0, area: 0 }
}

// All eight places.
fn layers_in(part: &[u8]) -> [Layer; 8]
    ensures { result ≡ layers_in part.now }
{
    array::from_fn(|j| layer_in(part, j))
}

// Without a flange there is no width to read.
fn flange_width(part: &[u8]) -> u16
    ensures { result ≡ flange_width part.now }
{
    if flange_at(part, 0) == 0 {
        return 0;
    }
    le16(part, layers_end(layers_at(part, 0)))
}

#[tactic(auto, using(crate::proofs::Load::signed_is), unfolding(crate::specs::Record::section_in))]
fn section_in(part: &[u8]) -> Section
    ensures { result ≡ section_in part.now }
{
    Section {
        b: le16(part, 0),
        h: le16(part, 2),
        hf: flange_at(part, 0),
        bf: flange_width(part),
        fck: le16(part, 4),
        fyk: le16(part, 6),
        feq2: le16(part, 8),
        feq3: le16(part, 10),
        load: le32(part, 12).cast_signed(),
        asw: le16(part, 16),
        spacing: le16(part, 18),
        count: layers_at(part, 0),
        layers: layers_in(part),
    }
}

// The section of a lone record; or 6.
#[tactic(auto, unfolding(crate::specs::Record::record_refusal))]
pub fn section_of(part: &[u8]) -> Result<Section, Refusal>
    ensures { Answers (record_refusal part.now) (section_in part.now) result }
{
    if !record_right(part) {
        return Err(Refusal::LoneRecord);
    }
    Ok(section_in(part))
}

// The 16-bit numbers before the layers, in their order.
#[tactic(auto, using(crate::proofs::Load::unsigned_is), unfolding(crate::specs::Filed::places_of))]
fn head(s: Section) -> [u16; 12]
    ensures { result ≡ take 12 (places_of s) }
{
    let load = s.load.cast_unsigned();
    [
        s.b,
        s.h,
        s.fck,
        s.fyk,
        s.feq2,
        s.feq3,
        (load % 65536) as u16,
        (load / 65536) as u16,
        s.asw,
        s.spacing,
        s.count,
        s.hf,
    ]
}

// The record of a section, spacing as it is; or 12 where it counts more than 8 layers.
#[tactic(auto, using(crate::proofs::Inverse::filing))]
pub fn filed(s: Section) -> Result<RecordBytes, Refusal>
    ensures { Answers (filed_refusal s) (filed s) result }
{
    let Some(layers) = s.layers.get(..s.count as usize) else {
        return Err(Refusal::Bars);
    };
    let mut record = RecordBytes::new();
    record.extend(&head(s));
    for layer in layers {
        record.push(layer.depth);
        record.push(layer.area);
    }
    if s.hf != 0 {
        record.push(s.bf);
        record.push(0);
    }
    Ok(record)
}

// The record of a section as a book has it: without stirrups there is no spacing.
#[tactic(auto, unfolding(crate::specs::Filed::as_written))]
pub fn record_of(s: Section) -> Result<RecordBytes, Refusal>
    ensures { Answers (filed_refusal s) (filed (as_written s)) result }
{
    let spacing = if s.asw == 0 { 0 } else { s.spacing };
    filed(Section { spacing, ..s })
}
