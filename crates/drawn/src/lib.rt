// The law as the panel draws it: pieces in f64, and a point of a section's law at a whole strain (document 01, 'Stress at a strain').
#![tactic(auto)]

ghost use Rattle.std.specs.Prelude.{◌≡◌};
ghost use Rattle.refusal.specs.Refusal.{Answers};
ghost use Rattle.law.specs.Law.{law_of};
ghost use Rattle.drawn.specs.Drawn.{in_drawn_range, point_at, drawn_refusal};
ghost use Rattle.drawn.specs.Pieces.{evaluated, below, down, stretched_piece, compressed_piece, piece_at};

use law::{Law, Lawful};
use refusal::Refusal;
use section::Section;

// A piece of the law. Its numbers are whole. A ramp goes from (e0, s0) to (e1, s1); a parabola starts at zero and reaches its peak at its strain.
#[derive(Clone, Copy)]
pub enum Piece {
    Flat(f64),
    Ramp { e0: f64, e1: f64, s0: f64, s1: f64 },
    Parabola { peak: f64, strain: f64 },
}

#[repr(C)]
#[derive(Clone, Copy)]
pub struct Point {
    pub strain: f64,
    pub stress: f64,
}

impl Piece {
    // The stress of a piece at a strain. What is over and under the line is exact where the numbers are whole; the division rounds once.
    pub fn at(self, e: f64) -> f64
        ensures { result ≡ evaluated self e }
    {
        match self {
            Piece::Flat(stress) => stress,
            Piece::Ramp { e0, e1, s0, s1 } => (0.0 + s0 * (e1 - e) + s1 * (e - e0)) / (e1 - e0),
            Piece::Parabola { peak, strain } => peak * e * (2.0 * strain - e) / (strain * strain),
        }
    }
}

// A whole number below zero; 0 stays plus zero.
fn below(n: u32) -> f64
    ensures { result ≡ below n }
{
    0.0 - n as f64
}

// A line in tension, between two pairs of a strain and its stress.
fn down(from: (u32, u32), to: (u32, u32)) -> Piece
    ensures { result ≡ down from.0 from.1 to.0 to.1 }
{
    let (ea, sa) = from;
    let (eb, sb) = to;
    Piece::Ramp {
        e0: below(eb),
        e1: below(ea),
        s0: below(sb),
        s1: below(sa),
    }
}

#[tactic(auto, using(crate::proofs::Literals::literal_0), unfolding(crate::specs::Pieces::stretched_piece))]
fn stretched_piece(l: Law, p: u32) -> Piece
    ensures { result ≡ stretched_piece l p }
{
    if p <= l.e1 {
        down((0, 0), (l.e1, l.s1))
    } else if p <= l.e2 {
        down((l.e1, l.s1), (l.e2, l.s2))
    } else if p <= l.e3 {
        down((l.e2, l.s2), (l.e3, l.s3))
    } else {
        Piece::Flat(0.0)
    }
}

#[tactic(auto, using(crate::proofs::Literals::literal_2000), unfolding(crate::specs::Pieces::compressed_piece))]
fn compressed_piece(l: Law, p: u32) -> Piece
    ensures { result ≡ compressed_piece l p }
{
    let fcd = l.fcd as f64;
    if p <= 2000 {
        Piece::Parabola {
            peak: fcd,
            strain: 2000.0,
        }
    } else {
        Piece::Flat(fcd)
    }
}

#[tactic(auto, unfolding(crate::specs::Pieces::piece_at))]
fn piece_at(l: Law, strain: i32) -> Piece
    ensures { result ≡ piece_at l strain }
{
    let size = strain.unsigned_abs();
    if strain < 0 {
        stretched_piece(l, size)
    } else {
        compressed_piece(l, size)
    }
}

#[tactic(auto, unfolding(law::specs::Edition::edition))]
fn drawable(of: &Lawful, strain: i32) -> bool
    ensures { result ≡ in_drawn_range strain }
{
    (-(of.law.drawn as i64)..=3500).contains(&(strain as i64))
}

// The point of a section's law at a whole strain; refused by 7 to 13 with 20, then by 18.
#[tactic(auto, unfolding(crate::specs::Drawn::drawn_refusal))]
pub fn draw(section: Section, strain: i32) -> Result<Point, Refusal>
    ensures { Answers (drawn_refusal section strain) (point_at (law_of section) strain) result }
{
    let of = Lawful::of(section)?;
    if !drawable(&of, strain) {
        return Err(Refusal::OffRange);
    }
    let e = strain as f64;
    Ok(Point {
        strain: e,
        stress: piece_at(of.law, strain).at(e),
    })
}
