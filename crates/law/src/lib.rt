// The law of a section's concrete and bars: its whole numbers, and the rounded size of a stress (document 01, 'Stress
// at a strain').
#![tactic(auto)]

ghost use Rattle.std.specs.Prelude.{◌≡◌, true, ◌*◌, ◌-◌, ◌≤◌, ◌<◌, IfOk};
ghost use Rattle.refusal.specs.Refusal.{number_of, Answers};
ghost use Rattle.section.specs.Refusal.{section_refusal};
ghost use Rattle.section.specs.Accepted.{Accepted};
ghost use Rattle.law.specs.Law.{limit_depth, effective_depth, law_of};
ghost use Rattle.law.specs.Stress.{size, ramp, compressed, stretched, concrete, bar};
ghost use Rattle.law.specs.Sizes.{small, Small, size_in};

use refusal::Refusal;
use section::Section;

// Table 1 of document 002, by fck from 20 to 50 in steps of 5: mean flexural strength in kPa, modulus in N/mm².
const TABLE: [(u32, u32); 7] = [
    (3700, 29000),
    (4300, 30500),
    (4800, 32000),
    (5300, 33500),
    (5800, 35000),
    (6300, 36000),
    (6800, 37000),
];

// Stresses in kPa, strains in millionths. Then what the neutral axis is found by: the limit strain, the depth in mm
// where it is reached, and the ratio that says where it is; the effective depth d in mm; and the strain in tension where
// the drawn range begins.
#[derive(Clone, Copy)]
pub struct Law {
    pub fcd: u32,
    pub s1: u32,
    pub e1: u32,
    pub e2: u32,
    pub s2: u32,
    pub s3: u32,
    pub e3: u32,
    pub fyd: u32,
    pub strain: u32,
    pub limit: u32,
    pub ratio: u32,
    pub d: u32,
    pub drawn: u32,
}

// An accepted section with its law.
#[derive(Clone, Copy)]
pub struct Lawful {
    pub section: Section,
    pub law: Law,
    ghost accepted: { Accepted section },
    ghost is: { law ≡ law_of section },
}

// A section that is known to be accepted.
#[derive(Clone, Copy)]
struct Passed {
    section: Section,
    ghost accepted: { Accepted section },
}

// Where a line of the law in tension begins or ends.
#[derive(Clone, Copy)]
struct Corner {
    strain: u64,
    stress: u64,
}

impl Corner {
    fn at(strain: u32, stress: u32) -> Corner
        ensures { result ≡ record { strain = strain; stress = stress } }
    {
        Corner {
            strain: strain as u64,
            stress: stress as u64,
        }
    }
}

impl Passed {
    // Where the limit strain is reached: the depth of the deepest layer, or h without bars.
    #[tactic(auto, unfolding(crate::specs::Law::limit_depth))]
    fn limit_depth(self) -> u32
        ensures { result ≡ limit_depth self.section }
    {
        let section = self.section;
        section.layers[..section.count as usize]
            .last()
            .map_or(section.h, |deepest| deepest.depth) as u32
    }

    // d, for s1 and for shear: the centroid of the layers below mid-height, or h without bars.
    #[tactic(auto, using(section::proofs::Centroid::steel_some, crate::proofs::Ranges::centroid_in), unfolding(crate::specs::Law::effective_depth))]
    fn effective_depth(self) -> u32
        ensures { result ≡ effective_depth self.section }
    {
        if self.section.count == 0 {
            return self.section.h as u32;
        }
        let steel = self.section.steel();
        (steel.moment / steel.area) as u32
    }

    #[tactic(auto, using(crate::proofs::Ranges::depth_in))]
    fn law(self) -> Law
        ensures { result ≡ law_of self.section }
    {
        let section = self.section;
        let column = ((section.fck - 20) / 5) as usize;
        let (flexural, modulus) = TABLE[column];
        let d = self.effective_depth();
        let s1 = 7 * flexural * (1600 - d) / 10000;
        let e1 = 1000 * s1 / modulus;
        Law {
            fcd: section.fck as u32 * 1000 * 17 / 30,
            s1,
            e1,
            e2: e1 + 100,
            s2: 45 * (section.feq2 as u32) / 100,
            s3: 37 * (section.feq3 as u32) / 100,
            e3: 10000,
            fyd: section.fyk as u32 * 1000 * 100 / 115,
            strain: 10000,
            limit: self.limit_depth(),
            ratio: 27,
            d,
            drawn: 10000,
        }
    }
}

// The sizes below are rounded, in kPa. A strain of 500 t / q, which every strain of a section is, shares its factor with
// the rule's numbers, so that nothing leaves 64 bits: 4000 is 500 times 8, 4,000,000 is 250,000 times 16.

#[tactic(auto, using(crate::proofs::Sizes::in_compression))]
fn compressed_at(l: Law, t: u64, q: u64) -> u64
    requires { (Small l) × (0 < t) × (q < 65536) }
    ensures { result ≡ size (compressed l (500 * t) q) }
{
    let fcd = l.fcd as u64;
    if 4 * q < t {
        return fcd;
    }
    fcd * (t * (8 * q - t)) / (16 * q * q)
}

// On the line from one corner to the next.
#[tactic(auto, using(crate::proofs::Sizes::length_of), unfolding(crate::specs::Stress::size))]
fn ramp_at(from: Corner, to: Corner, p: u64, q: u64) -> u64
    requires { (from.strain * q < p) × (p ≤ to.strain * q) × (from.stress < 65536) × (to.strain < 65536) × (to.stress < 65536) × (q < 65536) }
    ensures { result ≡ size (ramp from.strain from.stress to.strain to.stress p q) }
{
    (from.stress * (to.strain * q - p) + to.stress * (p - from.strain * q))
        / ((to.strain - from.strain) * q)
}

#[tactic(auto, using(crate::proofs::Sizes::in_tension))]
fn stretched_at(l: Law, p: u64, q: u64) -> u64
    requires { (Small l) × (0 < p) × (q < 65536) }
    ensures { result ≡ size (stretched l p q) }
{
    let start = Corner::at(0, 0);
    let first = Corner::at(l.e1, l.s1);
    let second = Corner::at(l.e2, l.s2);
    let third = Corner::at(l.e3, l.s3);
    if p <= first.strain * q {
        return ramp_at(start, first, p, q);
    }
    if p <= second.strain * q {
        return ramp_at(first, second, p, q);
    }
    if p <= third.strain * q {
        return ramp_at(second, third, p, q);
    }
    0
}

impl Lawful {
    // A section with its law, where it is accepted.
    pub fn of(section: Section) -> Result<Lawful, Refusal>
        ensures refusal { number_of result ≡ section_refusal section }
        ensures same { IfOk result (λ x. x.section ≡ section) }
    {
        section.check()?;
        Ok(Lawful {
            section,
            law: Passed { section }.law(),
        })
    }
}

impl Law {
    // The law of a section.
    pub fn of(section: Section) -> Result<Law, Refusal>
        ensures { Answers (section_refusal section) (law_of section) result }
    {
        Ok(Lawful::of(section)?.law)
    }

    fn small(self) -> bool
        ensures { result ≡ small self }
    {
        [
            self.fcd, self.s1, self.s2, self.s3, self.e1, self.e2, self.e3,
        ]
        .iter()
        .all(|number| *number < 65536)
    }

    // The rounded size of the concrete's stress at a strain of 500 t / q, tension where it pulls; 0 of a law with
    // numbers that no section has. Without strain there is no stress, whatever q is.
    // The side is a bool, as in the rule: a public function's signature stays.
    #[tactic(auto, using(crate::proofs::Sizes::of_concrete))]
    pub fn concrete_size(self, pulls: bool, t: u32, q: u16) -> u64
        ensures { result ≡ size_in self (concrete self pulls (500 * t) q) }
    {
        if !self.small() || t == 0 {
            return 0;
        }
        if pulls {
            stretched_at(self, 500 * (t as u64), q as u64)
        } else {
            compressed_at(self, t as u64, q as u64)
        }
    }

    // The same of a bar, in tension as in compression; of any law, since fyd q and 100,000 t fit in any case.
    #[tactic(auto, using(crate::proofs::Sizes::of_bars))]
    pub fn bar_size(self, t: u32, q: u16) -> u64
        ensures { result ≡ size (bar self true (500 * t) q) }
    {
        let t = t as u64;
        let q = q as u64;
        let fyd = self.fyd as u64;
        if t == 0 {
            return 0;
        }
        if fyd * q < 100000 * t {
            return fyd;
        }
        100000 * t / q
    }
}
