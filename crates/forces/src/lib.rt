// The forces of a section at a neutral axis: imbalance and moment at a depth, the rule itself (document 01, 'Strains, strips and balance').
#![tactic(auto)]

ghost use Rattle.std.specs.Prelude.{◌≡◌, cond, ◌+◌, ◌*◌, ◌-◌, ◌≤◌, ◌<◌, pos, nat_abs, ◌+ℤ◌, ◌-ℤ◌, ◌*ℤ◌};
ghost use Rattle.refusal.specs.Refusal.{Answers};
ghost use Rattle.section.specs.Has.{width_at, last_depth};
ghost use Rattle.strips.specs.Strips.{scale_of};
ghost use Rattle.forces.specs.Forces.{strain_scale, bar_counts, strip_force, strip_moment, bar_force, bar_moment, imbalance, moment};
ghost use Rattle.forces.specs.Axis.{axis_at};
ghost use Rattle.forces.specs.Answers.{grid_refusal};
ghost use Rattle.forces.specs.Code.{most_force, most_moment, Summed, sums_of};

use law::{Law, Lawful};
use refusal::Refusal;
use section::Section;
use strips::Axis;

// Forces in mN, and their moment about mid-height in mN half-mm.
#[derive(Clone, Copy)]
struct Sums {
    force: i64,
    moment: i64,
}

impl Sums {
    // A stress on an area more, by its lever.
    fn add(&mut self, lever: i64, area: u16, stress: i64)
        requires sizes { (nat_abs lever ≤ 1000) × (nat_abs stress ≤ 521739) }
        requires room { (nat_abs self.old.force ≤ most_force * 999) × (nat_abs self.old.moment ≤ most_moment * 999) }
        ensures force { self.new.force ≡ self.old.force +ℤ (pos area *ℤ stress) }
        ensures moment { self.new.moment ≡ self.old.moment +ℤ (lever *ℤ (pos area *ℤ stress)) }
    {
        let force = area as i64 * stress;
        self.force += force;
        self.moment += lever * force;
    }
}

// The neutral axis at a depth, with its strains; without any of a law whose numbers no section has.
#[tactic(auto, unfolding(crate::specs::Axis::axis_at))]
pub fn axis_at(law: Law, x: u16) -> Axis
    ensures { result ≡ axis_at law x }
{
    if !(law.limit < 32768 && law.strain < 128000 && 7 <= law.ratio && x < 32768) {
        return Axis {
            x,
            unit: 0,
            over: 0,
        };
    }
    if law.ratio as u64 * (x as u64) < 7 * (law.limit as u64) {
        return Axis {
            x,
            unit: (law.strain / 500) as u8,
            over: (2 * (law.limit - x as u32)) as u16,
        };
    }
    Axis {
        x,
        unit: 7,
        over: 2 * x,
    }
}

// The stress that a bar at a depth counts with, rounded, with its sign.
pub fn bar(law: Law, axis: Axis, depth: u16) -> i64
    ensures { result ≡ bar_counts law (scale_of axis) axis.x depth }
{
    let apart = axis.x.abs_diff(depth) as u32;
    let size = law.bar_size(axis.unit as u32 * (2 * apart), axis.over) as i64;
    if axis.x < depth { -size } else { size }
}

fn width_at(section: Section, i: u16) -> u16
    ensures { result ≡ width_at section i }
{
    if i < section.hf {
        section.bf
    } else {
        section.b
    }
}

// Twice the distance above mid-height of a position, which is twice a depth.
fn lever(h: u16, position: u32) -> i64
    ensures { result ≡ pos h -ℤ pos position }
{
    h as i64 - position as i64
}

fn strip_sums(of: &Lawful, axis: Axis) -> Sums
    requires { scale_of axis ≡ strain_scale of.now.law axis.x }
    ensures { let s = of.now.section in Summed s.h (strip_force of.now.law s axis.x) (strip_moment of.now.law s axis.x) result.force result.moment }
{
    let section = of.section;
    let mut sums = Sums {
        force: 0,
        moment: 0,
    };
    for i in 0..section.h {
        let lever = lever(section.h, 2 * (i as u32) + 1);
        sums.add(lever, width_at(section, i), strips::strip(of.law, axis, i));
    }
    sums
}

fn bar_sums(of: &Lawful, axis: Axis) -> Sums
    requires { scale_of axis ≡ strain_scale of.now.law axis.x }
    ensures { let s = of.now.section in Summed s.count (bar_force of.now.law s axis.x) (bar_moment of.now.law s axis.x) result.force result.moment }
{
    let section = of.section;
    let mut sums = Sums {
        force: 0,
        moment: 0,
    };
    for layer in &section.layers[..section.count as usize] {
        let lever = lever(section.h, 2 * (layer.depth as u32));
        sums.add(lever, layer.area, bar(of.law, axis, layer.depth));
    }
    sums
}

// Imbalance and moment at a depth.
fn sums_at(of: &Lawful, x: u16) -> Sums
    requires { (0 < x) × (x ≤ last_depth of.now.section) }
    ensures { result ≡ sums_of of.now.section x }
{
    let axis = axis_at(of.law, x);
    let strips = strip_sums(of, axis);
    let bars = bar_sums(of, axis);
    Sums {
        force: strips.force + bars.force - 1000 * (of.section.load as i64),
        moment: strips.moment + bars.moment,
    }
}

// Imbalance and moment, where the section is accepted and the depth is on its grid.
#[tactic(auto, unfolding(crate::specs::Answers::grid_refusal))]
fn sums_on_grid(section: Section, x: u32) -> Result<Sums, Refusal>
    ensures { Answers (grid_refusal section x) (sums_of section x) result }
{
    let of = Lawful::of(section)?;
    if !(1..=section.last_depth()).contains(&x) {
        return Err(Refusal::OffRange);
    }
    Ok(sums_at(&of, x as u16))
}

// Compression forces minus tension forces minus the axial load, in mN, with the neutral axis at depth x; refused by 7 to 13 with 20, then by 18.
pub fn imbalance(section: Section, x: u32) -> Result<i64, Refusal>
    ensures { Answers (grid_refusal section x) (imbalance section x) result }
{
    Ok(sums_on_grid(section, x)?.force)
}

// The moment about mid-height, in mN half-mm, positive where the compressed face is on top; refused likewise.
pub fn moment(section: Section, x: u32) -> Result<i64, Refusal>
    ensures { Answers (grid_refusal section x) (moment section x) result }
{
    Ok(sums_on_grid(section, x)?.moment)
}
