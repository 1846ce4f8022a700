// The sign of a section's imbalance at a depth: how it compares with zero. Bounds of the strips' force give it without
// a strip visited wherever zero does not lie between them, and the rule itself where it does.
ghost use Rattle.std.specs.Prelude.{◌≡◌, ◌+◌, ◌*◌, ◌-◌, ◌≤◌, ◌<◌, pos, nat_abs, ◌*ℤ◌};
ghost use Rattle.arith.specs.Sums.{sum_z, after};
ghost use Rattle.section.specs.Has.{last_depth};
ghost use Rattle.law.specs.Law.{law_of};
ghost use Rattle.strips.specs.Strips.{scale_of, strip_at};
ghost use Rattle.forces.specs.Forces.{strain_scale, strip_force, bar_force, imbalance};
ghost use Rattle.depths.specs.Code.{most_run, most_bars, Lies, sign_of};

use law::{Law, Lawful};
use section::Section;
use std::cmp::Ordering;
use strips::{Axis, Range};

// The strips of one width from one on, up to another, which is not among them.
#[derive(Clone, Copy)]
struct Run {
    width: u16,
    from: u16,
    end: u16,
}

// The runs of a section's strips, from one strip on: flange and web of a rib, a rectangle's one.
#[derive(Clone, Copy)]
struct Runs {
    section: Section,
    from: u16,
}

impl Run {
    // Where the force of its strips lies, in mN.
    fn force(self, law: Law, axis: Axis) -> Range
        requires { (self.width ≤ 2000) × (self.from ≤ self.end) }
        ensures { Lies (pos self.width *ℤ sum_z (self.end - self.from) (after self.from (strip_at law axis))) most_run result }
    {
        let run = strips::bounds(law, axis, self.from, self.end);
        Range {
            low: self.width as i64 * run.low,
            high: self.width as i64 * run.high,
        }
    }
}

impl Runs {
    fn of(section: Section) -> Runs
        ensures { (result.section ≡ section) × (result.from ≡ 0) }
    {
        Runs { section, from: 0 }
    }
}

impl Iterator for Runs {
    ghost use Rattle.std.specs.Iterator.{at_most};
    ghost use Rattle.depths.specs.Runs.{NextRun};

    type Item = Run;

    ghost next_gives = { NextRun };

    ghost remaining = { λ r. at_most (r.section.h - r.from) };

    fn next(&mut self) -> Option<Run> {
        let from = self.from;
        if self.section.h <= from {
            return None;
        }
        let in_flange = from < self.section.hf;
        self.from = if in_flange {
            self.section.hf
        } else {
            self.section.h
        };
        Some(Run {
            width: if in_flange {
                self.section.bf
            } else {
                self.section.b
            },
            from,
            end: self.from,
        })
    }
}

// Where the force of all strips lies, run after run. With one call for flange and web, in a loop, the compiler puts the
// bounds in its place, and a list takes three quarters of the time.
fn strips_force(lawful: &Lawful, axis: Axis) -> Range
    requires { scale_of axis ≡ strain_scale (law_of lawful.now.section) axis.x }
    ensures { Lies (sum_z lawful.now.section.h (strip_force (law_of lawful.now.section) lawful.now.section axis.x)) (most_run * 2) result }
{
    let mut sum = Range { low: 0, high: 0 };
    for run in Runs::of(lawful.section) {
        let force = run.force(lawful.law, axis);
        sum.low += force.low;
        sum.high += force.high;
    }
    sum
}

// The bars' force, in mN.
fn bars_force(lawful: &Lawful, axis: Axis) -> i64
    requires { scale_of axis ≡ strain_scale (law_of lawful.now.section) axis.x }
    ensures { (result ≡ sum_z lawful.now.section.count (bar_force (law_of lawful.now.section) lawful.now.section axis.x)) × (nat_abs result ≤ most_bars) }
{
    let mut sum = 0;
    for layer in &lawful.section.layers[..lawful.section.count as usize] {
        sum += layer.area as i64 * forces::bar(lawful.law, axis, layer.depth);
    }
    sum
}

// By the bounds of the imbalance, or by the imbalance itself where zero lies between them.
pub(crate) fn sign_at(lawful: &Lawful, x: u16) -> Ordering
    requires { (0 < x) × (x ≤ last_depth lawful.now.section) }
    ensures { result ≡ sign_of (imbalance lawful.now.section x) }
{
    let axis = forces::axis_at(lawful.law, x);
    let strips = strips_force(lawful, axis);
    let rest = bars_force(lawful, axis) - 1000 * (lawful.section.load as i64);
    if strips.high + rest < 0 {
        return Ordering::Less;
    }
    if 0 < strips.low + rest {
        return Ordering::Greater;
    }
    forces::imbalance(lawful.section, x as u32).unwrap().cmp(&0)
}
