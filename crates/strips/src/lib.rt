// The strips of a section at a neutral axis (document 01, 'Strains, strips and balance'): the stress of one, and bounds of the sum over a run
// of them. The bounds are closed sums, one quotient for each piece of the law, and no strip is visited: rounding takes less than 1 kPa off
// each, so a closed sum is above the sum of the rounded stresses by at most the number of strips that are rounded.
#![tactic(auto)]

ghost use Rattle.std.specs.Prelude.{◌≡◌, ◌+◌, ◌*◌, ◌-◌, ◌^◌, ◌≤◌, ◌<◌, leb, true, false, min, MatchOption};
ghost use Rattle.strips.specs.Strips.{reach, strip_at};
ghost use Rattle.strips.specs.Closed.{odds, thrice, squares, bent_sum, ramp_sum};
ghost use Rattle.strips.specs.Bounds.{cut_at, end_of, fits, pressed_bound, pulled_bound, bounds_of};
ghost use Rattle.strips.specs.Code.{OnParabola, Past, OnRamp, Fit};

use law::Law;

// A neutral axis at depth x. The strain at a position, which is twice a depth, is 500 unit (2 x - position) / over.
#[derive(Clone, Copy)]
pub struct Axis {
    pub x: u16,
    pub unit: u8,
    pub over: u16,
}

// Where a sum of stresses lies, in kPa: from `low` to `high`.
#[derive(Clone, Copy)]
pub struct Range {
    pub low: i64,
    pub high: i64,
}

// A closed sum of sizes, and how many of its strips are rounded: the sum of the rounded sizes is at most `most`, and at least that less
// `rounded`.
#[derive(Clone, Copy)]
struct Bound {
    most: u64,
    rounded: u64,
}

// Strips by their places from the axis, on their own side of it, the places from..to: at place j the reach is 2 j + 1.
#[derive(Clone, Copy)]
struct Places {
    from: u64,
    to: u64,
    ghost in_order: { from ≤ to },
    ghost few: { to ≤ 2000 },
}

// A straight piece of the law, from (ea, sa) to (eb, sb), rising or falling.
#[derive(Clone, Copy)]
struct Ramp {
    ea: u32,
    sa: u32,
    eb: u32,
    sb: u32,
    ghost ends: { (ea < eb) × (eb ≤ 25000) },
    ghost stresses: { (sa ≤ 10000) × (sb ≤ 10000) },
}

// The strips from..to under a law at an axis, of a size that 64 bits hold their closed sums, as every accepted section's are.
#[derive(Clone, Copy)]
struct Run {
    law: Law,
    axis: Axis,
    from: u16,
    to: u16,
    ghost in_order: { from ≤ to },
    ghost fits: { Fit law axis to },
}

fn thrice(n: u64) -> u64
    requires { n ≤ 2000 }
    ensures { (result ≡ thrice n) × (result ≤ 32000000000) }
{
    4 * (n * n * n) - n
}

impl Places {
    // Those up to the first whose reach times a rate is above a limit, and those from it on. The quotient is of 32 bits, which is quicker, and
    // with `clamp`, which was tried, a list takes a sixth longer.
    fn cut(self, limit: u32, rate: u32) -> (Places, Places)
        requires { (0 < rate) × (limit < 2 ^ 31) }
        ensures { (result.0.from ≡ self.from) × (result.0.to ≡ cut_at limit rate self.from self.to)
            × (result.1.from ≡ result.0.to) × (result.1.to ≡ self.to) }
    {
        let at = self.to.min(((limit / rate + 1) / 2) as u64).max(self.from);
        let within = Places {
            from: self.from,
            to: at,
        };
        let beyond = Places {
            from: at,
            to: self.to,
        };
        (within, beyond)
    }

    fn count(self) -> u64
        ensures { result ≡ self.to - self.from }
    {
        self.to - self.from
    }

    // The sum of their reaches.
    fn odds(self) -> u64
        ensures { (result ≡ odds self.from self.to) × (result ≤ 4000000) }
    {
        self.to * self.to - self.from * self.from
    }

    // Three times the sum of their squares.
    fn squares(self) -> u64
        ensures { (result ≡ squares self.from self.to) × (result ≤ 32000000000) }
    {
        thrice(self.to) - thrice(self.from)
    }
}

impl Ramp {
    // The one that goes on from its end, to (e, s).
    fn on_to(self, e: u32, s: u32) -> Ramp
        requires { (self.eb < e) × (e ≤ 25000) × (s ≤ 10000) }
        ensures { (result.ea ≡ self.eb) × (result.sa ≡ self.sb) × (result.eb ≡ e) × (result.sb ≡ s) }
    {
        Ramp {
            ea: self.eb,
            sa: self.sb,
            eb: e,
            sb: s,
        }
    }
}

impl Run {
    // The strips from..to, none where `from` is past `to`; or nothing where law, axis or `to` are larger.
    fn of(law: Law, axis: Axis, from: u16, to: u16) -> Option<Run>
        ensures { MatchOption result (fits law axis to ≡ false)
            (λ run. (fits law axis to ≡ true) × (run.law ≡ law) × (run.axis ≡ axis) × (run.from ≡ min from to) × (run.to ≡ to)) }
    {
        let fits = (0 < axis.over)
            & (axis.over <= 22000)
            & (0 < axis.unit)
            & (axis.unit <= 50)
            & (axis.x <= 2000)
            & (to <= 2000)
            & (law.fcd <= 28333)
            & (law.s1 <= 10000)
            & (law.s2 <= 10000)
            & (law.s3 <= 10000)
            & (0 < law.e1)
            & (law.e1 < law.e2)
            & (law.e2 < law.e3)
            & (law.e3 <= 25000);
        if !fits {
            return None;
        }
        Some(Run {
            law,
            axis,
            from: from.min(to),
            to,
        })
    }

    // Those above the axis, which press.
    fn above(self) -> Places
        ensures { (result.from ≡ self.axis.x - self.to) × (result.to ≡ self.axis.x - self.from) }
    {
        Places {
            from: self.axis.x.saturating_sub(self.to) as u64,
            to: self.axis.x.saturating_sub(self.from) as u64,
        }
    }

    // Those below it, which pull.
    fn below(self) -> Places
        ensures { (result.from ≡ self.from - self.axis.x) × (result.to ≡ self.to - self.axis.x) }
    {
        Places {
            from: self.from.saturating_sub(self.axis.x) as u64,
            to: self.to.saturating_sub(self.axis.x) as u64,
        }
    }

    // What places on the parabola bear.
    fn bent(self, places: Places) -> u64
        requires { OnParabola self.axis.over self.axis.unit places.from places.to }
        ensures { (result ≡ bent_sum self.law.fcd self.axis.over self.axis.unit places.from places.to) × (result < 2 ^ 62) }
    {
        let fcd = self.law.fcd as u64;
        let over = self.axis.over as u64;
        let unit = self.axis.unit as u64;
        let line = fcd * unit * (24 * over) * places.odds();
        let bend = fcd * unit * unit * places.squares();
        (line - bend) / (48 * over * over)
    }

    // What places on a ramp bear: both of its ends are weighed.
    fn slanted(self, ramp: Ramp, places: Places) -> u64
        requires { OnRamp ramp.ea ramp.eb self.axis.over self.axis.unit places.from places.to }
        ensures { (result ≡ ramp_sum ramp.ea ramp.sa ramp.eb ramp.sb self.axis.over self.axis.unit places.from places.to)
            × (result < 2 ^ 60) }
    {
        let (ea, sa) = (ramp.ea as u64, ramp.sa as u64);
        let (eb, sb) = (ramp.eb as u64, ramp.sb as u64);
        let over = self.axis.over as u64;
        let strain = 500 * (self.axis.unit as u64) * places.odds();
        let length = over * places.count();
        (sa * (eb * length) + sb * strain - (sa * strain + sb * (ea * length))) / ((eb - ea) * over)
    }

    // What the places up to a ramp's end bear, and those beyond it.
    fn along(self, ramp: Ramp, places: Places) -> (u64, Places)
        requires { Past ramp.ea self.axis.over self.axis.unit places.from places.to }
        ensures { let at = end_of ramp.eb self.axis places.from places.to in
            (result.0 ≡ ramp_sum ramp.ea ramp.sa ramp.eb ramp.sb self.axis.over self.axis.unit places.from at) × (result.0 < 2 ^ 60)
            × (result.1.from ≡ at) × (result.1.to ≡ places.to) × Past ramp.eb self.axis.over self.axis.unit at places.to }
    {
        let (on, beyond) = places.cut(
            ramp.eb * (self.axis.over as u32),
            500 * (self.axis.unit as u32),
        );
        (self.slanted(ramp, on), beyond)
    }

    // Compressed strips: those past the parabola's top bear fcd each, and are not rounded.
    fn pressed(self) -> Bound
        ensures { (result ≡ pressed_bound self.law self.axis (self.axis.x - self.to) (self.axis.x - self.from))
            × (result.most ≤ 140000000) × (result.rounded ≤ 2000) }
    {
        let (bent, level) = self
            .above()
            .cut(4 * (self.axis.over as u32), self.axis.unit as u32);
        Bound {
            most: self.law.fcd as u64 * level.count() + self.bent(bent),
            rounded: bent.count(),
        }
    }

    // Stretched strips: three ramps, each from where the last one ends, and nothing beyond e3.
    fn pulled(self) -> Bound
        ensures { (result ≡ pulled_bound self.law self.axis (self.from - self.axis.x) (self.to - self.axis.x))
            × (result.most ≤ 140000000) × (result.rounded ≤ 2000) }
    {
        let law = self.law;
        let first = Ramp {
            ea: 0,
            sa: 0,
            eb: law.e1,
            sb: law.s1,
        };
        let second = first.on_to(law.e2, law.s2);
        let third = second.on_to(law.e3, law.s3);
        let places = self.below();
        let (one, past_first) = self.along(first, places);
        let (two, past_second) = self.along(second, past_first);
        let (three, past_third) = self.along(third, past_second);
        Bound {
            most: one + two + three,
            rounded: past_third.from - places.from,
        }
    }
}

// How far a strip's middle lies from the axis.
fn reach(x: u16, i: u16) -> u32
    ensures { (result ≡ reach (leb x i) x i) × (result ≤ 131071) }
{
    (2 * (i as u32) + 1).abs_diff(2 * (x as u32))
}

// The stress of a strip, rounded, with its sign.
pub fn strip(law: Law, axis: Axis, i: u16) -> i64
    ensures { result ≡ strip_at law axis i }
{
    let pulls = axis.x <= i;
    let size = law.concrete_size(pulls, axis.unit as u32 * reach(axis.x, i), axis.over) as i64;
    if pulls { -size } else { size }
}

// Bounds of the sum of the rounded stresses of the strips from..to, `to` not among them, with their signs: the strips above the axis press,
// those below it pull. No strip is visited. Where law, axis or run are larger than any section's, nothing is known but what 65,535 strips of
// less than 65,536 kPa each cannot reach.
pub fn bounds(law: Law, axis: Axis, from: u16, to: u16) -> Range
    ensures { result ≡ bounds_of law axis from to }
{
    let Some(run) = Run::of(law, axis, from, to) else {
        return Range {
            low: -4294967296,
            high: 4294967296,
        };
    };
    let push = run.pressed();
    let pull = run.pulled();
    let apart = push.most as i64 - pull.most as i64;
    Range {
        low: apart - push.rounded as i64,
        high: apart + pull.rounded as i64,
    }
}
