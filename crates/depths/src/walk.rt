// The walk over the listed depths of a section, shallowest first, by the signs of its imbalance. It looks at one depth
// after another, and at none past the one that decides: x itself of kind 1, x + 1 of kind 2.
ghost use Rattle.std.specs.Prelude.{◌≡◌, ◌≤◌, ◌-◌};
ghost use Rattle.section.specs.Has.{last_depth};
ghost use Rattle.depths.specs.Code.{sign_looked, opposed};

use crate::Kind;
use crate::sign::sign_at;
use law::Lawful;
use std::cmp::Ordering;

#[derive(Clone, Copy)]
pub(crate) struct Listed {
    pub(crate) depth: u32,
    pub(crate) kind: Kind,
}

// How far was looked, and the sign there; none before the first.
#[derive(Clone, Copy)]
pub(crate) struct Walk {
    pub(crate) lawful: Lawful,
    pub(crate) looked: u32,
    sign: Option<Ordering>,
    ghost inside: { looked ≤ last_depth lawful.section },
    ghost there: { sign ≡ sign_looked lawful.section looked },
}

// Whether two signs are on opposite sides of zero; before the first depth there is none.
fn opposite(before: Option<Ordering>, here: Ordering) -> bool
    ensures { result ≡ opposed before here }
{
    match (before, here) {
        (Some(Ordering::Less), Ordering::Greater) | (Some(Ordering::Greater), Ordering::Less) =>
            true,
        _ => false,
    }
}

impl Walk {
    ghost use Rattle.depths.specs.Walk.{open_at};

    pub(crate) fn over(lawful: Lawful) -> Walk
        ensures { (result.lawful ≡ lawful) × (open_at result ≡ 1) }
    {
        Walk {
            lawful,
            looked: 0,
            sign: None,
        }
    }
}

impl Iterator for Walk {
    ghost use Rattle.std.specs.Iterator.{at_most};
    ghost use Rattle.depths.specs.Walk.{NextListed};

    type Item = Listed;

    ghost next_gives = { NextListed };

    ghost remaining = { λ w. at_most (last_depth w.lawful.section - w.looked) };

    fn next(&mut self) -> Option<Listed> {
        // A copy, so that what depends on it alone is computed once, and not at each depth.
        let lawful = self.lawful;
        for looked in self.looked..lawful.section.last_depth() {
            let x = looked + 1;
            let before = self.sign;
            let here = sign_at(&lawful, x as u16);
            self.looked = x;
            self.sign = Some(here);
            if here.is_eq() {
                return Some(Listed {
                    depth: x,
                    kind: Kind::Zero,
                });
            }
            if opposite(before, here) {
                return Some(Listed {
                    depth: looked,
                    kind: Kind::Pair,
                });
            }
        }
        None
    }
}
