// The list of a section's depths, before it is written: the row stays as it is where it is too short.
ghost use Rattle.std.specs.Prelude.{◌≡◌, ◌+◌, ◌*◌, ◌≤◌, ◌<◌, length, map, replicate, Some};
ghost use Rattle.section.specs.Has.{last_depth};
ghost use Rattle.forces.specs.Forces.{moment};
ghost use Rattle.depths.specs.Depths.{listed, written};
ghost use Rattle.depths.specs.declared.list.Mark.TheVariants.{Unlisted};
ghost use Rattle.depths.specs.Code.{marked, Kept};

use crate::Kind;
use crate::walk::Walk;
use law::Lawful;

// What is kept of a depth: its kind, where it is listed. It has a byte, where an `Option` of a kind has two, and a
// thousand of them stand on the stack.
#[derive(Clone, Copy)]
pub(crate) enum Mark {
    Unlisted,
    Zero,
    Pair,
}

impl Mark {
    fn of(kind: Kind) -> Mark
        ensures { marked result ≡ Some kind }
    {
        match kind {
            Kind::Zero => Mark::Zero,
            Kind::Pair => Mark::Pair,
        }
    }

    fn kind(self) -> Option<Kind>
        ensures { result ≡ marked self }
    {
        match self {
            Mark::Unlisted => None,
            Mark::Zero => Some(Kind::Zero),
            Mark::Pair => Some(Kind::Pair),
        }
    }
}

// A place for each depth of the tallest section, since there is no heap. In a function of its own, so that no other
// proof carries a thousand places.
fn no_kinds() -> [Mark; 1000]
    ensures { result ≡ replicate 1000 Unlisted }
{
    [Mark::Unlisted; 1000]
}

// The kind of each depth that is listed, that of depth 1 first. A struct that holds the array and what is known of it
// was tried: the array is copied into it, and stands on the stack twice.
pub(crate) fn kinds(lawful: &Lawful) -> [Mark; 1000]
    ensures { Kept lawful.now.section (last_depth lawful.now.section + 1) (map marked result) }
{
    let mut kinds = no_kinds();
    for listed in Walk::over(*lawful) {
        kinds[listed.depth as usize - 1] = Mark::of(listed.kind);
    }
    kinds
}

pub(crate) fn moment_at(lawful: &Lawful, x: u32) -> i64
    requires { (0 < x) × (x ≤ last_depth lawful.now.section) }
    ensures { result ≡ moment lawful.now.section x }
{
    forces::moment(lawful.section, x).unwrap()
}

// How many depths are listed.
pub(crate) fn count(lawful: &Lawful, kinds: &[Mark; 1000]) -> u32
    requires { Kept lawful.now.section (last_depth lawful.now.section + 1) (map marked kinds.now) }
    ensures { (result ≡ length (listed lawful.now.section)) × (result ≤ 1000) }
{
    let last = lawful.section.last_depth();
    let grid = &kinds[..last as usize];
    grid.iter().filter(|mark| mark.kind().is_some()).count() as u32
}

// Three words for each depth: x, kind, moment. By `chunks_exact_mut`, which was tried, no proof knows what the row holds
// afterwards.
pub(crate) fn write(lawful: &Lawful, kinds: &[Mark; 1000], row: &mut [i64])
    requires { (Kept lawful.now.section (last_depth lawful.now.section + 1) (map marked kinds.now))
        × (3 * length (listed lawful.now.section) ≤ length row.old) }
    ensures { row.new ≡ written (listed lawful.now.section) row.old }
{
    let last = lawful.section.last_depth();
    let mut at = 0;
    for (i, mark) in kinds[..last as usize].iter().enumerate() {
        if let Some(kind) = mark.kind() {
            let x = i as u32 + 1;
            let words = [x as i64, u32::from(kind) as i64, moment_at(lawful, x)];
            row[at..at + 3].copy_from_slice(&words);
            at += 3;
        }
    }
}
