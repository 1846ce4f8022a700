// Where the forces of a section balance: the list of every depth, and the first alone (document 01, 'Strains, strips
// and balance'; document 02 [5]), with the work that it took ([6]).
#![tactic(auto)]

ghost use Rattle.std.specs.Prelude.{◌≡◌, ◌≤◌, length, Err};
ghost use Rattle.refusal.specs.Refusal.{number};
ghost use Rattle.section.specs.Has.{last_depth};
ghost use Rattle.depths.specs.declared.Unlisted.TheVariants.{Refused};
ghost use Rattle.depths.specs.Depths.{kind_number};
ghost use Rattle.depths.specs.Answers.{work_to, told, told_first, list_answer, row_after, first_answer};

mod list;
mod sign;
mod walk;

use law::Lawful;
use refusal::Refusal;
use section::Section;
use walk::Walk;

// Why a depth is listed: its imbalance is zero, or it has the opposite sign at the next depth.
#[derive(Clone, Copy, Debug, PartialEq, Eq)]
pub enum Kind {
    Zero = 1,
    Pair = 2,
}

// How many depths are listed. Work is counted in stresses.
#[derive(Clone, Copy, Debug, PartialEq, Eq)]
pub struct Listing {
    pub count: u32,
    pub work: u32,
}

#[derive(Clone, Copy, Debug, PartialEq, Eq)]
pub struct FirstDepth {
    pub depth: u32,
    pub kind: Kind,
    pub work: u32,
    pub moment: i64,
}

// Why there is no list, or no first depth: the section is refused; or none is listed; or the row is shorter than three
// words a listed depth.
#[derive(Clone, Copy, Debug, PartialEq, Eq)]
pub enum Unlisted {
    Refused(Refusal),
    NoDepth { work: u32 },
    RowShort { count: u32, work: u32 },
}

impl From<Kind> for u32 {
    ghost from_gives = { λ kind n. n ≡ kind_number kind };

    fn from(kind: Kind) -> u32 {
        kind as u32
    }
}

impl From<Refusal> for Unlisted {
    ghost from_gives = { λ refusal u. u ≡ Refused refusal };

    fn from(refusal: Refusal) -> Unlisted {
        Unlisted::Refused(refusal)
    }
}

// What it is refused by, without what is known beside it.
impl From<Unlisted> for Refusal {
    ghost from_gives = { λ unlisted r. number r ≡ (told (Err unlisted)).refusal };

    fn from(unlisted: Unlisted) -> Refusal {
        match unlisted {
            Unlisted::Refused(by) => by,
            Unlisted::NoDepth { .. } => Refusal::NoDepth,
            Unlisted::RowShort { .. } => Refusal::RowLength,
        }
    }
}

// The stresses of the imbalances at the depths from 1 to one, as the rule counts them: every strip and every layer at
// each, whether the sign there needed it or not.
fn work_to(lawful: &Lawful, last: u32) -> u32
    requires { last ≤ last_depth lawful.now.section }
    ensures { result ≡ work_to lawful.now.section last }
{
    let strips = lawful.section.h as u32;
    let layers = lawful.section.count as u32;
    last * (strips + layers)
}

// The first listed depth alone, its kind, its moment, and the work that it took.
pub fn first(section: Section) -> Result<FirstDepth, Unlisted>
    ensures { told_first result ≡ first_answer section }
{
    let mut walk = Walk::over(Lawful::of(section)?);
    let found = walk.next();
    let work = work_to(&walk.lawful, walk.looked);
    let listed = found.ok_or(Unlisted::NoDepth { work })?;
    Ok(FirstDepth {
        depth: listed.depth,
        kind: listed.kind,
        work,
        moment: list::moment_at(&walk.lawful, listed.depth),
    })
}

// The listed depths of a section, three words each in the row: x, kind, moment; their number, and the work that it
// took, that of every depth of the grid. The row stays as it was where they are not listed.
pub fn depths(section: Section, row: &mut [i64]) -> Result<Listing, Unlisted>
    ensures { (told result ≡ list_answer section (length row.old)) × (row.new ≡ row_after section row.old) }
{
    let lawful = Lawful::of(section)?;
    let kinds = list::kinds(&lawful);
    let count = list::count(&lawful, &kinds);
    let work = work_to(&lawful, section.last_depth());
    if count == 0 {
        return Err(Unlisted::NoDepth { work });
    }
    if row.len() < 3 * (count as usize) {
        return Err(Unlisted::RowShort { count, work });
    }
    list::write(&lawful, &kinds, row);
    Ok(Listing { count, work })
}
