// The shear that a section resists (document 01, 'Shear'; document 02 [4]: its flange).
#![tactic(auto)]

ghost use Rattle.std.specs.Prelude.{◌≡◌, ◌*◌, ◌^◌, ◌≤◌, ◌<◌, pos, nat_abs};
ghost use Rattle.refusal.specs.Refusal.{Answers};
ghost use Rattle.section.specs.Has.{concrete_area, steel_area};
ghost use Rattle.shear.specs.Shear.{k_of, c_of, axial_share, concrete_share, kf_of, fibre_share, stirrups, struts, resistance_under, resistance, shear_refusal};
ghost use Rattle.shear.specs.Code.{most_axial, most_concrete, most_shear};

use law::Lawful;
use refusal::Refusal;
use section::Section;

// k in thousandths. It is at most 2000, so that 10 binary digits of r are enough.
#[tactic(auto, using(crate::proofs::Roots::k_root))]
fn k_of(d: u64) -> u64
    requires { 0 < d }
    ensures { (result ≡ k_of d) × (result ≤ 2000) }
{
    (1000 + roots::root(false, 10, d, 200000000)).min(2000)
}

// c in thousandths, by b d, As and fck: at most 4641, which has 13 binary digits.
#[tactic(auto, using(crate::proofs::Roots::c_root, crate::proofs::Ranges::steel_product), unfolding(crate::specs::Shear::c_of))]
fn c_of(bd: u64, steel: u64, fck: u64) -> u64
    requires { (0 < bd) × (steel ≤ 65535 * 8) × (fck ≤ 50) }
    ensures { (result ≡ c_of bd steel fck) × (result < 2 ^ 21) }
{
    if bd < 50 * steel {
        roots::root(true, 13, 1, 2000000000 * fck)
    } else {
        roots::root(true, 13, bd, 100000000000 * steel * fck)
    }
}

// d, the depth that counts.
fn depth_of(lawful: Lawful) -> u64
    ensures { (result ≡ lawful.law.d) × (0 < result) × (result ≤ 1000) }
{
    lawful.law.d as u64
}

// b d.
#[tactic(auto, using(crate::proofs::Ranges::web_in))]
fn web(lawful: Lawful) -> u64
    ensures { (result ≡ lawful.section.b * lawful.law.d) × (0 < result) × (result ≤ 2000000) }
{
    lawful.section.b as u64 * depth_of(lawful)
}

// Flange and web: b h without a flange.
fn area(lawful: Lawful) -> u64
    ensures { (result ≡ concrete_area lawful.section) × (0 < result) × (result ≤ 2000 * 1000) }
{
    let section = lawful.section;
    section.bf as u64 * section.hf as u64 + section.b as u64 * (section.h - section.hf) as u64
}

// 15 N / (100 b h), with N in mN and the true area for b h, rounded towards minus infinity.
fn axial_share(lawful: Lawful) -> i64
    ensures { (result ≡ axial_share lawful.section) × (nat_abs result ≤ most_axial) }
{
    (15 * (1000 * (lawful.section.load as i64))).div_euclid(100 * area(lawful) as i64)
}

// In kPa, with the axial share.
fn concrete_share(lawful: Lawful) -> u64
    ensures { (result ≡ concrete_share lawful.law.d lawful.section) × (result ≤ most_concrete) }
{
    let section = lawful.section;
    let c = c_of(web(lawful), section.steel().area, section.fck as u64);
    let share = 12 * k_of(depth_of(lawful)) * c / 100000;
    (share as i64 + axial_share(lawful)).max(0) as u64
}

// kf in thousandths, 1000 without a flange.
#[tactic(auto, using(crate::proofs::Flange::kf_without), unfolding(crate::specs::Shear::kf_of))]
fn kf_of(lawful: Lawful) -> u64
    ensures { (result ≡ kf_of lawful.law.d lawful.section) × (result ≤ 1500) }
{
    let section = lawful.section;
    let b = section.b as u64;
    let hf = section.hf as u64;
    if hf == 0 {
        return 1000;
    }
    let q = (section.bf as u64 - b).min((3 * hf).min(3 * b));
    let kf = 1000 + 1000 * q * hf / web(lawful);
    kf.min(1500)
}

// In kPa.
fn fibre_share(lawful: Lawful) -> u64
    ensures { (result ≡ fibre_share lawful.section.feq3 lawful.law.d (kf_of lawful.law.d lawful.section)) × (result ≤ 6000) }
{
    let feq3 = lawful.section.feq3 as u64;
    12 * feq3 / 100 * (1600 - depth_of(lawful)).max(1000) * kf_of(lawful) / 1000000
}

// In mN; the spacing is ignored where there are none.
#[tactic(auto, unfolding(crate::specs::Shear::stirrups))]
fn stirrups(lawful: Lawful) -> u64
    ensures { (result ≡ stirrups lawful.section.asw lawful.law.d lawful.law.fyd lawful.section.spacing) × (result ≤ most_shear) }
{
    let section = lawful.section;
    if section.asw == 0 {
        return 0;
    }
    let fyd = lawful.law.fyd as u64;
    9 * section.asw as u64 * depth_of(lawful) * fyd / (10 * section.spacing as u64)
}

// In mN.
#[tactic(auto, unfolding(crate::specs::Shear::struts))]
fn struts(fck: u64, bd: u64) -> u64
    requires { (fck ≤ 50) × (bd ≤ 2000000) }
    ensures { (result ≡ struts fck bd) × (result ≤ most_shear) }
{
    (700 - 5 * fck).max(500) * (2000 * fck / 3) * (9 * bd) / 20000
}

// The lesser of the sum and the struts, in mN.
#[tactic(auto, unfolding(crate::specs::Shear::resistance_under))]
fn resistance(lawful: Lawful) -> u64
    ensures { (result ≡ resistance_under lawful.law lawful.section) × (result ≤ most_shear) }
{
    let bd = web(lawful);
    let shares = concrete_share(lawful) + fibre_share(lawful);
    let sum = shares * bd + stirrups(lawful);
    let struts = struts(lawful.section.fck as u64, bd);
    sum.min(struts)
}

// The shear that a section resists, in mN; or 7 to 13 with 20, then 16 without bars.
#[tactic(auto, unfolding(crate::specs::Shear::shear_refusal))]
pub fn shear(section: Section) -> Result<i64, Refusal>
    ensures { Answers (shear_refusal section) (pos (resistance section)) result }
{
    let lawful = Lawful::of(section)?;
    if section.count == 0 {
        return Err(Refusal::NoBars);
    }
    Ok(resistance(lawful) as i64)
}
