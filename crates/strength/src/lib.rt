// A characteristic strength from a series of beam results (document 02 [7]): formula 5 of document 002, with its formula 6 and its Table 2.
#![tactic(auto)]

ghost use Rattle.std.specs.Prelude.{◌≡◌, ◌^◌, ◌≤◌, ◌<◌};
ghost use Rattle.refusal.specs.Refusal.{Answers};
ghost use Rattle.strength.specs.Strength.{g_of, strength_refusal, strength_of};

mod answer;
mod series;

pub use answer::Strength;
use refusal::Refusal;
use series::Series;

// Rounded up.
#[tactic(auto, using(crate::proofs::Formula::g_is, crate::proofs::Formula::g_most))]
fn g_of(mean: u64, s: u64, a: u64) -> u64
    requires { (0 < mean) × (mean ≤ 20000) × (s < 2 ^ 15) × (a ≤ 2 ^ 16) }
    ensures { (result ≡ g_of mean s a) × (result < 2 ^ 62) }
{
    (329 * s * (mean + a)).div_ceil(200 * mean)
}

// The characteristic strength of a series; or 21 to 23.
#[tactic(auto, using(crate::proofs::Answers::refused_early, refusal::proofs::Answers::refuses))]
pub fn strength(results: &[u32]) -> Result<Strength, Refusal>
    ensures { Answers (strength_refusal results.now) (strength_of results.now) result }
{
    let series = Series::of(results)?;
    let mean = series.mean();
    let deviation = series.deviation(mean);
    let a = series.a(deviation);
    let value = mean
        .checked_sub(a + g_of(mean, deviation, a))
        .ok_or(Refusal::BelowZero)?;
    Ok(Strength {
        mean: mean as u32,
        deviation: deviation as u32,
        value: value as u32,
    })
}
