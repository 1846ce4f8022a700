// A series of results that is neither refused by its number nor by a result, and what formulas 5 and 6 make of it.
ghost use Rattle.std.specs.Prelude.{◌≡◌, ◌+◌, ◌*◌, ◌^◌, ◌≤◌, ◌<◌, length, sum, IfOk, MatchOption};
ghost use Rattle.std.specs.List.{sum_by};
ghost use Rattle.refusal.specs.Refusal.{number_of};
ghost use Rattle.strength.specs.Strength.{t10_of, mean_of, square_from, squares_of, deviation_of, a_of};
ghost use Rattle.strength.specs.Code.{SeriesIn, all_in_range, series_refusal};

use refusal::Refusal;

// 21 and 22 pass the results; t10 is theirs, in hundredths.
#[derive(Clone, Copy)]
pub struct Series<'a> {
    results: &'a [u32],
    t10: u64,
    ghost right: { SeriesIn results.now },
    ghost table: { t10 ≡ t10_of (length results.now) },
}

// Table 2, in hundredths.
#[tactic(auto, unfolding(crate::specs::Strength::t10_of, crate::specs::Strength::under, crate::specs::Strength::numbers, crate::specs::Strength::fractiles))]
fn t10(n: usize) -> Option<u64>
    ensures { MatchOption result (t10_of n ≡ 0) (λ t. (t ≡ t10_of n) × (0 < t)) }
{
    match n {
        3 => Some(189),
        4 => Some(164),
        5 => Some(153),
        6 => Some(148),
        8 => Some(142),
        10 => Some(138),
        12 => Some(136),
        15 => Some(134),
        _ => None,
    }
}

fn all_in_range(results: &[u32]) -> bool
    ensures { result ≡ all_in_range results.now }
{
    results.iter().all(|res| (1..=20000).contains(res))
}

impl Series<'_> {
    // 21, before any result is looked at; then 22.
    #[tactic(auto, using(crate::proofs::Refused::series_by), unfolding(crate::specs::Code::series_refusal))]
    pub(crate) fn of(results: &[u32]) -> Result<Series<'_>, Refusal>
        ensures refusal { number_of result ≡ series_refusal results.now }
        ensures same { IfOk result (λ series. series.results.now ≡ results.now) }
    {
        let t10 = t10(results.len()).ok_or(Refusal::ResultCount)?;
        if !all_in_range(results) {
            return Err(Refusal::ResultRange);
        }
        Ok(Series { results, t10 })
    }

    fn count(&self) -> u64
        ensures { result ≡ length self.now.results.now }
    {
        self.results.len() as u64
    }

    fn sum(&self) -> u64
        ensures { result ≡ sum self.now.results.now }
    {
        self.results.iter().map(|res| u64::from(*res)).sum()
    }

    // The results are at least 1, and so is their mean.
    #[tactic(auto, using(crate::proofs::Formula::mean_by))]
    pub(crate) fn mean(&self) -> u64
        ensures { (result ≡ mean_of self.now.results.now) × (0 < result) × (result ≤ 20000) }
    {
        self.sum() / self.count()
    }

    // The sum of squared distances from the mean.
    fn squares(&self, mean: u64) -> u64
        requires low { mean ≤ 20000 }
        requires fits { sum_by (square_from mean) self.now.results.now < 2 ^ 64 }
        ensures { result ≡ sum_by (square_from mean) self.now.results.now }
    {
        self.results
            .iter()
            .map(|res| {
                let away = mean.abs_diff(u64::from(*res));
                away * away
            })
            .sum()
    }

    // s, which 15 binary digits hold: s² (n - 1) is at most 20000² n.
    #[tactic(auto, using(crate::proofs::Formula::squares_fit, crate::proofs::Formula::squares_by, crate::proofs::Formula::deviation_root))]
    pub(crate) fn deviation(&self, mean: u64) -> u64
        requires { mean ≤ 20000 }
        ensures { (result ≡ deviation_of (length self.now.results.now) (squares_of mean self.now.results.now)) × (result < 2 ^ 15) }
    {
        roots::root(false, 15, self.count() - 1, self.squares(mean))
    }

    // The least a with a² times 10000 n at least (s t10)²: one past the largest whose square is less.
    #[tactic(auto, using(crate::proofs::Formula::reach_most, crate::proofs::Refused::t10_most, crate::proofs::Formula::a_none))]
    pub(crate) fn a(&self, s: u64) -> u64
        requires { s < 2 ^ 15 }
        ensures { (result ≡ a_of (length self.now.results.now) s) × (result ≤ 2 ^ 16) }
    {
        let reach = s * self.t10 * (s * self.t10);
        if reach == 0 {
            return 0;
        }
        roots::root(false, 16, 10000 * self.count(), reach - 1) + 1
    }
}
