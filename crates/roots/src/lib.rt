// The largest number with a bound on its square or cube, found digit by digit from the highest: the roots of document 01, 'Shear'.
#![tactic(auto)]

ghost use Rattle.std.specs.Prelude.{◌≡◌, ◌^◌, ◌≤◌, ◌<◌, ℕ, Bool, true};
ghost use Rattle.roots.specs.Root.{raised, past, Root};
ghost use Rattle.roots.specs.Code.{Tests, Narrowed};

// One round a digit: it is set where the number with it still fits.
fn by_digits<F: Fn(u64) -> bool>(digits: u32, fits: F) -> u64
    requires few { digits ≤ 21 }
    requires callable { (n : ℕ) → n < 2 ^ digits → F.pre fits n }
    ensures { (p : ℕ → Bool) → p 0 ≡ true → Tests (F.post fits) p (2 ^ digits) → Narrowed p (2 ^ digits) result 1 }
{
    let mut n: u64 = 0;
    for digit in (0..digits).rev() {
        let set = n + (1 << digit);
        if fits(set) {
            n = set;
        }
    }
    n
}

// The largest n of so many binary digits with n² or n³, times `by`, at most `bound`. `by` is divided out before the rounds, so that a trial
// is a power alone and none leaves 64 bits; 0 times any power fits.
pub fn root(cube: bool, digits: u32, by: u64, bound: u64) -> u64
    ensures { Root (raised cube by) (past digits) bound result }
{
    // The most whose cube 64 bits hold.
    let digits = digits.min(21);
    if by == 0 {
        return (1 << digits) - 1;
    }
    let most = bound / by;
    if cube {
        by_digits(digits, |n| n * n * n <= most)
    } else {
        by_digits(digits, |n| n * n <= most)
    }
}
