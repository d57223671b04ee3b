// The figures of a report, request E12: some totals and their mean in lowest terms.
#![tactic(auto)]

ghost use Rattle.std.specs.Prelude.{◌≡◌, ◌≤◌, length};
ghost use Rattle.paper.specs.Ledger.{gcd, figures_of};
ghost use Rattle.laws.specs.Placing.{placed};
ghost use Rattle.mean.specs.Reports.{meaning, with_mean};

// Records read and refused, the sum of the pauses, and the longest.
#[derive(Clone, Copy)]
pub struct Totals {
    pub read: u64,
    pub refused: u64,
    pub sum: u64,
    pub longest: u64,
}

// The totals, and the mean's fraction.
#[derive(Clone, Copy)]
pub struct Report {
    pub totals: Totals,
    pub over: u64,
    pub under: u64,
}

impl Report {
    // The six numbers in the order of the line.
    #[tactic(auto, unfolding(paper::specs::Ledger::figures_of))]
    pub fn figures(self) -> [u64; 6]
        ensures { result ≡ figures_of (meaning self) }
    {
        let t = self.totals;
        [t.read, t.refused, t.sum, t.longest, self.over, self.under]
    }
}

// The greatest common divisor, by Euclid.
#[tactic(auto, using(laws::proofs::Means::gcd_step, laws::proofs::Means::gcd_end))]
fn divisor(a: u64, b: u64) -> u64
    ensures { result ≡ gcd a b }
{
    // A while: how many steps there are is known only from the numbers, so that no range stands for them.
    let (mut x, mut y) = (a, b);
    while y != 0 {
        (x, y) = (y, x % y);
    }
    x
}

// The report of some totals: their mean is 0/1 where nothing was read.
#[tactic(auto, using(laws::proofs::Means::mean_none, laws::proofs::Means::mean_some, laws::proofs::Means::gcd_positive))]
pub fn with_mean(totals: Totals) -> Report
    ensures { meaning result ≡ with_mean totals }
{
    if totals.read == 0 {
        return Report {
            totals,
            over: 0,
            under: 1,
        };
    }
    let d = divisor(totals.sum, totals.read);
    Report {
        totals,
        over: totals.sum / d,
        under: totals.read / d,
    }
}

// The six numbers put first in out.
pub fn put_figures(r: Report, out: &mut [u64])
    requires { 6 ≤ length out.old }
    ensures { out.new ≡ placed 0 (figures_of (meaning r)) out.old }
{
    out[..6].copy_from_slice(&r.figures());
}
