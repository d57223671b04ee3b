// The line of a report, request E12: its figures in decimal.
#![tactic(auto)]

ghost use Rattle.std.specs.Prelude.{◌≡◌, ◌+◌, ◌<◌, ◌≤◌, length};
ghost use Rattle.paper.specs.Ledger.{decimal, line_of};
ghost use Rattle.laws.specs.Placing.{placed};
ghost use Rattle.mean.specs.Reports.{meaning};
ghost use Rattle.line.specs.Fields.{decimal_then};

use mean::Report;

// How many decimal digits a number has.
#[tactic(auto, using(crate::proofs::Digits::log_digits, crate::proofs::Digits::no_log))]
fn decimal_length(n: u64) -> usize
    ensures { (result ≡ length (decimal n)) × (result ≤ 20) }
{
    match n.checked_ilog10() {
        Some(log) => log as usize + 1,
        None => 1,
    }
}

// A number put at a place of out in decimal, from its last digit to its first.
fn put_decimal(out: &mut [u8], at: usize, n: u64)
    requires { at + length (decimal n) ≤ length out.old }
    ensures { out.new ≡ placed at (decimal n) out.old }
{
    // A while: the first digit is written after it, so that 0 has one digit, and a for over the places backwards would divide once more for nothing.
    let mut place = at + decimal_length(n) - 1;
    let mut left = n;
    while 10 <= left {
        out[place] = (48 + left % 10) as u8;
        left /= 10;
        place -= 1;
    }
    out[place] = (48 + left) as u8;
}

// A number put at a place of out, and a byte after it. The place after both is returned.
fn put_field(out: &mut [u8], at: usize, n: u64, after: u8) -> usize
    requires { at + length (decimal_then n after) ≤ length out.old }
    ensures { (result ≡ at + length (decimal_then n after)) × (out.new ≡ placed at (decimal_then n after) out.old) }
{
    let end = at + decimal_length(n);
    put_decimal(out, at, n);
    out[end] = after;
    end + 1
}

// The length of a report's line: its figures, and a byte after each.
#[tactic(auto, using(crate::proofs::Putting::line_long), unfolding(paper::specs::Ledger::figures_of))]
pub fn line_length(r: Report) -> usize
    ensures { result ≡ length (line_of (meaning r)) }
{
    let mut length = 6;
    for n in r.figures() {
        length += decimal_length(n);
    }
    length
}

// The line put first in out.
pub fn put_line(r: Report, out: &mut [u8])
    requires { length (line_of (meaning r)) ≤ length out.old }
    ensures { out.new ≡ placed 0 (line_of (meaning r)) out.old }
{
    let second = put_field(out, 0, r.totals.read, b' ');
    let third = put_field(out, second, r.totals.refused, b' ');
    let fourth = put_field(out, third, r.totals.sum, b' ');
    let fifth = put_field(out, fourth, r.totals.longest, b' ');
    let sixth = put_field(out, fifth, r.over, b'/');
    put_field(out, sixth, r.under, b'\n');
}
