// The totals of pauses with one pause more, request E12.
#![tactic(auto)]

ghost use Rattle.std.specs.Prelude.{◌≡◌, ◌+◌, ◌<◌, unwrap_or};
ghost use Rattle.pause_sum.specs.Added.{added_to};

use mean::Totals;

// The totals with one record more: its pause, or that it was refused.
pub fn added(t: Totals, pause: Option<u64>) -> Totals
    requires { (t.read < 65536) × (t.refused < 65536) × (t.sum + unwrap_or pause 0 < 18446744073709551616) }
    ensures { result ≡ added_to t pause }
{
    match pause {
        None => Totals {
            refused: t.refused + 1,
            ..t
        },
        Some(n) => Totals {
            read: t.read + 1,
            sum: t.sum + n,
            longest: t.longest.max(n),
            ..t
        },
    }
}
