// The unit at the end of a pause's text, request E12.
#![tactic(auto)]

ghost use Rattle.std.specs.Prelude.{◌≡◌, ◌<◌, ◌≤◌, length, drop, IfSome};
ghost use Rattle.paper.specs.Strings.{same};
ghost use Rattle.paper.specs.Pause.{unit_of, times};
ghost use Rattle.pause_unit.specs.Answers.{read_as};

// Whether what stands from a place to the end is s.
pub fn is_rest(text: &[u8], at: usize, s: &[u8]) -> bool
    requires { at ≤ length text.now }
    ensures { result ≡ same (drop at text.now) s.now }
{
    text.len() - at == s.len() && slices::same_bytes(&text[at..], s)
}

// The microseconds in a thousandth of the unit that stands from a place to the end, if one does.
#[tactic(auto, unfolding(paper::specs::Pause::unit_of))]
fn unit(text: &[u8], at: usize) -> Option<u64>
    requires { at ≤ length text.now }
    ensures value { result ≡ read_as (unit_of (drop at text.now)) }
    ensures small { IfSome result (λ u. u ≤ 1000) }
{
    if is_rest(text, at, b" ms") {
        Some(1)
    } else if is_rest(text, at, b" s") {
        Some(1000)
    } else {
        None
    }
}

// So many thousandths of the unit that stands from a place to the end.
pub fn with_unit(n: u64, text: &[u8], at: usize) -> Option<u64>
    requires { (n < 1000000000000000) × (at ≤ length text.now) }
    ensures { result ≡ read_as (times n (unit_of (drop at text.now))) }
{
    Some(n * unit(text, at)?)
}
