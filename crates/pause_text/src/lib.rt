// The text of a pause in exact microseconds, request E12.
#![tactic(auto)]

ghost use Rattle.std.specs.Prelude.{◌≡◌, ◌+◌, ◌-◌, ◌*◌, ◌<◌, ◌≤◌, length, take, replicate};
ghost use Rattle.std.specs.List.{AllPass};
ghost use Rattle.paper.specs.Pause.{digits_first, decimal_after, after_mark, read_pause, is_digit};
ghost use Rattle.pause_unit.specs.Answers.{read_as};

// How many digits a text starts with.
fn digits(text: &[u8]) -> usize
    ensures value { result ≡ digits_first text.now }
    ensures within { result ≤ length text.now }
    ensures digits { AllPass is_digit (take result text.now) }
{
    text.iter().take_while(|b| b.is_ascii_digit()).count()
}

// The number that n and then at most nine digits represent.
#[tactic(auto, using(crate::proofs::Texts::decimal_more, crate::proofs::Texts::decimal_small))]
fn number(n: u64, digits: &[u8]) -> u64
    requires small { n < 1000000000 }
    requires nine { length digits.now ≤ 9 }
    requires digits { AllPass is_digit digits.now }
    ensures value { result ≡ decimal_after n digits.now }
    ensures small { result < (n + 1) * 1000000000 }
{
    let mut value = n;
    for b in digits {
        value = value * 10 + u64::from(*b - b'0');
    }
    value
}

// n, which ends with a fraction of so many digits, with the zeros that fill the fraction to three.
#[tactic(auto, unfolding(paper::specs::Pause::decimal_after))]
fn filled(n: u64, digits: usize) -> u64
    requires { (n < 1000000000000) × (digits ≤ 3) }
    ensures value { result ≡ decimal_after n (replicate (3 - digits) 48) }
    ensures small { result ≤ n * 1000 }
{
    match digits {
        0 => n * 1000,
        1 => n * 100,
        2 => n * 10,
        _ => n,
    }
}

// What follows the mark, which stands after the whole number's digits: 1 to 3 digits and the unit.
#[tactic(auto, using(crate::proofs::Texts::fraction_below))]
fn after_mark(whole: &[u8], rest: &[u8]) -> Option<u64>
    requires nine { length whole.now ≤ 9 }
    requires digits { AllPass is_digit whole.now }
    ensures { result ≡ read_as (after_mark whole.now rest.now) }
{
    let count = digits(rest);
    if !(1..=3).contains(&count) {
        return None;
    }
    let n = number(number(0, whole), &rest[..count]);
    pause_unit::with_unit(filled(n, count), rest, count)
}

// The microseconds of a text under a decimal mark.
pub fn read_text(mark: u8, text: &[u8]) -> Option<u64>
    ensures { result ≡ read_as (read_pause mark text.now) }
{
    let count = digits(text);
    if !(1..=9).contains(&count) {
        return None;
    }
    let whole = &text[..count];
    if *text.get(count)? == mark {
        return after_mark(whole, &text[count + 1..]);
    }
    pause_unit::with_unit(filled(number(0, whole), 0), text, count)
}
