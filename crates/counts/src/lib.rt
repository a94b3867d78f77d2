// Counts: the text of a number, of any length, to its value.
#![tactic(auto)]

ghost use Rattle.std.specs.Prelude.{◌≡◌};
ghost use Rattle.counts.specs.Count.{count_of};

// The count that a number's text stands for under a limit, or none: the number has a decimal point, or is above the limit or what 32 bits hold.
// Above the limit the value only grows, so the rest is not read.
pub fn count_of(digits: &[u8], limit: u32) -> Option<u32>
    ensures { result ≡ count_of limit digits.now }
{
    if digits.is_empty() {
        return None;
    }
    let most = limit as u64;
    let mut value: u64 = 0;
    for &digit in digits {
        if !digit.is_ascii_digit() {
            return None;
        }
        value = value * 10 + (digit - b'0') as u64;
        if most < value {
            return None;
        }
    }
    Some(value as u32)
}
