// Numbers in a line: one decimal digit or more.
ghost use Rattle.std.specs.Prelude.{◌≡◌, ◌≤◌};
ghost use Rattle.text.specs.Numbers.{number_of};

// A number of at most so many digits, which 32 bits hold. Not by `parse`, which takes a sign before them.
#[tactic(auto, using(crate::proofs::NumberTurns::number_steps))]
pub fn read_number(text: &[u8], most: usize) -> Option<u32>
    requires { most ≤ 9 }
    ensures { result ≡ number_of most text.now }
{
    if text.is_empty() || most < text.len() {
        return None;
    }
    let mut value: u32 = 0;
    for &byte in text {
        if !byte.is_ascii_digit() {
            return None;
        }
        value = 10 * value + u32::from(byte - b'0');
    }
    Some(value)
}
