// Digits in a text, and the number that they write.
#![tactic(auto)]

ghost use Rattle.std.specs.Prelude.{◌≡◌, ◌-◌, ◌≤◌};
ghost use Rattle.lists.specs.Search.{at};
ghost use Rattle.digits.specs.Digits.{digit, run, value};

// How many digits stand at a place, at most 8, and the number that they write.
#[derive(Clone, Copy)]
pub struct Number {
    pub digits: usize,
    pub value: u32,
}

// Byte j; 0 past the end.
pub fn byte(text: &[u8], j: usize) -> u8
    ensures { result ≡ at text.now j }
{
    text.get(j).copied().unwrap_or(0)
}

pub fn is_digit(b: u8) -> bool
    ensures { result ≡ digit b }
{
    b.is_ascii_digit()
}

// What a digit counts.
fn digit_of(b: u8) -> u32
    requires { 48 ≤ b }
    ensures { result ≡ b - 48 }
{
    u32::from(b - b'0')
}

// The digits from p on.
pub fn number_at(text: &[u8], p: usize) -> Number
    ensures digits_value { (result.digits ≡ run text.now p) × (result.value ≡ value text.now p result.digits) }
    ensures digits_bound { result.digits ≤ 8 }
{
    let mut value = 0;
    for i in 0..8 {
        let b = byte(text, p + i);
        if !is_digit(b) {
            return Number { digits: i, value };
        }
        value = 10 * value + digit_of(b);
    }
    Number { digits: 8, value }
}
