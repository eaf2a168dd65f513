// The numbers that words write.
ghost use Rattle.std.specs.Prelude.{◌≡◌, ◌+◌, ◌*◌, ◌≤◌};
ghost use Rattle.std.specs.Option.{SomeIff};
ghost use Rattle.std.specs.Char.{digit_value};
ghost use Rattle.words.specs.Numbers.{numeral_of, number_of, DecimalAgain, HexadecimalAgain, Limited};

// What a digit stands for, in a base up to 36; 36 where the byte is no digit.
fn digit(byte: u8) -> u8
    ensures { result ≡ digit_value byte }
{
    match byte {
        b'0'..=b'9' => byte - b'0',
        b'A'..=b'Z' => byte - b'A' + 10,
        b'a'..=b'z' => byte - b'a' + 10,
        _ => 36,
    }
}

// A number with one digit more, if it is at most `most`.
fn longer(value: u64, digit: u64, base: u64, most: u64) -> Option<u64>
    ensures { SomeIff result (value * base + digit ≤ most) (value * base + digit) }
{
    let more = value.checked_mul(base)?.checked_add(digit)?;
    if more <= most { Some(more) } else { None }
}

// The number that digits of the base write, if it is at most `most`.
fn numeral(digits: &[u8], base: u64, most: u64) -> Option<u64>
    requires low { 2 ≤ base }
    requires high { base ≤ 16 }
    ensures { result ≡ numeral_of base most digits.now }
{
    if digits.is_empty() {
        return None;
    }
    let mut value: u64 = 0;
    for c in digits {
        let digit = digit(*c) as u64;
        if digit >= base {
            return None;
        }
        match longer(value, digit, base, most) {
            None => return None,
            Some(more) => value = more,
        }
    }
    Some(value)
}

/// The number that a word writes, if it is at most `most`: decimal digits, or 0x and hexadecimal digits of either case, with no sign.
#[tactic(auto, using(crate::proofs::Digits::decimal_again, crate::proofs::Digits::hexadecimal_again, crate::proofs::Digits::limited))]
pub fn number(word: &[u8], most: u64) -> Option<u64>
    ensures value { result ≡ number_of most word.now }
    ensures decimal { DecimalAgain }
    ensures hexadecimal { HexadecimalAgain }
    ensures limited { Limited }
{
    match word.strip_prefix(b"0x") {
        Some(digits) => numeral(digits, 16, most),
        None => numeral(word, 10, most),
    }
}
