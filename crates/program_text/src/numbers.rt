// Numbers in words, decimal or 0x, and bytes in hexadecimal digits.
ghost use Rattle.std.specs.Prelude.{◌≤◌, ◌<◌, ◌≡◌, IfSome, length};

fn of_digits(digits: &[u8], radix: u32) -> Option<u64>
    requires least { 2 ≤ radix }
    requires most { radix ≤ 36 }
    ensures { IfSome result (λ _. 0 < length digits.now) }
{
    if digits.is_empty() {
        return None;
    }
    let mut value = 0u64;
    for byte in digits {
        let digit = char::from(*byte).to_digit(radix)?;
        value = value
            .checked_mul(u64::from(radix))?
            .checked_add(u64::from(digit))?;
    }
    Some(value)
}

// The number that a word is; none is past 2^64 - 1.
pub fn parse(word: &[u8]) -> Option<u64>
    ensures { IfSome result (λ _. 0 < length word.now) }
{
    match word.strip_prefix(b"0x") {
        Some(digits) => of_digits(digits, 16),
        None => of_digits(word, 10),
    }
}

// The 16 hexadecimal digits of an f64.
pub fn parse_bits(word: &[u8]) -> Option<u64>
    ensures { IfSome result (λ _. length word.now ≡ 16) }
{
    if word.len() != 16 {
        return None;
    }
    of_digits(word, 16)
}

// Whether every byte of a word is a hexadecimal digit.
pub fn all_hex(word: &[u8]) -> bool {
    word.iter().all(|byte| byte.is_ascii_hexdigit())
}

// The byte that two digits make.
fn byte_of(digits: &[u8]) -> Option<u8> {
    u8::try_from(of_digits(digits, 16)?).ok()
}

// The bytes whose digits a word has.
pub fn fill(bytes: &mut [u8], word: &[u8]) {
    for (byte, digits) in bytes.iter_mut().zip(word.chunks_exact(2)) {
        *byte = byte_of(digits).unwrap_or_default();
    }
}
