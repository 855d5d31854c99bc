ghost use Rattle.std.specs.Prelude.{◌≡◌, ℕ, ◌≤◌, ◌≢◌, ◌↔◌, IsTrue, IsNone, Some, decimal};
ghost use Rattle.std.specs.Str.Parse.{AllDigits, digits_value};
ghost use Rattle.rat_core.specs.Decimal.{StartsAsADecimal};

/// The number whose canonical decimal text the bytes are: digits only, no leading zero, and `0` for zero.
///
/// `None` where the bytes are no such text, or the number exceeds `bound`.
pub fn read_decimal(bytes: &[u8], bound: u32) -> Option<u32>
    ensures some { (n : ℕ) → (result ≡ Some n) ↔ ((bytes.now ≡ decimal n) × (n ≤ bound)) }
    ensures none { IsNone result ↔ ((n : ℕ) → n ≤ bound → bytes.now ≢ decimal n) }
{
    if starts_as_a_decimal(bytes) {
        digits_within(bytes, bound)
    } else {
        None
    }
}

// There is a first byte, and it is no zero before others.
fn starts_as_a_decimal(bytes: &[u8]) -> bool
    ensures { IsTrue result ↔ StartsAsADecimal bytes.now }
{
    match bytes {
        [] => false,
        [b'0'] => true,
        [first, ..] => *first != b'0',
    }
}

// The number that digits write, if it is at most `bound`.
fn digits_within(bytes: &[u8], bound: u32) -> Option<u32>
    ensures { (n : ℕ) → (result ≡ Some n) ↔ (AllDigits 10 bytes.now × (digits_value 10 bytes.now ≡ n) × (n ≤ bound)) }
{
    let bound = u64::from(bound);
    let mut number: u64 = 0;
    for byte in bytes {
        if !byte.is_ascii_digit() {
            return None;
        }
        number = 10 * number + u64::from(*byte - b'0');
        if number > bound {
            return None;
        }
    }
    Some(number as u32)
}

#[cfg(test)]
mod tests {
    use super::*;

    #[test]
    fn reads_canonical_texts_within_the_bound(rt: HostRuntime) {
        assert_eq!(rt; read_decimal(b"0", 1_048_576), Some(0));
        assert_eq!(rt; read_decimal(b"01", 1_048_576), None);
        assert_eq!(rt; read_decimal(b"", 1_048_576), None);
        assert_eq!(rt; read_decimal(b"1048577", 1_048_576), None);
        assert_eq!(rt; read_decimal(b"1048576", 1_048_576), Some(1_048_576));
        assert_eq!(rt; read_decimal(b"12x", 1_048_576), None);
        assert_eq!(rt;
            read_decimal(b"4294967295", 4_294_967_295),
            Some(4_294_967_295)
        );
    }
}
