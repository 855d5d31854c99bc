ghost use Rattle.std.specs.Prelude.{◌≡◌, ◌+◌, ◌<◌, ◌≤◌, [], ◌∷◌, length};
ghost use Rattle.std.specs.Fmt.{decimal, signed_decimal};

use std::marker::Model;

// The most bytes that a `u64` or an `i64` has.
const SIZE: usize = 20;

/// The canonical decimal text of a number, made without memory.
#[derive(Drop)]
pub struct Decimal {
    bytes: [u8; SIZE],
    start: usize,
}

impl Model for Decimal {
    ghost use Rattle.std.specs.Prelude.{◌≤◌, List, ℕ, drop};

    ghost Value = { List ℕ };

    ghost view = { λ d. drop d.start d.bytes };

    ghost invariant = { λ d. d.start ≤ 20 };
}

impl Decimal {
    pub fn new(n: u64) -> Decimal
        ensures { result ≡ decimal n }
    {
        let mut text = Decimal::empty();
        let mut rest = n;
        while rest >= 10 {
            text.put_first(b'0' + (rest % 10) as u8);
            rest /= 10;
        }
        text.put_first(b'0' + rest as u8);
        text
    }

    /// With `-` before a negative number.
    pub fn signed(n: i64) -> Decimal
        ensures { result ≡ signed_decimal n }
    {
        let mut text = Decimal::new(n.unsigned_abs());
        if n < 0 {
            text.put_first(b'-');
        }
        text
    }

    /// The bytes of the text.
    pub fn digits(&self) -> &[u8]
        ensures { result.now ≡ self.now }
    {
        &self.bytes[self.start..]
    }

    fn empty() -> Decimal
        ensures { result ≡ [] }
    {
        Decimal {
            bytes: [0; SIZE],
            start: SIZE,
        }
    }

    fn put_first(&mut self, byte: u8)
        requires { length self.old < 20 }
        ensures { self.new ≡ byte ∷ self.old }
    {
        self.start -= 1;
        self.bytes[self.start] = byte;
    }
}
