// Short texts, written from their right end on.
ghost use Rattle.std.specs.Prelude.{◌≡◌, ◌+◌, ◌-◌, ◌/◌, ◌%◌, ◌<◌, ◌≤◌, [], ◌∷◌, ◌++◌, length, replicate, decimal, OnOk, OnErr};
ghost use Rattle.quantity.specs.ByteNames.{digit_zero, space_character};
ghost use Rattle.quantity.specs.Digits.{last_digits};

use crate::memory::OutOfMemory;
use itoa::write_digits;
use std::marker::Model;

// The two digits of each number below 100.
static PAIRS: [u8; 200] =
    *b"00010203040506070809101112131415161718192021222324252627282930313233343536373839404142434445464748495051525354555657585960616263646566676869707172737475767778798081828384858687888990919293949596979899";

/// The two digits of a number below 100.
#[inline(always)]
pub(crate) fn two_digits(number: u64) -> (u8, u8)
    requires { number < 100 }
    ensures tens { result.0 ≡ digit_zero + number / 10 }
    ensures ones { result.1 ≡ digit_zero + number % 10 }
{
    let at = number as usize * 2;
    (PAIRS[at], PAIRS[at + 1])
}

/// A text of at most 24 bytes, which grows on its left.
#[derive(Drop)]
pub(crate) struct ShortText {
    bytes: [u8; 24],
    start: usize,
}

impl Model for ShortText {
    ghost use Rattle.std.specs.Prelude.{List, ℕ, ◌≤◌, drop};

    ghost Value = { List ℕ };

    ghost view = { λ t. drop t.start t.bytes };

    ghost invariant = { λ t. t.start ≤ 24 };
}

impl ShortText {
    /// The empty text.
    #[inline(always)]
    pub(crate) fn new() -> ShortText
        ensures { result ≡ [] }
    {
        ShortText {
            bytes: [0; 24],
            start: 24,
        }
    }

    /// Puts a byte in front.
    #[inline(always)]
    pub(crate) fn put_byte(&mut self, byte: u8)
        requires { length self.old < 24 }
        ensures { self.new ≡ byte ∷ self.old }
    {
        self.start -= 1;
        self.bytes[self.start] = byte;
    }

    /// Puts the last digits of the number in front, so many of them.
    #[inline(always)]
    pub(crate) fn put_digits(&mut self, count: usize, number: u64)
        requires { length self.old + count ≤ 24 }
        ensures value { self.new ≡ last_digits count number ++ self.old }
        ensures length { length self.new ≡ count + length self.old }
    {
        let mut left = number;
        for _pair in 0..count / 2 {
            self.put_two_digits(left % 100);
            left /= 100;
        }
        if count % 2 == 1 {
            self.put_byte(b'0' + (left % 10) as u8);
        }
    }

    /// Puts the two digits of a number below 100 in front.
    #[inline(always)]
    fn put_two_digits(&mut self, number: u64)
        requires room { length self.old + 2 ≤ 24 }
        requires short { number < 100 }
        ensures { self.new ≡ (digit_zero + number / 10) ∷ (digit_zero + number % 10) ∷ self.old }
    {
        let (tens, ones) = two_digits(number);
        self.put_byte(ones);
        self.put_byte(tens);
    }

    /// Puts all digits of a number in front.
    pub(crate) fn put_number(&mut self, number: u64)
        requires { length self.old + length (decimal number) ≤ 24 }
        ensures { self.new ≡ decimal number ++ self.old }
    {
        self.start = write_digits(number, &mut self.bytes, self.start);
    }

    /// Puts blanks in front, up to so many places; a longer text stays as it is.
    pub(crate) fn fill_to(&mut self, width: usize)
        requires { width ≤ 24 }
        ensures { self.new ≡ replicate (width - length self.old) space_character ++ self.old }
    {
        for _place in self.as_bytes().len()..width {
            self.put_byte(b' ');
        }
    }

    pub(crate) fn as_bytes(&self) -> &[u8]
        ensures { result.now ≡ self.now }
    {
        &self.bytes[self.start..]
    }

    /// Appends the text. Where memory is refused, `into` stays as it was.
    pub(crate) fn append_to(&self, into: &mut Vec<u8>) -> Result<(), OutOfMemory>
        ensures ok { OnOk result (into.new.items ≡ into.old.items ++ self.now) }
        ensures err { OnErr result (into.new.items ≡ into.old.items) }
    {
        into.extend_from_slice(self.as_bytes())?;
        Ok(())
    }
}
