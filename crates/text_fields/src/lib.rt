// A text in the making, and the parts of its lines: each is written at the text's end.

#![tactic(auto)]

ghost use Rattle.std.specs.Prelude.{◌≡◌, [], ◌∷◌, ◌++◌, ◌+◌, ◌*◌, ◌≤◌, ◌<◌, length};
ghost use Rattle.text_fields.specs.Buffer.{Put};
ghost use Rattle.text_fields.specs.Fields.{digit, digits, decimal, signed_decimal, number_fields};

use base::wide;

pub const LINE_END: u8 = 10;

// The bytes of a caller's buffer before `end` are what is written so far, those from there on as they were lent.
#[derive(Drop)]
pub struct Text<'a> {
    pub out: &'a mut [u8],
    pub end: usize,
}

impl<'a> Text<'a> {
    // The empty text.
    pub fn new(out: &'a mut [u8]) -> Text<'a>
        ensures same { result.out.ghost_name ≡ out.entry.ghost_name }
        ensures lent { result.out.now ≡ out.old }
        ensures empty { result.end ≡ 0 }
    {
        Text { out, end: 0 }
    }

    // Writes one byte.
    pub fn put_byte(&mut self, byte: u8)
        requires { self.old.end < length self.old.out.now }
        ensures { Put 1 self.old (byte ∷ []) self.new }
    {
        self.out[self.end] = byte;
        self.end += 1;
    }

    // Writes bytes, such as a word.
    pub fn put_bytes(&mut self, bytes: &[u8])
        requires { self.old.end + length bytes.now ≤ length self.old.out.now }
        ensures { Put (length bytes.now) self.old bytes.now self.new }
    {
        base::write_bytes(self.out, self.end, bytes);
        self.end += bytes.len();
    }

    // Writes a decimal digit.
    fn put_digit(&mut self, d: usize)
        requires { (self.old.end < length self.old.out.now) × (d < 10) }
        ensures { Put 1 self.old (digit d ∷ []) self.new }
    {
        self.put_byte(b'0' + d as u8);
    }

    // Writes a number in decimal, where it has at most `left` digits.
    fn put_digits(&mut self, x: usize, left: usize)
        requires { self.old.end + left ≤ length self.old.out.now }
        ensures { Put left self.old (digits left x) self.new }
    {
        if left == 0 {
            return;
        }
        if x < 10 {
            return self.put_digit(x);
        }
        self.put_digits(x / 10, left - 1);
        self.put_digit(x % 10);
    }

    // Writes a number in decimal.
    pub fn put_number(&mut self, x: usize)
        requires { (self.old.end + 3 ≤ length self.old.out.now) × (x < 1000) }
        ensures { Put 3 self.old (decimal x) self.new }
    {
        self.put_digits(x, 3);
    }

    // Writes a number in decimal, with its sign if it is below 0.
    pub fn put_signed(&mut self, x: i64)
        requires { self.old.end + 21 ≤ length self.old.out.now }
        ensures { Put 21 self.old (signed_decimal x) self.new }
    {
        if x < 0 {
            self.put_byte(b'-');
        }
        self.put_digits(x.unsigned_abs() as usize, 20);
    }

    // Writes bytes as a field after another.
    pub fn put_next_bytes(&mut self, bytes: &[u8])
        requires { self.old.end + 1 + length bytes.now ≤ length self.old.out.now }
        ensures { Put (1 + length bytes.now) self.old (32 ∷ bytes.now) self.new }
    {
        self.put_byte(b' ');
        self.put_bytes(bytes);
    }

    // Writes a number as a field after another.
    pub fn put_next_number(&mut self, x: usize)
        requires { (self.old.end + 4 ≤ length self.old.out.now) × (x < 1000) }
        ensures { Put 4 self.old (32 ∷ decimal x) self.new }
    {
        self.put_byte(b' ');
        self.put_number(x);
    }

    // Writes numbers as fields after another.
    pub fn put_next_numbers(&mut self, numbers: &[u8])
        requires { self.old.end + 4 * length numbers.now ≤ length self.old.out.now }
        ensures { Put (4 * length numbers.now) self.old (number_fields numbers.now) self.new }
    {
        for number in numbers {
            self.put_next_number(wide(*number));
        }
    }

    // Writes a number as the last field of a line.
    pub fn put_last_number(&mut self, x: usize)
        requires { (self.old.end + 5 ≤ length self.old.out.now) × (x < 1000) }
        ensures { Put 5 self.old ((32 ∷ decimal x) ++ (10 ∷ [])) self.new }
    {
        self.put_next_number(x);
        self.put_byte(LINE_END);
    }
}
