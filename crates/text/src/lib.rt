// Fields of a line of text: finding, reading and printing them.

#![tactic(auto)]

ghost use Rattle.std.specs.Prelude.{◌≡◌, ◌↔◌, ◌==◌, IsTrue, ◌+◌, ◌*◌, ◌≤◌, ◌<◌, length, position, nat_lt};
ghost use Rattle.io.specs.Digits.{hex_digit_ascii};
ghost use Rattle.text.specs.Parts.{parts, part_at};
ghost use Rattle.text.specs.Hex.{hex_value, is_hex, hex_text};
ghost use Rattle.text.specs.Decimal.{decimal_text};
ghost use Rattle.text.specs.Fields.{read_hex, hex_answer, hex_buffer};

pub mod ids;

// Why bytes in hex are not read; the buffer is as it was.
#[derive(Clone, Copy, Debug, PartialEq, Eq)]
pub enum HexError {
    NoHex,
    NoRoom,
}

// The place of the first byte `x`.
pub fn find(s: &[u8], x: u8) -> Option<usize>
    ensures { result ≡ position (λ b. b == x) s.now }
{
    s.iter().position(|&b| b == x)
}

// How many parts the bytes `x` part a text into.
pub fn part_count(s: &[u8], x: u8) -> usize
    ensures { result ≡ length (parts x s.now) }
{
    s.split(|&b| b == x).count()
}

// The i-th of these parts, from 0; no bytes where there is none.
pub fn part(s: &[u8], x: u8, i: usize) -> &[u8]
    ensures { result.now ≡ part_at x i s.now }
{
    s.split(|&b| b == x).nth(i).unwrap_or(&[])
}

#[tactic(auto, unfolding(crate::specs::Hex::hex_value))]
fn is_hex_digit(b: u8) -> bool
    ensures { result ≡ nat_lt (hex_value b) 16 }
{
    matches!(b, b'0'..=b'9' | b'a'..=b'f')
}

#[tactic(auto, unfolding(crate::specs::Hex::is_hex))]
fn is_hex(s: &[u8]) -> bool
    ensures { result ≡ is_hex s.now }
{
    s.len() % 2 == 0 && s.iter().all(|&b| is_hex_digit(b))
}

#[tactic(auto, unfolding(crate::specs::Hex::hex_value))]
fn hex_value(digit: u8) -> u8
    requires { hex_value digit < 16 }
    ensures { result ≡ hex_value digit }
{
    match digit {
        b'0'..=b'9' => digit - b'0',
        _ => digit - b'a' + 10,
    }
}

// Reads bytes in hex to the start of the buffer; where the text is refused, the buffer is left as it was.
#[tactic(auto, using(crate::proofs::HexSteps::reading))]
pub fn read_hex(s: &[u8], out: &mut [u8]) -> Result<usize, HexError>
    ensures { (hex_answer result ≡ read_hex s.now (length out.old)) × (out.new ≡ hex_buffer s.now out.old) }
{
    if !is_hex(s) {
        return Err(HexError::NoHex);
    }
    let n = s.len() / 2;
    if out.len() < n {
        return Err(HexError::NoRoom);
    }
    let (pairs, _) = s.as_chunks::<2>();
    for (i, &[high, low]) in pairs.iter().enumerate() {
        out[i] = hex_value(high) * 16 + hex_value(low);
    }
    Ok(n)
}

// Text put into a lent buffer from a place on. Where what is put does not fit, nothing changes and the place stays.
#[derive(Drop)]
pub struct Writer<'a> {
    pub out: &'a mut [u8],
    pub at: usize,
}

fn hex_digit(value: u8) -> u8
    requires { value < 16 }
    ensures { result ≡ hex_digit_ascii value }
{
    match value {
        0..=9 => b'0' + value,
        _ => b'a' - 10 + value,
    }
}

impl<'a> Writer<'a> {
    ghost use Rattle.std.specs.Prelude.{◌≡◌, ◌↔◌, ◌+◌, ◌-◌, ◌≤◌, IsTrue, length};
    ghost use Rattle.text.specs.Hex.{hex_text};
    ghost use Rattle.text.specs.Decimal.{decimal_text};
    ghost use Rattle.text.specs.Writer.{Writes, Keeps};

    pub fn new(out: &'a mut [u8], at: usize) -> Writer<'a>
        ensures start { (result.at ≡ at) × (result.out.now ≡ out.old) }
        ensures same { result.out.ghost_name ≡ out.entry.ghost_name }
    {
        Writer { out, at }
    }

    // Whether `n` bytes have room.
    fn fits(&self, n: usize) -> bool
        ensures { IsTrue result ↔ (self.now.at + n ≤ length self.now.out.now) }
    {
        self.at <= self.out.len() && n <= self.out.len() - self.at
    }

    // How many bytes are free.
    pub fn free(&self) -> usize
        ensures { result ≡ length self.now.out.now - self.now.at }
    {
        self.out.len().saturating_sub(self.at)
    }

    // Puts bytes.
    #[tactic(auto, using(crate::proofs::Buffer::puts))]
    pub fn put_bytes(&mut self, s: &[u8])
        ensures put { Writes s.now self.old self.new }
        ensures same { Keeps self.old self.new }
    {
        if !self.fits(s.len()) {
            return;
        }
        let at = self.at;
        let end = at + s.len();
        self.out[at..end].copy_from_slice(s);
        self.at = end;
    }

    // Puts bytes in hex.
    #[tactic(auto, using(crate::proofs::HexSteps::printing))]
    pub fn put_hex(&mut self, s: &[u8])
        ensures put { Writes (hex_text s.now) self.old self.new }
        ensures same { Keeps self.old self.new }
    {
        if !self.fits(2 * s.len()) {
            return;
        }
        for b in s {
            let at = self.at;
            self.out[at] = hex_digit(b / 16);
            self.out[at + 1] = hex_digit(b % 16);
            self.at = at + 2;
        }
    }

    // Puts a number in decimal.
    #[tactic(auto, using(crate::proofs::DecimalPrinted::decimal_is))]
    pub fn put_decimal(&mut self, n: u64)
        ensures put { Writes (decimal_text n) self.old self.new }
        ensures same { Keeps self.old self.new }
    {
        let mut digits = [0u8; 20];
        let k = io::decimal(n, &mut digits);
        self.put_bytes(&digits[..k]);
    }
}
