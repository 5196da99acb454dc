// The writer of a text. Each method writes behind what is written, and asks for room for just that:
// how much a text needs depends on what it says, so that the type cannot promise it.
ghost use Rattle.std.specs.Prelude.{◌≡◌, ◌<◌, [], ◌∷◌};
ghost use Rattle.fields.specs.Part.{part};
ghost use Rattle.meaning.specs.Listing.{decimal, hex};
ghost use Rattle.lines.specs.Text.{field, fields, hex_digit};
ghost use Rattle.lines.specs.Writer.{HasRoom, Wrote};

// A lent buffer, and how much of it is written: no String, which would want the heap.
#[derive(Drop)]
pub struct Writer<'a> {
    pub out: &'a mut [u8],
    pub at: usize,
}

// A digit below 16, in lower case. By hand, as the decimals: std promises nothing of the text that it prints.
#[tactic(auto, unfolding(crate::specs::Text::hex_digit))]
fn hex_digit(n: u8) -> u8
    requires { n < 16 }
    ensures { result ≡ hex_digit n }
{
    if n < 10 { b'0' + n } else { b'a' + (n - 10) }
}

// The decimal digits of the largest number.
const LONGEST: u8 = 20;

impl Writer<'_> {
    pub fn byte(&mut self, b: u8)
        requires { HasRoom self.old (b ∷ []) }
        ensures { Wrote self.old (b ∷ []) self.new }
    {
        self.out[self.at] = b;
        self.at += 1;
    }

    pub fn text(&mut self, text: &[u8])
        requires { HasRoom self.old text.now }
        ensures { Wrote self.old text.now self.new }
    {
        fields::copy_in(self.out, self.at, text);
        self.at += text.len();
    }

    // A number in decimal, of at most so many digits; the digits before the last one first. By hand:
    // std promises nothing of the text that it prints, and no other crate is to be trusted here.
    fn decimal(&mut self, digits: u8, n: u64)
        requires { HasRoom self.old (decimal digits n) }
        ensures { Wrote self.old (decimal digits n) self.new }
    {
        if digits == 0 {
            return;
        }
        if n < 10 {
            self.byte(b'0' + n as u8);
        } else {
            self.decimal(digits - 1, n / 10);
            self.byte(b'0' + (n % 10) as u8);
        }
    }

    // A number and the byte `end`.
    pub fn field(&mut self, n: u64, end: u8)
        requires { HasRoom self.old (field n end) }
        ensures { Wrote self.old (field n end) self.new }
    {
        self.decimal(LONGEST, n);
        self.byte(end);
    }

    // Numbers, each with a space behind it.
    #[tactic(auto, using(crate::proofs::TextSteps::number_turns))]
    pub fn fields(&mut self, ns: &[u64])
        requires { HasRoom self.old (fields ns.now) }
        ensures { Wrote self.old (fields ns.now) self.new }
    {
        for n in ns {
            self.field(*n, b' ');
        }
    }

    // Bytes in hexadecimal.
    #[tactic(auto, using(crate::proofs::TextSteps::byte_turns))]
    fn hex(&mut self, bytes: &[u8])
        requires { HasRoom self.old (hex bytes.now) }
        ensures { Wrote self.old (hex bytes.now) self.new }
    {
        for b in bytes {
            self.byte(hex_digit(b / 16));
            self.byte(hex_digit(b % 16));
        }
    }

    // The `len` bytes of `body` from `from` on in hexadecimal, if they lie within it.
    #[tactic(auto, using(crate::proofs::TextSteps::name_slice, crate::proofs::TextSteps::name_none))]
    pub fn name(&mut self, body: &[u8], from: usize, len: usize)
        requires { HasRoom self.old (hex (part body.now from len)) }
        ensures { Wrote self.old (hex (part body.now from len)) self.new }
    {
        if fields::within(body, from, len) {
            self.hex(&body[from..from + len]);
        }
    }
}
