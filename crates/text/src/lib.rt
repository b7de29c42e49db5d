// Text in ASCII, laid into a lent buffer as far as the buffer goes.
#![tactic(auto)]

ghost use Rattle.std.specs.Prelude.{◌≡◌, [], ◌∷◌};
ghost use Rattle.text.specs.Page.{lay};
ghost use Rattle.text.specs.Numbers.{decimal, signed};

// A lent buffer, and the place of its next byte.
#[derive(Drop)]
pub struct Page<'a> {
    out: &'a mut [u8],
    at: usize,
}

impl<'a> Page<'a> {
    pub fn new(out: &'a mut [u8], at: usize) -> Page<'a>
        ensures { result ≡ record { out = out.entry; at = at } }
    {
        Page { out, at }
    }

    // One byte.
    #[tactic(auto, unfolding(crate::specs::Sink::put, crate::specs::Sink::put_byte))]
    pub fn put_byte(&mut self, byte: u8)
        ensures { self.new ≡ lay (byte ∷ []) self.old }
    {
        if self.at < self.out.len() {
            self.out[self.at] = byte;
            self.at += 1;
        }
    }

    // A text.
    #[tactic(auto, using(crate::proofs::Laws::put_next), unfolding(crate::specs::Sink::put))]
    pub fn put_text(&mut self, text: &[u8])
        ensures { self.new ≡ lay text.now self.old }
    {
        for byte in text {
            self.put_byte(*byte);
        }
    }

    // A number.
    pub fn put_number(&mut self, n: u64)
        ensures { self.new ≡ lay (decimal n) self.old }
    {
        let mut digits = [0u8; 20];
        let count = io::decimal(n, &mut digits);
        self.put_text(&digits[..count]);
    }

    // A number with its sign.
    pub fn put_signed(&mut self, z: i32)
        ensures { self.new ≡ lay (signed z) self.old }
    {
        if z < 0 {
            self.put_byte(b'-');
        }
        self.put_number(u64::from(z.unsigned_abs()));
    }

    // The place of the next byte, once the buffer is given back.
    pub fn written(self) -> usize
        ensures { (result ≡ self.entry.at) × (self.exit.0.now ≡ self.entry.out.now) }
    {
        self.at
    }
}
