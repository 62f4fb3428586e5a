// Numbers and words as text, stored part by part in a buffer that the caller lends. By `write!` a text misses the bar of
// speed (bench/plain.rs).
ghost use Rattle.std.specs.Prelude.{◌≡◌, ◌∷◌, ◌++◌, ◌+◌, ◌/◌, ◌%◌, ◌≤◌, ◌<◌, length};
ghost use Rattle.words.specs.Decimal.{two_digits, decimal, signed};
ghost use Rattle.words.specs.Stored.{HasRoom, Appends};

// The lent buffer, and the place for the next part. Each part takes the text by value and is inlined, so that the place
// stays in a register; a text without a buffer, the default, stands in for one that is taken out of a reference. How much
// room is left is asked for at each call, since each part has its own number.
#[derive(Default, Drop)]
pub struct Text<'a> {
    out: &'a mut [u8],
    at: usize,
}

// The least number of two digits.
const TWO_DIGITS: u32 = 10;

impl<'a> Text<'a> {
    // With no part yet.
    pub fn new(out: &'a mut [u8]) -> Text<'a>
        ensures same_buffer { result.out.ghost_name ≡ out.entry.ghost_name }
        ensures same_bytes { result.out.now ≡ out.old }
        ensures at_start { result.at ≡ 0 }
    {
        Text { out, at: 0 }
    }

    // How many bytes its parts have.
    pub fn written(&self) -> usize
        ensures { result ≡ self.now.at }
    {
        self.at
    }

    // Letter by letter: `copy_from_slice` tests at each call whether the two parts of memory overlap, which misses the bar of
    // speed.
    #[inline(always)]
    pub fn put(self, letters: &[u8]) -> Text<'a>
        requires { HasRoom self (length letters.now) }
        ensures { Appends (length letters.now) self.entry letters.now result }
    {
        let Text { out, at } = self;
        for (i, letter) in letters.iter().enumerate() {
            out[at + i] = *letter;
        }
        Text {
            out,
            at: at + letters.len(),
        }
    }

    // Two digits, of a number below 100. Here and below a cast is whole by the bound that the clause gives.
    #[inline(always)]
    fn put_two(self, n: u32) -> Text<'a>
        requires { HasRoom self 2 × (n < 100) }
        ensures { Appends 2 self.entry (two_digits n) result }
    {
        self.put(&[b'0' + (n / 10) as u8, b'0' + (n % 10) as u8])
    }

    // Four digits, of a number below 10,000.
    #[inline(always)]
    fn put_four(self, n: u32) -> Text<'a>
        requires { HasRoom self 4 × (n < 10000) }
        ensures { Appends 4 self.entry (two_digits (n / 100) ++ two_digits (n % 100)) result }
    {
        self.put_two(n / 100).put_two(n % 100)
    }

    // The digits of a number: below 100, below 10,000, and from there on.
    #[inline(always)]
    fn put_below_hundred(self, n: u32) -> Text<'a>
        requires { HasRoom self (length (decimal n)) × (n < 100) }
        ensures { Appends (length (decimal n)) self.entry (decimal n) result }
    {
        if n < TWO_DIGITS {
            return self.put(&[b'0' + n as u8]);
        }
        self.put_two(n)
    }

    #[inline(always)]
    fn put_small(self, n: u32) -> Text<'a>
        requires { HasRoom self (length (decimal n)) × (n < 10000) }
        ensures { Appends (length (decimal n)) self.entry (decimal n) result }
    {
        if n < 100 {
            return self.put_below_hundred(n);
        }
        self.put_below_hundred(n / 100).put_two(n % 100)
    }

    // Four at a call.
    fn put_large(self, n: u64) -> Text<'a>
        requires { HasRoom self (length (decimal n)) × (10000 ≤ n) }
        ensures { Appends (length (decimal n)) self.entry (decimal n) result }
    {
        let low = (n % 10000) as u32;
        if n < 100000000 {
            return self.put_small((n / 10000) as u32).put_four(low);
        }
        self.put_large(n / 10000).put_four(low)
    }

    // A number below 10,000, as most are, goes past `put_large`, which calls itself.
    #[inline(always)]
    pub fn put_decimal(self, n: u64) -> Text<'a>
        requires { HasRoom self (length (decimal n)) }
        ensures { Appends (length (decimal n)) self.entry (decimal n) result }
    {
        if n < 10000 {
            return self.put_small(n as u32);
        }
        self.put_large(n)
    }

    // With a blank in front.
    #[inline(always)]
    pub fn put_figure(self, n: u64) -> Text<'a>
        requires { HasRoom self 21 }
        ensures { Appends 21 self.entry (0x20 ∷ decimal n) result }
    {
        self.put(b" ").put_decimal(n)
    }

    // With a blank in front.
    #[inline(always)]
    pub fn put_signed(self, z: i64) -> Text<'a>
        requires { HasRoom self 22 }
        ensures { Appends 22 self.entry (0x20 ∷ signed z) result }
    {
        let size = exact::magnitude(z);
        // The sign, which the size does not say.
        if z < 0 {
            return self.put(b" -").put_decimal(size);
        }
        self.put_figure(size)
    }
}
