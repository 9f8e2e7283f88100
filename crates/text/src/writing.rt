// One byte, one number, a number in decimal, a text.
ghost use Rattle.std.specs.Prelude.{◌≡◌, ◌+◌, ◌%◌, [], ◌∷◌, ◌++◌};
ghost use Rattle.model.specs.Printing.{decimal};
ghost use Rattle.text.specs.Pages.{page, write};

pub fn put_byte(out: &mut [u8], at: usize, b: u8) -> usize
    ensures { page out.new result ≡ write (b ∷ []) (page out.old at) }
{
    if at < out.len() {
        out[at] = b;
        return at + 1;
    }
    at
}

// The same in a slice of 32-bit numbers. One function for both would want pages of any type, in every clause that has a page.
pub fn put_u32(out: &mut [u32], at: usize, n: u32) -> usize
    ensures { page out.new result ≡ write (n ∷ []) (page out.old at) }
{
    if at < out.len() {
        out[at] = n;
        return at + 1;
    }
    at
}

fn digit(n: u64) -> u8
    ensures { result ≡ 48 + n % 10 }
{
    b'0' + ((n % 10) as u8)
}

// A number in decimal.
fn put_number(out: &mut [u8], at: usize, n: u64) -> usize
    ensures { page out.new result ≡ write (decimal n) (page out.old at) }
{
    if n < 10 {
        return put_byte(out, at, digit(n));
    }
    let next = put_number(out, at, n / 10);
    put_byte(out, next, digit(n))
}

// A number and the byte behind it: a space, or the end of the line.
pub fn put_field(out: &mut [u8], at: usize, n: u64, behind: u8) -> usize
    ensures { page out.new result ≡ write (decimal n ++ (behind ∷ [])) (page out.old at) }
{
    let next = put_number(out, at, n);
    put_byte(out, next, behind)
}

// The bytes of a text, one after the other.
pub fn put_text(out: &mut [u8], at: usize, text: &[u8]) -> usize
    ensures { page out.new result ≡ write text.now (page out.old at) }
{
    let mut next = at;
    for b in text {
        next = put_byte(out, next, *b);
    }
    next
}
