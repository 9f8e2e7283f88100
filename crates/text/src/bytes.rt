// Numbers in a slice of bytes, their lowest byte first.
ghost use Rattle.std.specs.Prelude.{◌≡◌};
ghost use Rattle.model.specs.Basics.{bytes2, bytes4};
ghost use Rattle.text.specs.Pages.{page, write};

use crate::writing::put_text;

pub fn put_u16(out: &mut [u8], at: usize, n: u16) -> usize
    ensures { page out.new result ≡ write (bytes2 n) (page out.old at) }
{
    put_text(out, at, &n.to_le_bytes())
}

// Where all four bytes have room no byte is tested by itself, and the compiler makes one store of them.
pub fn put_word(out: &mut [u8], at: usize, n: u32) -> usize
    ensures { page out.new result ≡ write (bytes4 n) (page out.old at) }
{
    let bytes = n.to_le_bytes();
    let size = out.len();
    if size < 4 || size - 4 < at {
        return put_text(out, at, &bytes);
    }
    let behind = at + 4;
    out[at..behind].copy_from_slice(&bytes);
    behind
}
