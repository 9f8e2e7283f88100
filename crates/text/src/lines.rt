// Lines of two or four numbers: parted by one space, ended by the byte 10; the line of a row, and that of a stop.
ghost use Rattle.std.specs.Prelude.{◌≡◌, [], ◌∷◌, ◌++◌};
ghost use Rattle.model.specs.Format.{stopped};
ghost use Rattle.model.specs.Printing.{line, row_line, volume_text, stop_line};
ghost use Rattle.text.specs.Pages.{page, write};

use crate::writing::{put_field, put_text};

const NEWLINE: u8 = 10;

pub fn put_line2(out: &mut [u8], at: usize, a: u64, b: u64) -> usize
    ensures { page out.new result ≡ write (line (a ∷ b ∷ [])) (page out.old at) }
{
    let second = put_field(out, at, a, b' ');
    put_field(out, second, b, NEWLINE)
}

pub fn put_line4(out: &mut [u8], at: usize, a: u64, b: u64, c: u64, d: u64) -> usize
    ensures { page out.new result ≡ write (line (a ∷ b ∷ c ∷ d ∷ [])) (page out.old at) }
{
    let second = put_field(out, at, a, b' ');
    let third = put_field(out, second, b, b' ');
    put_line2(out, third, c, d)
}

// The end of a row's line: its volume, or `-` for 0, which is unknown.
fn put_volume(out: &mut [u8], at: usize, volume: u64) -> usize
    ensures { page out.new result ≡ write (volume_text volume ++ (10 ∷ [])) (page out.old at) }
{
    if volume == 0 {
        return put_text(out, at, b"-\n");
    }
    put_field(out, at, volume, NEWLINE)
}

// The line of a row: five numbers, and the volume.
pub fn put_row_line(
    out: &mut [u8],
    at: usize,
    a: u64,
    b: u64,
    c: u64,
    d: u64,
    e: u64,
    volume: u64,
) -> usize
    ensures { page out.new result
        ≡ write (row_line (a ∷ b ∷ c ∷ d ∷ e ∷ volume ∷ [])) (page out.old at) }
{
    let second = put_field(out, at, a, b' ');
    let third = put_field(out, second, b, b' ');
    let fourth = put_field(out, third, c, b' ');
    let fifth = put_field(out, fourth, d, b' ');
    let last = put_field(out, fifth, e, b' ');
    put_volume(out, last, volume)
}

// "stopped RECORD REFUSAL", by the record's number and the refusal's.
pub fn put_stopped(out: &mut [u8], at: usize, number: u64, refusal: u64) -> usize
    ensures { page out.new result ≡ write (stop_line (stopped number refusal)) (page out.old at) }
{
    let next = put_text(out, at, b"stopped ");
    put_line2(out, next, number, refusal)
}
