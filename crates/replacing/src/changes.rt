// The fittings whose labels differ: how many there are, and the report of them.
ghost use Rattle.std.specs.Prelude.{◌≡◌, eqb, length, if◌then◌else◌};
ghost use Rattle.text.specs.Pages.{page, write};
ghost use Rattle.nursery.specs.Removal.{change_numbers};
ghost use Rattle.replacing.specs.Changes.{change_at, changes_in};

use tables::access::of;
use text::writing::put_u32;

// 1 where a label differs.
fn changed(old: u32, new: u32) -> u16
    ensures { result ≡ (if eqb old new then 0 else 1) }
{
    if old == new {
        return 0;
    }
    1
}

// How many of the first n fittings.
pub fn count_changes(olds: &[u32], news: &[u32], n: u16) -> u16
    ensures { result ≡ length (changes_in olds.now news.now n 0) }
{
    let mut count: u16 = 0;
    for v in 0..n {
        count += changed(of(olds, v), of(news, v));
    }
    count
}

// Three numbers, one after the other, where a label differs.
fn put_change(out: &mut [u32], at: usize, v: u16, old: u32, new: u32) -> usize
    ensures { page out.new result ≡ write (change_numbers (change_at v old new)) (page out.old at) }
{
    if new == old {
        return at;
    }
    let second = put_u32(out, at, v as u32);
    let third = put_u32(out, second, old);
    put_u32(out, third, new)
}

// By rising fitting: the fitting, its old label and its new one, from the front of the slice on.
pub fn put_changes(olds: &[u32], news: &[u32], n: u16, out: &mut [u32])
    ensures { out.new ≡ (write (change_numbers (changes_in olds.now news.now n 0)) (page out.old 0)).slice }
{
    let mut next: usize = 0;
    for v in 0..n {
        next = put_change(out, next, v, of(olds, v), of(news, v));
    }
}
