// Refusal 21 of the other houses: each is replayed in the one set of scratch tables.
ghost use Rattle.std.specs.Prelude.{◌≡◌, ◌<◌, true};
ghost use Rattle.model.specs.Tables.{fits};
ghost use Rattle.lent.specs.Lent.{of_lent, of_view, SameLent};
ghost use Rattle.tables.specs.Steps.{zeroed};
ghost use Rattle.nursery.specs.Licence.{houses};
ghost use Rattle.heads.specs.Meaning.{as_heads};
ghost use Rattle.heads.specs.Others.{Long, passes_in, others_in};

use clearing::whole::clear_tables;
use heads::heads::{Heads, head_of};
use heads::part::part_of;
use holding::held::is_held;
use lent::slices::{Tables, View};

// Whether the part of house h holds a register; nothing is asked of the house that is left out. Scratch is all zero, and stays so.
fn passes_house(register: &View, heads: Heads, scratch: &mut Tables, h: usize, house: u32) -> bool
    requires { (h < houses) × Long (of_view register.now) × (fits (of_lent scratch.old) ≡ true)
        × (zeroed (of_lent scratch.old) ≡ of_lent scratch.old) }
    ensures lent { SameLent scratch.new scratch.old }
    ensures same { of_lent scratch.new ≡ of_lent scratch.old }
    ensures tells { result ≡ passes_in (of_view register.now) (as_heads heads) house h }
{
    if h as u32 == house {
        return true;
    }
    let own = head_of(heads, h);
    is_held(&part_of(register, h), own, scratch)
}

// Each house in its turn.
fn all_pass(register: &View, heads: Heads, scratch: &mut Tables, house: u32) -> bool
    requires { Long (of_view register.now) × (fits (of_lent scratch.old) ≡ true)
        × (zeroed (of_lent scratch.old) ≡ of_lent scratch.old) }
    ensures lent { SameLent scratch.new scratch.old }
    ensures same { of_lent scratch.new ≡ of_lent scratch.old }
    ensures tells { result ≡ others_in (of_view register.now) (as_heads heads) house houses 0 }
{
    for h in 0..8 {
        if !passes_house(register, heads, scratch, h, house) {
            return false;
        }
    }
    true
}

// Whether every house but one holds a register; all eight, if that one is none of them. Scratch ends all zero.
pub fn others_held(register: &View, heads: Heads, scratch: &mut Tables, house: u32) -> bool
    requires { Long (of_view register.now) × (fits (of_lent scratch.old) ≡ true) }
    ensures lent { SameLent scratch.new scratch.old }
    ensures cleared { of_lent scratch.new ≡ zeroed (of_lent scratch.old) }
    ensures tells { result ≡ others_in (of_view register.now) (as_heads heads) house houses 0 }
{
    clear_tables(scratch);
    all_pass(register, heads, scratch, house)
}
