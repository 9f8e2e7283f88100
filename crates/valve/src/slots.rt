// The neighbours of a slot in the ring of 1,440.
ghost use Rattle.std.specs.Prelude.{◌≡◌};
ghost use Rattle.valve.specs.Window.{before, after};

use crate::numbers::Minute;

pub fn slot_before(slot: u16) -> u16
    ensures { result ≡ before slot }
{
    if slot == 0 { Minute::MAX } else { slot - 1 }
}

pub fn slot_after(slot: u16) -> u16
    ensures { result ≡ after slot }
{
    if slot < Minute::MAX { slot + 1 } else { 0 }
}
