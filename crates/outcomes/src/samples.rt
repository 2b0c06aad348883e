// The code of `exchange` under other contracts. It meets each: three leave something open, and the last says the same in other words.
ghost use Rattle.std.specs.Prelude.{◌≡◌};
ghost use Rattle.outcomes.specs.Sample.{exchanged};

use std::mem;

// what the lent memory holds afterwards
pub fn memory_open(held: &mut u8, x: u8) -> u8
    ensures { result ≡ held.old }
{
    mem::replace(held, x)
}

// what is answered
pub fn answer_open(held: &mut u8, x: u8) -> u8
    ensures { held.new ≡ x }
{
    mem::replace(held, x)
}

// what a call with another byte than 1 does
pub fn calls_left_out(held: &mut u8, x: u8) -> u8
    requires { x ≡ 1 }
    ensures { (result, held.new) ≡ exchanged held.old x }
{
    mem::replace(held, x)
}

// nothing: two equations, each turned round
pub fn reworded(held: &mut u8, x: u8) -> u8
    ensures x_value { x ≡ held.new }
    ensures held_value { held.old ≡ result }
{
    mem::replace(held, x)
}
