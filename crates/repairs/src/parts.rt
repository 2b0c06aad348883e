// The table of double errors in sixteen parts, by the remainder's top four bits: a part is searched in fewer steps than the whole.
ghost use Rattle.std.specs.Prelude.{◌≤◌, MatchOption};
ghost use Rattle.repairs.specs.Inner.{DoubleTable};

use crate::tables;

// A part, with the second positions of its entries. No remainder has more than 24 bits, so there are no others.
pub fn part_of(part: u32) -> Option<(&'static [u32], &'static [u8])>
    ensures { MatchOption result (16 ≤ part) (λ found. DoubleTable part found.0.now found.1.now) }
{
    match part {
        0 => Some((&tables::DOUBLE_0, &tables::SECOND_0)),
        1 => Some((&tables::DOUBLE_1, &tables::SECOND_1)),
        2 => Some((&tables::DOUBLE_2, &tables::SECOND_2)),
        3 => Some((&tables::DOUBLE_3, &tables::SECOND_3)),
        4 => Some((&tables::DOUBLE_4, &tables::SECOND_4)),
        5 => Some((&tables::DOUBLE_5, &tables::SECOND_5)),
        6 => Some((&tables::DOUBLE_6, &tables::SECOND_6)),
        7 => Some((&tables::DOUBLE_7, &tables::SECOND_7)),
        8 => Some((&tables::DOUBLE_8, &tables::SECOND_8)),
        9 => Some((&tables::DOUBLE_9, &tables::SECOND_9)),
        10 => Some((&tables::DOUBLE_10, &tables::SECOND_10)),
        11 => Some((&tables::DOUBLE_11, &tables::SECOND_11)),
        12 => Some((&tables::DOUBLE_12, &tables::SECOND_12)),
        13 => Some((&tables::DOUBLE_13, &tables::SECOND_13)),
        14 => Some((&tables::DOUBLE_14, &tables::SECOND_14)),
        15 => Some((&tables::DOUBLE_15, &tables::SECOND_15)),
        _ => None,
    }
}
