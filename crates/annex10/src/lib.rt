// The types of a repair and of an address, whose meaning stands in specs/; how many bytes a message has, and how many positions a repair
// names, and whether they lie in it.
#![tactic(auto)]

pub mod codes;
pub mod division;

ghost use Rattle.std.specs.Prelude.{◌≡◌, ◌*◌, ltb};
ghost use Rattle.annex10.specs.Length.{message_length, message_bytes, most_repairs};
ghost use Rattle.annex10.specs.Repair.{count, inside};

// At most two positions of a message, whose bits are turned over.
#[derive(Clone, Copy, Debug, PartialEq, Eq)]
pub enum Repairs {
    None,
    One(u8),
    Two(u8, u8),
}

// What a search for positions finds.
#[derive(Clone, Copy, Debug, PartialEq, Eq)]
pub enum Found {
    At(Repairs),
    Nothing,
}

// What the three bytes behind a first byte are.
#[derive(Clone, Copy, Debug, PartialEq, Eq)]
pub enum AddressKind {
    Icao,
    Other,
    Flagged,
    NoAddress,
}

// A message of either kind.
#[derive(Clone, Copy, Debug, PartialEq, Eq)]
pub enum MessageKind {
    Short,
    Long,
}

impl MessageKind {
    pub fn bytes(self) -> usize
        ensures { result ≡ message_bytes self }
    {
        match self {
            MessageKind::Short => 7,
            MessageKind::Long => 14,
        }
    }

    // The most positions that are repaired.
    pub fn most(self) -> u32
        ensures { result ≡ most_repairs self }
    {
        match self {
            MessageKind::Short => 1,
            MessageKind::Long => 2,
        }
    }
}

// A message has 7 bytes or 14.
#[tactic(auto, unfolding(crate::specs::Length::message_length))]
pub fn is_message(n: usize) -> bool
    ensures { result ≡ message_length n }
{
    n == 7 || n == 14
}

// How many positions are repaired: two that are equal are two.
pub fn repairs_of(repairs: Repairs) -> u32
    ensures { result ≡ count repairs }
{
    match repairs {
        Repairs::None => 0,
        Repairs::One(_) => 1,
        Repairs::Two(_, _) => 2,
    }
}

// Whole bytes are compared, so that nothing can wrap.
fn lies_inside(bytes: usize, j: u8) -> bool
    ensures { result ≡ ltb j (8 * bytes) }
{
    ((j / 8) as usize) < bytes
}

// Whether the positions are those of so many bytes.
pub fn lie_inside(bytes: usize, repairs: Repairs) -> bool
    ensures { result ≡ inside bytes repairs }
{
    match repairs {
        Repairs::None => true,
        Repairs::One(j) => lies_inside(bytes, j),
        Repairs::Two(j, k) => lies_inside(bytes, j) && lies_inside(bytes, k),
    }
}
