ghost use Rattle.std.specs.Prelude.{◌≡◌};
ghost use Rattle.tags.specs.Refusals.{refusal_number, map_fault_number};

// Why a node map does not do what it is asked.
#[derive(Clone, Copy, PartialEq, Eq, Debug)]
pub enum MapFault {
    // No node has this number, or none that has a parent.
    NoNode,
    // The symbol is past the largest one.
    SymbolTooLarge,
    // The parent has a child by this symbol.
    PairTaken,
    // There are as many nodes as the current room holds.
    RoomFull,
    // There is no larger room.
    LastRoom,
}

// Its number.
impl From<MapFault> for u8 {
    ghost from_gives = { λ fault number. number ≡ map_fault_number fault };

    fn from(fault: MapFault) -> u8 {
        match fault {
            MapFault::NoNode => 1,
            MapFault::SymbolTooLarge => 2,
            MapFault::PairTaken => 3,
            MapFault::RoomFull => 4,
            MapFault::LastRoom => 5,
        }
    }
}

// Why a call says no. Where a call has several causes, the smallest number is given.
#[derive(Clone, Copy, PartialEq, Eq, Debug)]
pub enum Refusal {
    EmptyTag,
    LongTag,
    // A byte 0 or 255 in the tag.
    BadByte,
    // Enter: the row holds a value.
    RowHolds,
    // Change, strike: no row has the tag, or it is struck.
    NoLiveRow,
    NoNodeRoom,
    NoByteRoom,
    // Spell: no row has the ticket.
    NoSuchTicket,
    // Spell: the buffer is shorter than the tag.
    ShortBuffer,
    // Double: the last room is current. The map's own fault comes with it.
    NoNextRoom(MapFault),
    // The memory lent to a node map has no size that it takes.
    MapMemory,
    // The memory lent to a label store or a shelf has no size that it takes.
    StoreMemory,
    // The parts do not fit one another, or are in use.
    UnfitParts,
    // Inserted is not accepted + rejected.
    UnbalancedTally,
}

// Its number.
impl From<Refusal> for u8 {
    ghost from_gives = { λ why number. number ≡ refusal_number why };

    fn from(why: Refusal) -> u8 {
        match why {
            Refusal::EmptyTag => 1,
            Refusal::LongTag => 2,
            Refusal::BadByte => 3,
            Refusal::RowHolds => 4,
            Refusal::NoLiveRow => 5,
            Refusal::NoNodeRoom => 6,
            Refusal::NoByteRoom => 7,
            Refusal::NoSuchTicket => 8,
            Refusal::ShortBuffer => 9,
            Refusal::NoNextRoom(_) => 10,
            Refusal::MapMemory => 11,
            Refusal::StoreMemory => 12,
            Refusal::UnfitParts => 13,
            Refusal::UnbalancedTally => 14,
        }
    }
}
