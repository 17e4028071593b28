// The refusals of documents 01 and 02 by name. What a call answers is a `Result` with one of these; its number goes to Rust and C.
//
//   specs/Numbers    the number of each, and a result in the words of history
//   proofs/Numbers   none is 0

#![tactic(auto)]

ghost use Rattle.std.specs.Prelude.{◌≡◌};
ghost use Rattle.refusals.specs.Numbers.{number_of};

#[derive(Clone, Copy, PartialEq, Eq, Debug)]
pub enum Refusal {
    // The end tick is 0 or above 2^63; the set of kinds is empty, or a kind is above 4.
    BadOpening = 1,
    // The lent tables are not well formed.
    Malformed = 2,
    // The index is finished or loaded; or it is not.
    Finished = 3,
    NotFinished = 4,
    // An operation without cells, or with an end above 2^64 - 1.
    NoCells = 5,
    EndTooHigh = 6,
    // Its tick is the end tick or above it, or below the last accepted one.
    TickTooHigh = 7,
    TickTooLow = 8,
    // An update would leave more than there is space for.
    PiecesFull = 9,
    BlocksFull = 10,
    StoreFull = 11,
    // The tree needs more rows than there are.
    NodesFull = 12,
    EntriesFull = 13,
    // The tick of a read is the end tick or above it.
    NoSuchTick = 14,
    // A window that ends before it starts, or a number that no block has.
    OutOfRange = 15,
    // The result exceeds a lent slice.
    ResultTooLong = 16,
    // What a file is refused for.
    FileEnds = 17,
    FileKind = 18,
    FilePresence = 19,
    FileRoom = 20,
    FileTree = 21,
    FileBlocks = 22,
    FileEntries = 23,
    FileShared = 24,
    // A kind that the index was not opened for.
    KindNotOpened = 25,
    // A byte on a cell that the calendar closes.
    CellClosed = 26,
    // What install does not take.
    BadCalendar = 27,
    BadDays = 28,
    // A charge at a price above 1,000,000, or for a window whose first and last cell are on different platforms.
    PriceTooHigh = 35,
    ManyPlatforms = 36,
    // A report on no cell, on more than 256 windows, or on more than 2^32 cells.
    BadWindows = 37,
}

impl From<Refusal> for u64 {
    ghost from_gives = { λ r n. n ≡ number_of r };

    fn from(refusal: Refusal) -> u64 {
        refusal as u64
    }
}
