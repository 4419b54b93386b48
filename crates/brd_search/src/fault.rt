//! What is wrong with the options of a search.

ghost use Rattle.std.specs.Prelude.{◌≡◌};

use brd_base::NoMemory;
use thiserror::Error;

/// What is wrong with the regions that an option says.
#[derive(Clone, Copy, Debug, PartialEq, Eq, Error)]
pub enum RegionFault {
    /// A region isn't one.
    #[error("has regions of instructions with commas between them, as push..pop: from a place up to, not including, \
         another one, each a symbol of the object file, or 0x and a hexadecimal address")]
    Form,
    /// A place of a region is no symbol of the image.
    #[error("names a symbol that the object file doesn't have")]
    NoSymbol,
    /// A region has no instruction.
    #[error("has a region whose end isn't above its start")]
    Empty,
    /// A region is there twice.
    #[error("has a region twice")]
    Twice,
}

/// What is wrong with the options of a search.
#[derive(Clone, Copy, Debug, PartialEq, Eq, Error)]
pub enum SearchFault {
    /// A growth was refused.
    #[error("out of memory")]
    NoMemory,
    /// There are more events than there may be.
    #[error("--events is a number from 0 to 1,000,000")]
    Events,
    /// The fair end has more rounds than it may have.
    #[error("--fair is a number of rounds from 0 to 20,000")]
    Fair,
    /// More is to be remembered than may be.
    #[error("--remember is a number of MiB from 0 to 4,096")]
    Remember,
    /// More threads are to search than may.
    #[error("--threads is a number from 1 to 64")]
    Threads,
    /// The lines aren't numbers of interrupt lines.
    #[error("--lines has interrupt lines from 0 to 31 with commas between them, as 3,4")]
    Lines,
    /// Raises are allowed, and no line is named; or a line is named, and no raise is allowed.
    #[error("--raises says how often lines may be raised, and --lines which")]
    NoLines,
    /// Raises aren't told as they should be.
    #[error("--raises is R or F..R: lines are raised R times at most, and F times before rest is an end, R times if \
         left out")]
    Raises,
    /// A line is named twice.
    #[error("--lines names a line twice")]
    Twice,
    /// A line that is named has no handler.
    #[error("--lines names a line without a handler")]
    NoHandler,
    /// A word isn't as it should be.
    #[error("--word has what words should be, as count=2 (at the end) or inside=0..1 (always), with commas between \
         them; a place is a symbol, or 0x and a hexadecimal address")]
    Word,
    /// A place of a word is no symbol of the image.
    #[error("--word names a symbol that the object file doesn't have")]
    NoSymbol,
    /// The text of the console has a backslash that begins no escape.
    #[error("--console has a text, in which \\n, \\r, \\t, \\\\ and \\xHH stand for a byte")]
    Console,
    /// A place of an instruction isn't one.
    #[error("--reach has places of instructions with commas between them, each a symbol of the object file, or 0x and \
         a hexadecimal address")]
    Reach,
    /// A condition isn't one.
    #[error("--never has conditions with commas between them, as in1 + in2 > 1: sums of numbers and of words at \
         symbols of the object file, with <, <=, >, >=, == or != between them")]
    Never,
    /// A journal that is made shorter has more events than it may have.
    #[error("the journal has more than 1,000,000 events")]
    Journal,
    /// A journal would be written over an input.
    #[error("--out names the object file or the configuration")]
    OverInput,
    /// A search without bounds is to do what it doesn't know.
    #[error("--places goes with none of --fair, --remember, --shard, --shortest, --threads and --time")]
    Places,
    /// A search that may take so many seconds is to find the shortest schedule.
    #[error("--time doesn't go with --shortest")]
    Time,
    /// A search by lazy schedules is to do what it doesn't know.
    #[error("--lazy goes with none of --fair, --places, --remember and --shard")]
    Lazy,
    /// Something is wrong with the regions in which a processor may be preempted.
    #[error("--only {0}")]
    Only(RegionFault),
    /// Something is wrong with the regions in which lines may be raised.
    #[error("--raises-at {0}")]
    RaisesAt(RegionFault),
    /// It is said where lines may be raised, and no raise is allowed.
    #[error("--raises-at says where lines may be raised, and --raises how often")]
    NoRaises,
    /// A search that keeps to regions is to do what it doesn't know.
    #[error("--only and --raises-at go with none of --fair, --lazy, --places, --remember, --shard and --threads")]
    OnlyAlone,
    /// Such a search has come to no answer: there are more places.
    #[error("not known: there are more places than --memory holds")]
    MoreOnly,
    /// The time of a search is over, and of no schedule it is known whether it fails.
    #[error("not known: --time is over")]
    OutOfTime,
    /// The time of a search is over: none fails with up to so many preemptions, which are fewer than were asked for.
    #[error("not known: --time is over, but none fails with --preemptions {preemptions}")]
    OutOfTimeAfter { preemptions: u32 },
    /// It is asked for what a search without bounds alone knows.
    #[error("--livelock and --finals go with --places")]
    Ends,
    /// A search without bounds has come to no answer: there are more places.
    #[error("not known: there are more than --places places")]
    MorePlaces,
    /// A search by lazy schedules has come to no answer: there are more places.
    #[error("not known: there are more than --lazy places")]
    MoreLazy,
    /// There is a block nearly without end, which isn't a loop.
    #[error("not known: a processor executes 16,777,216 instructions in a row that no other can see")]
    LongBlock,
    /// Something that is not to be expected.
    #[error("not known: it isn't learned who uses which memory")]
    Unlearned,
    /// A shard isn't one of its number.
    #[error("--shard is K/M, shard K of M, with K from 1 to M")]
    Shard,
    /// Values are asked for, and no list of ends.
    #[error("--values goes with --finals")]
    NoFinals,
    /// A place of a word whose value is asked for isn't one.
    #[error("--values has words with commas between them, each a symbol of the object file, or 0x and a hexadecimal \
         address")]
    Values,
    /// A word is named twice.
    #[error("--values names a word twice")]
    ValuesTwice,
    /// There is no word at a place whose value is asked for.
    #[error("--values names a place that has no word: it isn't in RAM, or its address is no multiple of 4")]
    NoWord,
}

impl From<NoMemory> for SearchFault {
    ghost use Rattle.brd_search.specs.declared.fault.SearchFault.TheVariants.{NoMemory as no_memory};

    ghost from_gives = { λ _ fault. fault ≡ no_memory };

    fn from(_e: NoMemory) -> Self {
        SearchFault::NoMemory
    }
}
