//! The options of a search, as they are given.

/// How large a search is.
#[derive(Clone, Copy, Debug, PartialEq, Eq)]
pub struct Sizes {
    /// How many events a schedule has at most.
    pub events: u32,
    /// How many preemptions.
    pub preemptions: u32,
    /// How many ticks.
    pub ticks: u32,
    /// How many rounds the fair end has.
    pub fair: u32,
}

/// What is looked for.
#[derive(Clone, Copy)]
pub struct Looks<'a> {
    /// An exception that ends a task, or stops a processor.
    pub exception: bool,
    /// A deadlock.
    pub deadlock: bool,
    /// A board that is on at the end.
    pub on: bool,
    /// Words that aren't as they should be, as `count=2,inside=0..1`.
    pub words: Option<&'a str>,
    /// A console that isn't as it should be, as `done\n`: `\n`, `\r`, `\t`, `\\` and `\xHH`, with two hexadecimal
    /// digits, stand for a byte.
    pub console: Option<&'a str>,
    /// Who comes to an instruction at one of these places, as `lost,0x80000010`.
    pub reach: Option<&'a str>,
    /// Conditions that hold, as `inside1 + inside2 > 1`.
    pub never: Option<&'a str>,
}

/// The options of a search.
#[derive(Clone, Copy)]
pub struct SearchOptions<'a> {
    /// How large it is.
    pub sizes: Sizes,
    /// How often interrupt lines may be raised, as `R`, and how often before a board at rest is an end, as `F..R`.
    pub raises: Option<&'a str>,
    /// Which interrupt lines may be raised, with commas between them.
    pub lines: Option<&'a str>,
    /// What is looked for. Nothing: exceptions and deadlocks.
    pub looks: Looks<'a>,
    /// Whether a schedule that is found is to have as few events as it can.
    pub shortest: bool,
    /// Which shard is searched, as `K/M`.
    pub shard: Option<&'a str>,
    /// How many MiB of states the search remembers at most.
    pub remember: u32,
    /// How many seconds it may take; 0: any number.
    pub time: u32,
    /// How many threads of the host search; 0: none but that of the command.
    pub threads: u32,
    /// Through how many places a search goes at most for which events and preemptions have no bound; 0: they have.
    pub places: u32,
    /// Whether such a search also looks for a board from which no schedule comes to an end.
    pub livelock: bool,
    /// Whether such a search, if none fails, lists the consoles of all ends.
    pub finals: bool,
    /// Through how many places a search goes at most within bounds, by the lazy schedules alone; 0: it isn't said.
    pub lazy: u32,
    /// If it isn't said: how many MiB of places it remembers at most before it goes on by all schedules; 0: it goes by
    /// all at once.
    pub memory: u32,
    /// The words whose values such a list has beside the consoles, as `count,0x80000010`.
    pub values: Option<&'a str>,
    /// In which regions of instructions a processor may be preempted, as `push..pop,lock..unlock`: from a place up to,
    /// not including, another one. Nothing: anywhere.
    pub only: Option<&'a str>,
    /// In which regions some processor has to be about to execute while a line is raised, said likewise. Nothing: lines
    /// may be raised anywhere.
    pub raises_at: Option<&'a str>,
}
