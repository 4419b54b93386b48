//! What a trace is to show.

/// The form in which a trace is written.
#[derive(Clone, Copy, PartialEq, Eq)]
pub enum TraceFormat {
    /// Lines.
    Text,
    /// A timeline in the trace event format, which Perfetto and chrome://tracing read.
    Json,
    /// A picture of the timeline.
    Svg,
    /// A page that shows the board at each position.
    Html,
    /// How often lines, functions and branches were executed, in lcov's format.
    Lcov,
    /// In which functions the steps were done, in Callgrind's format.
    Callgrind,
}

/// What a trace is to show.
#[derive(Clone, Copy)]
pub struct TraceOptions<'a> {
    /// The position of the first event; 0 where none is given.
    pub from: Option<u64>,
    /// The position after the last event; the journal's end where none is given, or it is past that.
    pub to: Option<u64>,
    /// The processor whose lines are shown; all where none is given.
    pub cpu: Option<u8>,
    /// Whether each instruction has a line.
    pub instructions: bool,
    /// The words of which only loads and stores have lines: names of symbols and addresses, with commas between them.
    pub words: Option<&'a str>,
    /// Whether only what stands at the end is shown.
    pub summary: bool,
    /// Whether only the races are shown.
    pub races: bool,
    /// Whether only the stacks are shown.
    pub stacks: bool,
    /// In which form; none where the form that was asked for isn't there.
    pub format: Option<TraceFormat>,
}
