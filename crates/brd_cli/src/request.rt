//! What a command line asks for.

ghost use Rattle.std.specs.Prelude.{◌≡◌, ◌∷◌, [], IfOk, codes, map, option_map, unwrap_or};
ghost use Rattle.clap.specs.Words.{all_of, app_of, first_of, found_of, kind_of, one_of, rows_of, subcommand_rows_of};
ghost use Rattle.clap.specs.declared.error.kind.ErrorKind.TheVariants.{MissingSubcommand};
ghost use Rattle.brd_cli.specs.Requests.{AreJournalOptions, AreTraceOptions, AreTryOptions, IsAnswer, IsAsked};
ghost use Rattle.brd_cli.specs.Requests.{data_in};
ghost use Rattle.brd_cli.specs.Requests.{IsJournal, IsNumber};
ghost use Rattle.brd_cli.specs.Requests.{IsNumberOf};
ghost use Rattle.brd_cli.specs.Requests.{AreLooks, AreSearchOptions, AreSizes, IsExplore, IsNumberOr, IsShrink, IsTry};
ghost use Rattle.brd_cli.specs.Requests.{IsFlag, IsRace, IsRequestOf, IsTrace, format_named, given, order_named};
ghost use Rattle.brd_cli.specs.Usage as usage;
ghost use Rattle.brd_cli.specs.Usage.{inputs, pair, race_files};

use crate::end::EarlyEnd;
use crate::usage::board_command;
use brd_base::NoMemory;
use brd_command::{
    JournalOptions, Looks, Order, Request, SearchOptions, ShrinkOptions, Sizes, TraceFormat,
    TraceOptions, TryOptions,
};
use clap::error::ErrorKind;
use clap::{ArgMatches, Command};
use std::alloc::Global;
use std::convert::AsStr;

/// What is asked for.
#[derive(Drop)]
pub struct Line<'a> {
    /// The request.
    pub request: Request<'a>,
    /// The texts of its data.
    pub texts: Vec<&'a str>,
}

/// What the words of a command line ask for, of which the first is the program's name.
pub fn asked<'a, S: AsStr>(alloc: Global, words: &'a [S]) -> Result<Line<'a>, EarlyEnd>
    ensures { IsAnswer (map S.text words.entry.now) result }
{
    let mut board = board_command(alloc)?;
    asked_of(alloc, &mut board, words)
}

/// What the words of a command line ask the program for.
fn asked_of<'a, S: AsStr>(
    alloc: Global,
    board: &mut Command<'a>,
    words: &'a [S],
) -> Result<Line<'a>, EarlyEnd>
    ensures { app_of board.old ≡ usage.board → IsAnswer (map S.text words.entry.now) result }
{
    let matches = board.try_get_matches_from_mut(words)?;
    if let Some(request) = request_of(&matches) {
        let texts = data_of(alloc, &matches)?;
        return Ok(Line { request, texts });
    }
    Err(EarlyEnd::from(missing(board)?))
}

/// The data that the matches of a command line name.
fn data_of<'a>(alloc: Global, matches: &ArgMatches<'a>) -> Result<Vec<&'a str>, NoMemory>
    ensures { IfOk result (λ texts. map (λ text. text.now) texts.items ≡ data_in (subcommand_rows_of matches.now)) }
{
    match matches.subcommand() {
        None => Ok(Vec::new(alloc)),
        Some((_, arguments)) => texts_of(alloc, arguments, "DATA"),
    }
}

/// All that was given for an argument.
fn texts_of<'a>(
    alloc: Global,
    arguments: &ArgMatches<'a>,
    name: &str,
) -> Result<Vec<&'a str>, NoMemory>
    ensures { IfOk result (λ texts. map (λ text. text.now) texts.items
        ≡ unwrap_or (all_of name.now (rows_of (found_of arguments.now))) []) }
{
    match arguments.get_strs(name) {
        None => Ok(Vec::new(alloc)),
        Some(texts) => {
            let all = Vec::from_slice(alloc, texts)?;
            Ok(all)
        }
    }
}

/// What is wrong with a command line that has no command.
fn missing(board: &mut Command) -> Result<clap::Error, NoMemory>
    ensures { IfOk result (λ error. kind_of error ≡ MissingSubcommand) }
{
    let error = board.error(ErrorKind::MissingSubcommand, "a command is missing")?;
    Ok(error)
}

/// What the matches of a command line ask for. `None` where a command or an argument is missing, which `clap` doesn't
/// let through.
fn request_of<'a>(matches: &ArgMatches<'a>) -> Option<Request<'a>>
    ensures { IsAsked (subcommand_rows_of matches.now) result }
{
    let (name, arguments) = matches.subcommand()?;
    request_named(name, arguments)
}

/// The request of the command of this name.
fn request_named<'a>(name: &str, arguments: &ArgMatches<'a>) -> Option<Request<'a>>
    ensures { IsRequestOf name.now (rows_of (found_of arguments.now)) result }
{
    match name {
        "words" => {
            let steps = number_of(arguments, "STEPS")?;
            Some(Request::Words { steps })
        }
        "asm" => {
            let source = text_of(arguments, "SOURCE")?;
            let out = text_of(arguments, "OUT")?;
            Some(Request::Asm { source, out })
        }
        "run" => {
            let (image, config, journal) = inputs_of(arguments)?;
            Some(Request::Run {
                image,
                config,
                journal,
            })
        }
        "race" => race_of(arguments),
        "debug" => {
            let (image, config, journal) = inputs_of(arguments)?;
            Some(Request::Debug {
                image,
                config,
                journal,
            })
        }
        "gdb" => {
            let (image, config, journal) = inputs_of(arguments)?;
            Some(Request::Gdb {
                image,
                config,
                journal,
            })
        }
        "trace" => trace_of(arguments),
        "journal" => journal_of(arguments),
        "explore" => explore_of(arguments),
        "shrink" => shrink_of(arguments),
        "try" => try_of(arguments),
        _ => None,
    }
}

/// The request of `try`.
fn try_of<'a>(arguments: &ArgMatches<'a>) -> Option<Request<'a>>
    ensures { IsTry (rows_of (found_of arguments.now)) result }
{
    let source = text_of(arguments, "SOURCE")?;
    let options = try_options_of(arguments);
    let keep = text_of(arguments, "NAME");
    let page = text_of(arguments, "FILE");
    Some(Request::Try {
        source,
        options,
        keep,
        page,
    })
}

/// How many steps `try` does at most, unless it is said (own choice).
const USUAL_STEPS: u32 = 10_000;

/// The options of `try`.
fn try_options_of(arguments: &ArgMatches) -> TryOptions
    ensures { AreTryOptions (rows_of (found_of arguments.now)) result }
{
    let tick_every = number_or(arguments, "INTERVAL", 0);
    TryOptions {
        cpus: number_or(arguments, "CPUS", 1),
        steps: number_or(arguments, "STEPS", USUAL_STEPS),
        tick_every,
        strict: flag_of(arguments, "strict"),
    }
}

/// The request of `trace`.
fn trace_of<'a>(arguments: &ArgMatches<'a>) -> Option<Request<'a>>
    ensures { IsTrace (rows_of (found_of arguments.now)) result }
{
    let (image, config, journal) = inputs_of(arguments)?;
    let options = trace_options_of(arguments);
    Some(Request::Trace {
        image,
        config,
        journal,
        options,
    })
}

/// The options of `trace`.
fn trace_options_of<'a>(arguments: &ArgMatches<'a>) -> TraceOptions<'a>
    ensures { AreTraceOptions (rows_of (found_of arguments.now)) result }
{
    TraceOptions {
        from: position_of(arguments, "from"),
        to: position_of(arguments, "to"),
        cpu: processor_of(arguments, "cpu"),
        instructions: flag_of(arguments, "instructions"),
        words: text_of(arguments, "WORDS"),
        summary: flag_of(arguments, "summary"),
        races: flag_of(arguments, "races"),
        stacks: flag_of(arguments, "stacks"),
        format: format_of(text_of(arguments, "format")),
    }
}

/// The form of a trace of that name; lines where none is given, and none where there is no such form.
fn format_of(name: Option<&str>) -> Option<TraceFormat>
    ensures { result ≡ format_named (option_map (λ name. name.now) name.entry) }
{
    match name {
        None | Some("text") => Some(TraceFormat::Text),
        Some("json") => Some(TraceFormat::Json),
        Some("svg") => Some(TraceFormat::Svg),
        Some("html") => Some(TraceFormat::Html),
        Some("lcov") => Some(TraceFormat::Lcov),
        Some("callgrind") => Some(TraceFormat::Callgrind),
        Some(_) => None,
    }
}

/// The request of `journal`.
fn journal_of<'a>(arguments: &ArgMatches<'a>) -> Option<Request<'a>>
    ensures { IsJournal (rows_of (found_of arguments.now)) result }
{
    let cpus = number_of(arguments, "CPUS")?;
    let events = number_of(arguments, "EVENTS")?;
    let options = options_of(arguments);
    Some(Request::Journal {
        cpus,
        events,
        options,
    })
}

/// The options of `journal`.
fn options_of<'a>(arguments: &ArgMatches<'a>) -> JournalOptions<'a>
    ensures { AreJournalOptions (rows_of (found_of arguments.now)) result }
{
    JournalOptions {
        order: order_of(text_of(arguments, "ORDER")),
        turn: number_of(arguments, "STEPS"),
        seed: number_of(arguments, "SEED"),
        switch: number_of(arguments, "CHANCE"),
        weights: text_of(arguments, "WEIGHTS"),
        changes: number_of(arguments, "CHANGES"),
        tick_every: number_or(arguments, "INTERVAL", 0),
        raises: text_of(arguments, "RAISES"),
    }
}

/// The byte order of that name; big-endian where none is given, and none where there is no such order.
fn order_of(name: Option<&str>) -> Option<Order>
    ensures { result ≡ order_named (option_map (λ name. name.now) name.entry) }
{
    match name {
        None | Some("big") => Some(Order::Big),
        Some("little") => Some(Order::Little),
        Some(_) => None,
    }
}

/// The request of `explore`.
fn explore_of<'a>(arguments: &ArgMatches<'a>) -> Option<Request<'a>>
    ensures { IsExplore (rows_of (found_of arguments.now)) result }
{
    let image = text_of(arguments, "IMAGE")?;
    let config = text_of(arguments, "CONFIG")?;
    let options = search_options_of(arguments);
    let out = text_of(arguments, "OUT");
    Some(Request::Explore {
        image,
        config,
        options,
        out,
    })
}

/// The options of `explore`.
fn search_options_of<'a>(arguments: &ArgMatches<'a>) -> SearchOptions<'a>
    ensures { AreSearchOptions (rows_of (found_of arguments.now)) result }
{
    SearchOptions {
        sizes: sizes_of(arguments),
        raises: text_of(arguments, "RAISES"),
        lines: text_of(arguments, "LINES"),
        looks: looks_of(arguments),
        shortest: flag_of(arguments, "shortest"),
        shard: text_of(arguments, "SHARD"),
        remember: number_or(arguments, "MIB", 0),
        time: number_or(arguments, "SECONDS", 0),
        threads: number_or(arguments, "THREADS", 0),
        places: number_or(arguments, "PLACES", 0),
        livelock: flag_of(arguments, "livelock"),
        finals: flag_of(arguments, "finals"),
        lazy: number_or(arguments, "MOST", 0),
        memory: number_or(arguments, "MEMORY", USUAL_MEMORY),
        values: text_of(arguments, "VALUES"),
        only: text_of(arguments, "REGIONS"),
        raises_at: text_of(arguments, "WHERE"),
    }
}

/// How many events a schedule has at most, unless it is said (own choice).
const USUAL_EVENTS: u32 = 1_000;

/// How many preemptions, likewise (own choice).
const USUAL_PREEMPTIONS: u32 = 1;

/// How many MiB of places a search remembers at most, unless it is said (own choice).
const USUAL_MEMORY: u32 = 512;

/// How large the search of `explore` is.
fn sizes_of(arguments: &ArgMatches) -> Sizes
    ensures { AreSizes (rows_of (found_of arguments.now)) result }
{
    Sizes {
        events: number_or(arguments, "EVENTS", USUAL_EVENTS),
        preemptions: number_or(arguments, "PREEMPTIONS", USUAL_PREEMPTIONS),
        ticks: number_or(arguments, "TICKS", 0),
        fair: number_or(arguments, "ROUNDS", 0),
    }
}

/// What `explore` and `shrink` look for.
fn looks_of<'a>(arguments: &ArgMatches<'a>) -> Looks<'a>
    ensures { AreLooks (rows_of (found_of arguments.now)) result }
{
    Looks {
        exception: flag_of(arguments, "exception"),
        deadlock: flag_of(arguments, "deadlock"),
        on: flag_of(arguments, "ends"),
        words: text_of(arguments, "WORDS"),
        console: text_of(arguments, "TEXT"),
        reach: text_of(arguments, "LABELS"),
        never: text_of(arguments, "SUMS"),
    }
}

/// The request of `shrink`.
fn shrink_of<'a>(arguments: &ArgMatches<'a>) -> Option<Request<'a>>
    ensures { IsShrink (rows_of (found_of arguments.now)) result }
{
    let (image, config, journal) = inputs_of(arguments)?;
    let options = ShrinkOptions {
        looks: looks_of(arguments),
        fair: number_or(arguments, "ROUNDS", 0),
    };
    let out = text_of(arguments, "OUT");
    Some(Request::Shrink {
        image,
        config,
        journal,
        options,
        out,
    })
}

/// The request of `race`.
fn race_of<'a>(arguments: &ArgMatches<'a>) -> Option<Request<'a>>
    ensures { IsRace (one_of (codes "QUOTA") (rows_of (found_of arguments.now)))
        (given race_files (rows_of (found_of arguments.now))) result }
{
    let image = text_of(arguments, "IMAGE")?;
    let config = text_of(arguments, "CONFIG")?;
    let script = text_of(arguments, "SCRIPT")?;
    let out = text_of(arguments, "OUT")?;
    let quota = number_of(arguments, "QUOTA")?;
    Some(Request::Race {
        image,
        config,
        script,
        quota,
        out,
    })
}

/// The names IMAGE, CONFIG and JOURNAL, where all are there.
fn inputs_of<'a>(arguments: &ArgMatches<'a>) -> Option<(&'a str, &'a str, &'a str)>
    ensures { option_map (λ names. names.0.now ∷ names.1.now ∷ names.2.now ∷ []) result
        ≡ given inputs (rows_of (found_of arguments.now)) }
{
    let image = text_of(arguments, "IMAGE")?;
    let config = text_of(arguments, "CONFIG")?;
    let journal = text_of(arguments, "JOURNAL")?;
    Some((image, config, journal))
}

/// What was given for an argument.
fn text_of<'a>(arguments: &ArgMatches<'a>, name: &str) -> Option<&'a str>
    ensures { option_map (λ text. text.now) result ≡ first_of name.now (rows_of (found_of arguments.now)) }
{
    arguments.get_str(name)
}

/// The number that was given for an argument.
fn number_of(arguments: &ArgMatches, name: &str) -> Option<u32>
    ensures { IsNumber (one_of name.now (rows_of (found_of arguments.now))) result }
{
    arguments.get_one::<u32>(name)
}

/// The number that was given for an argument, or another one where none was.
fn number_or(arguments: &ArgMatches, name: &str, usual: u32) -> u32
    ensures { IsNumberOr usual (one_of name.now (rows_of (found_of arguments.now))) result }
{
    number_of(arguments, name).unwrap_or(usual)
}

/// The position that was given for an argument.
fn position_of(arguments: &ArgMatches, name: &str) -> Option<u64>
    ensures { IsNumberOf 64 (one_of name.now (rows_of (found_of arguments.now))) result }
{
    arguments.get_one::<u64>(name)
}

/// The processor that was given for an argument.
fn processor_of(arguments: &ArgMatches, name: &str) -> Option<u8>
    ensures { IsNumberOf 8 (one_of name.now (rows_of (found_of arguments.now))) result }
{
    arguments.get_one::<u8>(name)
}

/// Whether an option without a value was given.
fn flag_of(arguments: &ArgMatches, name: &str) -> bool
    ensures { IsFlag (one_of name.now (rows_of (found_of arguments.now))) result }
{
    arguments.get_flag(name)
}
