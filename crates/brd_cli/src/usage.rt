//! The command line that the program takes.

ghost use Rattle.std.specs.Prelude.{◌≡◌, IfOk, false};
ghost use Rattle.clap.specs.Words.{app_of, rule_of};
ghost use Rattle.brd_cli.specs.Usage as usage;
ghost use Rattle.brd_cli.specs.Usage.{AddsArguments, AddsForm, HasAdded, board};

use brd_base::NoMemory;
use clap::{Arg, ArgAction, Command};
use std::alloc::Global;

/// The version of the program, and the kit of Rattle that built it.
const VERSION: &str = "1.0 (rattle-kit-13f)";

/// What help says of the files.
const FILES: &str = "\
Files:
  source         text in the assembler's language: an instruction or a directive a line
  object file    an ELF32 executable for MIPS in either byte order, as `board asm` writes it
  configuration  text of statements: BOARD(..); first, then CRE_TSK(..); and so on
  journal        text: `board-journal 2 big` or `board-journal 2 little` first, then lines
                 as `S 1 6`, six steps of processor 1
  script         text: lines as `T 5`, five ticks, or `R 4 1`, interrupt line 4 raised once

Where a file is read, `-` is standard input; only one may be.

Examples, from the top of the repository:
  board try examples/hello/hello.s
  board asm examples/hello/hello.s build/hello.elf
  board run build/hello.elf examples/hello/hello.cfg examples/hello/hello.journal";

/// What the help of `words` says of its input.
const WORDS: &str = "\
Words have eight hexadecimal digits, with blanks or newlines between them.

Example:
  echo 24080005 01084821 | board words 2";

/// What the help of `try` says of its options.
const TRY: &str = "\
A task starts on each processor at the symbol main, or where there is none at _start, or at the first
word; $a0 is the processor's number. The processors take one step each in turn, until the board is
off, every task has ended, or the steps are done. The console is printed, why it stopped, and the
registers of each task that aren't 0. With --keep, `board run`, `trace` and `debug` can go on from
there.

Examples, from the top of the repository:
  board try examples/hello/hello.s
  board try examples/hello/hello.s --keep build/hello --page build/hello.html";

/// What the help of `asm` says of its files.
const SOURCE: &str = "\
A source is text: an instruction or a directive a line. OUT is created, or emptied if it is there.

Example, from the top of the repository:
  board asm examples/hello/hello.s build/hello.elf";

/// What the help of `run` says of its files.
const RUN: &str = "\
`board asm` makes an object file of a source. A configuration begins with BOARD(..); and a journal
with the line `board-journal 2 big`, or `board-journal 2 little` where the object file is
little-endian.

Example, from the top of the repository:
  board asm examples/hello/hello.s build/hello.elf
  board run build/hello.elf examples/hello/hello.cfg examples/hello/hello.journal";

/// What the help of `race` says of its files.
const RACE: &str = "\
Each processor of the board works in a thread of its own. SCRIPT has what comes from outside: lines
`T COUNT` for ticks, `R LINE COUNT` for an interrupt line that is raised; with an empty file
nothing comes. OUT gets the journal of what happened. It is created, or emptied if it is there.

Example, from the top of the repository:
  board asm examples/hello/hello.s build/hello.elf
  echo 'T 5' > build/hello.script
  board race build/hello.elf examples/hello/hello.cfg build/hello.script 100 build/raced.journal
  board run build/hello.elf examples/hello/hello.cfg build/raced.journal";

/// What the help of `journal` says of its options.
const JOURNAL: &str = "\
Without options the processors take one step each in turn. Events are counted from 1, and those that
are neither ticks nor raises are steps. The same arguments give the same journal.

Example, from the top of the repository:
  board journal 2 150 --random 7 > build/random.journal
  board asm examples/lost_update/racy.s build/racy.elf
  board run build/racy.elf examples/lost_update/racy.cfg build/random.journal";

/// What the help of `debug` says of its commands.
const DEBUG: &str = "\
Commands, one a line:
  goto N   goes to position N, after N events
  next     goes forward to the next stop
  back     goes backward to the last stop before
  break X  sets a break at the instruction at X
  watch X  sets a watch on the byte at X
  regs C   prints the registers of processor C
  mem X    prints the byte at X
  quit     ends
N and C are decimal numbers, X is an address of eight hexadecimal digits.

Example, from the top of the repository:
  board asm examples/hello/hello.s build/hello.elf
  echo 'goto 10' | board debug build/hello.elf examples/hello/hello.cfg examples/hello/hello.journal";

/// What the help of `gdb` says of its use.
const GDB: &str = "\
GDB starts this itself and speaks its remote protocol over the pipe. Its threads are the processors:
thread 1 is processor 1. It goes through the journal forward and backward, and changes nothing.

Example, from the top of the repository:
  board asm examples/hello/hello.s build/hello.elf
  gdb-multiarch build/hello.elf
  (gdb) target remote | board gdb build/hello.elf examples/hello/hello.cfg examples/hello/hello.journal";

/// What the help of `explore` says of its options.
const EXPLORE: &str = "\
All schedules within the bounds are searched: those without preemptions first, then those with one,
and so on. A schedule is a list of events. A preemption is a step that leaves another processor that
could go on. Unless it is said what fails, an exception or a deadlock does. If a schedule fails, it
is told, OUT gets its journal, and the status is 5; if none does, that is told, and it is 0.
With --places there is no bound on events and preemptions: all schedules are searched.
Orders that nobody can tell from each other are searched once, and places are remembered. With --fair,
--remember, --shard, --memory 0, or if --memory doesn't suffice, schedules are searched one by one, by
one thread unless --threads says more. What is told is of all schedules in any case; with --only or
--raises-at, of those that keep to the regions.

Example, from the top of the repository:
  board asm examples/lost_update/racy.s build/racy.elf
  board explore build/racy.elf examples/lost_update/racy.cfg --word count=9 --out build/found.journal
  board run build/racy.elf examples/lost_update/racy.cfg build/found.journal";

/// What the help of `shrink` says of its options.
const SHRINK: &str = "\
Events of the journal are left out as long as it fails. Unless it is said what fails, an exception
or a deadlock does. How many events are left and what fails is told, and OUT gets the journal.

Example, from the top of the repository:
  board asm examples/deadlock/deadlock.s build/deadlock.elf
  board shrink build/deadlock.elf examples/deadlock/deadlock.cfg examples/deadlock/deadlock.journal";

/// What the help of `trace` says of its options.
const TRACE: &str = "\
A line has the event's position, the processor, who executes, where, and what happens. Position n
is the board after n events, as `board debug` counts.

Examples, from the top of the repository:
  board asm examples/hello/hello.s build/hello.elf
  board trace build/hello.elf examples/hello/hello.cfg examples/hello/hello.journal
  board trace --summary build/hello.elf examples/hello/hello.cfg examples/hello/hello.journal
  board trace --format svg build/hello.elf examples/hello/hello.cfg examples/hello/hello.journal > build/hello.svg";

/// What the program takes: a command and its arguments.
pub fn board_command<'a>(alloc: Global) -> Result<Command<'a>, NoMemory>
    ensures { IfOk result (λ command. app_of command ≡ board) }
{
    let board = Command::new(alloc, "board")
        .about("An emulated MIPS32 board for real-time software")
        .after_help(FILES)
        .subcommand_required(true)
        .version(VERSION);
    let board = with_command(Ok(board), try_command(alloc));
    let board = with_command(board, asm_command(alloc));
    let board = with_command(board, run_command(alloc));
    let board = with_command(board, trace_command(alloc));
    let board = with_command(board, debug_command(alloc));
    let board = with_command(board, gdb_command(alloc));
    let board = with_command(board, race_command(alloc));
    let board = with_command(board, journal_command(alloc));
    let board = with_command(board, explore_command(alloc));
    let board = with_command(board, shrink_command(alloc));
    with_command(board, words_command(alloc))
}

/// A program with one command more, where both could be made. (So a program of many commands has no way out at which
/// one that is half made is let go, of each of which it would have to be proved how it ends.)
fn with_command<'a>(
    program: Result<Command<'a>, NoMemory>,
    command: Result<Command<'a>, NoMemory>,
) -> Result<Command<'a>, NoMemory>
    ensures { IfOk result (HasAdded program.entry command.entry) }
{
    let program = program?.subcommand(command?)?;
    Ok(program)
}

/// What `words` takes.
fn words_command<'a>(alloc: Global) -> Result<Command<'a>, NoMemory>
    ensures { IfOk result (AddsForm usage.words) }
{
    let steps = number(
        alloc,
        "STEPS",
        "How many instructions processor 1 executes, 0 to 1,000,000",
    );
    let command = Command::new(alloc, "words")
        .about("Runs the words that standard input has in hexadecimal, and prints the registers")
        .after_help(WORDS)
        .arg(steps)?;
    Ok(command)
}

/// What `try` takes.
fn try_command<'a>(alloc: Global) -> Result<Command<'a>, NoMemory>
    ensures { IfOk result (AddsForm usage.tries) }
{
    let command = Command::new(alloc, "try")
        .about("Runs a source without a configuration and a journal, and prints what comes of it")
        .after_help(TRY)
        .arg(needed(
            alloc,
            "SOURCE",
            "A file of assembler source, or an object file",
        ))?
        .arg(count(
            alloc,
            "STEPS",
            "steps",
            "How many steps and ticks there are at most; 10,000 if left out",
        ))?
        .arg(count(
            alloc,
            "CPUS",
            "cpus",
            "How many processors there are, 1 to 8; 1 if left out",
        ))?
        .arg(count(
            alloc,
            "INTERVAL",
            "tick-every",
            "Each event whose number is a multiple of this is a tick",
        ))?
        .arg(option(
            alloc,
            "NAME",
            "keep",
            "Writes the configuration and the journal to NAME.cfg and NAME.journal",
        ))?
        .arg(option(
            alloc,
            "FILE",
            "page",
            "Where a page for a browser goes, of each step",
        ))?
        .arg(flag(
            alloc,
            "strict",
            "Also prints the loads and the stores past a label's data",
        ))?
        .arg(data_option(alloc))?;
    Ok(command)
}

/// What `asm` takes.
fn asm_command<'a>(alloc: Global) -> Result<Command<'a>, NoMemory>
    ensures { IfOk result (AddsForm usage.asm) }
{
    let command = Command::new(alloc, "asm")
        .about("Assembles a source to an object file")
        .after_help(SOURCE)
        .arg(needed(alloc, "SOURCE", "A file of assembler source"))?
        .arg(needed(
            alloc,
            "OUT",
            "Where the object file goes, an ELF32 executable",
        ))?;
    Ok(command)
}

/// What `run` takes.
fn run_command<'a>(alloc: Global) -> Result<Command<'a>, NoMemory>
    ensures { IfOk result (AddsForm usage.run) }
{
    with_inputs(
        alloc,
        "run",
        "Boots a board, lets it do the events of a journal, and prints a report",
        RUN,
    )
}

/// What `race` takes.
fn race_command<'a>(alloc: Global) -> Result<Command<'a>, NoMemory>
    ensures { IfOk result (AddsForm usage.race) }
{
    let command = Command::new(alloc, "race")
        .about(
            "Boots a board whose processors work in threads of the host, records its journal, and prints a report",
        )
        .after_help(RACE)
        .arg(needed(
            alloc,
            "IMAGE",
            "The board's object file, an ELF32 executable",
        ))?
        .arg(needed(alloc, "CONFIG", "The file of its kernel's configuration"))?
        .arg(needed(
            alloc,
            "SCRIPT",
            "A script: what comes from outside, in order",
        ))?
        .arg(number(
            alloc,
            "QUOTA",
            "How many steps each processor does unless the board goes off, 0 to 1,000,000",
        ))?
        .arg(needed(alloc, "OUT", "Where the journal goes"))?
        .arg(data_option(alloc))?;
    Ok(command)
}

/// What `debug` takes.
fn debug_command<'a>(alloc: Global) -> Result<Command<'a>, NoMemory>
    ensures { IfOk result (AddsForm usage.debug) }
{
    with_inputs(
        alloc,
        "debug",
        "Shows a board after any number of a journal's events, by commands from standard input",
        DEBUG,
    )
}

/// What `gdb` takes.
fn gdb_command<'a>(alloc: Global) -> Result<Command<'a>, NoMemory>
    ensures { IfOk result (AddsForm usage.gdb) }
{
    with_inputs(
        alloc,
        "gdb",
        "Serves GDB over standard input and output, forward and backward through a journal",
        GDB,
    )
}

/// What `trace` takes.
fn trace_command<'a>(alloc: Global) -> Result<Command<'a>, NoMemory>
    ensures { IfOk result (AddsForm usage.trace) }
{
    let command = Command::new(alloc, "trace")
        .about("Says what happens on a board under a journal, a line for each event that matters")
        .after_help(TRACE)
        .arg(needed(alloc, "IMAGE", "The board's object file"))?
        .arg(needed(alloc, "CONFIG", "Its kernel's configuration"))?
        .arg(needed(alloc, "JOURNAL", "The events that it does"))?
        .arg(position(alloc, "from", "Begins with the event of position N"))?
        .arg(position(alloc, "to", "Ends before the event of position N"))?
        .arg(processor(alloc, "cpu", "Shows only what concerns processor C"))?
        .arg(flag(
            alloc,
            "instructions",
            "Shows each instruction, with what it changed",
        ))?
        .arg(option(
            alloc,
            "WORDS",
            "word",
            "Shows only loads and stores of words, as count,0x80000100",
        ))?
        .arg(flag(
            alloc,
            "summary",
            "Shows only what stands at the end, and where it went wrong",
        ))?
        .arg(flag(
            alloc,
            "races",
            "Shows only the data races: touches of words that nothing orders",
        ))?
        .arg(flag(
            alloc,
            "stacks",
            "Shows only how deep each stack became, up to the first store below one",
        ))?
        .arg(valued(
            alloc,
            "format",
            "FORMAT",
            "text, as if it weren't given; json, for Perfetto; svg, a picture; html, a page for a browser; lcov or \
             callgrind, counts for these tools",
        ))?
        .arg(data_option(alloc))?;
    Ok(command)
}

/// What `journal` takes.
fn journal_command<'a>(alloc: Global) -> Result<Command<'a>, NoMemory>
    ensures { IfOk result (AddsForm usage.journal) }
{
    let command = Command::new(alloc, "journal")
        .about("Writes a journal to standard output: in turns, or drawn at random")
        .after_help(JOURNAL)
        .arg(number(alloc, "CPUS", "How many processors take steps, 1 to 8"))?
        .arg(needed_count(
            alloc,
            "EVENTS",
            "How many events there are, 0 to 4,294,967,295",
        ))?
        .arg(count(
            alloc,
            "STEPS",
            "turn",
            "In turns, with so many steps each; 1 if left out",
        ))?
        .arg(count(
            alloc,
            "SEED",
            "random",
            "At random: the same seed gives the same journal",
        ))?
        .arg(count(
            alloc,
            "CHANCE",
            "switch",
            "How often in a thousand a processor is drawn before a step; 500 if left out",
        ))?
        .arg(option(
            alloc,
            "WEIGHTS",
            "weights",
            "With which weights processors are drawn, as 3,1,1",
        ))?
        .arg(count(
            alloc,
            "CHANGES",
            "pct",
            "By priorities that are drawn, with so many changes at random places",
        ))?
        .arg(count(
            alloc,
            "INTERVAL",
            "tick-every",
            "Each event whose number is a multiple of this is a tick",
        ))?
        .arg(option(
            alloc,
            "RAISES",
            "raise",
            "Which lines are raised as which events, LINE@EVENT, as 4@10,4@20",
        ))?
        .arg(option(
            alloc,
            "ORDER",
            "order",
            "The byte order of the boards that it is for: big, as if it weren't given, or little",
        ))?;
    Ok(command)
}

/// What `explore` takes.
fn explore_command<'a>(alloc: Global) -> Result<Command<'a>, NoMemory>
    ensures { IfOk result (AddsForm usage.explore) }
{
    let command = Command::new(alloc, "explore")
        .about(
            "Searches all schedules within bounds for one that fails, or finds that there is none",
        )
        .after_help(EXPLORE)
        .arg(needed(alloc, "IMAGE", "The board's object file"))?
        .arg(needed(alloc, "CONFIG", "Its kernel's configuration"))?;
    let bounded = with_bounds(alloc, command)?;
    let checked = with_checks(alloc, bounded)?;
    let searched = with_search(alloc, checked)?;
    Ok(searched)
}

/// Adds the bounds of a search.
fn with_bounds<'a>(alloc: Global, command: Command<'a>) -> Result<Command<'a>, NoMemory>
    ensures { IfOk result (AddsArguments usage.bounds command.entry) }
{
    let command = command
        .arg(count(
            alloc,
            "EVENTS",
            "events",
            "How many events a schedule has at most, 0 to 1,000,000; 1,000 if left out",
        ))?
        .arg(count(
            alloc,
            "PREEMPTIONS",
            "preemptions",
            "How many preemptions it has at most; 1 if left out",
        ))?
        .arg(count(
            alloc,
            "TICKS",
            "ticks",
            "How many ticks it has at most; 0 if left out",
        ))?
        .arg(option(
            alloc,
            "RAISES",
            "raises",
            "How often lines are raised at most, R, or F..R: rest is an end after F; 0 if left out",
        ))?
        .arg(option(alloc, "LINES", "lines", "Which lines may be raised, as 3,4"))?;
    Ok(command)
}

/// Adds what fails.
fn with_checks<'a>(alloc: Global, command: Command<'a>) -> Result<Command<'a>, NoMemory>
    ensures { IfOk result (AddsArguments usage.checks command.entry) }
{
    let command = command
        .arg(flag(
            alloc,
            "exception",
            "Fails where an exception ends a task or stops a processor",
        ))?
        .arg(flag(
            alloc,
            "deadlock",
            "Fails where nobody goes on, and a task waits",
        ))?
        .arg(flag(alloc, "ends", "Fails where the board is on at the end"))?
        .arg(option(
            alloc,
            "WORDS",
            "word",
            "Fails where words differ, as count=2 (at the end), inside=0..1 (always)",
        ))?
        .arg(option(
            alloc,
            "TEXT",
            "console",
            "Fails where the console differs from TEXT, in which \\n, \\t, \\\\ and \\xHH stand for bytes",
        ))?
        .arg(option(
            alloc,
            "LABELS",
            "reach",
            "Fails where a processor comes to the instruction at a label, as lost,0x80000010",
        ))?
        .arg(option(
            alloc,
            "SUMS",
            "never",
            "Fails where sums of words and numbers compare so at any time, as inside1+inside2>1",
        ))?
        .arg(count(
            alloc,
            "ROUNDS",
            "fair",
            "How many rounds of equal turns and ticks come at the end, 0 to 20,000; 0 if left out",
        ))?;
    Ok(command)
}

/// Adds how a search goes, and where its journal does.
fn with_search<'a>(alloc: Global, command: Command<'a>) -> Result<Command<'a>, NoMemory>
    ensures { IfOk result (AddsArguments usage.searching command.entry) }
{
    let command = command
        .arg(flag(
            alloc,
            "shortest",
            "Searches again with fewer events until none fails",
        ))?
        .arg(option(
            alloc,
            "SHARD",
            "shard",
            "Searches one of M parts of the schedules, as K/M",
        ))?
        .arg(count(
            alloc,
            "MIB",
            "remember",
            "How many MiB of states are remembered, 0 to 4,096; 0 if left out",
        ))?
        .arg(count(
            alloc,
            "SECONDS",
            "time",
            "How many seconds it may take; any number if left out, or 0",
        ))?
        .arg(count(
            alloc,
            "THREADS",
            "threads",
            "How many threads search, 1 to 64",
        ))?
        .arg(count(
            alloc,
            "PLACES",
            "places",
            "Sets no bound on events and preemptions; goes through so many places at most",
        ))?
        .arg(flag(
            alloc,
            "livelock",
            "With --places: fails where no schedule comes to an end any more",
        ))?
        .arg(flag(
            alloc,
            "finals",
            "With --places: if none fails, lists the consoles of all ends",
        ))?
        .arg(option(
            alloc,
            "VALUES",
            "values",
            "With --finals: lists the values of these words too, as count,x",
        ))?
        .arg(count(
            alloc,
            "MOST",
            "lazy",
            "Searches the lazy schedules alone; goes through so many places at most",
        ))?
        .arg(count(
            alloc,
            "MEMORY",
            "memory",
            "How many MiB of places are remembered, 512 if left out; 0: schedules are searched one by one",
        ))?
        .arg(option(
            alloc,
            "REGIONS",
            "only",
            "Preempts a processor only at instructions from a label up to another one, as push..pop",
        ))?
        .arg(option(
            alloc,
            "WHERE",
            "raises-at",
            "Raises lines only while some processor is at instructions from a label up to another one",
        ))?
        .arg(option(
            alloc,
            "OUT",
            "out",
            "Where the journal of a schedule that fails goes",
        ))?
        .arg(data_option(alloc))?;
    Ok(command)
}

/// What `shrink` takes.
fn shrink_command<'a>(alloc: Global) -> Result<Command<'a>, NoMemory>
    ensures { IfOk result (AddsForm usage.shrink) }
{
    let command = Command::new(alloc, "shrink")
        .about("Leaves out events of a journal as long as it fails")
        .after_help(SHRINK)
        .arg(needed(alloc, "IMAGE", "The board's object file"))?
        .arg(needed(alloc, "CONFIG", "Its kernel's configuration"))?
        .arg(needed(
            alloc,
            "JOURNAL",
            "A journal that fails, of at most 1,000,000 events",
        ))?;
    let checked = with_checks(alloc, command)?;
    let whole = checked
        .arg(option(
            alloc,
            "OUT",
            "out",
            "Where the journal of what is left goes",
        ))?
        .arg(data_option(alloc))?;
    Ok(whole)
}

/// An option whose value is a position.
fn position<'a>(alloc: Global, name: &'a str, help: &'a str) -> Arg<'a>
    ensures rule { rule_of result ≡ usage.position name.entry.now }
    ensures own { result.global ≡ false }
{
    valued(alloc, name, "N", help).value_parser(clap::value_parser!(u64))
}

/// An option whose value is a processor.
fn processor<'a>(alloc: Global, name: &'a str, help: &'a str) -> Arg<'a>
    ensures rule { rule_of result ≡ usage.processor name.entry.now }
    ensures own { result.global ≡ false }
{
    valued(alloc, name, "C", help).value_parser(clap::value_parser!(u8))
}

/// An option with one value.
fn valued<'a>(alloc: Global, name: &'a str, value: &'a str, help: &'a str) -> Arg<'a>
    ensures rule { rule_of result ≡ usage.valued name.entry.now }
    ensures own { result.global ≡ false }
{
    Arg::new(alloc, name)
        .long(name)
        .action(ArgAction::Set)
        .value_name(value)
        .help(help)
}

/// An option without a value.
fn flag<'a>(alloc: Global, name: &'a str, help: &'a str) -> Arg<'a>
    ensures rule { rule_of result ≡ usage.flag name.entry.now }
    ensures own { result.global ≡ false }
{
    Arg::new(alloc, name)
        .long(name)
        .action(ArgAction::SetTrue)
        .help(help)
}

/// A command that takes IMAGE, CONFIG and JOURNAL.
fn with_inputs<'a>(
    alloc: Global,
    name: &'a str,
    about: &'a str,
    after_help: &'a str,
) -> Result<Command<'a>, NoMemory>
    ensures { IfOk result (AddsForm (usage.with_inputs name.entry.now)) }
{
    let command = Command::new(alloc, name)
        .about(about)
        .after_help(after_help)
        .arg(needed(alloc, "IMAGE", "An object file, an ELF32 executable"))?
        .arg(needed(alloc, "CONFIG", "A file of the kernel's configuration"))?
        .arg(needed(
            alloc,
            "JOURNAL",
            "A journal: the events that the board does",
        ))?
        .arg(data_option(alloc))?;
    Ok(command)
}

/// An argument that is a number up to a million, and has to be given.
fn number<'a>(alloc: Global, name: &'a str, help: &'a str) -> Arg<'a>
    ensures rule { rule_of result ≡ usage.number name.entry.now }
    ensures own { result.global ≡ false }
{
    needed(alloc, name, help).value_parser(clap::value_parser!(u32).range(0..=1_000_000))
}

/// An argument that is a number of 32 bits, and has to be given.
fn needed_count<'a>(alloc: Global, name: &'a str, help: &'a str) -> Arg<'a>
    ensures rule { rule_of result ≡ usage.needed_count name.entry.now }
    ensures own { result.global ≡ false }
{
    needed(alloc, name, help).value_parser(clap::value_parser!(u32).range(0..=4_294_967_295))
}

/// An option whose value is a number of 32 bits.
fn count<'a>(alloc: Global, name: &'a str, flag: &'a str, help: &'a str) -> Arg<'a>
    ensures rule { rule_of result ≡ usage.count name.entry.now flag.entry.now }
    ensures own { result.global ≡ false }
{
    option(alloc, name, flag, help).value_parser(clap::value_parser!(u32).range(0..=4_294_967_295))
}

/// An option with one value.
fn option<'a>(alloc: Global, name: &'a str, flag: &'a str, help: &'a str) -> Arg<'a>
    ensures rule { rule_of result ≡ usage.option name.entry.now flag.entry.now }
    ensures own { result.global ≡ false }
{
    Arg::new(alloc, name)
        .long(flag)
        .action(ArgAction::Set)
        .help(help)
}

/// The option for data, which may be given any number of times.
fn data_option<'a>(alloc: Global) -> Arg<'a>
    ensures rule { rule_of result ≡ usage.data_option }
    ensures own { result.global ≡ false }
{
    Arg::new(alloc, "DATA")
        .long("data")
        .action(ArgAction::Append)
        .help(
            "Puts a file's bytes into memory, as buffer=FILE or 0x80001000=FILE; any number of times",
        )
}

/// An argument that has to be given, with one value.
fn needed<'a>(alloc: Global, name: &'a str, help: &'a str) -> Arg<'a>
    ensures rule { rule_of result ≡ usage.needed name.entry.now }
    ensures own { result.global ≡ false }
{
    Arg::new(alloc, name)
        .required(true)
        .action(ArgAction::Set)
        .help(help)
}
