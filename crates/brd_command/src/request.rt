//! What a command line asks for.

ghost use Rattle.brd_command.specs.Request.{RequestEnds};

use crate::gdb_command::gdb_files;
use crate::journal_command::journal;
use crate::journal_options::JournalOptions;
use crate::trace_command::trace_files;
use crate::trace_options::TraceOptions;
use crate::try_command::try_files;
use brd_inputs::{CommandFault, Files};
use brd_progress::Progress;
use brd_running::{
    ShrinkOptions, asm_files, debug_files, explore_files, race_files, run_files, shrink_files,
    words,
};
use brd_search::SearchOptions;
use brd_try::TryOptions;
use std::alloc::Global;
use std::io::{Read, Write};
use std::sync::Wait;
use std::thread::Threads;

/// What a command line asks for.
#[derive(Clone, Copy)]
pub enum Request<'a> {
    /// The board of the words on standard input, after n steps, on standard output.
    Words {
        steps: u32,
    },
    /// The object file of the source in a file, in another file.
    Asm {
        source: &'a str,
        out: &'a str,
    },
    /// The report of the board of an object file and a configuration after a journal, on standard output.
    Run {
        image: &'a str,
        config: &'a str,
        journal: &'a str,
    },
    /// The report of the board of an object file and a configuration after a race with a script, with this quota for
    /// each processor, on standard output, and the race's journal in another file.
    Race {
        image: &'a str,
        config: &'a str,
        script: &'a str,
        quota: u32,
        out: &'a str,
    },
    /// The debugger of the board of an object file and a configuration, and of a journal: the answers to the commands
    /// on standard input, on standard output.
    Debug {
        image: &'a str,
        config: &'a str,
        journal: &'a str,
    },
    /// A server of GDB for the board of an object file and a configuration, and for a journal: the answers to what GDB
    /// sends on standard input, on standard output.
    Gdb {
        image: &'a str,
        config: &'a str,
        journal: &'a str,
    },
    /// What happens on the board of an object file and a configuration under a journal, on standard output.
    Trace {
        image: &'a str,
        config: &'a str,
        journal: &'a str,
        options: TraceOptions<'a>,
    },
    /// A journal of n events, of which each is a step of one of m processors or what the options say, on
    /// standard output.
    Journal {
        cpus: u32,
        events: u32,
        options: JournalOptions<'a>,
    },
    /// What a search through the schedules of the board of an object file and a configuration comes to, on standard
    /// output, and the journal of one that fails, in another file if one is named.
    Explore {
        image: &'a str,
        config: &'a str,
        options: SearchOptions<'a>,
        out: Option<&'a str>,
    },
    /// What is left of a journal that fails on the board of an object file and a configuration, in words on standard
    /// output, and as a journal in another file if one is named.
    Shrink {
        image: &'a str,
        config: &'a str,
        journal: &'a str,
        options: ShrinkOptions<'a>,
        out: Option<&'a str>,
    },
    /// What comes of a source or an object file without a configuration and a journal, on standard output. Those that
    /// are made for it go to files whose names begin as is said, and a page of it to another file, if one is named.
    Try {
        source: &'a str,
        options: TryOptions,
        keep: Option<&'a str>,
        page: Option<&'a str>,
    },
}

/// Does what was asked for, on files, standard input and standard output. `words` and `journal` touch no file; `asm`
/// neither reads standard input nor writes standard output; `run`, `race`, `trace`, `journal`, `explore`, `shrink` and
/// `try` don't read standard input. `debug` and `gdb` read that only where their files could be opened and make a
/// debugger. Threads of the host are started only for `race` and `explore`. How far `run`, `race`, `debug`, `gdb`, `trace` and
/// `explore` are, is told on the way, and what is odd about the input of `asm`, `run` and `try`.
pub fn perform<F: Files, R: Read, W: Write, P: Progress + Send, T: Threads + Wait + Sync>(
    rt: &T,
    alloc: Global,
    files: &mut F,
    input: &mut R,
    output: &mut W,
    progress: &mut P,
    request: Request<'_>,
) -> Result<(), CommandFault>
    ensures { RequestEnds F.opened F.created F.closed F.Input.remaining F.Output.contents R.remaining W.contents
        request.entry files.old files.new input.old input.new output.old output.new result }
{
    match request {
        Request::Words { steps } => words(alloc, input, output, steps),
        Request::Asm { source, out } => asm_files(alloc, files, source, out, progress),
        Request::Run {
            image,
            config,
            journal,
        } => run_files(alloc, files, image, config, journal, output, progress),
        Request::Race {
            image,
            config,
            script,
            quota,
            out,
        } => race_files(
            rt, alloc, files, image, config, script, quota, out, output, progress,
        ),
        Request::Debug {
            image,
            config,
            journal,
        } => debug_files(
            alloc, files, image, config, journal, input, output, progress,
        ),
        Request::Gdb {
            image,
            config,
            journal,
        } => gdb_files(
            alloc, files, image, config, journal, input, output, progress,
        ),
        Request::Trace {
            image,
            config,
            journal,
            options,
        } => trace_files(
            alloc, files, image, config, journal, options, output, progress,
        ),
        Request::Journal {
            cpus,
            events,
            options,
        } => journal(alloc, output, cpus, events, options),
        Request::Explore {
            image,
            config,
            options,
            out,
        } => explore_files(
            rt, alloc, files, image, config, options, out, output, progress,
        ),
        Request::Shrink {
            image,
            config,
            journal,
            options,
            out,
        } => shrink_files(alloc, files, image, config, journal, options, out, output),
        Request::Try {
            source,
            options,
            keep,
            page,
        } => try_files(alloc, files, source, options, keep, page, output, progress),
    }
}
