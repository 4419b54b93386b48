//! What holds of the definitions, whatever the code does.
//!
//! The commands' contracts say how each command ends, by what it read: `AsmEnds`, `RunEnds`, `DebugEnds`, `GdbEnds`
//! and `RaceEnds`. What follows from these ends, about the files of the commands, is the headline.

ghost use Rattle.std.specs.Prelude.{◌≡◌, ◌≢◌, ◌↔◌, ℕ, [], Bool, List, Option, Some, Result, Ok, false};
ghost use Rattle.brd_board.specs.Board.{BoardState};
ghost use Rattle.brd_board.specs.declared.event.Event.{Event as EventOf};
ghost use Rattle.brd_gdb.specs.declared.request.Request.{Request as RequestOf};
ghost use Rattle.brd_image.specs.Building.{IsBuilt};
ghost use Rattle.brd_image.specs.declared.fault.BuildFault.{BuildFault as BuildFaultOf};
ghost use Rattle.brd_running.specs.AsmCommand.{AsmEnds};
ghost use Rattle.brd_running.specs.DebugGrammar.{Says};
ghost use Rattle.brd_running.specs.DebugLine.{command_of};
ghost use Rattle.brd_running.specs.Debugging.{DebugEnds};
ghost use Rattle.brd_command.specs.GdbCommand.{GdbEnds};
ghost use Rattle.brd_command.specs.GdbHeadline.{IsRead, ReadsHeadline};
ghost use Rattle.brd_command.specs.GdbHeadline.{ShowsUpToEnd as ShowsGdbUpToEnd};
ghost use Rattle.brd_command.specs.Laws.{IsAssembled, ShowsHeadline, ShowsUpToEnd, StandsAt};
ghost use Rattle.brd_command.specs.Laws.{TellsOfBuilding, TellsOfSource};
ghost use Rattle.brd_report.specs.Output.{Writes};
ghost use Rattle.brd_running.specs.RaceCommand.{RaceEnds, ShowsRace};
ghost use Rattle.brd_running.specs.RunCommand.{RunEnds, ShowsRun};
ghost use Rattle.brd_running.specs.declared.debug_line.DebugCommand.{DebugCommand};
ghost use Rattle.brd_running.specs.declared.debug_line.DebugCommand.TheVariants.{Unknown};
ghost use Rattle.brd_command.specs.Serving.{AnswersPacket};
ghost use Rattle.brd_command.specs.declared.gdb_server.Server.{Server as ServerOf};
ghost use Rattle.brd_command.specs.TryCommand.{ShowsTried, Tries};
ghost use Rattle.brd_inputs.specs.FileKinds.{is_object_file};
ghost use Rattle.brd_inputs.specs.declared.fault.CommandFault.{CommandFault};
ghost use Rattle.brd_try.specs.declared.options.TryOptions.{TryOptions};

use brd_asm::laws::a_program_has_one_image;

/// A line of `debug` is read as a command just where it says that command, and as none that is known just where it says
/// none.
pub fn lines_follow_the_grammar()
    ensures says { (line : List ℕ) (command : DebugCommand) → command ≢ Unknown →
        (command_of line ≡ command) ↔ Says line command }
    ensures unknown { (line : List ℕ) → (command_of line ≡ Unknown) ↔ ((command : DebugCommand) → ¬ Says line command) }
{}

/// The headline of `asm` and `run`. Where `asm` wrote an object file for a source, and `run` of that file, a
/// configuration and a journal ends well, it has written the report of a board whose words decode to the source's
/// instructions, whose memory starts as the file names, and which is the definition's after the journal's events.
pub fn run_shows_the_headline()
    ensures { (source elf config journal : List ℕ) (old new : Option (List ℕ)) → IsAssembled source elf →
        RunEnds (Ok tt) elf config journal old new → Writes (ShowsHeadline source elf config journal) old new }
{}

/// The headline of `asm` and `debug`. Where `asm` wrote an object file for a source, each answer of `debug` over that
/// file, a configuration and a journal is that of the board of the position to which the commands before it led, and
/// this board is the headline's after so many of the journal's events. `C` is standard input, of which `remaining`
/// tells what is left to read.
pub fn debug_shows_the_headline<C>()
    ensures { (remaining : C → Option (List ℕ)) (source elf config journal text : List ℕ) (input_first input : C)
        (result : Result Unit CommandFault) (old new : Option (List ℕ)) → IsAssembled source elf →
        remaining input_first ≡ Some text → DebugEnds remaining elf config journal input_first input result old new →
        ShowsUpToEnd result source elf config journal text old new }
{}

/// The headline of `asm` and `gdb`. Where `asm` wrote an object file for a source, each answer of `gdb` over that file,
/// a configuration and a journal is that of a session which stands at the position n to which the packets before it
/// led, and the board of this position is the headline's after the first n of the journal's events. So what a packet
/// reads, registers of a thread or memory, is that of the headline's board.
pub fn gdb_shows_the_headline<C>()
    ensures session { (remaining : C → Option (List ℕ)) (source elf config journal text : List ℕ)
        (input_first input : C) (result : Result Unit CommandFault) (old new : Option (List ℕ)) →
        IsAssembled source elf →
        remaining input_first ≡ Some text → GdbEnds remaining elf config journal input_first input result old new →
        ShowsGdbUpToEnd result source elf config journal text old new }
    ensures reads { (source elf config : List ℕ) (events : List EventOf) (request : RequestOf) (s after : ServerOf)
        (answer : List ℕ) (over : Bool) → IsRead request → StandsAt source elf config events s.session.debugger →
        AnswersPacket request s answer over after → ReadsHeadline source elf config events request s answer }
{}

/// A race is its journal's run: for the journal that `race` writes, `run` shows the report that `race` prints, over the
/// same object file and configuration.
pub fn races_replay()
    ensures { (quota : ℕ) (image config text journal report : List ℕ) →
        ShowsRace quota image config text journal report → ShowsRun image config journal report }
{}

/// The headline of `asm` and `race`. Where `asm` wrote an object file for a source, and `race` of that file, a
/// configuration and a script ends well, its report is the headline's of the journal that it wrote on OUT, which was
/// empty; and where `run` of that journal ends well, it has written the same report.
pub fn race_shows_the_headline()
    ensures headline { (quota : ℕ) (source elf config script journal : List ℕ) (old new : Option (List ℕ)) →
        IsAssembled source elf → RaceEnds (Ok tt) quota elf config script (Some []) (Some journal) old new →
        Writes (ShowsHeadline source elf config journal) old new }
    ensures again { (quota : ℕ) (elf config script journal report printed : List ℕ) →
        RaceEnds (Ok tt) quota elf config script (Some []) (Some journal) (Some []) (Some report) →
        RunEnds (Ok tt) elf config journal (Some []) (Some printed) → printed ≡ report }
{}

/// The headline of `try`. Where it has told of a source, the configuration and the journal that it made are those of a
/// board whose words decode to the source's instructions, whose memory starts as the source's object file and the
/// configuration name, and which is the definition's after the journal's events; and this board is told.
pub fn try_shows_the_headline()
    ensures { (options : TryOptions) (source elf config journal : List ℕ) (old new : Option (List ℕ)) →
        is_object_file source ≡ false → Tries options source elf config journal old new →
        Writes (ShowsTried options source elf config journal) old new }
{}

/// Commands are refused where building is, and for the same first fault. `asm` says a fault of the source just where
/// building a board of the source has that fault. Where `asm` wrote an object file, `run`, `debug` and `race` say a
/// fault of building just where building a board of the source and the configuration has that fault.
pub fn commands_are_refused_as_building_is<C>()
    ensures asm { (source config : List ℕ) (result : Result Unit CommandFault) (old new : Option (List ℕ)) →
        AsmEnds result source old new → TellsOfSource result source config }
    ensures run { (source elf config journal : List ℕ) (result : Result Unit CommandFault) (old new : Option (List ℕ)) →
        IsAssembled source elf → RunEnds result elf config journal old new → TellsOfBuilding result source config }
    ensures debug { (remaining : C → Option (List ℕ)) (source elf config journal text : List ℕ) (input_first input : C)
        (result : Result Unit CommandFault) (old new : Option (List ℕ)) → IsAssembled source elf →
        remaining input_first ≡ Some text → DebugEnds remaining elf config journal input_first input result old new →
        TellsOfBuilding result source config }
    ensures race { (quota : ℕ) (source elf config script : List ℕ) (result : Result Unit CommandFault)
        (out_old out old new : Option (List ℕ)) → IsAssembled source elf →
        RaceEnds result quota elf config script out_old out old new → TellsOfBuilding result source config }
    // A source and a configuration come to one board or fault.
    ensures one { (source config : List ℕ) (one other : Result BoardState BuildFaultOf) →
        IsBuilt source config one → IsBuilt source config other → one ≡ other }
{
    a_program_has_one_image();
}
