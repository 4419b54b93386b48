//! What holds of the definitions, whatever the code does.

ghost use Rattle.std.specs.Prelude.{◌≡◌, ◌↔◌, ◌≤◌, ℕ, true, List, length, Some, Ok, Err};
ghost use Rattle.std.specs.List.{AllByRecursion};
ghost use Rattle.brd_word.specs.declared.order.Order.{Order};
ghost use Rattle.brd_board.specs.declared.event.Event.{Event};
ghost use Rattle.brd_board.specs.Board.{BoardState, happens, after};
ghost use Rattle.brd_journal.specs.declared.fault.JournalFault.{JournalFault};
ghost use Rattle.brd_journal.specs.declared.run.Run.{Run};
ghost use Rattle.brd_journal.specs.Journal.{JournalState};
ghost use Rattle.brd_journal.specs.Meaning.{Says, IsFirstFault};
ghost use Rattle.brd_journal.specs.Reading.{run_of_line, journal_of};
ghost use Rattle.brd_journal.specs.Runs.{copies, runs_of, AreRunsOf};
ghost use Rattle.brd_journal.specs.Still.{did_nothing, does_no_more};
ghost use Rattle.brd_journal.specs.Text.{IsNumbered, SpellsRun, text_of};

/// The runs of a list of events stand for it, each with a count from 1 to 4,294,967,295, and the next run has another
/// event unless the count is that greatest one. No other list of runs does so.
pub fn events_have_one_list_of_runs()
    ensures { (events : List Event) (runs : List Run) → (runs ≡ runs_of events) ↔ AreRunsOf events runs }
{}

/// A line is read as a run just where it spells that run.
pub fn lines_follow_the_grammar()
    ensures { (line : List ℕ) (run : Run) → (run_of_line line ≡ Some run) ↔ SpellsRun line run }
{}

/// A text is read as a journal just where it spells runs that make that journal.
pub fn texts_follow_the_grammar()
    ensures { (limit : ℕ) (text : List ℕ) (journal : JournalState) →
        (journal_of limit text ≡ Ok journal) ↔ Says limit text journal }
{}

/// A text has a fault just where that is the fault of its first wrong line: the text spells what stands before that
/// line, and the limit suffices for it.
pub fn the_first_wrong_line_decides()
    ensures { (limit : ℕ) (text : List ℕ) (fault : JournalFault) →
        (journal_of limit text ≡ Err fault) ↔ IsFirstFault limit text fault }
{}

/// The text of a byte order and a list of events is read as these, where the limit suffices.
pub fn written_texts_are_read()
    ensures { (limit : ℕ) (order : Order) (events : List Event) → AllByRecursion IsNumbered events →
        length (runs_of events) ≤ limit
        → journal_of limit (text_of order events) ≡ Ok (record { limit = limit; order = order; events = events }) }
{}

/// An event that reports Off, NoSuch, Stopped, Idle or TimeOver has left the board as it was. After it, and after a
/// line that was raised, the same event does nothing, however often it comes.
pub fn what_did_nothing_does_nothing_again()
    ensures event { (board : BoardState) (event : Event) →
        did_nothing (happens board event).report ≡ true → (happens board event).board ≡ board }
    ensures again { (board : BoardState) (event : Event) (count : ℕ) →
        does_no_more event (happens board event).report ≡ true →
        after (happens board event).board (copies event count) ≡ (happens board event).board }
{}
