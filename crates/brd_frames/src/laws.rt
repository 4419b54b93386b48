//! What an event reads and writes of a board, and which events may change places: laws of the definitions alone.

ghost use Rattle.brd_board.specs.declared.event.Event.{Event as EventOf};
ghost use Rattle.brd_board.specs.Board.{BoardState};
ghost use Rattle.brd_frames.specs.Apart.{FrameLaw, FramesLaw, StartLaw, SteadyLaw};
ghost use Rattle.brd_frames.specs.Touching.{StoreLaw, FootprintLaw, FootprintsLaw, ClearLaw};
ghost use Rattle.brd_frames.specs.Going.{ProcessorLaw, GoesLaw};
ghost use Rattle.brd_frames.specs.Linking.{OthersLaw, OwnLaw, LinkLaw};
ghost use Rattle.brd_frames.specs.Ending.{EndLaw, ContextLaw};
ghost use Rattle.brd_frames.specs.Commuting.{LocalsLaw, IndependentLaw, IndependentsLaw, AgentLaw, SwapLaw};
ghost use Rattle.brd_frames.specs.Lagging.{Sharing};
ghost use Rattle.brd_frames.specs.Reducing.{Reduces};

/// An event that is apart from an agent neither reads nor writes its context: on a board with another context of the
/// agent it reports the same and does the same, and leaves that context.
pub fn events_apart_leave_a_context_alone()
    ensures event { FrameLaw }
    ensures events { FramesLaw }
    // What starts a task writes its context anew.
    ensures start { StartLaw }
    // An agent that an event is apart from is steady after it, too.
    ensures steady { SteadyLaw }
{}

/// Only ter_tsk ends another one: a task that isn't dormant becomes dormant only by an instruction of its own or by
/// another one's ter_tsk of it. The context of an agent stays over each event that is apart from it.
pub fn only_ter_tsk_ends_another()
    ensures ends { EndLaw }
    ensures context { ContextLaw }
{}

/// An event leaves each byte of RAM to which it doesn't store.
pub fn events_store_where_they_say()
    ensures { StoreLaw }
{}

/// An event depends on the bytes of RAM alone that it fetches, loads or stores: after a change of others it reports the
/// same and does the same, and the change may as well come after it. Bytes that are put elsewhere are such a change.
pub fn events_depend_on_what_they_touch()
    ensures event { FootprintLaw }
    ensures events { FootprintsLaw }
    ensures elsewhere { ClearLaw }
{}

/// What an instruction does, unless it is an LL or an SC, doesn't depend on which processor does it: its context and
/// memory after it follow from those before it, and so does the block whose links to others end by it.
pub fn an_instruction_is_the_same_on_every_processor()
    ensures same { ProcessorLaw }
    // This is so of each instruction that goes on, but LL and SC.
    ensures each { GoesLaw }
{}

/// An instruction leaves the links of other processors, but those to words of a block to which it stores, and its own
/// processor's where it is no LL and no SC. And no event depends on the link of a processor other than the one that
/// steps.
pub fn links_are_apart()
    ensures others { OthersLaw }
    ensures own { OwnLaw }
    ensures event { LinkLaw }
{}

/// Local instructions of an agent may come after events that are apart from it: calls, ticks, interrupts and exceptions
/// too.
pub fn local_instructions_may_come_later()
    ensures { LocalsLaw }
{}

/// An instruction of an agent, which may load and store, and events that are independent of it come to the same board
/// in either order, and the events report the same.
pub fn independent_events_change_places()
    ensures event { IndependentLaw }
    ensures events { IndependentsLaw }
    // the instruction as a step of a processor
    ensures step { AgentLaw }
    ensures steps { SwapLaw }
{}

/// What is left at places of a tree of boards.
pub trait Left {
    /// Which boards are places where so much is left.
    ghost is_place: { Self → BoardState → Type 0 };
    /// What an event leaves of it.
    ghost pays: { Self → EventOf → Self → Type 0 };
}

/// A reduced search comes behind every schedule: if the places that it goes through are a tree, then behind each board
/// to which a list of events leads from one of them, however long the list is, as far as what is left pays for it,
/// there is a place from which that board is reached by invisible instructions of agents that lag.
pub fn a_reduced_tree_lags_behind_every_board<L: Left>()
    ensures { (by : Sharing) → Reduces by L L.pays L.is_place }
{}
