//! The rule by which a queue in the order of priority serves.

ghost use Rattle.std.specs.Prelude.{◌≡◌, ℕ, List};
ghost use Rattle.brd_queue.specs.declared.entry.QueueEntry.{QueueEntry as QueueEntryOf};
ghost use Rattle.brd_queue.specs.Queue.{behind_equals, without};
ghost use Rattle.brd_queue.specs.Rule.{IsByPriority, Enters};

/// Who enters by priority comes after those of its own priority or a higher one and before the others, and nobody else
/// moves. There is just one such queue.
pub fn enters_behind_its_equals<W>()
    ensures rule { (entry : QueueEntryOf W) (queue : List (QueueEntryOf W)) → IsByPriority queue →
        Enters entry queue (behind_equals entry queue) }
    ensures one { (entry : QueueEntryOf W) (queue new : List (QueueEntryOf W)) → Enters entry queue new →
        new ≡ behind_equals entry queue }
{}

/// A queue in the order of priority stays so.
pub fn stays_by_priority<W>()
    ensures entered { (entry : QueueEntryOf W) (queue : List (QueueEntryOf W)) → IsByPriority queue →
        IsByPriority (behind_equals entry queue) }
    ensures left { (id : ℕ) (queue : List (QueueEntryOf W)) → IsByPriority queue → IsByPriority (without id queue) }
{}
