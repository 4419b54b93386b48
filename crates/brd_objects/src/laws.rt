//! What is true of flags, data queues, fixed memory pools and mailboxes.

ghost use Rattle.std.specs.Prelude.{◌≡◌, ◌≢◌, ◌↔◌, ◌<◌, ◌≤◌, ◌+◌, ◌*◌, ◌^◌, ℕ, Bool, true, false, not, None, Some};
ghost use Rattle.std.specs.Prelude.{List, [], ◌∷◌, ◌++◌, filter, map, length, All, AllPairs};
ghost use Rattle.brd_queue.specs.declared.entry.QueueEntry.{QueueEntry as QueueEntryOf};
ghost use Rattle.brd_objects.specs.declared.want.Want.{Want as WantOf};
ghost use Rattle.brd_objects.specs.declared.flag.Flag.{Flag as FlagOf};
ghost use Rattle.brd_objects.specs.declared.sent.Received.{Received as ReceivedOf};
ghost use Rattle.brd_objects.specs.declared.sent.Sent.TheVariants.{Handed, Stored, Full};
ghost use Rattle.brd_objects.specs.Waiters.{satisfies, first_satisfied, without_satisfied, WantBits};
ghost use Rattle.brd_objects.specs.Flags.{released_of, kept_of, pattern_after, all_released, with_all_released};
ghost use Rattle.brd_objects.specs.Flags.{next_released, with_next_released};
ghost use Rattle.brd_objects.specs.DataQueues.{DataQueueState, sent, outcome, received, receipt, contents};
ghost use Rattle.brd_objects.specs.declared.block.PoolSetup.{PoolSetup as PoolSetupOf};
ghost use Rattle.brd_objects.specs.Pools.{PoolState, pool_of, is_out, block_for, handed_out, given_back, next_holder};
ghost use Rattle.brd_objects.specs.declared.message.Message.{Message as MessageOf};
ghost use Rattle.brd_objects.specs.Mailboxes.{MailboxState, behind_equals, with_message, message_sent, message_outcome};
ghost use Rattle.brd_objects.specs.Mailboxes.{message_received, next_message, AreByPriority, Comes};

/// Who is released when bits have been set. Without TA_CLR all whom the pattern satisfies, in their order; the others
/// stay in theirs, and so does the pattern. With TA_CLR the first of them alone, who clears the pattern.
pub fn who_is_released()
    ensures released { (pattern : ℕ) (waiters : List (QueueEntryOf WantOf)) →
        released_of false pattern waiters ≡ map (λ e. e.id) (filter (λ e. satisfies pattern e.wanted) waiters) }
    ensures kept { (pattern : ℕ) (waiters : List (QueueEntryOf WantOf)) →
        kept_of false pattern waiters ≡ filter (λ e. not (satisfies pattern e.wanted)) waiters }
    ensures stays { (pattern : ℕ) (waiters : List (QueueEntryOf WantOf)) →
        pattern_after false pattern waiters ≡ pattern }
    ensures first { (pattern : ℕ) (waiters : List (QueueEntryOf WantOf)) (e : QueueEntryOf WantOf) →
        first_satisfied pattern waiters ≡ Some e →
        (released_of true pattern waiters ≡ e.id ∷ [])
        × (kept_of true pattern waiters ≡ without_satisfied pattern waiters)
        × (pattern_after true pattern waiters ≡ 0) }
    ensures nobody { (clears : Bool) (pattern : ℕ) (waiters : List (QueueEntryOf WantOf)) →
        first_satisfied pattern waiters ≡ None →
        (released_of clears pattern waiters ≡ []) × (kept_of clears pattern waiters ≡ waiters)
        × (pattern_after clears pattern waiters ≡ pattern) }
{}

/// To release one after the other, until the pattern satisfies nobody, releases all.
pub fn one_after_the_other_is_all()
    ensures some { (f : FlagOf) (id pattern : ℕ) → WantBits f.waiters → next_released f ≡ Some (id, pattern) →
        (pattern ≡ f.pattern) × (all_released f ≡ id ∷ all_released (with_next_released f))
        × (with_all_released f ≡ with_all_released (with_next_released f)) }
    ensures none { (f : FlagOf) → next_released f ≡ None → (all_released f ≡ []) × (with_all_released f ≡ f) }
{}

/// No datum is lost or doubled, and they are received in the order in which they were stored: what is received was the
/// first of all that the queue had, and the others stay as they were. What is sent and stored comes after all that is
/// stored; what is handed to a receiver, or finds no room, leaves all as it was.
pub fn no_datum_is_lost()
    ensures received { (q : DataQueueState) (r : ReceivedOf) → receipt q ≡ Some r →
        contents q ≡ r.datum ∷ contents (received q) }
    ensures empty { (q : DataQueueState) → receipt q ≡ None → (contents q ≡ []) × (received q ≡ q) }
    ensures stored { (q : DataQueueState) (datum : ℕ) → outcome q ≡ Stored →
        contents (sent datum q) ≡ q.stored ++ datum ∷ map (λ e. e.wanted) q.senders }
    ensures handed { (q : DataQueueState) (datum id : ℕ) → outcome q ≡ Handed id →
        contents (sent datum q) ≡ contents q }
    ensures full { (q : DataQueueState) (datum : ℕ) → outcome q ≡ Full → sent datum q ≡ q }
{}

/// The blocks of a pool that ends within the addresses lie between its start and its end, one after the other and none
/// over another; no call moves one.
pub fn blocks_lie_apart()
    ensures count { (setup : PoolSetupOf) → length (pool_of setup).blocks ≡ setup.count }
    ensures within { (setup : PoolSetupOf) → 0 < setup.distance →
        setup.start + setup.count * setup.distance ≤ 2 ^ 32 →
        All (λ b. (setup.start ≤ b.address)
        × (b.address + setup.distance ≤ setup.start + setup.count * setup.distance)) (pool_of setup).blocks }
    ensures apart { (setup : PoolSetupOf) → 0 < setup.distance →
        setup.start + setup.count * setup.distance ≤ 2 ^ 32 →
        AllPairs (λ b c. b.address + setup.distance ≤ c.address) (pool_of setup).blocks }
    ensures handed { (p : PoolState) → map (λ b. b.address) (handed_out p).blocks ≡ map (λ b. b.address) p.blocks }
    ensures back { (p : PoolState) (block : ℕ) →
        map (λ b. b.address) (given_back block p).blocks ≡ map (λ b. b.address) p.blocks }
{}

/// No block is handed out twice: where no two blocks begin at one address, the one that is handed out wasn't out; and
/// none is handed out just where all are.
pub fn no_block_is_handed_out_twice()
    ensures there { (p : PoolState) (block : ℕ) → AllPairs (λ b c. b.address ≢ c.address) p.blocks →
        block_for p ≡ Some block → is_out block p ≡ false }
    ensures none { (p : PoolState) → (block_for p ≡ None) ↔ All (λ b. b.out ≡ true) p.blocks }
{}

/// A block that is handed out is out from then on, and one that comes back where nobody waits is there again; where a
/// task waits, it has the block then, and all blocks stay as they are. The other blocks stay as they are.
pub fn a_block_is_out_until_it_comes_back()
    ensures handed { (p : PoolState) (block : ℕ) → block_for p ≡ Some block → is_out block (handed_out p) ≡ true }
    ensures others { (p : PoolState) (block other : ℕ) → block_for p ≡ Some block → other ≢ block →
        is_out other (handed_out p) ≡ is_out other p }
    ensures back { (p : PoolState) (block : ℕ) → p.waiters ≡ [] → is_out block (given_back block p) ≡ false }
    ensures passed { (p : PoolState) (block id : ℕ) → next_holder block p ≡ Some id →
        (given_back block p).blocks ≡ p.blocks }
    ensures stay { (p : PoolState) (block other : ℕ) → other ≢ block →
        is_out other (given_back block p) ≡ is_out other p }
{}

/// No message is lost or doubled: what is received was the first of all that the mailbox had, and the others stay as
/// they were; what is sent and kept comes to them as the mailbox's order says; what is handed to a waiter, or finds no
/// room, leaves all as it was.
pub fn no_message_is_lost()
    ensures received { (m : MailboxState) (address : ℕ) → next_message m ≡ Some address →
        map (λ x. x.address) m.messages ≡ address ∷ map (λ x. x.address) (message_received m).messages }
    ensures empty { (m : MailboxState) → next_message m ≡ None → (m.messages ≡ []) × (message_received m ≡ m) }
    ensures kept { (m : MailboxState) (message : MessageOf) → message_outcome m ≡ Stored →
        (message_sent message m).messages ≡ with_message m.message_order message m.messages }
    ensures handed { (m : MailboxState) (message : MessageOf) (id : ℕ) → message_outcome m ≡ Handed id →
        (message_sent message m).messages ≡ m.messages }
    ensures full { (m : MailboxState) (message : MessageOf) → message_outcome m ≡ Full →
        message_sent message m ≡ m }
{}

/// A message that comes by priority comes after those of its own priority or a higher one and before the others, which
/// stay as they were; and messages that are by priority stay so.
pub fn messages_come_behind_their_equals()
    ensures rule { (message : MessageOf) (messages : List MessageOf) → AreByPriority messages →
        Comes message messages (behind_equals message messages) }
    ensures stay { (message : MessageOf) (messages : List MessageOf) → AreByPriority messages →
        AreByPriority (behind_equals message messages) }
{}
