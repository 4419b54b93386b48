//! What is true of lifted priorities.

ghost use Rattle.std.specs.Prelude.{◌≡◌, ◌≤◌, ℕ, List, Option};
ghost use Rattle.brd_mutexes.specs.Lifting.{Leads, AreLifted, priority_at};

/// The rule leaves nothing open, also where holders wait in a circle: each task has one priority by it, and no task
/// that leads to it has a higher one of its own.
pub fn a_task_has_one_priority()
    ensures once { (own one other : List ℕ) (holders : List (Option ℕ)) →
        AreLifted own holders one → AreLifted own holders other → (id : ℕ) →
        priority_at one id ≡ priority_at other id }
    ensures highest { (own lifted : List ℕ) (holders : List (Option ℕ)) (from to : ℕ) →
        AreLifted own holders lifted → Leads holders from to → priority_at lifted to ≤ priority_at own from }
{}
