//! What is true of the tasks whose waits end.

ghost use Rattle.std.specs.Prelude.{◌≡◌, ◌+◌, ℕ, [], ◌∷◌, None, Some};
ghost use Rattle.brd_time.specs.Time.{Time, due_from, next_due_of};

/// Taking the next task whose wait ends, from the one after the last on, gives all of them by ascending ID, each once.
pub fn the_next_is_the_first_of_all()
    ensures some { (t : Time) (from id : ℕ) → next_due_of t from ≡ Some id →
        due_from t from ≡ id ∷ due_from t (id + 1) }
    ensures none { (t : Time) (from : ℕ) → next_due_of t from ≡ None → due_from t from ≡ [] }
{}
