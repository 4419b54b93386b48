//! What holds of the definitions, whatever the code does.

ghost use Rattle.std.specs.Prelude.{◌↔◌, ℕ, List, []};
ghost use Rattle.brd_board.specs.declared.event.Event.{Event as EventOf};
ghost use Rattle.brd_board.specs.Board.{BoardState};
ghost use Rattle.brd_debug.specs.Stops.{IsStop};
ghost use Rattle.brd_stub.specs.declared.points.Point.{Point as PointOf};
ghost use Rattle.brd_stub.specs.declared.stepping.Stepped.{Stepped as SteppedOf};
ghost use Rattle.brd_stub.specs.Points.{AreSet, with_point, without_point, stops_for};
ghost use Rattle.brd_stub.specs.Hits.{IsPlace};

/// Points that were set one after the other are where a move stops: its stops are just the positions at whose events
/// one of them is hit, an exception is raised, or who is stepped comes to his stop.
pub fn moves_stop_at_points()
    ensures { (points : List PointOf) (it : SteppedOf) (boot : BoardState) (events : List EventOf) (position : ℕ)
        → AreSet points → IsStop (stops_for points it) boot events position ↔ IsPlace points it boot events position }
{}

/// The points of a session were set one after the other: none at first, one more by `Z`, one fewer by `z`.
pub fn points_are_set()
    ensures none { AreSet [] }
    ensures more { (points : List PointOf) (p : PointOf) → AreSet points → AreSet (with_point points p) }
    ensures fewer { (points : List PointOf) (p : PointOf) → AreSet points → AreSet (without_point points p) }
{}
