//! What holds of the definitions, whatever the code does.

ghost use Rattle.std.specs.Prelude.{◌≡◌, ◌≢◌, ◌↔◌, ◌≤◌, ℕ, List, [], ◌∷◌, length};
ghost use Rattle.brd_gdb.specs.Grammar.{Makes};
ghost use Rattle.brd_gdb.specs.Packets.{framed};
ghost use Rattle.brd_gdb.specs.Reading.{request_of};
ghost use Rattle.brd_gdb.specs.Receiving.{ReceiverState, packet_size};
ghost use Rattle.brd_gdb.specs.Streams.{after, arrivals};
ghost use Rattle.brd_gdb.specs.declared.receiver.Arrival.TheVariants.{Packet};
ghost use Rattle.brd_gdb.specs.declared.receiver.Part.TheVariants.{Outside};
ghost use Rattle.brd_gdb.specs.declared.request.Request.{Request};
ghost use Rattle.brd_gdb.specs.declared.request.Request.TheVariants.{Unknown};

/// A payload that is put into a packet comes as that packet, and with nothing else, however it begins: with bytes that
/// stand for something within packets too. After it another may come.
pub fn packets_arrive()
    ensures arrives { (r : ReceiverState) (payload : List ℕ) → r.part ≡ Outside → length payload ≤ packet_size →
        arrivals r (framed payload) ≡ Packet ∷ [] }
    ensures payload { (r : ReceiverState) (payload : List ℕ) → r.part ≡ Outside → length payload ≤ packet_size →
        (after r (framed payload)).payload ≡ payload }
    ensures outside { (r : ReceiverState) (payload : List ℕ) → r.part ≡ Outside → length payload ≤ packet_size →
        (after r (framed payload)).part ≡ Outside }
{}

/// A packet is read as a request just where it makes that request, and as none that is known just where it makes none.
pub fn packets_follow_the_grammar()
    ensures makes { (text : List ℕ) (request : Request) → request ≢ Unknown →
        (request_of text ≡ request) ↔ Makes text request }
    ensures unknown { (text : List ℕ) → (request_of text ≡ Unknown) ↔ ((request : Request) → ¬ Makes text request) }
{}
