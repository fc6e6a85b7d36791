// The proof that Judge accepts the bench's own runs (proofs/RunPasses.antt), what each record does to its thread (proofs/Did.antt) and to a tally
// that is kept while a run goes on (proofs/Tallied.antt), and the room that a run's history needs.
#![tactic(auto)]

ghost use Rattle.std.specs.Prelude.{◌≡◌, ◌+◌, ◌*◌, ◌≤◌};
ghost use Rattle.passing.specs.Lists.{Enough};

// The length of the buffer that History asks for.
#[tactic(auto, using(crate::proofs::RunPasses::room_enough))]
pub fn history_room(count: usize) -> usize
    requires { count ≤ 65535 }
    ensures value { result ≡ 3 + 4 * count }
    ensures enough { Enough count result }
{
    3 + 4 * count
}
