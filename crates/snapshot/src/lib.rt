// The bench as bytes (docs/STATE.md): what a state is made of, written into a lent buffer where there is room. Crate state has the operation.
#![tactic(auto, using(buffer::proofs::Writes::writes))]

use definitions::Refusal;

pub mod bytes; // bytes, numbers, links and words
pub mod places; // which notes there are at a place
pub mod frame; // frames of range queries
pub mod thread; // threads
pub mod node; // nodes, and which are reachable

// What State hands back beside the bytes. `refusal` is a number, 0 for none, and the length stands beside: the C header says so.
#[derive(Clone, Copy)]
pub struct Stated {
    pub refusal: u64,
    pub records: u64,
    pub length: u64,
}

// Of a file or a buffer that is refused.
impl From<Refusal> for Stated {
    ghost use Rattle.std.specs.Prelude.{◌≡◌};
    ghost use Rattle.definitions.specs.Refusal.{refusal_number};

    ghost from_gives = { λ r s. s ≡ record { refusal = refusal_number r; records = 0; length = 0 } };

    fn from(r: Refusal) -> Stated {
        Stated {
            refusal: u64::from(r),
            records: 0,
            length: 0,
        }
    }
}
