// List: the tree where a schedule's run ended, as text in a lent buffer.
#![tactic(auto)]

ghost use Rattle.std.specs.Prelude.{◌≡◌, ◌≤◌, OnOk, eqb, length};
ghost use Rattle.container.specs.Choice.{ite};
ghost use Rattle.schedule.specs.Proper.{Proper};
ghost use Rattle.run.specs.Standing.{Enough};
ghost use Rattle.definitions.specs.Refusal.{code_of};
ghost use Rattle.definitions.specs.Run.{ended, overlay};
ghost use Rattle.definitions.specs.Listing.{listing, listed_at, list_refusal, list_report, list_buffer};

use definitions::{Listed, Refusal, Version};
use frames::frame::Frame;

// The bytes of a text buffer that List asks for in version v. Run asks for other sizes: one function of the version and two sizes
// would be the `if` itself.
#[tactic(auto, unfolding(container::specs::Choice::ite))]
pub fn room_for(v: Version) -> usize
    ensures { result ≡ ite (eqb v 1) 4096 8192 }
{
    if v == 1 { 4096 } else { 8192 }
}

// Whether List can be asked of a file and a text buffer of `room` bytes. Run, State and History have a `check` each: the sizes
// differ, and the refusals too but for Run's and History's; one for all would take both, and be the `if` itself.
pub fn check(schedule: &[u8], room: usize) -> Result<(), Refusal>
    ensures refusal { code_of result ≡ list_refusal schedule.now room }
    ensures proper { OnOk result (Proper schedule.now) }
{
    schedule::check(schedule)?;
    if room < room_for(schedule[0]) {
        return Err(Refusal::TextBuffer);
    }
    Ok(())
}

// List of a file that is not refused, with so many depths, results of stores, and frames. Each instance has a stack frame of its own, as Run's,
// and asks of the file and of the sizes what Run's does, for `run::carry_out`.
// Run and State have a `report` each, and share `run::carry_out`: one report for all would have to be handed what to make of the end, as
// a closure over the memory that is lent here, and be no plainer.
#[inline(never)]
fn report<const DEPTHS: usize, const RESULTS: usize, const FRAMES: usize>(
    schedule: &[u8],
    text: &mut [u8],
) -> Listed
    requires proper { Proper schedule.now }
    requires enough { Enough schedule.now DEPTHS RESULTS FRAMES }
    requires room { 4096 ≤ length text.old }
    ensures report { result ≡ listed_at schedule.now (ended schedule.now) }
    ensures text { text.new ≡ overlay (listing schedule.now (ended schedule.now).bench) text.old }
{
    let mut nodes = nodes::fresh();
    let mut depths = [0u16; DEPTHS];
    let mut results = [None; RESULTS];
    let mut lent = [Frame::EMPTY; FRAMES];
    let p = run::carry_out(
        &mut nodes,
        &mut depths,
        &mut results,
        &mut lent,
        &mut [],
        schedule,
        &mut [],
    );
    let at = listing::write_tree(&nodes, &depths, schedule[0], p.root, text);
    Listed {
        refusal: u64::from(run::code(p.refusal)),
        length: at as u64,
    }
}

// List: the report, and the text in the buffer. Version 1 has no use for depths; 64 records use at most 65 nodes, with 64 depths each.
pub fn list(schedule: &[u8], text: &mut [u8]) -> Listed
    ensures { (result ≡ list_report schedule.now (length text.old)) × (text.new ≡ list_buffer schedule.now text.old) }
{
    if let Err(r) = check(schedule, text.len()) {
        return Listed::from(r);
    }
    if schedule[0] == 1 {
        report::<0, 0, 0>(schedule, text)
    } else if run::may_ask(schedule) {
        report::<16384, 256, 16>(schedule, text)
    } else {
        report::<4160, 0, 0>(schedule, text)
    }
}
