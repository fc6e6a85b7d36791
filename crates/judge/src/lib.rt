// Judge: whether a history of lookups, inserts and removes can be put in an order that a plain set answers alike.
#![tactic(auto)]

ghost use Rattle.std.specs.Prelude.{◌≡◌, ◌↔◌, Bool, true, false, ◌&&◌, List, ◌∷◌, ℕ, suc, ◌+◌, ◌*◌, ◌<◌, ◌≤◌, ◌^◌, eqb, length, drop, IsTrue, IfSome, IsSome, IsNone, IfOk, IfErr, MatchResult};
ghost use Rattle.std.specs.List.{Any};
ghost use Rattle.std.specs.Simd.{first_chunks};
ghost use Rattle.container.specs.Container.{has, insert};
ghost use Rattle.definitions.specs.Schedule.{count_of};
ghost use Rattle.definitions.specs.Refusal.{refusal_number};
ghost use Rattle.definitions.specs.History.{Reading, unread, begun, ended_by, noted, in_place, events_of, reading, reading_of, all_in_place, unfinished, form_refusal, history_refusal};
ghost use Rattle.definitions.specs.Judgement.{action_of, reply, padded, FirstOrder, Order, Decided, Judgement};
ghost use Rattle.judge.specs.Search.{flip, changes, turns, state, Fitting, Before, Rest, Best, Sound, Down, Entry, Filled, number_of, mark_of, operation_of, held_of, Stations, ReadsAsked, ReadsMark};

use definitions::{Judged, Refusal};

// ---- the operations

// What an operation asks. Not `Action`: a history has no split, join or query, and a match over it would have three more arms with no meaning.
#[derive(Clone, Copy, PartialEq, Eq)]
pub enum Asked {
    Lookup,
    Insert,
    Remove,
}

// Action 1 to 3.
impl TryFrom<u8> for Asked {
    type Error = Refusal;

    ghost try_from_gives = { ReadsAsked };

    fn try_from(code: u8) -> Result<Asked, Refusal> {
        match code {
            1 => Ok(Asked::Lookup),
            2 => Ok(Asked::Insert),
            3 => Ok(Asked::Remove),
            _ => Err(Refusal::Event),
        }
    }
}

// An operation: what it asks at which station, whether the answer is yes, and a mask of those that had finished when it started. `Event` and
// `Open` have what is asked and the station too: three things, each with fields of its own. A struct of the two would be opened where one of
// them is read, and be no plainer.
#[derive(Clone, Copy)]
pub struct Op {
    pub asked: Asked,
    pub station: u8,
    pub yes: bool,
    pub before: u64,
}

impl Op {
    // Whether it turns its station over.
    fn turns(self) -> bool
        ensures { result ≡ changes (action_of (number_of self.asked)) self.yes }
    {
        match self.asked {
            Asked::Lookup => false,
            Asked::Insert | Asked::Remove => self.yes,
        }
    }

    // The plain set after it.
    #[tactic(auto, using(crate::proofs::Cases::turn_out, crate::proofs::Cases::turn_in))]
    fn applied(self, set: u64) -> u64
        requires { self.station < 64 }
        ensures { (x : ℕ) → has result x ≡ flip (turns (operation_of self) x) (has set x) }
    {
        if !self.turns() {
            set
        } else if container::contains(set, self.station) {
            container::without(set, self.station)
        } else {
            container::with(set, self.station)
        }
    }

    // Whether the plain set answers so.
    fn fits(self, set: u64) -> bool
        ensures { IsTrue result ↔ (self.yes ≡ reply (action_of (number_of self.asked)) self.station (has set)) }
    {
        let inside = container::contains(set, self.station);
        match self.asked {
            Asked::Insert => self.yes != inside,
            Asked::Lookup | Asked::Remove => self.yes == inside,
        }
    }
}

// ---- the table of masks

// What comes next once the operations of a mask are done: nothing, since no order goes on; nothing, since all are done; or the least
// that can.
#[derive(Clone, Copy)]
pub enum Next {
    Dead,
    Done,
    Go(u8),
}

// The operations of a history: `count` of them, at most twelve. The arrays of this struct, of `Masks` and of `Noted`, and the order of `trace`,
// are fixed memory, for there is no heap; so a count stands beside.
#[derive(Clone, Copy)]
pub struct Work {
    pub count: usize,
    pub ops: [Op; 12],
    ghost sound: { Sound (held_of count ops) },
    ghost stations: { Stations (held_of count ops) },
}

impl Work {
    ghost use Rattle.judge.specs.Standing.{held};

    // The plain set after the operations of a mask. By number, for that is an operation's bit in the mask: `enumerate` would count what the range
    // counts.
    fn state(&self, mask: u64) -> u64
        ensures { (x : ℕ) → has result x ≡ state (held self.now) mask x }
    {
        let mut set = 0;
        for i in 0..self.count {
            if container::contains(mask, i as u8) {
                set = self.ops[i].applied(set);
            }
        }
        set
    }

    // Whether a mask has with each operation those that had finished when it started. The last operations, which have most of those,
    // come first. Tried with `all` over the same range: its proof did not close, for std's lemmas on `all` have no range in reverse.
    fn is_down(&self, mask: u64) -> bool
        ensures { IsTrue result ↔ Down (held self.now) mask }
    {
        for i in (0..self.count).rev() {
            if container::contains(mask, i as u8)
                && container::united(self.ops[i].before, mask) != mask
            {
                return false;
            }
        }
        true
    }

    // The first order, where there is one.
    fn order(&self) -> Option<[u8; 12]>
        ensures some { IfSome result (λ order. (l : List ℕ) × FirstOrder (held self.now) l × (order ≡ padded l)) }
        ensures none { IsNone result → (l : List ℕ) → Order (held self.now) l → ⊥ }
    {
        let mut masks = Masks {
            work: *self,
            next: [Next::Dead; 4096],
        };
        masks.fill();
        if let Next::Dead = masks.next[0] {
            return None;
        }
        Some(masks.trace())
    }

    // The verdict.
    fn decide(&self) -> Judged
        ensures { Decided (held self.now) result }
    {
        let order = self.order();
        Judged {
            refusal: 0,
            accepted: order.is_some(),
            operations: self.count as u64,
            order: order.unwrap_or([0; 12]),
        }
    }

    // The operations of a history that is not refused.
    fn read(history: &[u8]) -> Result<Work, Refusal>
        ensures ok { IfOk result (λ w. (history_refusal history.now ≡ 0) × (held w ≡ (reading_of history.now).all)) }
        ensures err { IfErr result (λ why. history_refusal history.now ≡ refusal_number why) }
    {
        let noted = Noted::read(history)?;
        if 12 < noted.count {
            return Err(Refusal::Operations);
        }
        if noted.is_open() {
            return Err(Refusal::Unfinished);
        }
        Ok(Work {
            count: noted.count,
            ops: noted.ops,
        })
    }
}

// What comes next after each mask that can be met.
#[derive(Drop)]
pub struct Masks {
    pub work: Work,
    pub next: [Next; 4096],
}

impl Masks {
    ghost use Rattle.judge.specs.Standing.{held};

    // Whether operation i, not yet done, can come next. The table is right for every larger mask.
    fn can_go(&self, mask: u64, i: usize) -> bool
        requires low { mask < 2 ^ self.now.work.count }
        requires here { i < self.now.work.count }
        requires out { has mask i ≡ false }
        requires down { Down (held self.now.work) mask }
        requires filled { Filled (held self.now.work) self.now.next (suc mask) }
        ensures yes { result ≡ true → Fitting (held self.now.work) mask i × (Before (held self.now.work) mask i × ((l : List ℕ) × Best (held self.now.work) (insert mask i) l)) }
        ensures no { result ≡ false → (l : List ℕ) → Rest (held self.now.work) mask (i ∷ l) → ⊥ }
    {
        let op = self.work.ops[i];
        if container::united(op.before, mask) != mask {
            return false;
        }
        let then = container::with(mask, i as u8) as usize;
        if let Next::Dead = self.next[then] {
            return false;
        }
        op.fits(self.work.state(mask))
    }

    // The entry of a mask. One loop tells the first operation that can come next and whether any is left; `find` would tell the first alone, and the
    // rest take a second search.
    fn choose(&self, mask: u64) -> Next
        requires low { mask < 2 ^ self.now.work.count }
        requires down { Down (held self.now.work) mask }
        requires filled { Filled (held self.now.work) self.now.next (suc mask) }
        ensures { Entry (held self.now.work) mask result }
    {
        let mut some = false;
        for i in 0..self.work.count {
            if !container::contains(mask, i as u8) {
                if self.can_go(mask, i) {
                    return Next::Go(i as u8);
                }
                some = true;
            }
        }
        if some { Next::Dead } else { Next::Done }
    }

    // Every entry that can be met, from the last mask down.
    fn fill(&mut self)
        ensures filled { Filled (held self.new.work) self.new.next 0 }
        ensures work { self.new.work ≡ self.old.work }
    {
        for m in (0..1u64 << (self.work.count as u64)).rev() {
            if self.work.is_down(m) {
                self.next[m as usize] = self.choose(m);
            }
        }
    }

    // The order that the table gives, where there is one.
    #[tactic(auto, using(crate::proofs::Walk::trace_start, crate::proofs::Walk::trace_step, crate::proofs::Walk::trace_end))]
    fn trace(&self) -> [u8; 12]
        requires filled { Filled (held self.now.work) self.now.next 0 }
        requires some { (l : List ℕ) × Best (held self.now.work) 0 l }
        ensures { (l : List ℕ) → Best (held self.now.work) 0 l → result ≡ padded l }
    {
        let mut order = [0; 12];
        let mut mask = 0u64;
        for p in 0..self.work.count {
            let Next::Go(i) = self.next[mask as usize] else {
                unreachable!();
            };
            order[p] = i;
            mask = container::with(mask, i);
        }
        order
    }
}

// ---- what the events say

// A start, or a finish with its answer. No Option: a start is an event of its own, and not the lack of an answer.
#[derive(Clone, Copy)]
pub enum Mark {
    Start,
    Finish(bool),
}

// 0 for start or 1 and 2 for finishing with no or yes.
impl TryFrom<u8> for Mark {
    type Error = Refusal;

    ghost try_from_gives = { ReadsMark };

    fn try_from(code: u8) -> Result<Mark, Refusal> {
        match code {
            0 => Ok(Mark::Start),
            1 => Ok(Mark::Finish(false)),
            2 => Ok(Mark::Finish(true)),
            _ => Err(Refusal::Event),
        }
    }
}

// An event whose fields are in their ranges.
#[derive(Clone, Copy)]
pub struct Event {
    pub thread: u8,
    pub asked: Asked,
    pub station: u8,
    pub mark: Mark,
    ghost a_thread: { thread < 4 },
    ghost a_station: { station < 64 },
}

// The event of four bytes.
impl TryFrom<[u8; 4]> for Event {
    ghost use Rattle.judge.specs.Standing.{Reads};

    type Error = Refusal;

    ghost try_from_gives = { Reads };

    fn try_from(bytes: [u8; 4]) -> Result<Event, Refusal> {
        let [thread, action, station, mark] = bytes;
        if thread < 4 && station < 64 {
            Ok(Event {
                thread,
                asked: Asked::try_from(action)?,
                station,
                mark: Mark::try_from(mark)?,
            })
        } else {
            Err(Refusal::Event)
        }
    }
}

// What a thread has open: what the operation asks, its station and its number.
#[derive(Clone, Copy)]
pub struct Open {
    pub asked: Asked,
    pub station: u8,
    pub number: usize,
}

impl Open {
    // Whether a finish agrees with it.
    fn is_of(self, e: Event) -> bool
        ensures { IsTrue result ↔ ((self.asked ≡ e.asked) × (self.station ≡ e.station)) }
    {
        self.asked == e.asked && self.station == e.station
    }
}

// What the events so far say: what each thread has open, a mask of the operations that have finished, how many have started, and the
// first twelve of these.
#[derive(Clone, Copy)]
pub struct Noted {
    pub slots: [Option<Open>; 4],
    pub done: u64,
    pub count: usize,
    pub ops: [Op; 12],
}

impl Noted {
    ghost use Rattle.judge.specs.Standing.{event_of, SlotsOf, Stands};

    // Before the first event. `blank` fills places that no operation has; no Default, for none of the three that an operation asks is one.
    #[tactic(auto, using(crate::proofs::Whole::unread_stands))]
    fn new() -> Noted
        ensures count { result.count ≡ 0 }
        ensures stands { Stands result unread }
    {
        let blank = Op {
            asked: Asked::Lookup,
            station: 0,
            yes: false,
            before: 0,
        };
        Noted {
            slots: [None; 4],
            done: 0,
            count: 0,
            ops: [blank; 12],
        }
    }

    // A start. Operations past the twelfth are only counted.
    fn start(&mut self, e: Event)
        requires { self.old.count < 65536 }
        ensures count { self.new.count ≡ self.old.count + 1 }
        ensures stands { (R : Reading) → Stands self.old R → Stands self.new (begun (event_of e) R) }
    {
        let number = self.count;
        self.count = number + 1;
        self.slots[e.thread as usize] = Some(Open {
            asked: e.asked,
            station: e.station,
            number,
        });
        if number < 12 {
            self.ops[number] = Op {
                asked: e.asked,
                station: e.station,
                yes: false,
                before: self.done,
            };
        }
    }

    // A finish of the operation with this number.
    fn finish(&mut self, e: Event, number: usize, yes: bool)
        ensures count { self.new.count ≡ self.old.count }
        ensures stands { (R : Reading) → R.busy e.thread ≡ Some number → e.mark ≡ Mark.Finish yes → Stands self.old R → Stands self.new (ended_by (Some number) (event_of e) R) }
    {
        self.slots[e.thread as usize] = None;
        if number < 12 {
            self.ops[number].yes = yes;
            self.done = container::with(self.done, number as u8);
        }
    }

    // The next event, where it is in place.
    fn note(&mut self, e: Event) -> Result<(), Refusal>
        requires { self.old.count < 65536 }
        ensures count { self.new.count ≤ self.old.count + 1 }
        ensures stands { (R : Reading) → Stands self.old R → MatchResult result (λ _. (in_place (event_of e) R ≡ true) × Stands self.new (noted (event_of e) R)) (λ why. (in_place (event_of e) R ≡ false) × (why ≡ Refusal.Event)) }
    {
        match (e.mark, self.slots[e.thread as usize]) {
            (Mark::Start, None) => self.start(e),
            (Mark::Finish(yes), Some(open)) if open.is_of(e) => self.finish(e, open.number, yes),
            _ => return Err(Refusal::Event),
        }
        Ok(())
    }

    // All events of a history, where its form is right and each is in place.
    fn read(history: &[u8]) -> Result<Noted, Refusal>
        ensures ok { IfOk result (λ n. (form_refusal history.now ≡ 0) × ((all_in_place (events_of history.now) (count_of history.now) ≡ true) × Stands n (reading_of history.now))) }
        ensures err { IfErr result (λ why. history_refusal history.now ≡ refusal_number why) }
    {
        let events = events_in(history)?;
        let mut noted = Noted::new();
        // Byte by byte: with the four taken as one array a history of 65,534 events takes 317 µs, and so 213; a long history is to take no
        // more than at the start ("Speed" in docs/DESIGN-PASS.md).
        for &[thread, action, station, mark] in events {
            noted.note(Event::try_from([thread, action, station, mark])?)?;
        }
        Ok(noted)
    }

    // Some thread has an operation open.
    fn is_open(&self) -> bool
        ensures { IsTrue result ↔ Any (λ slot. IsSome slot) self.now.slots }
    {
        self.slots.iter().any(|slot| slot.is_some())
    }
}

// ---- the file

// The events, as many as the header states, where the form is right.
#[tactic(auto, using(crate::proofs::Whole::form_short, crate::proofs::Whole::form_version, crate::proofs::Whole::form_length, crate::proofs::Whole::form_right), unfolding(definitions::specs::Schedule::count_of))]
fn events_in(history: &[u8]) -> Result<&[[u8; 4]], Refusal>
    ensures ok { IfOk result (λ events. (form_refusal history.now ≡ 0) × (count_of history.now < 65536) × (length events.now ≡ count_of history.now) × (events.now ≡ first_chunks 4 (count_of history.now) (drop 3 history.now))) }
    ensures err { IfErr result (λ why. form_refusal history.now ≡ refusal_number why) }
{
    let [version, high, low, events @ ..] = history else {
        return Err(Refusal::ShortFile);
    };
    if *version != 1 {
        return Err(Refusal::Version);
    }
    let count = usize::from(u16::from_be_bytes([*high, *low]));
    if events.len() != 4 * count {
        return Err(Refusal::Length);
    }
    Ok(events.as_chunks().0)
}

// ---- Judge

// Judge: the report on every file.
pub fn judge(history: &[u8]) -> Judged
    ensures { Judgement history.now result }
{
    match Work::read(history) {
        Ok(work) => work.decide(),
        Err(why) => Judged::from(why),
    }
}
