ghost use Rattle.std.specs.Prelude.{◌≡◌, ◌⊎◌, ◌+◌, ◌<◌, ◌≤◌, ◌^◌, length, IfOk, [], ◌∷◌, ◌++◌, Some, None, true, false, Contains, max, ℕ};
ghost use mathlib.Core.List.{IsPrefix};
ghost use Rattle.turn_lock.specs.declared.logged.Role.TheVariants.{Opener};
ghost use Rattle.turn_lock.specs.declared.view.Place.TheVariants as Place;
ghost use Rattle.turn_lock.specs.Kinds.{MayAdd, OwnsSubjects};
ghost use Rattle.turn_lock.specs.Known.{IsSound, MayGive};
ghost use Rattle.turn_lock.specs.Lists.{longer, merged};
ghost use Rattle.turn_lock.specs.Turn.{moved, grown, ticket_of, twin};
ghost use Rattle.turn_lock.specs.Steps.{Comes, Hears};

use crate::logged::{Logged, Role};
use crate::pass::Pass;
use crate::plays::{
    Add, Come, Draw, Hear, Learn, Leave, Look, Merge, NewHand, NewOpener, NewWorker,
};
use crate::view::{Turns, View};
use atomic_table::{Seat, Table};
use gob_tree::Memory;
use std::alloc::Global;
use std::marker::Model;
use std::snapshot::Snapshot;
use std::sync::Wait;

/// A value whose turn was taken.
#[derive(Drop)]
pub struct Held<B> {
    pub value: B,
}

/// A value that passes take in turns, in the order in which they came for it.
#[derive(Drop)]
pub struct TurnLock<B: Logged> {
    table: Table<Option<B>, View<B::Entry>, Snapshot<B>, Turns<B>, Global>,
}

impl<B: Logged> Model for TurnLock<B> {
    ghost use Rattle.std.specs.Prelude.{◌≡◌};
    ghost use Rattle.turn_lock.specs.Known.{Lock};

    ghost Value = { Lock };

    ghost view = { λ l. record { table = l.table.shared.table_id; terms = B.terms_of l.table.shared.key.value } };

    ghost invariant = { λ l. (l.table.shared.table_id.words ≡ 3) × (l.table.shared.table_id.slots ≡ 1) };
}

// the words of the table: the next ticket, the ticket that is served, and the number of entries
const NEXT: usize = 0;

const SERVING: usize = 1;

const COUNT: usize = 2;

impl<B: Logged + Drop> TurnLock<B> {
    /// A lock round the value, and the opener's pass, which has seen the value's entries. `Memory`
    /// is want of memory, and then the value is dropped.
    pub fn new(alloc: Global, value: B) -> Result<(TurnLock<B>, Pass<B>), Memory>
        ensures terms { IfOk result (λ r. r.0.terms ≡ B.terms_of value) }
        ensures own { IfOk result (λ r. r.1.lock ≡ r.0) }
        ensures role { IfOk result (λ r. r.1.role ≡ Opener) }
        ensures seen { IfOk result (λ r. r.1.seen ≡ B.log value) }
        ensures least { IfOk result (λ r. r.1.least ≡ length r.1.seen) }
        ensures sound { IfOk result (λ r. IsSound B.kind r.1) }
        ensures bare { IfOk result (λ r. (r.1.mine ≡ []) × (r.1.looks ≡ []) × (r.1.turn ≡ false)) }
    {
        let key = Snapshot::of(&value);
        let count = value.entries();
        let mut slots = Vec::new(alloc);
        if slots.push(Some(value)).is_err() {
            return Err(Memory);
        }
        match Table::new(alloc, &[0, 0, count], slots, &key) {
            Ok((table, seat)) => Ok((TurnLock { table }, Pass { seat, count })),
            Err(_) => Err(Memory),
        }
    }

    /// Waits for the turn, and takes the value. No other pass has the turn until it is given back,
    /// so one that is never given back is kept for good. Once 2^64 - 1 turns were asked for, the call
    /// waits for ever.
    pub fn take<R: Wait>(&self, rt: &R, pass: &mut Pass<B>) -> Held<B>
        requires own { pass.old.lock ≡ self.now }
        requires outside { pass.old.turn ≡ false }
        ensures turn { pass.new.turn ≡ true }
        ensures seen { pass.new.seen ≡ B.log result.value }
        ensures later { IsPrefix pass.old.seen pass.new.seen }
        ensures look { pass.new.looks ≡ pass.old.looks ++ length pass.new.seen ∷ [] }
        ensures terms { B.terms_of result.value ≡ self.now.terms }
        ensures least { pass.old.least ≤ length pass.new.seen }
        ensures counted { pass.new.least ≡ length pass.new.seen }
        ensures sound { IsSound B.kind pass.new }
        ensures same { (pass.new.lock ≡ pass.old.lock) × (pass.new.role ≡ pass.old.role)
            × (pass.new.mine ≡ pass.old.mine) }
    {
        let ticket = self.draw(rt, &mut pass.seat);
        self.wait(rt, &mut pass.seat, ticket);
        let value = self.table.shared.exchange(&mut pass.seat, 0, None).unwrap();
        pass.count = value.entries();
        Held { value }
    }

    /// Gives the value back, and the turn to the next ticket. The value has the entries that the pass
    /// has seen, or these and one more that it may add, which is then its own.
    pub fn give(&self, pass: &mut Pass<B>, held: Held<B>)
        requires own { pass.old.lock ≡ self.now }
        requires inside { pass.old.turn ≡ true }
        requires terms { B.terms_of held.value ≡ self.now.terms }
        requires entries { MayGive B.kind pass.old (B.log held.value) }
        ensures turn { pass.new.turn ≡ false }
        ensures seen { pass.new.seen ≡ B.log held.value }
        ensures counted { pass.new.least ≡ length pass.new.seen }
        ensures kept { B.log held.value ≡ pass.old.seen → pass.new.mine ≡ pass.old.mine }
        ensures added { (e : B.Entry) → B.log held.value ≡ pass.old.seen ++ e ∷ []
            → pass.new.mine ≡ pass.old.mine ++ length pass.old.seen ∷ [] }
        ensures sound { IsSound B.kind pass.new }
        ensures same { (pass.new.lock ≡ pass.old.lock) × (pass.new.role ≡ pass.old.role)
            × (pass.new.looks ≡ pass.old.looks) }
    {
        let Held { value } = held;
        let before = pass.count;
        let count = value.entries();
        self.table.shared.exchange(&mut pass.seat, 0, Some(value));
        pass.count = count;
        if count == before {
            self.leave(&mut pass.seat);
            return;
        }
        self.add(&mut pass.seat);
        self.leave(&mut pass.seat);
        self.table.shared.wake_all(COUNT);
    }

    /// A second pass, of this role, which has seen what this one has and has no entry of its own. A
    /// pass that isn't the opener's splits only its own role.
    pub fn split(&self, pass: &mut Pass<B>, role: Role) -> Pass<B>
        requires own { pass.old.lock ≡ self.now }
        requires outside { pass.old.turn ≡ false }
        requires role { (pass.old.role ≡ Opener) ⊎ (role ≡ pass.old.role) }
        ensures same { pass.new ≡ pass.old }
        ensures own { result.lock ≡ pass.old.lock }
        ensures role { result.role ≡ role }
        ensures seen { result.seen ≡ pass.old.seen }
        ensures least { result.least ≡ pass.old.least }
        ensures bare { (result.mine ≡ []) × (result.looks ≡ []) × (result.turn ≡ false) }
        ensures sound { IsSound B.kind result }
    {
        let count = pass.count;
        let seat = self.part(&mut pass.seat, role);
        Pass { seat, count }
    }

    /// Takes another pass in. What is seen then begins with what each of the two had seen, and the
    /// own places of both are this pass's; they had none in common.
    pub fn join(&self, pass: &mut Pass<B>, other: Pass<B>)
        requires own { (pass.old.lock ≡ self.now) × (other.lock ≡ self.now) }
        requires outside { (pass.old.turn ≡ false) × (other.turn ≡ false) }
        ensures seen { pass.new.seen ≡ longer pass.old.seen other.seen }
        ensures first { IsPrefix pass.old.seen pass.new.seen }
        ensures second { IsPrefix other.seen pass.new.seen }
        ensures mine { pass.new.mine ≡ merged pass.old.mine other.mine }
        ensures apart { (k : ℕ) → Contains pass.old.mine k → Contains other.mine k → ⊥ }
        ensures least { pass.new.least ≡ max pass.old.least other.least }
        ensures sound { IsSound B.kind pass.new }
        ensures same { (pass.new.lock ≡ pass.old.lock) × (pass.new.role ≡ pass.old.role)
            × (pass.new.looks ≡ pass.old.looks) × (pass.new.turn ≡ false) }
    {
        let Pass { seat, count } = other;
        self.table.shared.join_seat::<Merge>(&mut pass.seat, seat);
        self.table.shared.load::<Learn>(&mut pass.seat, NEXT);
        pass.count = pass.count.max(count);
    }

    /// Waits until there are more entries than the pass has seen, which it then knows.
    pub fn wait_for_more<R: Wait>(&self, rt: &R, pass: &mut Pass<B>)
        requires own { pass.old.lock ≡ self.now }
        ensures more { length pass.new.seen < pass.new.least }
        ensures least { pass.old.least ≤ pass.new.least }
        ensures same { pass.new ≡ record pass.old { least = pass.new.least } }
        ensures sound { IsSound B.kind pass.new }
    {
        let count = pass.count;
        self.listen(rt, &mut pass.seat, count);
    }

    fn part(
        &self,
        seat: &mut Seat<Option<B>, View<B::Entry>>,
        role: Role,
    ) -> Seat<Option<B>, View<B::Entry>>
        requires own { seat.old.table_id ≡ self.now.table }
        requires outside { seat.old.me.0.place ≡ Place.Outside }
        ensures same { (seat.new.table_id ≡ seat.old.table_id) × (seat.new.id ≡ seat.old.id)
            × (seat.new.me ≡ seat.old.me) }
        ensures other { (result.table_id ≡ seat.old.table_id)
            × (result.me ≡ (twin role seat.old.me.0, [])) }
    {
        match role {
            Role::Opener => self.table.shared.split_seat::<NewOpener>(seat),
            Role::Hand => self.table.shared.split_seat::<NewHand>(seat),
            Role::Worker => self.table.shared.split_seat::<NewWorker>(seat),
        }
    }

    fn listen<R: Wait>(&self, rt: &R, seat: &mut Seat<Option<B>, View<B::Entry>>, count: u64)
        requires own { seat.old.table_id ≡ self.now.table }
        requires counted { count ≡ length seat.old.me.0.seen }
        ensures same { (seat.new.table_id ≡ seat.old.table_id) × (seat.new.id ≡ seat.old.id) }
        ensures heard { (n : ℕ) × (count < n) × Hears seat.old.me seat.new.me n }
    {
        let shared = &self.table.shared;
        for _ in rt.forever() {
            let found = shared.load::<Hear>(seat, COUNT);
            if found > count {
                return;
            }
            shared.park(rt, COUNT, (found % 4_294_967_296) as u32);
        }
        unreachable!()
    }

    fn draw<R: Wait>(&self, rt: &R, seat: &mut Seat<Option<B>, View<B::Entry>>) -> u64
        requires own { seat.old.table_id ≡ self.now.table }
        requires outside { seat.old.me.0.place ≡ Place.Outside }
        ensures same { (seat.new.table_id ≡ seat.old.table_id) × (seat.new.id ≡ seat.old.id) }
        ensures ticket { seat.new.me ≡ (moved seat.old.me.0 (Place.Waiting result), seat.old.me.1) }
    {
        let shared = &self.table.shared;
        for _ in rt.forever() {
            let next = shared.load::<Look>(seat, NEXT);
            if next == u64::MAX {
                shared.park(rt, NEXT, u32::MAX);
            } else if shared.compare_exchange::<Draw>(seat, NEXT, next, next + 1) == next {
                return next;
            }
        }
        unreachable!()
    }

    fn wait<R: Wait>(&self, rt: &R, seat: &mut Seat<Option<B>, View<B::Entry>>, ticket: u64)
        requires own { seat.old.table_id ≡ self.now.table }
        requires ticket { seat.old.me.0.place ≡ Place.Waiting ticket }
        ensures same { (seat.new.table_id ≡ seat.old.table_id) × (seat.new.id ≡ seat.old.id) }
        ensures turn { (b : B) × Comes B.kind B.log B.terms_of seat.old.me seat.new.me b }
    {
        let shared = &self.table.shared;
        for _ in rt.forever() {
            let serving = shared.load::<Come>(seat, SERVING);
            if serving == ticket {
                return;
            }
            shared.park(rt, SERVING, (serving % 4_294_967_296) as u32);
        }
        unreachable!()
    }

    // counts the one entry that the value in the slot has more
    fn add(&self, seat: &mut Seat<Option<B>, View<B::Entry>>)
        requires own { seat.old.table_id ≡ self.now.table }
        requires inside { seat.old.me.0.place ≡ Place.Inside (ticket_of seat.old.me.0.place) }
        requires one { (b : B) × (e : B.Entry) × (seat.old.me.1 ≡ (0, Some b) ∷ [])
            × (B.log b ≡ seat.old.me.0.seen ++ e ∷ []) × (length (B.log b) < 2 ^ 64)
            × MayAdd B.kind seat.old.me.0.role seat.old.me.0.seen seat.old.me.0.mine e }
        ensures same { (seat.new.table_id ≡ seat.old.table_id) × (seat.new.id ≡ seat.old.id) }
        ensures seen { (b : B) → seat.old.me.1 ≡ (0, Some b) ∷ []
            → seat.new.me ≡ (grown seat.old.me.0 (B.log b), seat.old.me.1) }
    {
        self.table.shared.fetch_add::<Add>(seat, COUNT, 1);
    }

    // puts the slot back, and serves the next ticket
    fn leave(&self, seat: &mut Seat<Option<B>, View<B::Entry>>)
        requires own { seat.old.table_id ≡ self.now.table }
        requires inside { seat.old.me.0.place ≡ Place.Inside (ticket_of seat.old.me.0.place) }
        requires known { (b : B) × (seat.old.me.1 ≡ (0, Some b) ∷ [])
            × (B.log b ≡ seat.old.me.0.seen) × (B.terms_of b ≡ seat.old.me.0.terms) }
        ensures same { (seat.new.table_id ≡ seat.old.table_id) × (seat.new.id ≡ seat.old.id) }
        ensures outside { seat.new.me ≡ (moved seat.old.me.0 Place.Outside, []) }
        ensures subjects { OwnsSubjects B.kind seat.old.me.0.seen seat.old.me.0.mine }
    {
        let served = self.table.shared.fetch_add::<Leave>(seat, SERVING, 1);
        // Where no other ticket was drawn, nobody sleeps. A pass that draws one later looks at the
        // ticket that is served after this step.
        if self.table.shared.peek(NEXT) != served.wrapping_add(1) {
            self.table.shared.wake_all(SERVING);
        }
    }
}
