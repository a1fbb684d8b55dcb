//! The calls of a pool.

ghost use Rattle.std.specs.Prelude.{◌≡◌, ◌≢◌, ℕ, ◌<◌, ◌+◌, ◌≤◌, length, [], ◌∷◌, Some, None, IfSome, IfNone, IfOk, replicate};
ghost use mathlib.Core.Option.{some};
ghost use lib.ListN.{get_elem?};
ghost use Rattle.smbd_base.specs.declared.token.TheConstants.{PAGE_SIZE, LAST_GENERATION};
ghost use Rattle.shared_pages.specs.Rule.{new_sight, sight_of, HasGiven, let_go, refused, longest, longer, Compare, AllCompare, Knows};
ghost use Rattle.shared_pages.specs.Calls.{AreNew, MadeAsMuch, known_by, MayMake, LoadTells, AccessTells, Makes, IsOf, IsInHand, MayGive, MayLetGo, PastsMet, opening_of};
ghost use Rattle.smbd_base.specs.declared.page_event.PageEvent.TheVariants as events;
ghost use Rattle.shared_pages.specs.Answers.{fetch_answer, place_answer, unload_answer, places_had};
ghost use Rattle.shared_pages.specs.declared.view.Hold.TheVariants.{Free};
ghost use Rattle.shared_pages.specs.declared.view.View.TheVariants.{One, Rest};
ghost use Rattle.smbd_base.specs.Pages.{opened_page};

use crate::answers::{Access, Load, Placed};
use crate::page_pass::{PagePass, Passes};
use crate::pages::Pages;
use crate::plays::{Copies, Deals, Does, Gives, Holds, Joins, LetsGo, Looks, Meet, Opens, Order};
use crate::slot::Slot;
use crate::view::{Opening, Step, View};
use atomic_table::{Seat, Table};
use smbd_base::{NoMemory, Right, Token};
use std::alloc::Global;
use std::collections::VecDeque;
use std::marker::Brand;

/// The word of a page that a pass has in hand.
const HELD: u64 = u64::MAX;

// Unloaded pages, whose first loads have this generation.
fn unloaded(alloc: Global, count: u16, first_generation: u32) -> Result<Vec<Option<Slot>>, NoMemory>
    requires least { 1 ≤ first_generation }
    requires most { first_generation ≤ LAST_GENERATION }
    ensures { IfOk result (λ v. v.items ≡ replicate count (Some (opened_page first_generation))) }
{
    let mut slots = Vec::with_capacity(alloc, usize::from(count))?;
    for _ in 0..count {
        slots.push(Some(Slot::open(alloc, first_generation - 1)?))?;
    }
    Ok(slots)
}

impl Pages {
    // A pool whose pages are unloaded, and the seat from which its passes are made.
    fn empty(
        alloc: Global,
        count: u16,
        first_generation: u32,
        seats: u8,
    ) -> Result<(Pages, Seat<Option<Slot>, View>), NoMemory>
        requires some { 1 ≤ count }
        requires least { 1 ≤ first_generation }
        requires most { first_generation ≤ LAST_GENERATION }
        requires most_seats { seats ≤ 32 }
        ensures own { IfOk result (λ t. t.1.table_id ≡ t.0.table.shared.table_id) }
        ensures opening { IfOk result (λ t. opening_of t.0 ≡ record { pages = count; first = first_generation; seats = seats }) }
        ensures seat { IfOk result (λ t. t.1.me ≡ (Rest 0 (replicate count []), [])) }
    {
        let pool = Opening {
            pages: usize::from(count),
            first: first_generation,
            seats,
        };
        let words: Vec<u64> = vec![in alloc; 0; pool.pages]?;
        let slots = unloaded(alloc, count, first_generation)?;
        let Ok((table, seat)) = Table::new(alloc, words.as_slice(), slots, &pool) else {
            return Err(NoMemory);
        };
        Ok((Pages { table }, seat))
    }

    /// A pool of so many pages, whose first loads have this generation, and a pass for each of its users. This call alone
    /// takes memory.
    pub fn open(
        alloc: Global,
        count: u16,
        first_generation: u32,
        seats: u8,
    ) -> Result<(Pages, Passes), NoMemory>
        requires least_count { 16 ≤ count }
        requires most_count { count ≤ 255 }
        requires least_generation { 1 ≤ first_generation }
        requires most_generation { first_generation ≤ LAST_GENERATION }
        requires least_seats { 1 ≤ seats }
        requires most_seats { seats ≤ 32 }
        ensures opening { IfOk result (λ t. opening_of t.0 ≡ record { pages = count; first = first_generation; seats = seats }) }
        ensures passes { IfOk result (λ t. (length t.1.passes.items ≡ seats) × AreNew t.0 0 t.1.passes.items) }
    {
        let (pages, mut seat) = Pages::empty(alloc, count, first_generation, seats)?;
        let mut passes = VecDeque::with_capacity(alloc, usize::from(seats))?;
        for number in 0..seats {
            passes.push_back(pages.deal(&mut seat, number))?;
        }
        Ok((pages, Passes::of(passes)))
    }

    // The next pass, with this number.
    fn deal(&self, seat: &mut Seat<Option<Slot>, View>, number: u8) -> PagePass
        requires own { seat.old.table_id ≡ self.now.table.shared.table_id }
        requires rest { seat.old.me ≡ (Rest number (replicate (opening_of self.now).pages []), []) }
        requires few { number < (opening_of self.now).seats }
        ensures own { IsOf self.now result × (seat.new.table_id ≡ seat.old.table_id) }
        ensures rest { seat.new.me ≡ (Rest (number + 1) (replicate (opening_of self.now).pages []), []) }
        ensures pass { known_by result ≡ new_sight number (replicate (opening_of self.now).pages []) }
    {
        let dealt = self.table.shared.split_seat::<Deals>(seat);
        PagePass::new(dealt, number)
    }

    // The page, and how many entries its life has, unless another pass has it in hand.
    fn hold<J: Opens>(
        &self,
        seat: &mut Seat<Option<Slot>, View>,
        page: usize,
    ) -> Option<(u64, Slot)>
        requires opening { J.opening ≡ opening_of self.now }
        requires own { (seat.old.table_id ≡ self.now.table.shared.table_id) × (page < (opening_of self.now).pages) }
        requires rests { (seat.old.me ≡ (One (sight_of seat.old.me.0), [])) × ((sight_of seat.old.me.0).hold ≡ Free) }
        ensures own { seat.new.table_id ≡ seat.old.table_id }
        ensures busy { IfNone result (seat.new.me ≡ (One (refused (sight_of seat.old.me.0)), [])) }
        ensures held { IfSome result (λ t. IsInHand J.opening.first page seat.old.me seat.new.me t.0 t.1) }
    {
        let shared = &self.table.shared;
        let found = shared.swap::<Holds<J>>(seat, page, HELD);
        if found == HELD {
            return None;
        }
        let slot = shared.exchange(seat, page, None).unwrap();
        Some((found, slot))
    }

    // The page goes back with the event that this step makes with these bytes.
    fn give_back<J: Does>(
        &self,
        seat: &mut Seat<Option<Slot>, View>,
        page: usize,
        count: u64,
        slot: Slot,
        step: Step,
        bytes: &[u8],
    )
        requires own { (seat.old.table_id ≡ self.now.table.shared.table_id) × (page < (opening_of self.now).pages) }
        requires may { MayGive (opening_of self.now).first page J.event seat.old.me count slot }
        ensures own { seat.new.table_id ≡ seat.old.table_id }
        ensures given { HasGiven J.event page seat.old.me seat.new.me }
    {
        let shared = &self.table.shared;
        drop(shared.exchange(seat, page, Some(slot)));
        shared.store::<Gives<J>>(seat, page, count + 1);
    }

    // The page goes back as it was.
    fn let_go(&self, seat: &mut Seat<Option<Slot>, View>, page: usize, count: u64, slot: Slot)
        requires own { (seat.old.table_id ≡ self.now.table.shared.table_id) × (page < (opening_of self.now).pages) }
        requires may { MayLetGo (opening_of self.now).first page seat.old.me count slot }
        ensures own { seat.new.table_id ≡ seat.old.table_id }
        ensures kept { seat.new.me ≡ (One (let_go (sight_of seat.old.me.0)), []) }
    {
        let shared = &self.table.shared;
        drop(shared.exchange(seat, page, Some(slot)));
        shared.store::<LetsGo>(seat, page, count);
    }

    /// Loads a page with 1 to 4,096 bytes, and zeros after them, for a peer with this right. A page's first load has the
    /// pool's first generation, and each later one the next. The refusals are looked for in this order: Busy, Live, Spent.
    pub fn load(&self, pass: &mut PagePass, page: u8, right: Right, bytes: &[u8]) -> Load
        requires own { IsOf self.now pass.old }
        requires among { page < (opening_of self.now).pages }
        requires some { 1 ≤ length bytes.now }
        requires fits { length bytes.now ≤ PAGE_SIZE }
        requires few { MayMake (known_by pass.old) }
        ensures own { IsOf self.now pass.new }
        ensures busy { result ≡ Load.Busy → known_by pass.new ≡ refused (known_by pass.old) }
        ensures few { length (known_by pass.new).made ≤ length (known_by pass.old).made + 1 }
        ensures tells { result ≢ Load.Busy → LoadTells (opening_of self.now).first page right bytes.now (known_by pass.old) (known_by pass.new) result }
    {
        let place = usize::from(page);
        let Some((count, mut slot)) = self.hold::<Brand>(&mut pass.seat, place) else {
            return Load::Busy;
        };
        if let Some(token) = slot.token(page) {
            self.let_go(&mut pass.seat, place, count, slot);
            return Load::Live(token);
        }
        if slot.is_spent() {
            self.let_go(&mut pass.seat, place, count, slot);
            return Load::Spent;
        }
        let token = slot.load(page, right, bytes);
        self.give_back::<Brand>(
            &mut pass.seat,
            place,
            count,
            slot,
            Step::Load(token, right),
            bytes,
        );
        Load::Loaded(token)
    }

    /// Copies bytes out of the token's page, from the place `at` on. The refusals are looked for in this order: Busy, Stale,
    /// WrongRight.
    pub fn fetch(&self, pass: &mut PagePass, token: Token, at: u32, out: &mut [u8]) -> Access
        requires own { IsOf self.now pass.old }
        requires among { token.page < (opening_of self.now).pages }
        requires some { 1 ≤ length out.old }
        requires within { at + length out.old ≤ PAGE_SIZE }
        requires few { MayMake (known_by pass.old) }
        ensures own { IsOf self.now pass.new }
        ensures busy { result ≡ Access.Busy → known_by pass.new ≡ refused (known_by pass.old) }
        ensures few { length (known_by pass.new).made ≤ length (known_by pass.old).made + 1 }
        ensures tells { result ≢ Access.Busy → AccessTells (opening_of self.now).first token.page (λ s. events.Fetch token at out.new) (fetch_answer token) (known_by pass.old) (known_by pass.new) result }
        ensures same { result ≢ Access.Done → out.new ≡ out.old }
    {
        let page = usize::from(token.page());
        let Some((count, slot)) = self.hold::<Brand>(&mut pass.seat, page) else {
            return Access::Busy;
        };
        let answer = slot.may_fetch(token);
        if answer != Access::Done {
            self.let_go(&mut pass.seat, page, count, slot);
            return answer;
        }
        slot.fetch(token, at, out);
        self.give_back::<Brand>(
            &mut pass.seat,
            page,
            count,
            slot,
            Step::Fetch(token, at),
            out,
        );
        Access::Done
    }

    /// Copies bytes into the token's page, from the place `at` on. The refusals are looked for in this order: Busy, Stale,
    /// WrongRight, Worn.
    pub fn place(&self, pass: &mut PagePass, token: Token, at: u32, bytes: &[u8]) -> Access
        requires own { IsOf self.now pass.old }
        requires among { token.page < (opening_of self.now).pages }
        requires some { 1 ≤ length bytes.now }
        requires within { at + length bytes.now ≤ PAGE_SIZE }
        requires few { MayMake (known_by pass.old) }
        ensures own { IsOf self.now pass.new }
        ensures busy { result ≡ Access.Busy → known_by pass.new ≡ refused (known_by pass.old) }
        ensures few { length (known_by pass.new).made ≤ length (known_by pass.old).made + 1 }
        ensures tells { result ≢ Access.Busy → AccessTells (opening_of self.now).first token.page (λ s. events.Place token (places_had s.loaded) at bytes.now) (place_answer token) (known_by pass.old) (known_by pass.new) result }
    {
        self.place_in_order(pass, token, at, bytes).answer
    }

    /// The same, and tells which order the place had under its token.
    pub fn place_in_order(&self, pass: &mut PagePass, token: Token, at: u32, bytes: &[u8]) -> Placed
        requires own { IsOf self.now pass.old }
        requires among { token.page < (opening_of self.now).pages }
        requires some { 1 ≤ length bytes.now }
        requires within { at + length bytes.now ≤ PAGE_SIZE }
        requires few { MayMake (known_by pass.old) }
        ensures own { IsOf self.now pass.new }
        ensures busy { result.answer ≡ Access.Busy → known_by pass.new ≡ refused (known_by pass.old) }
        ensures few { length (known_by pass.new).made ≤ length (known_by pass.old).made + 1 }
        ensures tells { result.answer ≢ Access.Busy → AccessTells (opening_of self.now).first token.page (λ s. events.Place token (places_had s.loaded) at bytes.now) (place_answer token) (known_by pass.old) (known_by pass.new) result.answer }
        ensures order { result.answer ≡ Access.Done → Makes (events.Place token result.order at bytes.now) (known_by pass.old) (known_by pass.new) }
        ensures none { result.answer ≢ Access.Done → result.order ≡ 0 }
    {
        let place = usize::from(token.page());
        let Some((count, mut slot)) = self.hold::<Brand>(&mut pass.seat, place) else {
            return Placed {
                answer: Access::Busy,
                order: 0,
            };
        };
        let answer = slot.may_place(token);
        if answer != Access::Done {
            self.let_go(&mut pass.seat, place, count, slot);
            return Placed { answer, order: 0 };
        }
        let order = slot.places_had();
        slot.place(token, at, bytes);
        self.give_back::<Brand>(
            &mut pass.seat,
            place,
            count,
            slot,
            Step::Place(token, u32::from(order), at),
            bytes,
        );
        Placed { answer, order }
    }

    /// Hands out the 4,096 bytes of the token's page, and ends its load. The refusals are looked for in this order: Busy,
    /// Stale.
    pub fn unload(&self, pass: &mut PagePass, token: Token, out: &mut [u8]) -> Access
        requires own { IsOf self.now pass.old }
        requires among { token.page < (opening_of self.now).pages }
        requires size { length out.old ≡ PAGE_SIZE }
        requires few { MayMake (known_by pass.old) }
        ensures own { IsOf self.now pass.new }
        ensures busy { result ≡ Access.Busy → known_by pass.new ≡ refused (known_by pass.old) }
        ensures few { length (known_by pass.new).made ≤ length (known_by pass.old).made + 1 }
        ensures tells { result ≢ Access.Busy → AccessTells (opening_of self.now).first token.page (λ s. events.Unload token out.new) (unload_answer token) (known_by pass.old) (known_by pass.new) result }
        ensures same { result ≢ Access.Done → out.new ≡ out.old }
        ensures size { length out.new ≡ PAGE_SIZE }
    {
        let place = usize::from(token.page());
        let Some((count, mut slot)) = self.hold::<Brand>(&mut pass.seat, place) else {
            return Access::Busy;
        };
        let answer = slot.may_unload(token);
        if answer != Access::Done {
            self.let_go(&mut pass.seat, place, count, slot);
            return answer;
        }
        slot.unload(token, out);
        self.give_back::<Brand>(&mut pass.seat, place, count, slot, Step::Unload(token), out);
        Access::Done
    }

    // The first pass learns what the second has seen.
    fn learn<J: Opens>(&self, one: &mut PagePass, other: &mut PagePass)
        requires opening { J.opening ≡ opening_of self.now }
        requires own { IsOf self.now one.old × IsOf self.now other.old }
        ensures own { (one.new.seat.table_id ≡ one.old.seat.table_id) × (other.new.seat.table_id ≡ other.old.seat.table_id) }
        ensures one { sight_of one.new.seat.me.0 ≡ record (sight_of one.old.seat.me.0) {
          past = longer (sight_of one.old.seat.me.0).past (sight_of other.old.seat.me.0).past;
          other_past = (sight_of other.old.seat.me.0).past;
          seen = longest (sight_of one.old.seat.me.0).seen (sight_of other.old.seat.me.0).seen;
          other = (sight_of other.old.seat.me.0).seen;
        } }
        ensures other { sight_of other.new.seat.me.0 ≡ sight_of other.old.seat.me.0 }
        ensures compare { AllCompare (sight_of one.old.seat.me.0).seen (sight_of other.old.seat.me.0).seen }
        ensures compare_pasts { Compare (sight_of one.old.seat.me.0).past (sight_of other.old.seat.me.0).past }
        ensures knows { Knows J.opening (sight_of one.new.seat.me.0) }
    {
        let shared = &self.table.shared;
        let copy = shared.split_seat::<Copies>(&mut other.seat);
        shared.join_seat::<Joins>(&mut one.seat, copy);
        shared.load::<Meet<J>>(&mut one.seat, 0);
    }

    // The pass changes nothing.
    pub(crate) fn look<J: Opens>(&self, pass: &mut PagePass)
        requires opening { J.opening ≡ opening_of self.now }
        requires own { IsOf self.now pass.old }
        ensures own { IsOf self.now pass.new }
        ensures same { known_by pass.new ≡ known_by pass.old }
        ensures knows { Knows J.opening (known_by pass.new) }
    {
        self.table.shared.load::<Looks<J>>(&mut pass.seat, 0);
    }

    /// Each of two passes has then seen all that either saw, and of each page one's list goes on where the other's ends; so
    /// does the past of all pages. It leaves the pages, and what each pass has made of them, as they were.
    pub fn meet(&self, one: &mut PagePass, other: &mut PagePass)
        requires { IsOf self.now one.old × IsOf self.now other.old }
        ensures own { IsOf self.now one.new × IsOf self.now other.new }
        ensures one { (known_by one.new).seen ≡ longest (known_by one.old).seen (known_by other.old).seen }
        ensures other { (known_by other.new).seen ≡ (known_by one.new).seen }
        ensures same { MadeAsMuch (known_by one.old) (known_by one.new) × MadeAsMuch (known_by other.old) (known_by other.new) }
        ensures compare { AllCompare (known_by one.old).seen (known_by other.old).seen }
        ensures pasts { PastsMet (known_by one.old) (known_by other.old) (known_by one.new) (known_by other.new) }
        ensures knows { Knows (opening_of self.now) (known_by one.new) × Knows (opening_of self.now) (known_by other.new) }
    {
        self.learn::<Brand>(one, other);
        self.learn::<Brand>(other, one);
    }
}
