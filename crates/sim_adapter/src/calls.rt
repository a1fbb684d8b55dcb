//! The calls of a link.

ghost use Rattle.std.specs.Prelude.{◌≡◌, length, false, IfOk};
ghost use Rattle.smbd_base.specs.declared.end_id.EndId.TheVariants.{Client, Server};
ghost use Rattle.smbd_base.specs.declared.event.Event.TheVariants as events;
ghost use Rattle.smbd_base.specs.Joint.{emitted_frames};
ghost use Rattle.smbd_base.specs.History.{is_cut, is_post_due};
ghost use Rattle.empty_frames.specs.EmptyFrames.{SendFewEmpty};
ghost use Rattle.quiet_ends.specs.QuietEnds.{DeliverAllOnceQuiet};
ghost use Rattle.sim_adapter.specs.Rule.{opened, MayGrow};
ghost use Rattle.sim_adapter.specs.Plays.{with_event, learned, AreMet};
ghost use Rattle.sim_adapter.specs.Passes.{known_by, history_of, IsOf, MayComeNext};
ghost use Rattle.sim_adapter.specs.Answers.{IsEmitted, IsTaken};

use crate::answer::{Emit, Taken};
use crate::link::Link;
use crate::pass::Pass;
use crate::place::{CUT_WORD, emitted_at, peer, place_of, posted_at, taken_at};
use crate::plays::{
    Cuts, HandOver, LookAtPeer, LookToEmit, LookToTake, Meet, Part, Posts, Publish, Retire, Says,
    Submits, Unite,
};
use crate::view::Ends;
use atomic_table::Table;
use smbd_base::{EndId, EndLimits, Frame, Message, NoMemory};
use std::alloc::Global;
use std::marker::Brand;

impl Link {
    /// A link, and the passes of its client and its server. Each has posted its receives. This call alone takes memory.
    pub fn open(
        alloc: Global,
        client: &EndLimits,
        server: &EndLimits,
    ) -> Result<(Link, Pass, Pass), NoMemory>
        ensures own { IfOk result (λ t. IsOf t.0 t.1 × IsOf t.0 t.2) }
        ensures client { IfOk result (λ t. known_by t.1 ≡ opened (record { client = client.now; server = server.now }) Client) }
        ensures server { IfOk result (λ t. known_by t.2 ≡ opened (record { client = client.now; server = server.now }) Server) }
    {
        let ends = Ends {
            client: *client,
            server: *server,
        };
        let client_credits = client.credits();
        let server_credits = server.credits();
        let words = [
            0,
            u64::from(client_credits),
            0,
            0,
            u64::from(server_credits),
            0,
            0,
        ];
        let slots = usize::from(client_credits) + usize::from(server_credits);
        let (table, mut seat) = Table::vacant(alloc, &words, slots, &ends)?;
        let server_seat = table.shared.split_seat::<Part>(&mut seat);
        let client_pass = Pass::new(seat, EndId::Client, &ends);
        let server_pass = Pass::new(server_seat, EndId::Server, &ends);
        Ok((Link { table }, client_pass, server_pass))
    }

    /// The end has posted so many receives.
    pub fn post(&self, pass: &mut Pass, n: u16)
        requires own { IsOf self.now pass.old }
        requires legal { MayComeNext (events.Post n) (known_by pass.old) }
        requires few { MayGrow (history_of pass.old) }
        ensures own { IsOf self.now pass.new }
        ensures told { known_by pass.new ≡ with_event (known_by pass.old) (events.Post n) }
    {
        let count = u64::from(n);
        self.table
            .shared
            .fetch_add::<Posts>(&mut pass.seat, posted_at(pass.side), count);
    }

    /// The message was submitted at the end.
    pub fn submitted(&self, pass: &mut Pass, message: &Message)
        requires own { IsOf self.now pass.old }
        requires legal { MayComeNext (events.Submit message.now) (known_by pass.old) }
        requires few { MayGrow (history_of pass.old) }
        ensures own { IsOf self.now pass.new }
        ensures told { known_by pass.new ≡ with_event (known_by pass.old) (events.Submit message.now) }
    {
        self.submit::<Brand>(pass, message);
    }

    /// The same; `J` says which message it is, since a step sees only numbers.
    fn submit<J: Says>(&self, pass: &mut Pass, message: &Message)
        requires said { message.now ≡ J.message }
        requires own { IsOf self.now pass.old }
        requires legal { MayComeNext (events.Submit J.message) (known_by pass.old) }
        requires few { MayGrow (history_of pass.old) }
        ensures own { IsOf self.now pass.new }
        ensures told { known_by pass.new ≡ with_event (known_by pass.old) (events.Submit J.message) }
    {
        let _ = message;
        self.table
            .shared
            .load::<Submits<J>>(&mut pass.seat, CUT_WORD);
    }

    /// Sends the frame that comes next, or hands it back where the link is cut; then the history is as it was.
    pub fn emit(&self, pass: &mut Pass, frame: Frame) -> Emit
        requires own { IsOf self.now pass.old }
        requires legal { MayComeNext (events.Emit frame) (known_by pass.old) }
        requires few { MayGrow (history_of pass.old) }
        ensures own { IsOf self.now pass.new }
        ensures told { IsEmitted result frame (known_by pass.old) (known_by pass.new) }
    {
        let shared = &self.table.shared;
        if shared.load::<LookToEmit>(&mut pass.seat, CUT_WORD) != 0 {
            return Emit::Cut(frame);
        }
        let place = place_of(&pass.ends, pass.side, pass.emitted);
        shared.exchange(&mut pass.seat, place, Some(frame));
        shared.fetch_add::<Publish>(&mut pass.seat, emitted_at(pass.side), 1);
        pass.emitted += 1;
        Emit::Sent
    }

    /// Takes the oldest frame in flight, where there is one and the link is not cut.
    pub fn take(&self, pass: &mut Pass) -> Taken
        requires own { IsOf self.now pass.old }
        requires uncut { is_cut (history_of pass.old) ≡ false }
        requires reposted { is_post_due (history_of pass.old) ≡ false }
        requires few { MayGrow (history_of pass.old) }
        ensures own { IsOf self.now pass.new }
        ensures told { IsTaken result (known_by pass.old) (known_by pass.new) }
    {
        let shared = &self.table.shared;
        if shared.load::<LookToTake>(&mut pass.seat, CUT_WORD) != 0 {
            return Taken::Cut;
        }
        let other = peer(pass.side);
        let found = shared.load::<LookAtPeer>(&mut pass.seat, emitted_at(other));
        if found == pass.taken {
            return Taken::Empty;
        }
        let place = place_of(&pass.ends, other, pass.taken);
        let frame = shared.exchange(&mut pass.seat, place, None).unwrap();
        shared.fetch_add::<Retire>(&mut pass.seat, taken_at(pass.side), 1);
        pass.taken += 1;
        Taken::Got(frame)
    }

    /// Cuts the link and the end. An end that learns of a cut calls it too.
    pub fn cut(&self, pass: &mut Pass)
        requires own { IsOf self.now pass.old }
        requires uncut { is_cut (history_of pass.old) ≡ false }
        requires few { MayGrow (history_of pass.old) }
        ensures own { IsOf self.now pass.new }
        ensures told { known_by pass.new ≡ with_event (known_by pass.old) events.Cut }
    {
        self.table.shared.swap::<Cuts>(&mut pass.seat, CUT_WORD, 1);
    }

    /// Both ends meet: their histories fit together, and each has then seen all that the other sent. So they have sent few messages
    /// without payload, and where both are quiet all that was submitted is delivered.
    pub fn meet(&self, client: &mut Pass, server: &mut Pass)
        requires own { IsOf self.now client.old × IsOf self.now server.old }
        requires sides { ((known_by client.old).side ≡ Client) × ((known_by server.old).side ≡ Server) }
        ensures own { IsOf self.now client.new × IsOf self.now server.new }
        ensures client { known_by client.new ≡ learned (known_by client.old) (length (emitted_frames (history_of server.old))) }
        ensures server { known_by server.new ≡ learned (known_by server.old) (length (emitted_frames (history_of client.old))) }
        ensures met { AreMet (known_by client.new) (known_by server.new) }
        ensures few_empty { SendFewEmpty (known_by client.new).ends.client (known_by client.new).ends.server (history_of client.new) (history_of server.new) }
        ensures quiet { DeliverAllOnceQuiet (known_by client.new).ends.client (known_by client.new).ends.server (history_of client.new) (history_of server.new) }
    {
        let shared = &self.table.shared;
        let handed = shared.split_seat::<HandOver>(&mut server.seat);
        shared.join_seat::<Unite>(&mut client.seat, handed);
        shared.load::<Meet>(&mut client.seat, CUT_WORD);
        let back = shared.split_seat::<Part>(&mut client.seat);
        shared.join_seat::<Unite>(&mut server.seat, back);
    }

    /// Lets go of the link, and of what is still in flight.
    pub fn close(self, client: Pass, server: Pass) {
        drop(client);
        drop(server);
        drop(self);
    }
}
