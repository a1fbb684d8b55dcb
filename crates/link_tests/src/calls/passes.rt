//! The calls of a link itself, each beside that of an end which says what comes next.

ghost use Rattle.std.specs.Prelude.{◌≡◌};
ghost use Rattle.smbd_base.specs.declared.end_id.EndId.TheVariants as side;
ghost use Rattle.sim_adapter.specs.Passes.{known_by, IsOf};
ghost use Rattle.sim_adapter.specs.Rule.{opened, limits_of};
ghost use Rattle.link_tests.specs.Beside.{IsSameAs};

use crate::talker::{LAWFUL, MEMORY};
use EndId::{Client, Server};
use connection_core::End;
use sim_adapter::{Emit, Link, Pass, Taken};
use smbd_base::{EndId, EndLimits, Event, Frame, Message, Next};
use std::alloc::Global;
use std::process::Abort;

/// An end beside its pass.
#[derive(Drop)]
struct Pair {
    side: EndId,
    end: End,
    pass: Pass,
    ghost same: { IsSameAs side end (known_by pass) },
}

/// What an end took.
#[derive(Debug, Drop)]
enum Came {
    Frame(Frame),
    Empty,
    Cut,
}

impl Pair {
    /// An end of these limits beside the pass of one that was just opened.
    fn open(rt: &impl Abort, alloc: Global, side: EndId, limits: EndLimits, pass: Pass) -> Pair
        requires opened { known_by pass ≡ opened (known_by pass).ends side }
        requires limits { limits ≡ limits_of (known_by pass).ends side }
        ensures pass { result.pass ≡ pass }
        ensures side { result.side ≡ side }
    {
        let end = match side {
            EndId::Client => End::open_client(alloc, limits).expect(rt, MEMORY),
            EndId::Server => End::open_server(alloc, limits).expect(rt, MEMORY),
        };
        Pair { side, end, pass }
    }

    /// Posts the receives that come next.
    fn post(&mut self, rt: &impl Abort, link: &Link)
        requires own { IsOf link.now self.old.pass }
        ensures own { IsOf link.now self.new.pass }
        ensures side { self.new.side ≡ self.old.side }
    {
        assert!(rt; self.end.history().len() < 100);
        let Next::Post(n) = self.end.next().expect(rt, MEMORY) else {
            panic!(rt; "a receive is due");
        };
        link.post(&mut self.pass, n);
        self.end.commit();
    }

    /// Submits the message `abc`.
    fn submit(&mut self, rt: &impl Abort, alloc: Global, link: &Link)
        requires own { IsOf link.now self.old.pass }
        ensures own { IsOf link.now self.new.pass }
        ensures side { self.new.side ≡ self.old.side }
    {
        let message = Message::copy_of(alloc, b"abc").expect(rt, MEMORY);
        let copy = message.share().expect(rt, MEMORY);
        assert!(rt; self.end.history().len() < 100);
        assert!(rt; self.end.submit(copy).is_ok());
        link.submitted(&mut self.pass, &message);
    }

    /// Sends the frame that comes next, of so many bytes. Answers whether it is in flight; if not, it came back.
    fn emit(&mut self, rt: &impl Abort, link: &Link, len: usize) -> bool
        requires own { IsOf link.now self.old.pass }
        ensures own { IsOf link.now self.new.pass }
        ensures side { self.new.side ≡ self.old.side }
    {
        assert!(rt; self.end.history().len() < 100);
        let Next::Emit(frame) = self.end.next().expect(rt, MEMORY) else {
            panic!(rt; "a frame comes next");
        };
        assert!(rt; frame.len() == len);
        match link.emit(&mut self.pass, frame) {
            Emit::Sent => {
                self.end.commit();
                true
            }
            Emit::Cut(frame) => {
                assert!(rt; frame.len() == len);
                false
            }
        }
    }

    /// Takes what is in flight.
    fn take(&mut self, rt: &impl Abort, link: &Link) -> Came
        requires own { IsOf link.now self.old.pass }
        ensures own { IsOf link.now self.new.pass }
        ensures side { self.new.side ≡ self.old.side }
    {
        assert!(rt; self.end.history().len() < 100);
        assert!(rt; self.end.ready());
        match link.take(&mut self.pass) {
            Taken::Got(frame) => {
                let copy = frame.share().expect(rt, MEMORY);
                assert!(rt; self.end.take(frame).is_ok());
                Came::Frame(copy)
            }
            Taken::Empty => Came::Empty,
            Taken::Cut => Came::Cut,
        }
    }

    /// Cuts the link and the end.
    fn cut(&mut self, rt: &impl Abort, link: &Link)
        requires own { IsOf link.now self.old.pass }
        ensures own { IsOf link.now self.new.pass }
        ensures side { self.new.side ≡ self.old.side }
    {
        assert!(rt; self.end.history().len() < 100);
        assert!(rt; !self.end.is_cut());
        link.cut(&mut self.pass);
        self.end.cut();
    }
}

/// Both ends meet.
fn meet(link: &Link, client: &mut Pair, server: &mut Pair)
    requires client { IsOf link.now client.old.pass }
    requires server { IsOf link.now server.old.pass }
    requires sides { (client.old.side ≡ side.Client) × (server.old.side ≡ side.Server) }
    ensures client { IsOf link.now client.new.pass }
    ensures server { IsOf link.now server.new.pass }
    ensures sides { (client.new.side ≡ side.Client) × (server.new.side ≡ side.Server) }
{
    link.meet(&mut client.pass, &mut server.pass);
}

/// Whether this is the last frame that an end sent.
fn is_last_sent(end: &End, came: &Came) -> bool {
    match (end.history().last(), came) {
        (Some(Event::Emit(sent)), Came::Frame(frame)) => sent.bytes() == frame.bytes(),
        _ => false,
    }
}

/// A frame crosses the link. Until then, and after it, none is in flight.
fn cross(rt: &impl Abort, link: &Link, from: &mut Pair, to: &mut Pair, len: usize)
    requires from { IsOf link.now from.old.pass }
    requires to { IsOf link.now to.old.pass }
    ensures from { IsOf link.now from.new.pass }
    ensures to { IsOf link.now to.new.pass }
    ensures from_side { from.new.side ≡ from.old.side }
    ensures to_side { to.new.side ≡ to.old.side }
{
    assert!(rt; matches!(to.take(rt, link), Came::Empty));
    assert!(rt; from.emit(rt, link, len));
    let came = to.take(rt, link);
    assert!(rt; is_last_sent(&from.end, &came));
    to.post(rt, link);
    assert!(rt; matches!(to.take(rt, link), Came::Empty));
}

#[test]
fn frames_cross_a_link_until_it_is_cut(rt: HostRuntime) {
    let alloc = rt.alloc();
    let limits = EndLimits::check(4, 1_364, 1_364, 131_072, 64).expect(&rt, LAWFUL);
    let (link, client_pass, server_pass) = Link::open(alloc, &limits, &limits).expect(&rt, MEMORY);
    let mut client = Pair::open(&rt, alloc, Client, limits, client_pass);
    let mut server = Pair::open(&rt, alloc, Server, limits, server_pass);
    cross(&rt, &link, &mut client, &mut server, 20);
    meet(&link, &mut client, &mut server);
    cross(&rt, &link, &mut server, &mut client, 32);
    client.submit(&rt, alloc, &link);
    cross(&rt, &link, &mut client, &mut server, 27);
    server.cut(&rt, &link);
    client.submit(&rt, alloc, &link);
    assert!(&rt;
        !client.emit(&rt, &link, 27),
        "a frame comes back once the link is cut"
    );
    assert!(&rt; matches!(client.take(&rt, &link), Came::Cut));
    client.cut(&rt, &link);
    meet(&link, &mut client, &mut server);
    let Pair { pass, .. } = client;
    let Pair { pass: other, .. } = server;
    link.close(pass, other);
}
