//! Serving a peer.

ghost use Rattle.std.specs.Prelude.{◌≡◌, ◌⊎◌, ◌<◌, ◌≤◌, [], true, false, IfOk, All};
ghost use Rattle.hw_types.specs.{Spelling.{FrameFits, VertexFits}, declared.unit.Vertex.{Vertex}};
ghost use Rattle.hw_types.specs.declared.answers.Frame.TheVariants as frame;
ghost use Rattle.hw_io.specs.{Doors.{AsksMore}, Faults.{raised}};
ghost use Rattle.hw_link.specs.{Asked.{IsAskedInside, IsAskedBehind, IsPrompt}, Frames.{frame_here, framed}, Links.{IsLinkCounted}, Sent.{Sends}};
ghost use Rattle.hw_link.specs.Told.{door_told};
ghost use Rattle.hw_session.specs.Outside.{door_calls, reading};
ghost use Rattle.hw_session.specs.Serving.{served_said, serve_first, serve_frame, serve_vertex, serve_step, wanted_by};
ghost use Rattle.hw_session.specs.Handling.{Reacts, Answers, hello_of, StandsLast, Quits, Handles, IsLogCounted, IsLogEnd, IsLinkEnd};
ghost use Rattle.hw_session.specs.Sessions.{ServesThere, ServesPeer, ServesNone};
ghost use Rattle.hw_session.specs.Standing.{standing};

use crate::answer::{answer_have, answer_want, wanted};
use crate::node::Node;
use crate::say::say;
use hw_io::{Door, Files};
use hw_link::{BYTE_LIMIT, SessionEnd, read_frame};
use hw_types::{Digest, Frame, NeedList, Receipt, Vertex};

impl Node {
    /// Takes a peer and answers its frames, each before the next is read, up to the end of the session. Then
    /// it hangs up.
    ///
    /// The peer begins with a Hello, which is answered with one where it is of the own instance. Then:
    ///
    /// - A vertex is delivered with its verdict, and an accepted one goes last in the log. Then it is answered
    ///   with a Want of the first 256 needs that it misses.
    /// - A Have of a place is answered with the journal's vertices from there on, 256 at most. Then a Have of
    ///   the place after them is sent.
    /// - A Want is answered with what there is of each need, and a Have of the journal's length.
    /// - A Missing has no answer.
    /// - Done is answered with Done, which ends the session.
    ///
    /// The session ends as `BadFrame`, with the place of the frame's first byte, at a frame that isn't due,
    /// spells nothing or is cut. It ends as `EndOfInput` where the peer's bytes end and no frame is cut. It
    /// ends as `ByteLimit` at 268,435,456 bytes, once the frame that ends with them was answered. A failed call
    /// of the door is `LinkFault`. The other ends have the causes that [`SessionEnd`] names. After `AppendFault`
    /// and `Clash` the frame that led to them has no answer.
    pub fn serve_one<D: Door, F: Files>(&mut self, door: &mut D, files: &mut F) -> SessionEnd
        ensures served { ServesPeer F.tells (standing self.old (F.held files.old)) (standing self.new (F.held files.new)) (door_told (D.sessions door.old) (D.ends door.old)) (door_told (D.sessions door.new) (D.ends door.new)) result
            ⊎ ServesNone F.tells (standing self.old (F.held files.old)) (standing self.new (F.held files.new)) (D.sessions door.old) (D.sessions door.new) result }
        ensures prompt { All (IsPrompt (served_said self.old)) (D.asks door.new) }
        ensures link { IsLinkEnd (D.faults door.old) (D.faults door.new) result }
        ensures appends { IsLogEnd (F.append_faults files.old) (F.append_faults files.new) result }

        ensures closed { D.is_open door.new ≡ false }
        ensures accepts { D.accepts door.new ≡ raised (D.accepts door.old) }
        ensures dials { D.dials door.new ≡ D.dials door.old }
        ensures begun { F.begun files.new ≡ F.begun files.old }
        ensures allowance { F.allowance files.new ≡ F.allowance files.old }
        ensures reads { F.read_faults files.new ≡ F.read_faults files.old }
    {
        match door.accept() {
            Ok(()) => {
                let end = self.serve(door, files);
                door.hang_up();
                end
            }
            Err(fault) => SessionEnd::from(fault),
        }
    }

    /// Answers the frames of the peer that is there, up to the end of the session.
    fn serve<D: Door, F: Files>(&mut self, door: &mut D, files: &mut F) -> SessionEnd
        requires open { D.is_open door.old ≡ true }
        ensures served { ServesThere F.tells (standing self.old (F.held files.old)) (standing self.new (F.held files.new)) (door_told (D.sessions door.old) (D.ends door.old)) (door_told (D.sessions door.new) (D.ends door.new)) result }
        ensures asks { AsksMore (IsAskedBehind (served_said self.old) (D.sessions door.old)) (D.asks door.old) (D.asks door.new) }
        ensures link { IsLinkEnd (D.faults door.old) (D.faults door.new) result }
        ensures appends { IsLogEnd (F.append_faults files.old) (F.append_faults files.new) result }

        ensures accepts { D.accepts door.new ≡ D.accepts door.old }
        ensures dials { D.dials door.new ≡ D.dials door.old }
        ensures reading { reading (F.begun files.new) (F.allowance files.new) (F.read_faults files.new) ≡ reading (F.begun files.old) (F.allowance files.old) (F.read_faults files.old) }
    {
        let mut place = 0;
        while place < BYTE_LIMIT {
            match self.serve_next(door, files, place) {
                Ok(next) => place = next,
                Err(end) => return end,
            }
        }
        SessionEnd::ByteLimit
    }

    /// Reads the frame that begins at this place of the session and answers it. Gives the place after it, or
    /// how the session ends.
    fn serve_next<D: Door, F: Files>(
        &mut self,
        door: &mut D,
        files: &mut F,
        place: u64,
    ) -> Result<u64, SessionEnd>
        requires place { place ≤ BYTE_LIMIT }
        requires open { D.is_open door.old ≡ true }
        ensures served { Quits F.tells (standing self.old (F.held files.old)) place (standing self.new (F.held files.new)) (door_told (D.sessions door.old) (D.ends door.old)) (door_told (D.sessions door.new) (D.ends door.new)) result
            ⊎ Handles F.tells (standing self.old (F.held files.old)) place (standing self.new (F.held files.new)) (door_told (D.sessions door.old) (D.ends door.old)) (door_told (D.sessions door.new) (D.ends door.new)) result }
        ensures asks { AsksMore (IsAskedInside frame_here place [] (D.sessions door.old)) (D.asks door.old) (D.asks door.new) }
        ensures next { IfOk result (λ next. (place < next) × (next ≤ BYTE_LIMIT)) }
        ensures link { IsLinkCounted (D.faults door.old) (D.faults door.new) result }
        ensures appends { IsLogCounted (F.append_faults files.old) (F.append_faults files.new) result }

        ensures open { D.is_open door.new ≡ true }
        ensures accepts { D.accepts door.new ≡ D.accepts door.old }
        ensures dials { D.dials door.new ≡ D.dials door.old }
        ensures reading { reading (F.begun files.new) (F.allowance files.new) (F.read_faults files.new) ≡ reading (F.begun files.old) (F.allowance files.old) (F.read_faults files.old) }
    {
        let heard = read_frame(self.alloc, door, place)?;
        self.answer(door, files, place, heard.frame)?;
        Ok(heard.next)
    }

    /// Answers the frame that begins at this place of the session. A first frame that is no Hello ends it as
    /// `BadFrame`, and so does a later one that is.
    fn answer<D: Door, F: Files>(
        &mut self,
        door: &mut D,
        files: &mut F,
        place: u64,
        frame: Frame,
    ) -> Result<(), SessionEnd>
        requires fits { FrameFits frame }
        requires open { D.is_open door.old ≡ true }
        ensures reacts { Reacts F.tells (standing self.old (F.held files.old)) frame (serve_step self.old (record { at = place; frame = frame })) (standing self.new (F.held files.new)) (D.sessions door.old) (D.sessions door.new) result }
        ensures link { IsLinkCounted (D.faults door.old) (D.faults door.new) result }
        ensures appends { IsLogCounted (F.append_faults files.old) (F.append_faults files.new) result }

        ensures door { door_calls (D.is_open door.new) (D.ends door.new) (D.accepts door.new) (D.dials door.new) (D.asks door.new) ≡ door_calls (D.is_open door.old) (D.ends door.old) (D.accepts door.old) (D.dials door.old) (D.asks door.old) }
        ensures reading { reading (F.begun files.new) (F.allowance files.new) (F.read_faults files.new) ≡ reading (F.begun files.old) (F.allowance files.old) (F.read_faults files.old) }
    {
        if place == 0 {
            return self.answer_first(door, &frame);
        }
        match frame {
            Frame::Vertex(vertex) => self.answer_vertex(door, files, vertex),
            Frame::Hello(_instance) => Err(SessionEnd::BadFrame(place)),
            Frame::Have(from) => answer_have(self.alloc, &self.core, door, from),
            Frame::Want(needs) => answer_want(self.alloc, &self.core, door, needs.as_slice()),
            Frame::Missing(_need) => Ok(()),
            Frame::Done => self.answer_done(door),
        }
    }

    /// Answers the first frame. What is no Hello ends the session, and so does a Hello of another instance.
    fn answer_first<D: Door>(&self, door: &mut D, frame: &Frame) -> Result<(), SessionEnd>
        requires open { D.is_open door.old ≡ true }
        ensures answers { Answers (serve_first self.now frame.now) (D.sessions door.old) (D.sessions door.new) result }
        ensures link { IsLinkCounted (D.faults door.old) (D.faults door.new) result }

        ensures door { door_calls (D.is_open door.new) (D.ends door.new) (D.accepts door.new) (D.dials door.new) (D.asks door.new) ≡ door_calls (D.is_open door.old) (D.ends door.old) (D.accepts door.old) (D.dials door.old) (D.asks door.old) }
    {
        match hello_of(frame) {
            Some(instance) => self.answer_hello(door, instance),
            None => Err(SessionEnd::BadFrame(0)),
        }
    }

    /// Answers a Hello with one, if it is of the own instance.
    fn answer_hello<D: Door>(&self, door: &mut D, instance: Digest) -> Result<(), SessionEnd>
        requires open { D.is_open door.old ≡ true }
        ensures answers { Answers (serve_first self.now (frame.Hello instance)) (D.sessions door.old) (D.sessions door.new) result }
        ensures link { IsLinkCounted (D.faults door.old) (D.faults door.new) result }

        ensures door { door_calls (D.is_open door.new) (D.ends door.new) (D.accepts door.new) (D.dials door.new) (D.asks door.new) ≡ door_calls (D.is_open door.old) (D.ends door.old) (D.accepts door.old) (D.dials door.old) (D.asks door.old) }
    {
        let own = self.own_instance(instance)?;
        say(self.alloc, door, Frame::Hello(own))
    }

    /// Answers Done with Done, which ends the session.
    fn answer_done<D: Door>(&self, door: &mut D) -> Result<(), SessionEnd>
        requires open { D.is_open door.old ≡ true }
        ensures answers { Answers (serve_frame self.now 1 frame.Done) (D.sessions door.old) (D.sessions door.new) result }
        ensures link { IsLinkCounted (D.faults door.old) (D.faults door.new) result }

        ensures door { door_calls (D.is_open door.new) (D.ends door.new) (D.accepts door.new) (D.dials door.new) (D.asks door.new) ≡ door_calls (D.is_open door.old) (D.ends door.old) (D.accepts door.old) (D.dials door.old) (D.asks door.old) }
    {
        say(self.alloc, door, Frame::Done)?;
        Err(SessionEnd::Done)
    }

    /// Takes a vertex, and answers it with a Want, of nothing where it was refused. A clash ends the session without
    /// an answer.
    fn answer_vertex<D: Door, F: Files>(
        &mut self,
        door: &mut D,
        files: &mut F,
        vertex: Vertex,
    ) -> Result<(), SessionEnd>
        requires fits { VertexFits vertex }
        requires open { D.is_open door.old ≡ true }
        ensures reacts { Reacts F.tells (standing self.old (F.held files.old)) (frame.Vertex vertex) (serve_vertex self.old vertex) (standing self.new (F.held files.new)) (D.sessions door.old) (D.sessions door.new) result }
        ensures link { IsLinkCounted (D.faults door.old) (D.faults door.new) result }
        ensures appends { IsLogCounted (F.append_faults files.old) (F.append_faults files.new) result }

        ensures door { door_calls (D.is_open door.new) (D.ends door.new) (D.accepts door.new) (D.dials door.new) (D.asks door.new) ≡ door_calls (D.is_open door.old) (D.ends door.old) (D.accepts door.old) (D.dials door.old) (D.asks door.old) }
        ensures reading { reading (F.begun files.new) (F.allowance files.new) (F.read_faults files.new) ≡ reading (F.begun files.old) (F.allowance files.old) (F.read_faults files.old) }
    {
        let taken = self.receive(files, vertex)?;
        match taken {
            Some(receipt) => self.answer_receipt(door, receipt),
            None => say(self.alloc, door, Frame::Want(NeedList::new(self.alloc))),
        }
    }

    /// Answers a vertex that had this receipt with a Want of what it misses.
    fn answer_receipt<D: Door>(&self, door: &mut D, receipt: Receipt) -> Result<(), SessionEnd>
        requires open { D.is_open door.old ≡ true }
        ensures sent { (v : Vertex) → StandsLast receipt v self.now.core.journal → Sends (framed (frame.Want (wanted_by self.now.core receipt v))) (D.sessions door.old) (D.sessions door.new) result }
        ensures link { IsLinkCounted (D.faults door.old) (D.faults door.new) result }

        ensures door { door_calls (D.is_open door.new) (D.ends door.new) (D.accepts door.new) (D.dials door.new) (D.asks door.new) ≡ door_calls (D.is_open door.old) (D.ends door.old) (D.accepts door.old) (D.dials door.old) (D.asks door.old) }
    {
        let needs = wanted(self.alloc, &self.core, receipt)?;
        say(self.alloc, door, Frame::Want(needs))
    }
}

/// The instance of a Hello, None of another frame.
fn hello_of(frame: &Frame) -> Option<Digest>
    ensures { result ≡ hello_of frame.now }
{
    match frame {
        Frame::Hello(instance) => Some(*instance),
        Frame::Vertex(_) | Frame::Have(_) | Frame::Want(_) | Frame::Done | Frame::Missing(_) =>
            None,
    }
}
