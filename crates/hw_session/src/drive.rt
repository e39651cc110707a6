//! Driving a session with a peer.

ghost use Rattle.std.specs.Prelude.{◌≡◌, ◌⊎◌, ◌<◌, ◌≤◌, [], List, Option, take, true, false, length, Err, IfOk, All};
ghost use Rattle.hw_types.specs.Spelling.{FrameFits, instance_of};
ghost use Rattle.hw_types.specs.declared.answers.Frame.TheVariants as frame;
ghost use Rattle.hw_io.specs.{Faults.{raised}, Doors.{Session, AsksMore}};
ghost use Rattle.hw_link.specs.Asked.{IsAskedInside, IsAskedBehind, IsPrompt};
ghost use Rattle.hw_link.specs.Frames.{byte_limit, frame_here, framed, sent_bytes};
ghost use Rattle.hw_link.specs.Links.{after_part, IsLinkCounted};
ghost use Rattle.hw_link.specs.Sent.{Sends};
ghost use Rattle.hw_link.specs.Told.{door_told};
ghost use Rattle.hw_session.specs.declared.stage.Stage.TheVariants as stage;
ghost use Rattle.hw_session.specs.Driving.{Driver, driven_said, hello, greeting, leave, want, pull, push, to_push, drive_step, drive_at, drive_greeting, drive_pushing, drive_have, drive_pulling, drive_wanting};
ghost use Rattle.hw_session.specs.Outside.{door_calls, reading};
ghost use Rattle.hw_session.specs.Handling.{Quits, IsLogCounted, IsLogEnd, IsLinkEnd};
ghost use Rattle.hw_session.specs.DriveHandling.{IsDue, ReactsAs, AnswersAs, HandlesAs};
ghost use Rattle.hw_session.specs.Drives.{DrivesThere, DrivesPeer, DrivesNone};
ghost use Rattle.hw_session.specs.Standing.{standing, driver_standing};
ghost use Rattle.hw_core.specs.Readers.{unmet_in};

use crate::answer::send_vertex;
use crate::node::Node;
use crate::say::say;
use crate::stage::{Onward, PeerMark, Stage};
use hw_io::{Door, Files};
use hw_link::{BYTE_LIMIT, SessionEnd, read_frame};
use hw_types::{Frame, MAX_LIST, Need, NeedList, OutOfMemory};

/// How many more times a peer is asked for its journal after the first.
const MOST_AGAIN: u64 = 64;

/// How many needs are wanted of a peer.
const MOST_WANTED: usize = 64;

impl Node {
    /// Dials the peer of this address and drives a session with it. Then it hangs up.
    ///
    /// It says Hello, and the peer's Hello is of the same instance. It pushes the vertices of its journal from
    /// the mark `pushed` on, 256 at most. The peer answers each with a Want, which moves the mark and isn't acted
    /// on.
    ///
    /// Then it asks for the peer's journal from the mark `pulled` on. Each Have moves the mark, and it asks again
    /// while the mark moved, but no more than 64 times. What comes is delivered with its verdict, and an accepted
    /// vertex goes last in the log.
    ///
    /// Last it wants the first 64 needs that parked units miss, if there are some, and then says Done. The marks
    /// keep what they reached, however the session ends.
    ///
    /// The session ends as `BadFrame`, with the place of the frame's first byte, at a frame that isn't due, spells
    /// nothing or is cut. It ends as `EndOfInput` where the peer's bytes end and no frame is cut. It ends as
    /// `ByteLimit` at 268,435,456 bytes, once the frame that ends with them was handled. A failed call of the door
    /// is `LinkFault`. The other ends have the causes that [`SessionEnd`] names.
    pub fn drive_one<D: Door, F: Files>(
        &mut self,
        mark: &mut PeerMark,
        address: &str,
        door: &mut D,
        files: &mut F,
    ) -> SessionEnd
        ensures driven { DrivesPeer F.tells address.now (driver_standing self.old mark.old (F.held files.old)) (driver_standing self.new mark.new (F.held files.new)) (door_told (D.sessions door.old) (D.ends door.old)) (door_told (D.sessions door.new) (D.ends door.new)) result
            ⊎ DrivesNone F.tells (driver_standing self.old mark.old (F.held files.old)) (driver_standing self.new mark.new (F.held files.new)) (D.sessions door.old) (D.sessions door.new) result }
        ensures prompt { All (IsPrompt (driven_said self.old mark.old)) (D.asks door.new) }
        ensures link { IsLinkEnd (D.faults door.old) (D.faults door.new) result }
        ensures appends { IsLogEnd (F.append_faults files.old) (F.append_faults files.new) result }

        ensures closed { D.is_open door.new ≡ false }
        ensures dials { D.dials door.new ≡ raised (D.dials door.old) }
        ensures accepts { D.accepts door.new ≡ D.accepts door.old }
        ensures begun { F.begun files.new ≡ F.begun files.old }
        ensures allowance { F.allowance files.new ≡ F.allowance files.old }
        ensures reads { F.read_faults files.new ≡ F.read_faults files.old }
    {
        match door.dial(address) {
            Ok(()) => {
                let end = self.drive(mark, door, files);
                door.hang_up();
                end
            }
            Err(fault) => SessionEnd::from(fault),
        }
    }

    /// Drives a session with the peer that is there, up to its end.
    fn drive<D: Door, F: Files>(
        &mut self,
        mark: &mut PeerMark,
        door: &mut D,
        files: &mut F,
    ) -> SessionEnd
        requires open { D.is_open door.old ≡ true }
        ensures driven { DrivesThere F.tells (driver_standing self.old mark.old (F.held files.old)) (driver_standing self.new mark.new (F.held files.new)) (door_told (D.sessions door.old) (D.ends door.old)) (door_told (D.sessions door.new) (D.ends door.new)) result }
        ensures asks { AsksMore (IsAskedBehind (driven_said self.old mark.old) (D.sessions door.old)) (D.asks door.old) (D.asks door.new) }
        ensures link { IsLinkEnd (D.faults door.old) (D.faults door.new) result }
        ensures appends { IsLogEnd (F.append_faults files.old) (F.append_faults files.new) result }

        ensures accepts { D.accepts door.new ≡ D.accepts door.old }
        ensures dials { D.dials door.new ≡ D.dials door.old }
        ensures reading { reading (F.begun files.new) (F.allowance files.new) (F.read_faults files.new) ≡ reading (F.begun files.old) (F.allowance files.old) (F.read_faults files.old) }
    {
        match self.say_hello(door) {
            Ok(()) => self.drive_frames(mark, door, files),
            Err(end) => end,
        }
    }

    /// Says Hello.
    fn say_hello<D: Door>(&self, door: &mut D) -> Result<(), SessionEnd>
        requires open { D.is_open door.old ≡ true }
        ensures sent { Sends (framed (frame.Hello (instance_of self.now.core.config))) (D.sessions door.old) (D.sessions door.new) result }
        ensures link { IsLinkCounted (D.faults door.old) (D.faults door.new) result }

        ensures door { door_calls (D.is_open door.new) (D.ends door.new) (D.accepts door.new) (D.dials door.new) (D.asks door.new) ≡ door_calls (D.is_open door.old) (D.ends door.old) (D.accepts door.old) (D.dials door.old) (D.asks door.old) }
    {
        say(self.alloc, door, Frame::Hello(self.instance()))
    }

    /// Handles the frames of a peer to which it said Hello, up to the end of the session.
    fn drive_frames<D: Door, F: Files>(
        &mut self,
        mark: &mut PeerMark,
        door: &mut D,
        files: &mut F,
    ) -> SessionEnd
        requires open { D.is_open door.old ≡ true }
        ensures driven { (first : Option (List Session)) → D.sessions door.old ≡ after_part [] (sent_bytes (hello self.old)) false first → DrivesThere F.tells (driver_standing self.old mark.old (F.held files.old)) (driver_standing self.new mark.new (F.held files.new)) (door_told first (D.ends door.old)) (door_told (D.sessions door.new) (D.ends door.new)) result }
        ensures asks { (first : Option (List Session)) → D.sessions door.old ≡ after_part [] (sent_bytes (hello self.old)) false first → AsksMore (IsAskedBehind (driven_said self.old mark.old) first) (D.asks door.old) (D.asks door.new) }
        ensures link { IsLinkEnd (D.faults door.old) (D.faults door.new) result }
        ensures appends { IsLogEnd (F.append_faults files.old) (F.append_faults files.new) result }

        ensures accepts { D.accepts door.new ≡ D.accepts door.old }
        ensures dials { D.dials door.new ≡ D.dials door.old }
        ensures reading { reading (F.begun files.new) (F.allowance files.new) (F.read_faults files.new) ≡ reading (F.begun files.old) (F.allowance files.old) (F.read_faults files.old) }
    {
        let mut place = 0;
        let mut stage = Stage::Greeting;
        while place < BYTE_LIMIT {
            match self.drive_next(mark, door, files, place, stage) {
                Ok(onward) => {
                    place = onward.place;
                    stage = onward.stage;
                }
                Err(end) => return end,
            }
        }
        SessionEnd::ByteLimit
    }

    /// Reads the frame that begins at this place of the session and handles it, waiting for this. Answers the
    /// place after it and what is waited for then, or how the session ends.
    fn drive_next<D: Door, F: Files>(
        &mut self,
        mark: &mut PeerMark,
        door: &mut D,
        files: &mut F,
        place: u64,
        stage: Stage,
    ) -> Result<Onward, SessionEnd>
        requires place { place ≤ BYTE_LIMIT }
        requires due { IsDue stage self.old mark.old }
        requires open { D.is_open door.old ≡ true }
        ensures driven { (Quits F.tells (standing self.old (F.held files.old)) place (standing self.new (F.held files.new)) (door_told (D.sessions door.old) (D.ends door.old)) (door_told (D.sessions door.new) (D.ends door.new)) result × (mark.new ≡ mark.old))
            ⊎ HandlesAs F.tells (record { stage = stage; node = self.old; mark = mark.old }) (F.held files.old) place (driver_standing self.new mark.new (F.held files.new)) (door_told (D.sessions door.old) (D.ends door.old)) (door_told (D.sessions door.new) (D.ends door.new)) result }
        ensures asks { AsksMore (IsAskedInside frame_here place [] (D.sessions door.old)) (D.asks door.old) (D.asks door.new) }
        ensures next { IfOk result (λ onward. (place < onward.place) × (onward.place ≤ BYTE_LIMIT)) }
        ensures link { IsLinkCounted (D.faults door.old) (D.faults door.new) result }
        ensures appends { IsLogCounted (F.append_faults files.old) (F.append_faults files.new) result }

        ensures open { D.is_open door.new ≡ true }
        ensures accepts { D.accepts door.new ≡ D.accepts door.old }
        ensures dials { D.dials door.new ≡ D.dials door.old }
        ensures reading { reading (F.begun files.new) (F.allowance files.new) (F.read_faults files.new) ≡ reading (F.begun files.old) (F.allowance files.old) (F.read_faults files.old) }
    {
        let heard = read_frame(self.alloc, door, place)?;
        let stage = self.drive_frame(mark, door, files, place, stage, heard.frame)?;
        Ok(Onward {
            place: heard.next,
            stage,
        })
    }

    /// Handles the frame that begins at this place of the session, waiting for this. What is waited for then.
    fn drive_frame<D: Door, F: Files>(
        &mut self,
        mark: &mut PeerMark,
        door: &mut D,
        files: &mut F,
        place: u64,
        stage: Stage,
        frame: Frame,
    ) -> Result<Stage, SessionEnd>
        requires fits { FrameFits frame }
        requires due { IsDue stage self.old mark.old }
        requires open { D.is_open door.old ≡ true }
        ensures reacts { ReactsAs F.tells (standing self.old (F.held files.old)) frame (drive_at stage (record { stage = stage; node = self.old; mark = mark.old }) place frame) (driver_standing self.new mark.new (F.held files.new)) (D.sessions door.old) (D.sessions door.new) result }
        ensures link { IsLinkCounted (D.faults door.old) (D.faults door.new) result }
        ensures appends { IsLogCounted (F.append_faults files.old) (F.append_faults files.new) result }

        ensures door { door_calls (D.is_open door.new) (D.ends door.new) (D.accepts door.new) (D.dials door.new) (D.asks door.new) ≡ door_calls (D.is_open door.old) (D.ends door.old) (D.accepts door.old) (D.dials door.old) (D.asks door.old) }
        ensures reading { reading (F.begun files.new) (F.allowance files.new) (F.read_faults files.new) ≡ reading (F.begun files.old) (F.allowance files.old) (F.read_faults files.old) }
    {
        match stage {
            Stage::Greeting => {
                let next = self.drive_greeting(*mark, door, place, &frame);
                // For the prover: each frame that an arm doesn't hand on is dropped by one call.
                drop(frame);
                next
            }
            Stage::Pushing(left) => {
                let next = self.drive_pushing(mark, door, place, left, &frame);
                // For the prover, as above.
                drop(frame);
                next
            }
            Stage::Pulling(again) => self.drive_pulling(mark, door, files, place, again, frame),
            Stage::Wanting => self.drive_wanting(*mark, door, files, place, frame),
            Stage::Leaving => match frame {
                Frame::Done => {
                    // For the prover, as above.
                    drop(frame);
                    Err(SessionEnd::Done)
                }
                _ => {
                    // For the prover, as above.
                    drop(frame);
                    Err(SessionEnd::BadFrame(place))
                }
            },
        }
    }

    /// Handles the first frame, which is a Hello of the own instance, and begins to push.
    fn drive_greeting<D: Door>(
        &self,
        mark: PeerMark,
        door: &mut D,
        place: u64,
        frame: &Frame,
    ) -> Result<Stage, SessionEnd>
        requires open { D.is_open door.old ≡ true }
        ensures answers { AnswersAs self.now mark (drive_greeting (greeting self.now mark) place frame.now) (D.sessions door.old) (D.sessions door.new) result }
        ensures link { IsLinkCounted (D.faults door.old) (D.faults door.new) result }

        ensures door { door_calls (D.is_open door.new) (D.ends door.new) (D.accepts door.new) (D.dials door.new) (D.asks door.new) ≡ door_calls (D.is_open door.old) (D.ends door.old) (D.accepts door.old) (D.dials door.old) (D.asks door.old) }
    {
        match frame {
            Frame::Hello(instance) => {
                let _own = self.own_instance(*instance)?;
                self.push(mark, door, self.to_push(mark))
            }
            _ => Err(SessionEnd::BadFrame(place)),
        }
    }

    /// How many vertices are pushed in a session.
    fn to_push(&self, mark: PeerMark) -> u64
        ensures { result ≡ to_push (greeting self.now mark) }
    {
        self.core
            .journal_count()
            .saturating_sub(mark.pushed)
            .min(MAX_LIST as u64)
    }

    /// Pushes the next vertex, and begins to pull where none is left to push. `left` are still to be pushed.
    fn push<D: Door>(&self, mark: PeerMark, door: &mut D, left: u64) -> Result<Stage, SessionEnd>
        requires open { D.is_open door.old ≡ true }
        ensures answers { AnswersAs self.now mark (push (greeting self.now mark) left) (D.sessions door.old) (D.sessions door.new) result }
        ensures link { IsLinkCounted (D.faults door.old) (D.faults door.new) result }

        ensures door { door_calls (D.is_open door.new) (D.ends door.new) (D.accepts door.new) (D.dials door.new) (D.asks door.new) ≡ door_calls (D.is_open door.old) (D.ends door.old) (D.accepts door.old) (D.dials door.old) (D.asks door.old) }
    {
        if left == 0 || mark.pushed >= self.core.journal_count() {
            return self.pull(mark, door, MOST_AGAIN);
        }
        send_vertex(self.alloc, door, self.core.journal_at(mark.pushed))?;
        Ok(Stage::Pushing(left - 1))
    }

    /// Handles the Want for the vertex that was pushed.
    fn drive_pushing<D: Door>(
        &self,
        mark: &mut PeerMark,
        door: &mut D,
        place: u64,
        left: u64,
        frame: &Frame,
    ) -> Result<Stage, SessionEnd>
        requires due { mark.old.pushed < length self.now.core.journal }
        requires open { D.is_open door.old ≡ true }
        ensures answers { AnswersAs self.now mark.new (drive_pushing (record { stage = stage.Pushing left; node = self.now; mark = mark.old }) left place frame.now) (D.sessions door.old) (D.sessions door.new) result }
        ensures marks { mark.new ≡ (drive_pushing (record { stage = stage.Pushing left; node = self.now; mark = mark.old }) left place frame.now).state.mark }
        ensures link { IsLinkCounted (D.faults door.old) (D.faults door.new) result }

        ensures door { door_calls (D.is_open door.new) (D.ends door.new) (D.accepts door.new) (D.dials door.new) (D.asks door.new) ≡ door_calls (D.is_open door.old) (D.ends door.old) (D.accepts door.old) (D.dials door.old) (D.asks door.old) }
    {
        match frame {
            Frame::Want(_) => {
                // For the prover: recalls that the length is a number of 64 bits.
                let _count = self.core.journal_count();
                mark.pushed += 1;
                self.push(*mark, door, left)
            }
            _ => Err(SessionEnd::BadFrame(place)),
        }
    }

    /// Asks for the peer's journal from the mark on, which may be asked for `again` more times.
    fn pull<D: Door>(&self, mark: PeerMark, door: &mut D, again: u64) -> Result<Stage, SessionEnd>
        requires open { D.is_open door.old ≡ true }
        ensures answers { AnswersAs self.now mark (pull (greeting self.now mark) again) (D.sessions door.old) (D.sessions door.new) result }
        ensures link { IsLinkCounted (D.faults door.old) (D.faults door.new) result }

        ensures door { door_calls (D.is_open door.new) (D.ends door.new) (D.accepts door.new) (D.dials door.new) (D.asks door.new) ≡ door_calls (D.is_open door.old) (D.ends door.old) (D.accepts door.old) (D.dials door.old) (D.asks door.old) }
    {
        say(self.alloc, door, Frame::Have(mark.pulled))?;
        Ok(Stage::Pulling(again))
    }

    /// Handles a vertex of the peer's journal, or the Have after them with the place that they reach.
    fn drive_pulling<D: Door, F: Files>(
        &mut self,
        mark: &mut PeerMark,
        door: &mut D,
        files: &mut F,
        place: u64,
        again: u64,
        frame: Frame,
    ) -> Result<Stage, SessionEnd>
        requires fits { FrameFits frame }
        requires open { D.is_open door.old ≡ true }
        ensures reacts { ReactsAs F.tells (standing self.old (F.held files.old)) frame (drive_pulling (record { stage = stage.Pulling again; node = self.old; mark = mark.old }) again place frame) (driver_standing self.new mark.new (F.held files.new)) (D.sessions door.old) (D.sessions door.new) result }
        ensures link { IsLinkCounted (D.faults door.old) (D.faults door.new) result }
        ensures appends { IsLogCounted (F.append_faults files.old) (F.append_faults files.new) result }

        ensures door { door_calls (D.is_open door.new) (D.ends door.new) (D.accepts door.new) (D.dials door.new) (D.asks door.new) ≡ door_calls (D.is_open door.old) (D.ends door.old) (D.accepts door.old) (D.dials door.old) (D.asks door.old) }
        ensures reading { reading (F.begun files.new) (F.allowance files.new) (F.read_faults files.new) ≡ reading (F.begun files.old) (F.allowance files.old) (F.read_faults files.old) }
    {
        match frame {
            Frame::Vertex(vertex) => {
                let _taken = self.receive(files, vertex)?;
                Ok(Stage::Pulling(again))
            }
            Frame::Have(told) => self.drive_have(mark, door, again, told),
            _ => Err(SessionEnd::BadFrame(place)),
        }
    }

    /// Moves the mark to the place of a Have. Asks for more where that moved it and `again` isn't 0. Otherwise
    /// wants what parked units miss.
    fn drive_have<D: Door>(
        &self,
        mark: &mut PeerMark,
        door: &mut D,
        again: u64,
        told: u64,
    ) -> Result<Stage, SessionEnd>
        requires open { D.is_open door.old ≡ true }
        ensures answers { AnswersAs self.now mark.new (drive_have (greeting self.now mark.old) again told) (D.sessions door.old) (D.sessions door.new) result }
        ensures marks { mark.new ≡ (drive_have (greeting self.now mark.old) again told).state.mark }
        ensures link { IsLinkCounted (D.faults door.old) (D.faults door.new) result }

        ensures door { door_calls (D.is_open door.new) (D.ends door.new) (D.accepts door.new) (D.dials door.new) (D.asks door.new) ≡ door_calls (D.is_open door.old) (D.ends door.old) (D.accepts door.old) (D.dials door.old) (D.asks door.old) }
    {
        let before = mark.pulled;
        mark.pulled = told;
        if again == 0 || told == before {
            return self.want(*mark, door);
        }
        self.pull(*mark, door, again - 1)
    }

    /// Wants what parked units miss, if they miss something, and says Done otherwise.
    fn want<D: Door>(&self, mark: PeerMark, door: &mut D) -> Result<Stage, SessionEnd>
        requires open { D.is_open door.old ≡ true }
        ensures answers { AnswersAs self.now mark (want (greeting self.now mark)) (D.sessions door.old) (D.sessions door.new) result }
        ensures link { IsLinkCounted (D.faults door.old) (D.faults door.new) result }

        ensures door { door_calls (D.is_open door.new) (D.ends door.new) (D.accepts door.new) (D.dials door.new) (D.asks door.new) ≡ door_calls (D.is_open door.old) (D.ends door.old) (D.accepts door.old) (D.dials door.old) (D.asks door.old) }
    {
        let needs = self.unmet()?;
        self.want_these(mark, door, needs)
    }

    /// Wants these needs, which are what parked units miss first, and says Done where there are none.
    fn want_these<D: Door>(
        &self,
        mark: PeerMark,
        door: &mut D,
        needs: NeedList,
    ) -> Result<Stage, SessionEnd>
        requires needs { needs ≡ take 64 (unmet_in self.now.core) }
        requires few { length needs ≤ 64 }
        requires open { D.is_open door.old ≡ true }
        ensures answers { AnswersAs self.now mark (want (greeting self.now mark)) (D.sessions door.old) (D.sessions door.new) result }
        ensures link { IsLinkCounted (D.faults door.old) (D.faults door.new) result }

        ensures door { door_calls (D.is_open door.new) (D.ends door.new) (D.accepts door.new) (D.dials door.new) (D.asks door.new) ≡ door_calls (D.is_open door.old) (D.ends door.old) (D.accepts door.old) (D.dials door.old) (D.asks door.old) }
    {
        if needs.len() == 0 {
            return self.leave(mark, door);
        }
        say(self.alloc, door, Frame::Want(needs))?;
        Ok(Stage::Wanting)
    }

    /// The first 64 needs that parked units miss.
    fn unmet(&self) -> Result<NeedList, OutOfMemory>
        ensures unmet { IfOk result (λ needs. needs ≡ take 64 (unmet_in self.now.core)) }
        ensures few { IfOk result (λ needs. length needs ≤ 64) }
    {
        let mut list = [Need::Evidence(0); MOST_WANTED];
        let count = self.core.first_unmet(&mut list);
        let mut needs = NeedList::new(self.alloc);
        needs.extend(&list[..count])?;
        Ok(needs)
    }

    /// Handles what was wanted, or that it is missing, and the Have after it.
    fn drive_wanting<D: Door, F: Files>(
        &mut self,
        mark: PeerMark,
        door: &mut D,
        files: &mut F,
        place: u64,
        frame: Frame,
    ) -> Result<Stage, SessionEnd>
        requires fits { FrameFits frame }
        requires open { D.is_open door.old ≡ true }
        ensures reacts { ReactsAs F.tells (standing self.old (F.held files.old)) frame (drive_wanting (record { stage = stage.Wanting; node = self.old; mark = mark }) place frame) (driver_standing self.new mark (F.held files.new)) (D.sessions door.old) (D.sessions door.new) result }
        ensures link { IsLinkCounted (D.faults door.old) (D.faults door.new) result }
        ensures appends { IsLogCounted (F.append_faults files.old) (F.append_faults files.new) result }

        ensures door { door_calls (D.is_open door.new) (D.ends door.new) (D.accepts door.new) (D.dials door.new) (D.asks door.new) ≡ door_calls (D.is_open door.old) (D.ends door.old) (D.accepts door.old) (D.dials door.old) (D.asks door.old) }
        ensures reading { reading (F.begun files.new) (F.allowance files.new) (F.read_faults files.new) ≡ reading (F.begun files.old) (F.allowance files.old) (F.read_faults files.old) }
    {
        match frame {
            Frame::Vertex(vertex) => {
                let _taken = self.receive(files, vertex)?;
                Ok(Stage::Wanting)
            }
            Frame::Missing(_) => Ok(Stage::Wanting),
            Frame::Have(_) => self.leave(mark, door),
            _ => Err(SessionEnd::BadFrame(place)),
        }
    }

    /// Says Done. For the prover: `mark` is there for the contract alone.
    fn leave<D: Door>(&self, mark: PeerMark, door: &mut D) -> Result<Stage, SessionEnd>
        requires open { D.is_open door.old ≡ true }
        ensures answers { AnswersAs self.now mark (leave (greeting self.now mark)) (D.sessions door.old) (D.sessions door.new) result }
        ensures link { IsLinkCounted (D.faults door.old) (D.faults door.new) result }

        ensures door { door_calls (D.is_open door.new) (D.ends door.new) (D.accepts door.new) (D.dials door.new) (D.asks door.new) ≡ door_calls (D.is_open door.old) (D.ends door.old) (D.accepts door.old) (D.dials door.old) (D.asks door.old) }
    {
        say(self.alloc, door, Frame::Done)?;
        Ok(Stage::Leaving)
    }
}
