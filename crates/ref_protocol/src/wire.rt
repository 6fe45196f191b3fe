//! What is read and sent: each frame that is read gets at most one answer, with its id.
ghost use Rattle.std.specs.Prelude.{◌≡◌, ◌<◌, ◌≤◌, ◌+◌, ◌-◌, ◌^◌, true, IfOk};
ghost use Rattle.ref_protocol.specs.Hearing.{IsHeard, IsKeptId, id_shown};

use crate::call::{id_text, message_of};
use crate::feed::{Feed, More, Next};
use crate::refusal::Refusal;
use crate::sending::{Unsent, answer, note, send};
use ref_streams::{Sink, Source};
use serde_json::Value;
use std::alloc::{AllocError, Global};

/// The frames of a source, and the sink that their answers go to.
#[derive(Drop)]
pub struct Wire<R: Drop, W: Drop> {
    // What is read and isn't taken yet.
    feed: Feed,
    source: R,
    sink: W,
    // The text of the id of the frame that was read last, where it has one.
    id: Option<String>,
    // Whether that frame may be answered.
    is_due: bool,
    // How many frames were read.
    frames: u64,
    // How many answers were sent.
    answers: u64,
    ghost at_most_one: { answers ≤ frames },
    ghost one_more: { is_due ≡ true → answers < frames },
}

/// What is heard.
#[derive(Drop)]
pub enum Heard {
    /// A frame: the message that its content is, or nothing where that is no JSON.
    Frame(Option<Value>),
    /// Nothing that is whole yet.
    Wait,
    /// A head that says no length, or one that is too long.
    Broken(&'static str),
}

impl<R: Source + Drop, W: Sink + Drop> Wire<R, W> {
    ghost use Rattle.std.specs.Prelude.{◌≡◌, ◌≤◌, ◌+◌, IsTrue, is_some, true, false, IfOk, OnOk};
    ghost use Rattle.std.specs.Io.KnownBytes.{Appends};
    ghost use Rattle.ref_protocol.specs.Frames.{frame_in};
    ghost use Rattle.ref_protocol.specs.Feeding.{IsFilled};
    ghost use Rattle.ref_protocol.specs.Replies.{frame_of};
    ghost use Rattle.ref_protocol.specs.Sending.{SendsNotes, SendsAnswer, SendsAtMost};
    ghost use Rattle.ref_protocol.specs.Wires.{frames_read, answers_sent, may_answer, id_kept, id_due, left_of, source_of, sink_of, as_count, HasAtMostOne, IsRead, IsCounted};

    /// Nothing is read or sent.
    pub fn new(alloc: Global, source: R, sink: W) -> Result<Wire<R, W>, AllocError>
        ensures source { IfOk result (λ wire. source_of wire ≡ source) }
        ensures sink { IfOk result (λ wire. sink_of wire ≡ sink) }
        ensures read { IfOk result (λ wire. frames_read wire ≡ 0) }
        ensures sent { IfOk result (λ wire. answers_sent wire ≡ 0) }
    {
        let feed = Feed::new(alloc)?;
        Ok(Wire {
            feed,
            source,
            sink,
            id: None,
            is_due: false,
            frames: 0,
            answers: 0,
        })
    }

    /// Does nothing: no more answers were sent than frames were read.
    pub fn counted(&self)
        ensures at_most_one { HasAtMostOne self.now }
    {}

    /// Whether the frame that was read last has an id that is a number or a text.
    pub fn is_request(&self) -> bool
        ensures value { result ≡ is_some (id_kept self.now) }
    {
        self.id.is_some()
    }

    /// Takes the next frame of what is read. It may then be answered, and the one before it no more.
    pub fn next(&mut self, alloc: Global) -> Result<Heard, AllocError>
        ensures value { IfOk result
            (λ heard. IsRead (frame_in (left_of self.old)) (left_of self.old) heard
            (id_kept self.new) (left_of self.new)) }
        ensures counted { IfOk result
            (λ heard. IsCounted heard (frames_read self.old) (may_answer self.old)
            (frames_read self.new) (may_answer self.new)) }
        ensures sink { sink_of self.new ≡ sink_of self.old }
        ensures sent { answers_sent self.new ≡ answers_sent self.old }
    {
        match self.feed.next(alloc)? {
            Next::Content(content) => Ok(Heard::Frame(self.hear(alloc, content.as_slice())?)),
            Next::Wait => Ok(Heard::Wait),
            Next::Broken(why) => Ok(Heard::Broken(why)),
        }
    }

    // Takes the content of a frame.
    fn hear(&mut self, alloc: Global, content: &[u8]) -> Result<Option<Value>, AllocError>
        ensures value { IfOk result (λ message. IsHeard content.now message self.new.id) }
        ensures counted { IfOk result (λ message. self.old.frames < 2 ^ 64 - 1
            → (self.new.frames ≡ self.old.frames + 1) × (self.new.is_due ≡ true)) }
        ensures sink { self.new.sink ≡ self.old.sink }
        ensures sent { self.new.answers ≡ self.old.answers }
        ensures feed { self.new.feed ≡ self.old.feed }
    {
        let message = message_of(alloc, content)?;
        self.id = id_of(alloc, &message)?;
        self.frames = self.frames.saturating_add(1);
        self.is_due = self.answers < self.frames;
        Ok(message)
    }

    /// Reads more.
    pub fn fill(&mut self, alloc: Global) -> Result<More, AllocError>
        ensures value { IfOk result
            (λ more. IsFilled more (R.remaining (source_of self.old)) (R.remaining (source_of self.new))
            (left_of self.old) (left_of self.new)) }
        ensures sink { sink_of self.new ≡ sink_of self.old }
        ensures read { frames_read self.new ≡ frames_read self.old }
        ensures sent { answers_sent self.new ≡ answers_sent self.old }
        ensures due { may_answer self.new ≡ may_answer self.old }
        ensures id { id_kept self.new ≡ id_kept self.old }
    {
        self.feed.fill(alloc, &mut self.source)
    }

    /// Answers the frame that was read last, unless it was answered: one frame, with its id, and its result or why it has none.
    pub fn answer(&mut self, alloc: Global, outcome: Result<String, Refusal>) -> Result<(), Unsent>
        ensures at_most_one { OnOk result
            (SendsAtMost (id_due self.old) (W.taken (sink_of self.old)) (W.taken (sink_of self.new))) }
        ensures one { IsTrue (may_answer self.old)
            → OnOk result
            (SendsAnswer (id_due self.old) (W.taken (sink_of self.old)) (W.taken (sink_of self.new))) }
        ensures none { may_answer self.old ≡ false → sink_of self.new ≡ sink_of self.old }
        ensures taken { may_answer self.new ≡ false }
        ensures sent { answers_sent self.new ≡ answers_sent self.old + as_count (may_answer self.old) }
        ensures read { frames_read self.new ≡ frames_read self.old }
    {
        if !self.is_due {
            drop(outcome);
            return Ok(());
        }
        self.is_due = false;
        self.answers += 1;
        answer(alloc, &mut self.sink, shown_id(&self.id), outcome)
    }

    /// Says what is wrong with a document, as [`note`] does.
    pub fn note(&mut self, alloc: Global, params: &str) -> Result<(), Unsent>
        ensures notes { OnOk result
            (SendsNotes (W.taken (sink_of self.old)) (W.taken (sink_of self.new))) }
        ensures read { frames_read self.new ≡ frames_read self.old }
        ensures sent { answers_sent self.new ≡ answers_sent self.old }
        ensures due { may_answer self.new ≡ may_answer self.old }
        ensures id { id_kept self.new ≡ id_kept self.old }
    {
        note(alloc, &mut self.sink, params)
    }

    /// Sends a request of the server's own, as [`send`] does.
    pub fn ask(&mut self, alloc: Global, content: &str) -> Result<(), Unsent>
        ensures frame { OnOk result
            (Appends (W.taken (sink_of self.old)) (W.taken (sink_of self.new)) (frame_of content.now)) }
        ensures read { frames_read self.new ≡ frames_read self.old }
        ensures sent { answers_sent self.new ≡ answers_sent self.old }
        ensures due { may_answer self.new ≡ may_answer self.old }
        ensures id { id_kept self.new ≡ id_kept self.old }
    {
        send(alloc, &mut self.sink, content)
    }
}

// The id of a message, where there is one that has one.
fn id_of(alloc: Global, message: &Option<Value>) -> Result<Option<String>, AllocError>
    ensures { IfOk result (λ id. IsKeptId message.now id) }
{
    match message {
        Some(message) => id_text(alloc, message),
        None => Ok(None),
    }
}

// The text of an id, or that of none.
fn shown_id(id: &Option<String>) -> &str
    ensures { result.now ≡ id_shown id.now }
{
    match id {
        Some(id) => id.as_str(),
        None => "null",
    }
}
