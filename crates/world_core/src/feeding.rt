//! Runs one end against any bytes (docs/feed.md).
ghost use Rattle.std.specs.Prelude.{◌≡◌, ◌+◌, ◌≤◌, map, length, IfOk, None};
ghost use Rattle.handler_script.specs.Valid.{IsValid};
ghost use Rattle.history.specs.Text.{transcript_text};
ghost use Rattle.ipdl_base.specs.Plain.{plain_message};
ghost use Rattle.ipdl_base.specs.Sound.{IsSound};
ghost use Rattle.value_types.specs.declared.layout.TheConstants.{NEW};
ghost use Rattle.value_types.specs.Fits.{Fits};
ghost use Rattle.value_codec.specs.Decoding.{begins};
ghost use Rattle.value_codec.specs.Laws.{AreBytes};
ghost use Rattle.end_parts.specs.PlainLines.{plain_line};
ghost use Rattle.script_steps.specs.Progress.{Progress};
ghost use Rattle.script_steps.specs.Choices.{Setting};
ghost use Rattle.feed_runs.specs.FeedTurns.{kept_fault};
ghost use Rattle.feed_runs.specs.NextFrame.{frame_at, message_at};
ghost use Rattle.world_core.specs.FeedResult.{IsFeedOf};
ghost use Rattle.world_core.specs.Feeding.{BreakGives, FrameGives, HasCome, HasEnded, MayBeGiven, MayRead, OwnTurnGives, RestsAt, StoreGives, TurnGives, progress_in};
ghost use Rattle.world_core.specs.HalfSteps.{MayGoOn};
ghost use Rattle.world_core.specs.Worlds.{most_events};

use crate::answers::StepAnswer;
use crate::half::Half;
use crate::side_turns::are_bytes;
use channel_core::{DeliverAnswer, Packet};
use feed_runs::FeedFault;
use handler_script::Script;
use history::{History, history_text};
use ipdl_base::{Message, Schema, Side};
use line_laws::texts_see_no_box;
use std::alloc::{AllocError, Global};
use value_codec::{DecodeResult, decode};

/// What one end makes of bytes.
#[derive(Drop)]
pub struct FeedResult {
    /// The lines of the end.
    pub history: History,
    /// Whether the end has a step or a delivery left, but has reached its limit of events.
    pub spent: bool,
    /// Why the rest of the bytes was not read, if the end was still open when it reached them.
    pub fault: Option<FeedFault>,
}

impl FeedResult {
    /// Returns the text that a transcript prints of the history (docs/transcripts.md). Fails only if
    /// memory runs out.
    pub fn transcript(&self, alloc: Global, schema: &Schema) -> Result<Vec<u8>, AllocError>
        requires { IsSound schema.now }
        ensures { IfOk result (λ text. text.items ≡ transcript_text schema.now (map plain_line self.now.history.lines)) }
    {
        texts_see_no_box();
        history_text(alloc, schema, &self.history)
    }
}

/// What a feed keeps beside its half.
#[derive(Drop)]
struct FeedTrace {
    /// The lines of the end.
    history: History,
    /// The number of bytes that were read.
    place: usize,
    /// Why the rest of the bytes was not read.
    fault: Option<FeedFault>,
}

/// What became of the frame at a place of the bytes.
#[derive(Clone, Copy)]
enum FrameAnswer {
    /// A frame of this size was delivered.
    Taken(usize),
    /// It was refused with this fault, and nothing changed.
    Refused(FeedFault),
    NoMemory,
}

/// Runs one end of a schema by its side of a script, with at most `limit` events, against bytes,
/// whatever they are. Fails only if memory runs out.
pub fn feed(
    alloc: Global,
    schema: &Schema,
    script: &Script,
    side: Side,
    limit: u32,
    bytes: &[u8],
) -> Result<FeedResult, AllocError>
    requires sound { IsSound schema.now }
    requires valid { IsValid schema.now script.now }
    requires small { limit ≤ most_events }
    ensures { IfOk result (IsFeedOf (record { schema = schema.now; script = script.now; stop = None; limit = limit }) side bytes.now) }
{
    let mut half = Half::open(alloc, side, schema, script, None, limit)?;
    let mut trace = FeedTrace {
        history: History::new(alloc),
        place: 0,
        fault: None,
    };
    are_bytes(bytes);
    let spent = do_turns(alloc, &mut half, &mut trace, bytes)?;
    Ok(FeedResult {
        history: trace.history,
        spent,
        fault: trace.fault,
    })
}

// Makes turns until there is nothing to do or the end is spent. Returns whether it is spent.
fn do_turns(
    alloc: Global,
    half: &mut Half<'_>,
    trace: &mut FeedTrace,
    bytes: &[u8],
) -> Result<bool, AllocError>
    ghost feed: { Setting × Side }
    requires { HasCome feed.0 feed.1 bytes.now half.old trace.old }
    ensures { IfOk result (λ spent. HasEnded feed.0 feed.1 bytes.now spent half.new trace.new) }
{
    loop {
        match do_turn(alloc, half, trace, bytes) {
            StepAnswer::Did => {}
            StepAnswer::Nothing => return Ok(false),
            StepAnswer::Spent(_) => return Ok(true),
            StepAnswer::NoMemory => return Err(AllocError),
        }
    }
}

// Makes a turn of the feed.
fn do_turn(alloc: Global, half: &mut Half<'_>, trace: &mut FeedTrace, bytes: &[u8]) -> StepAnswer
    ghost feed: { Setting × Side }
    requires { HasCome feed.0 feed.1 bytes.now half.old trace.old }
    ensures { TurnGives feed.0 feed.1 bytes.now trace.old result half.new trace.new }
{
    match own_turn(half, trace) {
        StepAnswer::Nothing => reading_turn(alloc, half, trace, bytes),
        answer => answer,
    }
}

// Makes an own step of the half and stores its lines. Returns `Nothing` exactly if it has no own step.
fn own_turn(half: &mut Half<'_>, trace: &mut FeedTrace) -> StepAnswer
    ghost progress: { Progress }
    requires { MayGoOn half.old progress }
    ensures { OwnTurnGives half.old progress trace.old result half.new trace.new }
{
    match half.own_step() {
        StepAnswer::Did => store(half, trace),
        answer => answer,
    }
}

// Stores the lines of the half. Returns `Did`, unless memory runs out.
fn store(half: &mut Half<'_>, trace: &mut FeedTrace) -> StepAnswer
    ensures { StoreGives half.old trace.old result half.new trace.new }
{
    match half.store(&mut trace.history) {
        Ok(()) => StepAnswer::Did,
        Err(_) => StepAnswer::NoMemory,
    }
}

// Looks at the bytes, if the end is open. The half has no own step.
fn reading_turn(
    alloc: Global,
    half: &mut Half<'_>,
    trace: &mut FeedTrace,
    bytes: &[u8],
) -> StepAnswer
    ghost feed: { Setting × Side }
    requires come { HasCome feed.0 feed.1 bytes.now half.old trace.old }
    requires rests { RestsAt feed.0 feed.1 half.old trace.old }
    ensures { TurnGives feed.0 feed.1 bytes.now trace.old result half.new trace.new }
{
    if !half.is_open() {
        StepAnswer::Nothing
    } else if half.is_spent() {
        StepAnswer::Spent(half.side())
    } else {
        read_on(alloc, half, trace, bytes)
    }
}

// Delivers the frame at the place of an open end that may have one more event, or the mark of a death
// if the end does not take it.
fn read_on(alloc: Global, half: &mut Half<'_>, trace: &mut FeedTrace, bytes: &[u8]) -> StepAnswer
    ghost at: { Setting × Side × Progress }
    requires come { HasCome at.0 at.1 bytes.now half.old trace.old }
    requires progress { at.2 ≡ progress_in at.1 trace.old }
    requires may { MayRead at.0 at.1 half.old trace.old }
    ensures { TurnGives at.0 at.1 bytes.now trace.old result half.new trace.new }
{
    let (_, left) = bytes.split_at(trace.place);
    match deliver_frame(alloc, half, trace.place, left) {
        FrameAnswer::Taken(size) => {
            trace.place += size;
            store(half, trace)
        }
        FrameAnswer::Refused(fault) => {
            trace.fault = kept_fault(left, fault);
            break_off(half, trace)
        }
        FrameAnswer::NoMemory => StepAnswer::NoMemory,
    }
}

// Delivers the frame that the rest of the bytes begins with, if there is one and the end takes it.
fn deliver_frame(alloc: Global, half: &mut Half<'_>, place: usize, left: &[u8]) -> FrameAnswer
    ghost progress: { Progress }
    requires may { MayBeGiven half.old progress }
    requires fits { place + length left.now ≤ usize.MAX }
    ensures { FrameGives half.old progress (frame_at half.old.end.schema half.old.end.end place (begins NEW half.old.end.schema left.now)) result half.new }
{
    match decode(alloc, half.schema(), left) {
        DecodeResult::Frame(message, size) => deliver_message(half, place, message, size),
        DecodeResult::Short(missing) => FrameAnswer::Refused(FeedFault::Short(place, missing)),
        DecodeResult::Bad(offset, rule) => FrameAnswer::Refused(FeedFault::Bad(
            place + offset,
            rule,
        )),
        DecodeResult::NoMemory => FrameAnswer::NoMemory,
    }
}

// Delivers a message if the end takes it. Its frame has this size and is at this place.
fn deliver_message(half: &mut Half<'_>, place: usize, message: Message, size: usize) -> FrameAnswer
    ghost progress: { Progress }
    requires may { MayBeGiven half.old progress }
    requires fits { Fits half.old.end.schema message }
    requires place { place + 28 ≤ usize.MAX }
    ensures { FrameGives half.old progress (message_at half.old.end.schema half.old.end.end place (plain_message message) size) result half.new }
{
    match half.offer(message) {
        DeliverAnswer::Done => FrameAnswer::Taken(size),
        DeliverAnswer::Bad(offset, rule) => FrameAnswer::Refused(FeedFault::Bad(
            place + offset,
            rule,
        )),
        DeliverAnswer::Stray(seq) => FrameAnswer::Refused(FeedFault::Stray(place, seq)),
        DeliverAnswer::WrongActor(id, _) => FrameAnswer::Refused(FeedFault::WrongActor(place, id)),
        DeliverAnswer::NoMemory => FrameAnswer::NoMemory,
    }
}

// Returns the fault that is kept of the rest of the bytes, or `None` if no bytes are left.
fn kept_fault(left: &[u8], fault: FeedFault) -> Option<FeedFault>
    ensures { result ≡ kept_fault left.now fault }
{
    match left.first() {
        None => None,
        Some(_) => Some(fault),
    }
}

// Delivers the mark of a death, and stores the lines of that.
fn break_off(half: &mut Half<'_>, trace: &mut FeedTrace) -> StepAnswer
    ghost progress: { Progress }
    requires { MayBeGiven half.old progress }
    ensures { BreakGives half.old progress trace.old result half.new trace.new }
{
    match half.deliver(&Packet::Broken) {
        StepAnswer::Did => store(half, trace),
        answer => answer,
    }
}
