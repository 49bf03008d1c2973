//! The part of a path on each line of a diagram: ends of messages, in segments.

ghost use Rattle.std.specs.Prelude.{◌≡◌, [], IfOk, OnOk, length, map, replicate};
ghost use Rattle.msc_import.specs.Plans.{closed_last, is_coregion, is_exchange, is_refused};
ghost use Rattle.msc_import.specs.Plans.{last_frame, met, single_sides, with_pair};
ghost use Rattle.msc_import.specs.Plans.{marked, marked_last, opened};
ghost use Rattle.msc_import.specs.Plans.{planned, planned_all, plans_of, seen, sides_on};
ghost use Rattle.msc_import.specs.Plans.{unplanned, with_event, with_sides};
ghost use Rattle.msc_mermaid.specs.Gives.{Gives};
ghost use Rattle.msc_mermaid.specs.Reading.{Leaves};

use msc_mermaid::ImportFault;
use msc_place::Position;
use msc_scenarios::{Message, Step};
use std::alloc::{AllocError, Global};
use std::marker::Model;

/// The meaning of an arrow to oneself.
#[derive(Clone, Copy, Debug, PartialEq, Eq)]
pub enum Own {
    /// An action.
    Action,
    /// An output, then its input.
    Message,
}

/// The meaning of parallel branches that are no coregion on a line: several have segments there,
/// and one has more than one.
#[derive(Clone, Copy, Debug, PartialEq, Eq)]
pub enum Par {
    /// A fault.
    Refused,
    /// They are drawn one below the other on that line, in the order of the text.
    Drawn,
}

/// The options for drawing a scenario.
#[derive(Clone, Copy, Debug, PartialEq, Eq)]
pub struct Manner {
    pub own: Own,
    pub par: Par,
}

/// An end of a message.
#[derive(Clone, Copy)]
pub(crate) enum Side {
    /// Its output.
    Out,
    /// Its input.
    In,
    /// Both: an action.
    Own,
    /// The output of a lost message.
    Lost,
    /// The output of the message that its receiver sends back.
    OutBack,
    /// The input of that message.
    InBack,
}

/// An end of this message.
#[derive(Clone, Copy)]
pub(crate) struct Planned<'s> {
    pub message: &'s Message,
    pub side: Side,
}

/// A par: its position in the text; the number of segments before it, and before its latest branch;
/// whether a branch has segments, whether several have, and whether one has several.
#[derive(Clone, Copy)]
pub(crate) struct Frame {
    pub place: Position,
    pub start: usize,
    pub mark: usize,
    pub busy: bool,
    pub several: bool,
    pub wide: bool,
}

/// The part of a path on a line so far: its events, the number of events up to the end of each
/// segment, and the open pars, the innermost one last.
#[derive(Drop)]
pub(crate) struct Plan<'s> {
    events: Vec<Planned<'s>>,
    ends: Vec<usize>,
    frames: Vec<Frame>,
}

impl<'s> Model for Plan<'s> {
    ghost use Rattle.std.specs.Prelude.{map};
    ghost use Rattle.msc_import.specs.Plans.{Event, Plan as Drawing};

    ghost Value = { Drawing };

    ghost view = { λ p. record {
      events = map (λ e. record { message = e.message.now; side = e.side }) p.events.items;
      ends = p.ends.items;
      frames = p.frames.items;
    } };
}

/// Whether two lines send each other a message.
#[tactic(auto, unfolding(crate::specs::Plans::is_exchange))]
fn is_exchange(message: &Message) -> bool
    ensures { result ≡ is_exchange message.now }
{
    message.both && !message.lost && message.from != message.to
}

/// The ends of an arrow with one head on a line, the upper one first.
#[tactic(auto, unfolding(crate::specs::Plans::single_sides))]
fn single_sides(own: Own, line: usize, message: &Message) -> &'static [Side]
    ensures { result.now ≡ single_sides own line message.now }
{
    if message.lost {
        return if message.from == line {
            &[Side::Lost]
        } else {
            &[]
        };
    }
    if message.from != line {
        return if message.to == line { &[Side::In] } else { &[] };
    }
    if message.to != line {
        return &[Side::Out];
    }
    match own {
        Own::Action => &[Side::Own],
        Own::Message => &[Side::Out, Side::In],
    }
}

/// The number of ends that an arrow has on a line.
#[tactic(auto, unfolding(crate::specs::Plans::sides_on))]
pub(crate) fn end_count(own: Own, line: usize, message: &Message) -> usize
    ensures { result ≡ length (sides_on own line message.now) }
{
    if !is_exchange(message) {
        return single_sides(own, line, message).len();
    }
    if message.from == line || message.to == line {
        2
    } else {
        0
    }
}

/// Whether several branches of a par have a segment each, and none has more.
fn is_coregion(frame: Frame) -> bool
    ensures { result ≡ is_coregion frame }
{
    frame.several && !frame.wide
}

impl Par {
    /// Whether a par is refused.
    fn is_refused(self, frame: Frame) -> bool
        ensures { result ≡ is_refused self frame }
    {
        match self {
            Par::Refused => frame.several && frame.wide,
            Par::Drawn => false,
        }
    }
}

/// The par after one more branch, with this number of segments.
fn marked(segments: usize, frame: Frame) -> Frame
    ensures { result ≡ marked segments frame }
{
    Frame {
        place: frame.place,
        start: frame.start,
        mark: segments,
        busy: frame.busy || frame.mark < segments,
        several: frame.several || (frame.busy && frame.mark < segments),
        wide: frame.wide || segments.saturating_sub(frame.mark) > 1,
    }
}

impl<'s> Plan<'s> {
    /// An empty plan.
    fn new(alloc: Global) -> Self
        ensures { result ≡ unplanned }
    {
        Plan {
            events: Vec::new(alloc),
            ends: Vec::new(alloc),
            frames: Vec::new(alloc),
        }
    }

    /// The events.
    pub(crate) fn events(&self) -> &[Planned<'s>]
        ensures { map seen result.now ≡ self.now.events }
    {
        self.events.as_slice()
    }

    /// The number of events up to the end of each segment.
    pub(crate) fn ends(&self) -> &[usize]
        ensures { result.now ≡ self.now.ends }
    {
        self.ends.as_slice()
    }

    /// Appends one event, which is a segment.
    fn put(&mut self, message: &'s Message, side: Side) -> Result<(), AllocError>
        ensures { OnOk result
            (self.new ≡ with_event self.old (record { message = message.now; side = side })) }
    {
        self.events.push(Planned { message, side })?;
        self.ends.push(self.events.len())?;
        Ok(())
    }

    /// Appends these ends of a message.
    fn put_sides(&mut self, message: &'s Message, sides: &[Side]) -> Result<(), AllocError>
        ensures { OnOk result (self.new ≡ with_sides message.now sides.now self.old) }
    {
        for side in sides {
            self.put(message, *side)?;
        }
        Ok(())
    }

    /// Appends two ends of a message, which are one segment.
    fn put_both(
        &mut self,
        message: &'s Message,
        first: Side,
        second: Side,
    ) -> Result<(), AllocError>
        ensures { OnOk result (self.new ≡ with_pair message.now first second self.old) }
    {
        self.events.push(Planned {
            message,
            side: first,
        })?;
        self.events.push(Planned {
            message,
            side: second,
        })?;
        self.ends.push(self.events.len())?;
        Ok(())
    }

    /// Appends an arrow, on this line of the diagram.
    #[tactic(auto, unfolding(crate::specs::Plans::met))]
    fn meet(&mut self, own: Own, line: usize, message: &'s Message) -> Result<(), AllocError>
        ensures { OnOk result (self.new ≡ met own line message.now self.old) }
    {
        if !is_exchange(message) {
            return self.put_sides(message, single_sides(own, line, message));
        }
        if message.from == line {
            return self.put_both(message, Side::Out, Side::InBack);
        }
        if message.to == line {
            return self.put_both(message, Side::OutBack, Side::In);
        }
        Ok(())
    }

    /// Begins a par, at this position of the text.
    fn open(&mut self, place: Position) -> Result<(), AllocError>
        ensures { OnOk result (self.new ≡ opened place self.old) }
    {
        let segments = self.ends.len();
        self.frames.push(Frame {
            place,
            start: segments,
            mark: segments,
            busy: false,
            several: false,
            wide: false,
        })?;
        Ok(())
    }

    /// Goes to the next branch of the innermost par.
    fn mark_last(&mut self) -> Result<(), AllocError>
        ensures { OnOk result (self.new ≡ marked_last self.old (last_frame self.old)) }
    {
        let segments = self.ends.len();
        if let Some(frame) = self.frames.pop() {
            self.frames.push(marked(segments, frame))?;
        }
        Ok(())
    }

    /// Ends the innermost par, on this line of the diagram.
    fn close_last(&mut self, par: Par, line: usize) -> Result<(), ImportFault>
        ensures { Leaves result self.new (closed_last par line self.old (last_frame self.old)) }
    {
        let Some(frame) = self.frames.pop() else {
            return Ok(());
        };
        if par.is_refused(frame) {
            return Err(ImportFault::Shared(frame.place, line));
        }
        if is_coregion(frame) {
            self.ends.truncate(frame.start);
            self.ends.push(self.events.len())?;
        }
        Ok(())
    }

    /// Appends one step, on this line of the diagram.
    #[tactic(auto, unfolding(crate::specs::Plans::planned))]
    fn step(&mut self, manner: Manner, line: usize, step: &'s Step) -> Result<(), ImportFault>
        ensures { Leaves result self.new (planned manner line step.now self.old) }
    {
        match step {
            Step::Meets(message) => self.meet(manner.own, line, message)?,
            Step::Opens(text) => self.open(*text)?,
            Step::Next => self.mark_last()?,
            Step::Closes => return self.close_last(manner.par, line),
        }
        Ok(())
    }
}

/// All lines take a step, the first line first.
fn step_all<'s>(
    plans: &mut Vec<Plan<'s>>,
    manner: Manner,
    step: &'s Step,
) -> Result<(), ImportFault>
    ensures { Leaves result plans.new.items (planned_all manner step.now [] plans.old.items) }
{
    for line in 0..plans.len() {
        plans[line].step(manner, line, step)?;
    }
    Ok(())
}

/// `lines` empty plans.
fn unplanned<'s>(alloc: Global, lines: usize) -> Result<Vec<Plan<'s>>, AllocError>
    ensures { IfOk result (λ v. v.items ≡ replicate lines unplanned) }
{
    let mut plans = Vec::new(alloc);
    for _ in 0..lines {
        plans.push(Plan::new(alloc))?;
    }
    Ok(plans)
}

/// The plans of `lines` lines for these steps; or the first par that one of them refuses.
pub(crate) fn plans_of<'s>(
    alloc: Global,
    manner: Manner,
    lines: usize,
    steps: &'s [Step],
) -> Result<Vec<Plan<'s>>, ImportFault>
    ensures { Gives (λ v. v.items) result (plans_of manner steps.now lines) }
{
    let mut plans = unplanned(alloc, lines)?;
    for step in steps {
        step_all(&mut plans, manner, step)?;
    }
    Ok(plans)
}
