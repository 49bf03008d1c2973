//! The chart of two rounds of a chart.

ghost use Rattle.std.specs.Prelude.{◌≡◌, ◌≢◌, IfErr, IfOk, OnOk};
ghost use Rattle.msc_chart.specs.Rounds.{IsShort, IsUnrollFault, two_rounds};

use crate::chart::Chart;
use crate::fault::UnrollFault;
use crate::rounds::{Rounds, spans};
use crate::{ROUND_ACTION_LIMIT, ROUND_MESSAGE_LIMIT};
use listed::Listed;
use msc_parser::Name;
use std::alloc::{AllocError, Global};

impl Chart {
    /// Refuses a chart whose two rounds exceed the limits of a chart.
    fn refuse_long(&self) -> Result<(), UnrollFault>
        ensures short { OnOk result (IsShort self.now) }
        ensures fault { IfErr result (IsUnrollFault self.now) }
    {
        if self.messages.as_slice().len() > ROUND_MESSAGE_LIMIT as usize {
            return Err(UnrollFault::TooManyMessages);
        }
        if self.actions.as_slice().len() > ROUND_ACTION_LIMIT as usize {
            return Err(UnrollFault::TooManyActions);
        }
        Ok(())
    }

    /// A copy of the names of the instances.
    fn copied_instances(&self, alloc: Global) -> Result<Listed<Name>, AllocError>
        ensures { IfOk result (λ names. names ≡ self.now.instances) }
    {
        let mut names = Vec::new(alloc);
        for name in self.instances.as_slice() {
            names.push(Name::from_slice(alloc, name.as_slice())?)?;
        }
        Ok(Listed::from_vec(names))
    }

    /// The chart of two rounds of this one: each line has its events twice, and the messages of the
    /// rounds are different. Rounds are numbered from 0. Event `e` in round `r` has the number `2 *
    /// first + r * count + (e - first)`, where `first` is the first event of its line, which has
    /// `count` events; message `m` has the number `m` in round 0 and, of `n` messages, `n + m` in
    /// round 1. An error is that the chart has more than 512 messages or, if not, more than 512
    /// actions, or that a growth of memory was refused.
    pub fn two_rounds(&self, alloc: Global) -> Result<Chart, UnrollFault>
        ensures chart { IfOk result (λ chart. chart ≡ two_rounds self.now) }

        // A chart is returned only if there is no fault, and a fault only if it is the first.
        ensures short { OnOk result (IsShort self.now) }
        ensures fault { IfErr result (λ f. f ≢ UnrollFault.Memory → IsUnrollFault self.now f) }
    {
        self.facts();
        self.refuse_long()?;
        let spans = spans(alloc, self)?;
        let rounds = Rounds {
            chart: self,
            spans: spans.as_slice(),
        };
        let name = Name::from_slice(alloc, self.name())?;
        let instances = self.copied_instances(alloc)?;
        let events = rounds.events(alloc)?;
        let messages = rounds.messages(alloc)?;
        let actions = rounds.actions(alloc)?;
        let order = rounds.order(alloc)?;
        Ok(Chart {
            name,
            instances,
            events,
            messages,
            actions,
            order,
        })
    }
}
