//! Messages that go through queues from threads.
//!
//! Each sender has a thread of its own and goes through the queues one after the other: in each it
//! puts its share of the 1,024 messages that a queue may have, and the end mark. One thread takes,
//! queue by queue, until all senders have ended. All queues are made first.

use anyhow::{Context, Result, bail};
use msc_fifo::{Inlet, Outlet, QUOTA_LIMIT, Taken, queue};
use std::alloc::{AllocError, Global};
use std::sync::Wait;
use std::thread;
use std::thread::{Scope, Threads};
use std::time::{Clock, Instant};

/// Puts the messages that the quotas allow, and closes the outlets.
fn send_all(outlets: Vec<Outlet>) {
    for mut outlet in outlets {
        for m in 0..outlet.left() {
            let _ = outlet.send(m, 0);
        }
        outlet.close();
    }
}

/// Takes all messages of a queue, and returns their number.
fn take_all(mut inlet: Inlet) -> u64 {
    let mut taken = 0u64;
    for _ in 0..u64::MAX {
        if inlet.unended() == 0 {
            break;
        }
        match inlet.take(0) {
            Taken::Message(..) => taken = taken.wrapping_add(1),
            Taken::Ended(_) => {}
            Taken::Nothing => thread::yield_now(),
        }
    }
    taken
}

/// Takes all messages of the queues, one after the other, and returns their number.
fn take_each(inlets: Vec<Inlet>) -> u64 {
    let mut taken = 0u64;
    for inlet in inlets {
        taken = taken.wrapping_add(take_all(inlet));
    }
    taken
}

/// Starts a thread for each sender, and returns whether all could be started.
fn start_all<'s, 'e>(scope: &Scope<'s, &'e ()>, senders: Vec<Vec<Outlet>>) -> bool {
    for outlets in senders {
        if scope.spawn(move || send_all(outlets)).is_err() {
            return false;
        }
    }
    true
}

/// The ends of queues: the outlets of each sender, and all inlets.
#[derive(Drop)]
pub struct Ends {
    senders: Vec<Vec<Outlet>>,
    inlets: Vec<Inlet>,
}

/// Sends and takes, each sender in a thread. Returns the number of messages that were taken, if all
/// threads could be started.
fn run<R: Threads + Wait + Sync>(rt: &R, ends: Ends) -> Option<u64> {
    let Ends { senders, inlets } = ends;
    thread::scope(thread::scope_env(), rt, |scope| {
        if !start_all(scope, senders) {
            return None;
        }
        Some(take_each(inlets))
    })
}

/// `count` senders without outlets.
fn new_senders(alloc: Global, count: usize) -> Result<Vec<Vec<Outlet>>, AllocError> {
    let mut senders = Vec::new(alloc);
    for _ in 0..count {
        senders.push(Vec::new(alloc))?;
    }
    Ok(senders)
}

/// Gives each sender its outlet of a queue.
fn give_out(outlets: Vec<Outlet>, senders: &mut [Vec<Outlet>]) -> Result<(), AllocError> {
    for (own, outlet) in senders.iter_mut().zip(outlets) {
        own.push(outlet)?;
    }
    Ok(())
}

impl Ends {
    /// Adds the ends of a new queue with these quotas.
    fn add_queue(&mut self, alloc: Global, quotas: &[u32]) -> Result<()> {
        let (outlets, inlet) = queue(alloc, quotas)?;
        give_out(outlets, &mut self.senders)?;
        self.inlets.push(inlet)?;
        Ok(())
    }
}

/// The ends of this number of queues with these quotas.
fn ends_with(alloc: Global, quotas: &[u32], queues: u32) -> Result<Ends> {
    let senders = new_senders(alloc, quotas.len())?;
    let inlets = Vec::new(alloc);
    let mut ends = Ends { senders, inlets };
    for _ in 0..queues {
        ends.add_queue(alloc, quotas)?;
    }
    Ok(ends)
}

/// The ends of `queues` queues of `senders` senders, which share the messages that a queue may
/// have.
pub fn ends_of(alloc: Global, senders: u32, queues: u32) -> Result<Ends> {
    if senders == 0 {
        bail!("no sender");
    }
    let quotas = vec![in alloc; QUOTA_LIMIT as u32 / senders; senders as usize]?;
    ends_with(alloc, &quotas, queues)
}

/// Sends and takes, and returns the number of messages that were taken, and the time in
/// nanoseconds.
pub fn measured<R: Threads + Wait + Clock + Sync>(rt: &R, ends: Ends) -> Result<(u64, u128)> {
    let start = Instant::now(rt)?;
    let taken = run(rt, ends).context("a thread could not be started")?;
    Ok((taken, start.elapsed(rt)?.as_nanos()))
}
