//! Tests of reading and of charts: tokens, drafts, the grammar and the fault of each text that is
//! refused; events, orders, races and runs, and logs that are gathered into runs. They start no
//! thread; `program_tests` may.
#![tactic(auto)]

#[cfg(test)]
mod actions;
#[cfg(test)]
mod architectures;
#[cfg(test)]
mod charts;
#[cfg(test)]
mod closest;
#[cfg(test)]
mod drafts;
#[cfg(test)]
mod faults;
#[cfg(test)]
mod following;
#[cfg(test)]
mod further;
#[cfg(test)]
mod gathering;
#[cfg(test)]
mod grammar;
#[cfg(test)]
mod host;
#[cfg(test)]
mod marks;
#[cfg(test)]
mod orders;
#[cfg(test)]
mod positions;
#[cfg(test)]
mod races;
#[cfg(test)]
mod ready;
#[cfg(test)]
mod reasons;
#[cfg(test)]
mod rings_of_tables;
#[cfg(test)]
mod round_blocked_pairs;
#[cfg(test)]
mod rounds;
#[cfg(test)]
mod runs;
#[cfg(test)]
mod short;
#[cfg(test)]
mod tokens;
