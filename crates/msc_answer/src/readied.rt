//! The instances that are named on a command line.

ghost use Rattle.std.specs.Prelude.{◌≡◌, ◌≢◌, ◌<◌, ◌↔◌, ℕ, List, [], IfOk, IsTrue, MatchOption};
ghost use Rattle.std.specs.Prelude.{length, map, option_map};
ghost use Rattle.std.specs.Option.{option_copied};
ghost use Rattle.msc_chart.specs.Lists.{Occurs};
ghost use Rattle.msc_answer.specs.Readied.{AreInstances, AreNamedLines, AreReady};
ghost use Rattle.msc_answer.specs.Readied.{IsFirstUnknown};

use msc_chart::Chart;
use std::alloc::{AllocError, Global};

/// Whether an instance has this name.
fn has_instance(chart: &Chart, name: &[u8]) -> bool
    ensures { IsTrue result ↔ Occurs chart.now.instances name.now }
{
    for i in 0..chart.instances() {
        if chart.instance_name(i) == name {
            return true;
        }
    }
    false
}

/// The first of these names that no instance has, if there is one.
pub(crate) fn first_unknown<'w>(chart: &Chart, names: &[&'w str]) -> Option<&'w str>
    ensures { MatchOption (option_map (λ name. name.now) result)
        (AreInstances chart.now (map (λ name. name.now) names.now))
        (IsFirstUnknown chart.now (map (λ name. name.now) names.now)) }
{
    for name in names {
        if !has_instance(chart, name.as_bytes()) {
            return Some(*name);
        }
    }
    None
}

/// Whether an instance is named.
fn is_named(names: &[&str], instance: &[u8]) -> bool
    ensures { IsTrue result ↔ Occurs (map (λ name. name.now) names.now) instance.now }
{
    for name in names {
        if name.as_bytes() == instance {
            return true;
        }
    }
    false
}

/// For each instance whether it is named.
fn each_named(alloc: Global, chart: &Chart, names: &[&str]) -> Result<Vec<bool>, AllocError>
    ensures { IfOk result (λ lines.
        AreNamedLines chart.now (map (λ name. name.now) names.now) lines.items) }
{
    let mut lines = Vec::new(alloc);
    for i in 0..chart.instances() {
        lines.push(is_named(names, chart.instance_name(i)))?;
    }
    Ok(lines)
}

/// For each instance whether it is named, if names are given; each is that of an instance.
pub(crate) fn lines_named(
    alloc: Global,
    chart: &Chart,
    names: &[&str],
) -> Result<Option<Vec<bool>>, AllocError>
    requires { AreInstances chart.now (map (λ name. name.now) names.now) }
    ensures { IfOk result (λ lines. AreReady chart.now (map (λ name. name.now) names.now)
        (option_map (λ l. l.items) lines)) }
{
    if names.is_empty() {
        return Ok(None);
    }
    Ok(Some(each_named(alloc, chart, names)?))
}

/// The same list, borrowed.
pub(crate) fn lent(lines: &Option<Vec<bool>>) -> Option<&[bool]>
    ensures { option_copied result ≡ option_map (λ l. l.items) lines.now }
{
    match lines {
        Some(lines) => Some(lines.as_slice()),
        None => None,
    }
}
