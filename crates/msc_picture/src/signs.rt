//! The signs in each row. One pass over the bars and the bands serves all rows, so each row looks
//! up its own signs only.

ghost use Rattle.std.specs.Prelude.{◌≡◌, ◌<◌, ◌&&◌, ◌||◌, ◌+◌, IfOk, OnOk, ℕ, length, min};
ghost use Rattle.std.specs.Prelude.{nat_eq};
ghost use Rattle.std.specs.List.{list_any};
ghost use Rattle.msc_picture.specs.Signs.{AreBandsIn, AreBarsIn, has_at, instances_at};
ghost use Rattle.msc_picture.specs.Texts.{in_band};

use crate::scene::{Band, RaceBar};
use msc_chart::Event;
use std::alloc::{AllocError, Global};

/// The row after the last one of a band, if there are `many` rows.
fn end_of(band: Band, many: usize) -> usize
    ensures { result ≡ min (band.last + 1) many }
{
    if band.last < many {
        band.last + 1
    } else {
        many
    }
}

/// For each place, the instances on whose axes there is a sign. An instance occurs there as often
/// as it was put. No places follow the greatest place with an instance.
#[derive(Drop)]
pub struct Signs {
    instances: Vec<Vec<u32>>,
}

impl Signs {
    /// The signs of bars: for the place of each event, the instances of the bars that name it.
    pub fn of_bars(alloc: Global, bars: &[RaceBar]) -> Result<Signs, AllocError>
        ensures { IfOk result (λ signs. AreBarsIn bars.now signs.instances.items) }
    {
        let mut signs = Signs {
            instances: Vec::new(alloc),
        };
        for bar in bars {
            signs.put_all(alloc, bar.upper.as_slice(), bar.instance)?;
            signs.put_all(alloc, bar.lower.as_slice(), bar.instance)?;
        }
        Ok(signs)
    }

    /// The signs of bands: for each of `many` rows, the instances of the bands over it.
    pub fn of_bands(alloc: Global, bands: &[Band], many: usize) -> Result<Signs, AllocError>
        ensures { IfOk result (λ signs. AreBandsIn bands.now many signs.instances.items) }
    {
        let mut signs = Signs {
            instances: Vec::new(alloc),
        };
        for band in bands {
            signs.put_band(alloc, *band, many)?;
        }
        Ok(signs)
    }

    /// Puts the instance of a band at each of its rows below this number.
    fn put_band(&mut self, alloc: Global, band: Band, many: usize) -> Result<(), AllocError>
        ensures { OnOk result ((r i : ℕ) → r < many → has_at self.new.instances.items r i
            ≡ (has_at self.old.instances.items r i || (in_band r band && nat_eq i band.instance))) }
    {
        let end = end_of(band, many);
        for r in band.first..end {
            self.put(alloc, r, band.instance)?;
        }
        Ok(())
    }

    /// Puts an instance at the places of these events.
    fn put_all(&mut self, alloc: Global, events: &[Event], instance: u32) -> Result<(), AllocError>
        ensures { OnOk result ((x i : ℕ) → has_at self.new.instances.items x i
            ≡ (has_at self.old.instances.items x i
            || (list_any (nat_eq x) events.now && nat_eq i instance))) }
    {
        for e in events {
            self.put(alloc, *e as usize, instance)?;
        }
        Ok(())
    }

    /// Puts an instance at a place.
    fn put(&mut self, alloc: Global, place: usize, instance: u32) -> Result<(), AllocError>
        requires { place < usize.MAX }
        ensures { OnOk result ((x i : ℕ) → has_at self.new.instances.items x i
            ≡ (has_at self.old.instances.items x i || (nat_eq x place && nat_eq i instance))) }
    {
        self.reach(alloc, place)?;
        self.instances[place].push(instance)?;
        Ok(())
    }

    /// Makes places up to this one, if they are missing.
    fn reach(&mut self, alloc: Global, place: usize) -> Result<(), AllocError>
        requires { place < usize.MAX }
        ensures within { OnOk result (place < length self.new.instances.items) }
        ensures same { OnOk result ((x i : ℕ) → has_at self.new.instances.items x i
            ≡ has_at self.old.instances.items x i) }
    {
        for _ in self.instances.len()..place + 1 {
            self.instances.push(Vec::new(alloc))?;
        }
        Ok(())
    }

    /// The instances at a place. It takes no memory.
    pub fn at(&self, place: usize) -> &[u32]
        ensures { result.now ≡ instances_at self.now.instances.items place }
    {
        if place < self.instances.len() {
            self.instances[place].as_slice()
        } else {
            &[]
        }
    }
}
