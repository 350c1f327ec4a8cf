ghost use Rattle.std.specs.Prelude.{◌≡◌, ◌≢◌, ◌<◌, ◌+◌, ◌^◌, OnOk};

use gx_ids::{Gxid, Mem};
use std::alloc::Global;
use std::collections::BTreeMap;

/// A number for each transaction, 0 where none was noted.
#[derive(Drop)]
pub struct Counts {
    by_gxid: BTreeMap<Gxid, usize>,
}

impl Counts {
    ghost use Rattle.gx_ids.specs.declared.ids.Gxid.{Gxid};
    ghost use Rattle.gx_detect.specs.Tally.{count_of};

    pub fn new(alloc: Global) -> Counts
        ensures { (g : Gxid) → count_of result g ≡ 0 }
    {
        Counts {
            by_gxid: BTreeMap::new(alloc),
        }
    }

    pub fn count(&self, gxid: Gxid) -> usize
        ensures { result ≡ count_of self.now gxid }
    {
        self.by_gxid.get(&gxid).copied().unwrap_or(0)
    }

    pub fn raise(&mut self, gxid: Gxid) -> Mem<()>
        requires { count_of self.old gxid + 1 < 2 ^ 64 }
        ensures there { OnOk result (count_of self.new gxid ≡ count_of self.old gxid + 1) }
        ensures elsewhere { OnOk result ((g : Gxid) → g.0 ≢ gxid.0 → count_of self.new g ≡ count_of self.old g) }
    {
        match self.by_gxid.get_mut(&gxid) {
            Some(count) => *count += 1,
            None => {
                self.by_gxid.insert(gxid, 1)?;
            }
        }
        Ok(())
    }

    /// The answer is how many are left.
    pub fn lower(&mut self, gxid: Gxid) -> usize
        requires { 0 < count_of self.old gxid }
        ensures there { count_of self.new gxid + 1 ≡ count_of self.old gxid }
        ensures elsewhere { (g : Gxid) → g.0 ≢ gxid.0 → count_of self.new g ≡ count_of self.old g }
        ensures left { result ≡ count_of self.new gxid }
    {
        match self.by_gxid.get_mut(&gxid) {
            Some(count) => {
                *count -= 1;
                *count
            }
            None => unreachable!(),
        }
    }
}
