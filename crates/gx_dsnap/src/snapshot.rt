ghost use Rattle.std.specs.Prelude.{◌≡◌, All, ◌<◌, ◌+◌, ◌^◌, IfOk, IfSome, filter};
ghost use Rattle.std.specs.List.Sorted.{IsStrictlySortedBy-prop};
ghost use Rattle.std.specs.Option.{ForSome};
ghost use Rattle.gx_dsnap.specs.Gxids.{IsRising, gxid_cmp, first_or, is_below, is_listed, after_ended};

use gx_ids::{Duplicate, Gxid, Mem, Seq, Shared};
use std::alloc::Global;

/// A distributed snapshot: the transactions below `xmax` that weren't running when it was taken have ended for its
/// reader. The coordinator takes it once the statement's relation lock is granted (Lyu et al., SIGMOD 2021; PostgreSQL
/// manual 13.2): at read committed for each statement, at repeatable read for the block.
#[derive(Drop)]
pub struct Snapshot {
    pub xmin: Gxid,
    pub xmax: Gxid,
    pub running: Shared<Seq<Gxid>>,
    pub ghost rising: { IsRising running } by { IsStrictlySortedBy-prop gxid_cmp running },
    pub ghost below: { All (λ g. g.0 < xmax.0) running },
    pub ghost least: { xmin ≡ first_or running xmax },
}

impl Snapshot {
    ghost use Rattle.gx_dsnap.specs.Snapshot.{sees};

    /// Whether a transaction had ended when the snapshot was taken, so that what it committed is seen.
    pub fn sees(&self, gxid: Gxid) -> bool
        ensures { result ≡ sees self.now gxid }
    {
        gxid < self.xmax && !self.lists(gxid)
    }

    // Whether the gxid stands in the list.
    fn lists(&self, gxid: Gxid) -> bool
        ensures { result ≡ is_listed gxid self.now.running }
    {
        self.running.get().as_slice().binary_search(&gxid).is_ok()
    }
}

impl Duplicate for Snapshot {
    fn copy(&self, alloc: Global) -> Mem<Snapshot> {
        Ok(Snapshot {
            xmin: self.xmin,
            xmax: self.xmax,
            running: self.running.copy(alloc)?,
        })
    }
}

/// The snapshot of a moment at which the gxids `running` are drawn and not ended, and `latest_ended` is the greatest
/// that has ended.
pub fn take(alloc: Global, running: &[Gxid], latest_ended: Option<Gxid>) -> Mem<Snapshot>
    requires rising { IsRising running.now }
    requires room { ForSome latest_ended (λ g. g.0 + 1 < 2 ^ 64) }
    ensures xmax { IfOk result (λ snap. snap.xmax ≡ after_ended latest_ended) }
    ensures running { IfOk result (λ snap. snap.running ≡ filter (is_below snap.xmax) running.now) }
    ensures xmin { IfOk result (λ snap. snap.xmin ≡ first_or snap.running snap.xmax) }
{
    let xmax = latest_ended.map_or(Gxid(1), |gxid| Gxid(gxid.0 + 1));
    let below = below(alloc, running, xmax)?;
    let xmin = below.first().copied().unwrap_or(xmax);
    let running = Shared::new(alloc, Seq::from_vec(below))?;
    Ok(Snapshot {
        xmin,
        xmax,
        running,
    })
}

// Those below the limit, in order.
fn below(alloc: Global, gxids: &[Gxid], limit: Gxid) -> Mem<Vec<Gxid>>
    ensures { IfOk result (λ below. below.items ≡ filter (is_below limit) gxids.now) }
{
    let below: Vec<Gxid> = gxids
        .iter()
        .copied()
        .filter(|gxid| *gxid < limit)
        .collect(alloc)?;
    Ok(below)
}
