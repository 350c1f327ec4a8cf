ghost use Rattle.std.specs.Prelude.{◌≡◌, ◌≤◌, ◌++◌, ◌∷◌, [], All, Contains};
ghost use Rattle.gx_dsnap.specs.Gxids.{least_of};

use gx_ids::Gxid;

/// The horizon: the least of the running gxids, of the ended ones that not every participant has forgotten, of the
/// `xmin` of each live snapshot and of the next gxid. Each gxid below it has ended for every reader there is or will be.
pub fn horizon(running: &[Gxid], unforgotten: &[Gxid], live_xmins: &[Gxid], next: Gxid) -> Gxid
    ensures value { result ≡ least_of (running.now ++ unforgotten.now ++ live_xmins.now) next }
    ensures lowest { All (λ g. result.0 ≤ g.0) (running.now ++ unforgotten.now ++ live_xmins.now ++ next ∷ []) }
    ensures among { Contains (running.now ++ unforgotten.now ++ live_xmins.now ++ next ∷ []) result }
{
    least(live_xmins, least(unforgotten, least(running, next)))
}

fn least(gxids: &[Gxid], other: Gxid) -> Gxid
    ensures { result ≡ least_of gxids.now other }
{
    let mut least = other;
    for gxid in gxids {
        if *gxid < least {
            least = *gxid;
        }
    }
    least
}
