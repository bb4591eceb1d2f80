//! Which cores share.
ghost use Rattle.std.specs.Prelude.{◌≡◌};
ghost use Rattle.analysis.specs.Placed.{sharing_of};

use super::placement::Placement;
use arbiter::question::Sharing;
use tables::model::Link;

/// The cores that share by some links: those of the partitions that a link joins, if both are placed.
pub(crate) fn joined_by(links: &[Link], placement: &Placement) -> Sharing
    ensures { result ≡ sharing_of placement.now.cores links.now }
{
    let mut sharing = Sharing::NONE;
    for link in links {
        if let Some(a) = placement.core_of(link.first)
            && let Some(b) = placement.core_of(link.second)
        {
            sharing.join(a, b);
        }
    }
    sharing
}
