//! The tracklets of other nights that may be of one object with an item.
ghost use Rattle.std.specs.Prelude.{◌+◌, ◌<◌, ◌≡◌, ◌++◌, ◌∷◌, [], cond, length, IfOk, OnOk};
ghost use Rattle.bound_prune.specs.EndsData.{EndsData};
ghost use Rattle.set_grow.specs.Partners.{ArePartners, HoldPartners, IsPartner, partner_of};

use crate::ends::may_go_within;
use crate::family::Sky;
use crate::partners::Partner;
use crate::seats::Seat;
use bound_prune::TrackletEnds;
use sky_units::NoMemory;
use std::alloc::Global;

/// The partners of an item: the tracklets of other nights that may be of one object with it.
pub fn partners_of(alloc: Global, sky: &Sky<'_>, item: &Partner) -> Result<Vec<Partner>, NoMemory>
    requires { IsPartner sky.now item.now }
    ensures { IfOk result (λ partners. ArePartners sky.now item.now partners.items) }
{
    let mut partners = Vec::new(alloc);
    for night in 0..sky.nights.len() {
        push_partners(sky, item, night, &mut partners)?;
    }
    Ok(partners)
}

/// Adds the partners of a night to those of the nights before it.
fn push_partners(
    sky: &Sky<'_>,
    item: &Partner,
    night: usize,
    partners: &mut Vec<Partner>,
) -> Result<(), NoMemory>
    requires within { night < length sky.now.nights }
    requires before { HoldPartners sky.now item.now night 0 partners.old.items }
    ensures { OnOk result (HoldPartners sky.now item.now (night + 1) 0 partners.new.items) }
{
    let nights = sky.nights;
    let numbers = nights[night].numbers();
    let ends = sky.ends_of(night);
    let range = sky.range_around(night, item.seat.night, &item.ends);
    for place in 0..numbers.len() {
        let wanted = may_go_within(
            &range,
            item.seat.night,
            &item.ends,
            night,
            &ends[place],
            sky.settings,
        );
        let seat = Seat { night, place };
        push_where(partners, wanted, numbers[place], seat, &ends[place])?;
    }
    Ok(())
}

/// Adds a partner where it is wanted.
fn push_where(
    partners: &mut Vec<Partner>,
    wanted: bool,
    number: u32,
    seat: Seat,
    ends: &TrackletEnds,
) -> Result<(), NoMemory>
    ensures { OnOk result (partners.new.items ≡
        cond wanted (partners.old.items ++ partner_of number seat ends.now ∷ []) partners.old.items) }
{
    if wanted {
        partners.push(Partner {
            number,
            seat,
            ends: *ends,
        })?;
    }
    Ok(())
}
