//! The ends of the boxes of tracklets, and which tracklets may be of one object by them.
ghost use Rattle.std.specs.Prelude.{◌≡◌, ◌↔◌, IfOk, IsTrue};
ghost use Rattle.std.specs.List.{Contains};
ghost use Rattle.bound_prune.specs.EndsData.{EndsData};
ghost use Rattle.bound_prune.specs.Spans.{IsInRange};
ghost use Rattle.set_grow.specs.Ends.{MayGo, ends_by_night as ends_by_night_of, ends_in};

use crate::NumberedNight;
use bound_prune::{DecRange, NightSpan, TrackletEnds};
use sky_units::{NoMemory, Settings, Tracklet};
use std::alloc::Global;
use std::marker::Model;

/// The ends of the tracklets of a night, and their span.
#[derive(Drop)]
pub struct NightEnds {
    ends: Vec<TrackletEnds>,
    span: NightSpan,
}

impl Model for NightEnds {
    ghost use Rattle.std.specs.Prelude.{List};
    ghost use Rattle.std.specs.List.{Contains};
    ghost use Rattle.bound_prune.specs.EndsData.{EndsData};
    ghost use Rattle.bound_prune.specs.SpanData.{LiesIn};

    ghost Value = { List EndsData };

    ghost view = { λ n. n.ends.items };

    ghost invariant = { λ n. (one : EndsData) → Contains n.ends.items one → LiesIn n.span one };
}

impl NightEnds {
    /// Those of these tracklets.
    pub fn of(
        alloc: Global,
        tracklets: &[Tracklet],
        settings: &Settings,
    ) -> Result<NightEnds, NoMemory>
        ensures { IfOk result (λ night. night ≡ ends_in settings.now tracklets.now) }
    {
        let ends = ends_of(alloc, tracklets, settings)?;
        let span = NightSpan::of(ends.as_slice());
        Ok(NightEnds { ends, span })
    }

    /// The ends of each tracklet, in their order.
    pub fn each(&self) -> &[TrackletEnds]
        ensures { result.now ≡ self.now }
    {
        self.ends.as_slice()
    }

    /// Where in declination those of them begin that may be of one object with an item of another night. The nights
    /// are told by their indices.
    pub fn range_around(
        &self,
        night: usize,
        item_night: usize,
        item: &TrackletEnds,
        settings: &Settings,
    ) -> DecRange
        ensures { (other : EndsData) → Contains self.now other →
            MayGo settings.now item_night item.now night other → IsInRange result other.dec }
    {
        if item_night < night {
            return self.span.range_after(item, settings);
        }
        self.span.range_before(item, settings)
    }
}

/// The ends of the tracklets of each night.
pub fn ends_by_night(
    alloc: Global,
    nights: &[NumberedNight<'_>],
    settings: &Settings,
) -> Result<Vec<NightEnds>, NoMemory>
    ensures { IfOk result (λ lists. lists.items ≡ ends_by_night_of settings.now nights.now) }
{
    let mut lists = Vec::with_capacity(alloc, nights.len())?;
    for night in nights {
        lists.push(NightEnds::of(alloc, night.tracklets(), settings)?)?;
    }
    Ok(lists)
}

/// The ends of some tracklets.
fn ends_of(
    alloc: Global,
    tracklets: &[Tracklet],
    settings: &Settings,
) -> Result<Vec<TrackletEnds>, NoMemory>
    ensures { IfOk result (λ ends. ends.items ≡ ends_in settings.now tracklets.now) }
{
    let mut ends = Vec::with_capacity(alloc, tracklets.len())?;
    for tracklet in tracklets {
        ends.push(TrackletEnds::of(tracklet.spots(), settings))?;
    }
    Ok(ends)
}

/// Whether tracklets of these ends, in two nights of these indices, may be of one object, the one of the earlier night first.
pub fn may_go(
    night: usize,
    ends: &TrackletEnds,
    other_night: usize,
    other: &TrackletEnds,
    settings: &Settings,
) -> bool
    ensures { IsTrue result ↔ MayGo settings.now night ends.now other_night other.now }
{
    if night < other_night {
        return ends.may_precede(other, settings);
    }
    if other_night < night {
        return other.may_precede(ends, settings);
    }
    false
}

/// The same of another one that begins in a range, where each that may does.
pub fn may_go_within(
    range: &DecRange,
    night: usize,
    ends: &TrackletEnds,
    other_night: usize,
    other: &TrackletEnds,
    settings: &Settings,
) -> bool
    requires { MayGo settings.now night ends.now other_night other.now →
        IsInRange range.now other.now.dec }
    ensures { IsTrue result ↔ MayGo settings.now night ends.now other_night other.now }
{
    if !range.has(other) {
        return false;
    }
    may_go(night, ends, other_night, other, settings)
}
