//! The laws, and the calls where there is nothing to find.
use crate::{
    NumberedNight, Place, closed_sets_hold_all, grow_numbered, maximal_tracks_are_closed,
    parts_fit, spots_tell_the_set,
};
use night_tree::Night;
use sky_units::{NoMemory, Settings, Tally};

#[test]
fn no_nights(rt: HostRuntime) -> Result<(), NoMemory> {
    parts_fit();
    closed_sets_hold_all();
    maximal_tracks_are_closed();
    spots_tell_the_set();

    // A number that no tracklet has is in no set, whatever the table says of it.
    let table = [Place {
        night: 59_000,
        place: 0,
    }];
    let mut tally = Tally::zero();
    let sets = grow_numbered(
        rt.alloc(),
        &[],
        table.as_slice(),
        [0, 5].as_slice(),
        &Settings::standard(),
        &mut tally,
    )?;
    assert_eq!(rt; sets.len(), 0);
    assert_eq!(rt; tally.tests, 0);
    Ok(())
}

#[test]
fn night_without_tracklets(rt: HostRuntime) -> Result<(), NoMemory> {
    let settings = Settings::standard();
    let night = Night::build(rt.alloc(), 59_000, Vec::new(rt.alloc()), &settings)?;
    let numbers = Vec::new(rt.alloc());
    assert_eq!(rt; night.tracklets().len(), 0);
    if night.tracklets().is_empty() {
        let numbered = NumberedNight::of(&night, numbers.as_slice());
        assert_eq!(rt; numbered.number(), 59_000);
        assert_eq!(rt; numbered.tracklets().len(), 0);
        assert_eq!(rt; numbered.numbers().len(), 0);
    }
    Ok(())
}
