//! The replies to a script, and their texts.
ghost use Rattle.std.specs.Prelude.{◌≡◌, ◌++◌, IfOk, OnOk};
ghost use Rattle.std.specs.List.{flat_map};
ghost use Rattle.track_report.specs.Words.{spaced};
ghost use Rattle.track_report.specs.Refusals.{is_refusal};
ghost use Rattle.track_report.specs.Texts.{text_of, add_error_words, refused_line, tracklet_line};

use crate::asking::{write_ask_refused, write_asked};
use crate::names::{
    add_error_name, line_error_name, script_error_name, set_error_name, window_error_name,
};
use crate::reports::write_report_lines;
use crate::words::{write_line, write_number, write_word};
use exposure_log::{AddError, WindowError};
use miti_text::LineError;
use script_text::ScriptError;
use sky_units::{AskError, Asked, Groups, NoMemory, Report, SetError, Stats, Word, Words};
use std::alloc::Global;

/// A reply to a line of a script, or to a delivery of detections.
#[derive(Debug, Drop)]
pub enum Reply {
    /// The line of this number, from 1, is no detection line.
    Line(u64, LineError),
    /// The line of this number, from 1, is a malformed command.
    Script(u64, ScriptError),
    /// The exposure of an epoch, in ticks, and a site is held from now on, with so many detections.
    Added(i64, Word, u32),
    /// The exposure of an epoch, in ticks, and a site isn't taken. The last word is the id that the
    /// error `Id` tells of, and is not read with any other error.
    Refused(i64, Word, AddError, Word),
    /// The setting of this name has this value from now on.
    Set(Word, i64),
    /// A setting isn't changed.
    SetRefused(SetError),
    /// The window reaches from its first night to its last from now on.
    Window(i64, i64),
    /// The window can't be moved.
    WindowRefused(WindowError),
    /// The ids of each tracklet of a night.
    Tracklets(i64, Groups),
    /// The maximal tracks.
    Report(Report),
    /// What the detections of asked ids are.
    Asked(Words, Asked),
    /// Asked ids have no answer.
    AskRefused(Words, AskError),
    /// How much is held and found.
    Stats(Stats),
    /// The number, the nights and the objects of a made sky, and what was found in it.
    Summary(u32, u32, u32, Stats),
}

impl Reply {
    /// Whether the reply is a refusal.
    pub fn is_refusal(&self) -> bool
        ensures { result ≡ is_refusal self.now }
    {
        matches!(
            self,
            Reply::Line(_, _)
                | Reply::Script(_, _)
                | Reply::Refused(_, _, _, _)
                | Reply::SetRefused(_)
                | Reply::WindowRefused(_)
                | Reply::AskRefused(_, _)
        )
    }
}

/// The text of a reply.
pub fn write_reply(alloc: Global, reply: &Reply) -> Result<Vec<u8>, NoMemory>
    ensures { IfOk result (λ text. text.items ≡ text_of reply.now) }
{
    let mut text = Vec::new(alloc);
    append_reply(&mut text, reply)?;
    Ok(text)
}

/// Adds the text of a reply. Where memory is wanting a front of it may have been added.
pub fn append_reply(text: &mut Vec<u8>, reply: &Reply) -> Result<(), NoMemory>
    ensures { OnOk result (text.new.items ≡ text.old.items ++ text_of reply.now) }
{
    match reply {
        Reply::Line(number, error) => { write_refused_line(text, *number, line_error_name(*error)) }
        Reply::Script(number, error) => {
            write_refused_line(text, *number, script_error_name(*error))
        }
        Reply::Added(epoch, site, count) => write_added(text, *epoch, site, *count),
        Reply::Refused(epoch, site, error, id) => { write_refused(text, *epoch, site, *error, id) }
        Reply::Set(name, value) => write_set(text, name, *value),
        Reply::SetRefused(error) => write_set_refused(text, *error),
        Reply::Window(lo, hi) => write_window(text, *lo, *hi),
        Reply::WindowRefused(error) => write_window_refused(text, *error),
        Reply::Tracklets(night, tracklets) => write_tracklets(text, *night, tracklets),
        Reply::Report(report) => write_report_lines(text, report),
        Reply::Asked(ids, asked) => write_asked(text, ids, *asked),
        Reply::AskRefused(ids, error) => write_ask_refused(text, ids, *error),
        Reply::Stats(stats) => write_stats(text, stats),
        Reply::Summary(number, nights, objects, stats) => {
            write_summary(text, *number, *nights, *objects, stats)
        }
    }
}

/// Adds the line of a refused line.
fn write_refused_line(text: &mut Vec<u8>, number: u64, name: &[u8]) -> Result<(), NoMemory>
    ensures { OnOk result (text.new.items ≡ text.old.items ++ refused_line number name.now) }
{
    text.extend_from_slice(b"line")?;
    write_number(text, number)?;
    text.extend_from_slice(b" refused")?;
    write_word(text, name)?;
    text.push(b'\n')?;
    Ok(())
}

/// Adds the line of an exposure that was added.
fn write_added(text: &mut Vec<u8>, epoch: i64, site: &Word, count: u32) -> Result<(), NoMemory>
    ensures { OnOk result (text.new.items ≡ text.old.items
        ++ text_of (Reply.Added epoch site.now count)) }
{
    text.extend_from_slice(b"exposure")?;
    write_number(text, epoch)?;
    write_word(text, site.bytes())?;
    text.extend_from_slice(b" accepted")?;
    write_number(text, count)?;
    text.push(b'\n')?;
    Ok(())
}

/// Adds the line of an exposure that isn't taken.
fn write_refused(
    text: &mut Vec<u8>,
    epoch: i64,
    site: &Word,
    error: AddError,
    id: &Word,
) -> Result<(), NoMemory>
    ensures { OnOk result (text.new.items ≡ text.old.items
        ++ text_of (Reply.Refused epoch site.now error id.now)) }
{
    text.extend_from_slice(b"exposure")?;
    write_number(text, epoch)?;
    write_word(text, site.bytes())?;
    text.extend_from_slice(b" refused")?;
    write_add_error(text, error, id)?;
    text.push(b'\n')?;
    Ok(())
}

/// Adds the name of why an exposure isn't taken, and the id where `Id` is the cause.
fn write_add_error(text: &mut Vec<u8>, error: AddError, id: &Word) -> Result<(), NoMemory>
    ensures { OnOk result (text.new.items ≡ text.old.items
        ++ flat_map spaced (add_error_words error id.now)) }
{
    write_word(text, add_error_name(error))?;
    match error {
        AddError::Id(_) => write_word(text, id.bytes()),
        _ => Ok(()),
    }
}

/// Adds the line of a setting that was changed.
fn write_set(text: &mut Vec<u8>, name: &Word, value: i64) -> Result<(), NoMemory>
    ensures { OnOk result (text.new.items ≡ text.old.items ++ text_of (Reply.Set name.now value)) }
{
    text.extend_from_slice(b"set")?;
    write_word(text, name.bytes())?;
    write_number(text, value)?;
    text.push(b'\n')?;
    Ok(())
}

/// Adds the line of a setting that wasn't changed.
fn write_set_refused(text: &mut Vec<u8>, error: SetError) -> Result<(), NoMemory>
    ensures { OnOk result (text.new.items ≡ text.old.items ++ text_of (Reply.SetRefused error)) }
{
    text.extend_from_slice(b"set refused")?;
    write_word(text, set_error_name(error))?;
    text.push(b'\n')?;
    Ok(())
}

/// Adds the line of a window.
fn write_window(text: &mut Vec<u8>, lo: i64, hi: i64) -> Result<(), NoMemory>
    ensures { OnOk result (text.new.items ≡ text.old.items ++ text_of (Reply.Window lo hi)) }
{
    text.extend_from_slice(b"window")?;
    write_number(text, lo)?;
    write_number(text, hi)?;
    text.push(b'\n')?;
    Ok(())
}

/// Adds the line of a window that can't be set.
fn write_window_refused(text: &mut Vec<u8>, error: WindowError) -> Result<(), NoMemory>
    ensures { OnOk result (text.new.items ≡ text.old.items ++ text_of (Reply.WindowRefused error)) }
{
    text.extend_from_slice(b"window refused")?;
    write_word(text, window_error_name(error))?;
    text.push(b'\n')?;
    Ok(())
}

/// Adds the line of a night's tracklets, and one for each tracklet.
fn write_tracklets(text: &mut Vec<u8>, night: i64, tracklets: &Groups) -> Result<(), NoMemory>
    ensures { OnOk result (text.new.items ≡ text.old.items
        ++ text_of (Reply.Tracklets night tracklets.now)) }
{
    text.extend_from_slice(b"tracklets")?;
    write_number(text, night)?;
    write_number(text, tracklets.items().len())?;
    text.push(b'\n')?;
    for ids in tracklets.items() {
        write_tracklet(text, ids)?;
    }
    Ok(())
}

/// Adds a tracklet's line.
fn write_tracklet(text: &mut Vec<u8>, ids: &Words) -> Result<(), NoMemory>
    ensures { OnOk result (text.new.items ≡ text.old.items ++ tracklet_line ids.now) }
{
    write_line(text, b"tracklet", ids)
}

/// Adds the line of what is held and found.
fn write_stats(text: &mut Vec<u8>, stats: &Stats) -> Result<(), NoMemory>
    ensures { OnOk result (text.new.items ≡ text.old.items ++ text_of (Reply.Stats stats.now)) }
{
    text.extend_from_slice(b"stats")?;
    write_number(text, stats.exposures)?;
    write_number(text, stats.detections)?;
    write_number(text, stats.tracklets)?;
    write_number(text, stats.tracks)?;
    text.push(b'\n')?;
    Ok(())
}

/// Adds the line of a made sky, and that of the statistics.
fn write_summary(
    text: &mut Vec<u8>,
    number: u32,
    nights: u32,
    objects: u32,
    stats: &Stats,
) -> Result<(), NoMemory>
    ensures { OnOk result (text.new.items ≡ text.old.items
        ++ text_of (Reply.Summary number nights objects stats.now)) }
{
    text.extend_from_slice(b"summary")?;
    write_number(text, number)?;
    write_number(text, nights)?;
    write_number(text, objects)?;
    text.push(b'\n')?;
    write_stats(text, stats)
}
