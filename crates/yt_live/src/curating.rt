//! The top call.
ghost use Rattle.std.specs.Prelude.{[], map, string_bytes};
ghost use Rattle.cmd_frame.specs.Devices.{change};
ghost use Rattle.yt_live.specs.Curates.{Curates, default_settings};
ghost use Rattle.yt_live.specs.Ends.{LeavesSerial, of_stream};

use crate::serving::serve;
use crate::telling::{refuse_words, tell};
use base_devices::{Sink, Source};
use base_limits::Budget;
use cmd_frame::Status;
use core_queue::{Deps, Settings};
use def_language::spelled_sessions_are_valid;
use std::alloc::Global;

/// Serves the stream by the default settings, if there is no word; a word is refused before the source is read. Whatever bytes
/// the stream has, what they commit is what the serial machine makes of the committed updates alone.
pub fn curate<S: Source, O: Sink, E: Sink>(
    alloc: Global,
    words: &[String],
    source: &mut S,
    out: &mut O,
    err: &mut E,
) -> Status
    ensures curates { Curates (map string_bytes words.now) result
        (change S.left S.fault_count source.old source.new)
        (change O.taken O.fault_count out.old out.new)
        (change E.taken E.fault_count err.old err.new) }
    ensures serial { LeavesSerial (of_stream 100 default_settings)
        (change S.left S.fault_count source.old source.new) }
{
    spelled_sessions_are_valid();
    match words {
        [] => serve_default(alloc, source, out, err),
        [_, ..] => refuse_words(err),
    }
}

// Serves the stream by the default settings, and says on `err` how it ended.
fn serve_default<S: Source, O: Sink, E: Sink>(
    alloc: Global,
    source: &mut S,
    out: &mut O,
    err: &mut E,
) -> Status
    ensures serves { Curates [] result (change S.left S.fault_count source.old source.new)
        (change O.taken O.fault_count out.old out.new)
        (change E.taken E.fault_count err.old err.new) }
{
    let settings = Settings {
        retries: 3,
        deps: Deps::Precise,
    };
    let end = serve(alloc, source, out, settings, Budget::new(100));
    tell(alloc, &end, err)
}
