//! The lines of the first differences.

ghost use Rattle.compare_report.specs.Table.{missing_line, nearest_text, no_difference, other_line, place_text, stretch_text};
ghost use Rattle.draft.specs.Draft.{Adds};

use crate::line::{Place, Stretch};
use crate::putting::put_seconds;
use draft::Draft;
use one_line::put_shown_bytes;

fn put_stretch(out: &mut Draft, stretch: Stretch)
    ensures { Adds out.old out.new (stretch_text stretch) }
{
    put_seconds(out, stretch.start);
    out.put(b" to ");
    put_seconds(out, stretch.end);
    out.put(b" s");
}

fn put_place(out: &mut Draft, place: &Place<'_>)
    ensures { Adds out.old out.new (place_text place.now) }
{
    out.put_decimal(place.number);
    out.put(b" of ");
    put_shown_bytes(out, place.name);
    out.put(b", ");
    put_stretch(out, place.run);
}

fn put_nearest(out: &mut Draft, nearest: Option<Stretch>)
    ensures { Adds out.old out.new (nearest_text nearest) }
{
    let Some(nearest) = nearest else {
        out.put(b", and nothing was recorded of this task\n");
        return;
    };
    out.put(b", nearest recorded ");
    put_stretch(out, nearest);
    out.put(b"\n");
}

/// Puts the line of the first run of the model that nothing recorded matches behind a text, with
/// the recorded run that is nearest, if the task has any.
pub fn put_missing(out: &mut Draft, place: &Place<'_>, nearest: Option<Stretch>)
    ensures { Adds out.old out.new (missing_line place.now nearest) }
{
    out.put(b"first difference: model run ");
    put_place(out, place);
    put_nearest(out, nearest);
}

/// Puts the line of the first recorded run that matches none of the model behind a text.
pub fn put_other(out: &mut Draft, place: &Place<'_>)
    ensures { Adds out.old out.new (other_line place.now) }
{
    out.put(b"first difference: recorded run ");
    put_place(out, place);
    out.put(b"\n");
}

/// Puts the line that there is no difference behind a text.
pub fn put_no_difference(out: &mut Draft)
    ensures { Adds out.old out.new no_difference }
{
    out.put(b"first difference: none\n");
}
