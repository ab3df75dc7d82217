//! What holds of every desk, whatever calls were made and in whatever order.

ghost use Rattle.machine_model.specs.MeaningLaws.{HasMeaning};
ghost use Rattle.machine_model.specs.Settled.{IsSettled};
ghost use Rattle.desk_events.specs.Shown.{ShowsPicture};

use crate::desk::Desk;

/// A desk that is settled has what the commands that were fed mean one after another.
pub fn settled_has_meaning(desk: &Desk)
    ensures { IsSettled desk.now → HasMeaning desk.now }
{
    desk_events::settled_has_meaning(&desk.machine);
}

/// Its root's cache is the picture of the document that these make, at each point of the canvas.
pub fn settled_shows_picture(desk: &Desk)
    ensures { IsSettled desk.now → ShowsPicture desk.now }
{
    desk_events::settled_shows_picture(&desk.machine);
}
