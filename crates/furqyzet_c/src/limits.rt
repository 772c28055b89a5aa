// A frame's own limits are lawful.
ghost use Rattle.grade.specs.Tops.{class_top, speed_top};
ghost use Rattle.limit.specs.Numbers.{LimitLaw};
ghost use Rattle.frame.specs.Views.{path_of};
ghost use Rattle.sources.specs.Sources.{class_number, speed_number};

use frame::PathFrame;
use grade::{Class, Speed};
use limit::lawful;
use sources::{class_limit, speed_limit};

pub(crate) fn lawful_limits(frame: PathFrame<'_>)
    ensures classes { LimitLaw class_top (class_number (path_of frame.entry.bytes.now)) }
    ensures speeds { LimitLaw speed_top (speed_number (path_of frame.entry.bytes.now)) }
{
    lawful::<Class, _>(&class_limit(frame));
    lawful::<Speed, _>(&speed_limit(frame));
}
