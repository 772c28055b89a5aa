// The class table: the greatest squared speed that each class grants.
ghost use Rattle.std.specs.Prelude.{◌≡◌};
ghost use Rattle.job.specs.Table.{entry};

use grade::{Class, Grade, Speed};

const ENTRIES: [u32; 8] = [0, 4096, 16384, 65536, 147456, 262144, 1048576, 2147483647];

pub fn top_speed(class: Class) -> Speed
    ensures { result.value ≡ entry class.value }
{
    Speed::of_rank(ENTRIES[class.rank() as usize])
}
