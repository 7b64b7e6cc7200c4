// Which kinds a status looks at.
ghost use Rattle.std.specs.Prelude.{◌≡◌};
ghost use Rattle.frames.specs.Looks.{looks_at};

use crate::{Kind, Status};

// One row for each status, one column for each kind from 1 to 11.
const LOOKS: [[bool; 11]; 4] = [
    [
        true, true, true, true, true, true, true, true, true, true, false,
    ],
    [
        false, true, false, true, false, true, true, true, true, true, false,
    ],
    [
        false, true, false, true, false, true, true, true, true, true, false,
    ],
    [
        false, false, false, false, false, false, false, false, false, false, true,
    ],
];

pub fn looks_at(s: Status, kind: Kind) -> bool
    ensures { result ≡ looks_at s kind }
{
    let i = u8::from(s) as usize;
    let k = u8::from(kind) as usize - 1;
    LOOKS[i][k]
}
