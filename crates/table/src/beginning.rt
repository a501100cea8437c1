// The survey that every call begins with.
ghost use Rattle.std.specs.Prelude.{◌≡◌};
ghost use Rattle.table.specs.Surveying.{surveyed};

use crate::surveying::{Survey, looked_at, survey_one};
use channel::Channel;

// Every record in turn, up to the first that is too many: nothing after it counts. The form Fold of docs/WALKS.md, to the letter.
pub fn survey(t: &[Channel], lens: &[u16], start: Survey) -> Survey
    ensures { result ≡ surveyed t.now lens.now start }
{
    let n = looked_at(t.len());
    let mut a = start;
    let mut j = 0;
    while j < n {
        let b = survey_one(a, t[j], lens, j);
        a = b;
        j = j + 1;
    }
    a
}
