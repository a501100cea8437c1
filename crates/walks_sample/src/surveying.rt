// Over all records, with something carried: the form Fold.
ghost use Rattle.std.specs.Prelude.{◌≡◌};
ghost use Rattle.walks_sample.specs.Surveying.{noted, surveyed};

use crate::plain::{Channel, Survey};

// How many of n records are looked at: all.
pub fn looked_at(n: usize) -> usize
    ensures { result ≡ n }
{
    n
}

// One record more.
pub fn survey_one(v: Survey, c: Channel, lens: &[u16], j: usize) -> Survey
    ensures { result ≡ noted v c lens.now j }
{
    Survey {
        sound: v.sound && c.count < u32::MAX,
        ..v
    }
}

pub fn survey(t: &[Channel], lens: &[u16], start: Survey) -> Survey
    ensures { result ≡ surveyed t.now lens.now start }
{
    let n = looked_at(t.len());
    let mut a = start;
    let mut j = 0;
    while j < n {
        let b = survey_one(a, t[j], lens, j);
        a = b;
        j += 1;
    }
    a
}
