// The value of a name in the connection facts or the site settings.
ghost use Rattle.capi.specs.Answer.{Answered};
ghost use Rattle.capi.specs.Setting.{setting_gives};

use crate::answer::{give, refused};
use headers::setting::{Held, find_setting};

// Where the value of a name stands, the connection facts before the site settings. Gives 0 absent, 1 in the facts, 2 in the site settings;
// start and length in that block. The first is a number for C, as that of `oy_scgi_find`.
pub fn oy_setting(facts: &[u8], site: &[u8], name: &[u8], answer: &mut [u64]) -> u64
    ensures { Answered (setting_gives facts.now site.now name.now) answer.old answer.new result }
{
    match find_setting(facts, site, name) {
        Ok(Some(Held::First(place))) => give(answer, &[1, place.start as u64, place.len as u64]),
        Ok(Some(Held::Second(place))) => give(answer, &[2, place.start as u64, place.len as u64]),
        Ok(None) => give(answer, &[0, 0, 0]),
        Err(why) => refused(why),
    }
}
