// The listing of a pool.
ghost use Rattle.std.specs.Prelude.{◌≡◌};
ghost use Rattle.meaning.specs.Listing.{listed};

use super::line::Opened;
use super::text::Writer;
use judge::verdict::judge;
use slots::head::load;

// Every listing fits in so many bytes: 1,024 lines of at most 638, and a first one of at most 111.
pub const LIMIT: usize = 655_360;

// The text of a pool's listing, at the start of `out`: its length; 0, and nothing written, if `out`
// has fewer than LIMIT bytes, which every listing fits in. 0 and no Option, since `listed` is what
// the listing is believed to be, and answers so.
pub fn listing(pool: &[u8], out: &mut [u8]) -> usize
    ensures { (out.new, result) ≡ listed pool.now out.old }
{
    if out.len() < LIMIT {
        return 0;
    }
    let mut writer = Writer { out, at: 0 };
    let census = match judge(pool) {
        Ok(census) => census,
        Err(why) => {
            writer.refused(why);
            return writer.at;
        }
    };
    let head = load(pool, census.live, census.free);
    let start = format::header::SIZE + format::entry::SIZE * head.numbers.trees as usize;
    let opened = Opened {
        head,
        body: &pool[start..],
    };
    writer.first_line(&opened.head);
    writer.trees(&opened);
    writer.at
}
