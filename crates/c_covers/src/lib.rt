// The fewest ladders that hold every pair, on lent words: what the C library's entry of this name does. Any slices are taken: a slice shorter than
// its layout is refused with 100 before anything else, and a refusal leaves every word as it was. No public function has a `requires`.
#![tactic(auto)]

ghost use Rattle.std.specs.Prelude.{◌≡◌};
ghost use Rattle.mechanisms.specs.Covering.{fewest_says};
ghost use Rattle.c_covers.specs.Serving.{reply_kind, PutChains, CoversWords};

use mechanisms;
use mechanisms::{Cover, Fewest};
use table;
use table::Chain;
use words;
use words::{SHORT, TABLE};

// The words of a cover.
const COVER: usize = 523;

// Where the chains of a cover start, and the words of each.
const FIRST: u16 = 3;

const CHAIN: u16 = 65;

// Puts into `out` the fewest ladders that hold every pair of the table, by trying at most `budget` ladders.
pub fn cover(table: &[u64], budget: u64, out: &mut [u64]) -> u64
    ensures { CoversWords table.now budget out.old out.new result }
{
    if table.len() < TABLE {
        return SHORT;
    }
    if out.len() < COVER {
        return SHORT;
    }
    let t = words::table_at(table, 0);
    match mechanisms::fewest_ladders(t, budget) {
        Err(why) => why.number(),
        Ok(fewest) => {
            let cover = cover_of(fewest);
            words::put_word(out, 0, kind_of(fewest));
            words::put_word(out, 1, cover.number);
            words::put_word(out, 2, cover.tried);
            put_chains(out, cover.chains);
            0
        }
    }
}

// Puts the chains of a cover, one behind the other.
fn put_chains(out: &mut [u64], chains: [Chain; 8])
    ensures { PutChains out.old 3 chains out.new }
{
    let mut at = FIRST;
    for s in chains {
        words::put_chain(out, at, s);
        at += CHAIN;
    }
}

// The cover that was found, or, where the budget was spent, the ladders tried and blank chains.
fn cover_of(fewest: Fewest) -> Cover
    ensures number { result.number ≡ (fewest_says fewest).number }
    ensures tried { result.tried ≡ (fewest_says fewest).tried }
    ensures chains { result.chains ≡ (fewest_says fewest).cover }
{
    match fewest {
        Fewest::Covered(cover) => cover,
        Fewest::Spent(tried) => {
            let blank = table::blank_chain();
            Cover {
                number: 0,
                tried,
                chains: [blank; 8],
            }
        }
    }
}

// 1 where a cover was found, 2 where the budget was spent.
fn kind_of(fewest: Fewest) -> u64
    ensures { result ≡ reply_kind (fewest_says fewest).reply }
{
    match fewest {
        Fewest::Covered(_) => 1,
        Fewest::Spent(_) => 2,
    }
}
