//! The free places of a table: those never used, and a chain of those given back, each record having the next as its
//! parent.
ghost use Rattle.std.specs.Prelude.{◌≡◌, ℕ, ◌+◌, ◌<◌, ◌≤◌, List, length};
ghost use Rattle.records.specs.PlacedPairs.{four};
ghost use Rattle.records.specs.Free.{next as next_of, left_after, four_taken, four_left, linked, given_back, four_linked, four_given, free_at, FreeIn, Opens, TakesOne, TakesFour, GivesOne, GivesFour};

use records::{FourPlaces, FreePlaces, Record, read, write};

/// No place is used yet. Nothing is written.
pub fn none_used() -> FreePlaces
    ensures stands { Opens result }
{
    FreePlaces {
        fresh: 0,
        freed: None,
    }
}

/// The next free place: the one given back last, or the first that was never used.
pub fn next_free(free: FreePlaces) -> u16
    ensures value { result ≡ next_of free }
{
    free.freed.unwrap_or(free.fresh)
}

/// The free places once the next one is taken.
pub fn take(records: &[Record], free: FreePlaces) -> FreePlaces
    ensures value { result ≡ left_after records.now free }
    ensures stands { (N : ℕ) (spare : List ℕ) → FreeIn N records.now free spare → free.fresh < N + length spare → TakesOne N records.now free spare (next_of free) result }
{
    match free.freed {
        Some(place) => FreePlaces {
            freed: read(records, place).parent,
            ..free
        },
        None => FreePlaces {
            fresh: free.fresh.saturating_add(1),
            ..free
        },
    }
}

/// Four free places, and the free places once they are taken.
pub fn take_four(records: &[Record], free: FreePlaces) -> (FourPlaces, FreePlaces)
    ensures value { result ≡ (four_taken records.now free, four_left records.now free) }
    ensures stands { (N : ℕ) (spare : List ℕ) → FreeIn N records.now free spare → 4 + free.fresh ≤ N + length spare → TakesFour N records.now free spare result.0 result.1 }
{
    let after_one = take(records, free);
    let after_two = take(records, after_one);
    let after_three = take(records, after_two);
    let places = FourPlaces {
        shrink: next_free(free),
        split: next_free(after_one),
        reading: next_free(after_two),
        outer: next_free(after_three),
    };
    (places, take(records, after_three))
}

/// Gives a place back: its record has the place that was given back before as its parent, which is a link that may be
/// none.
pub fn give(records: &mut [Record], free: FreePlaces, place: u16) -> FreePlaces
    ensures table { records.new ≡ linked records.old free place }
    ensures value { result ≡ given_back free place }
    ensures stands { (N : ℕ) (spare : List ℕ) → FreeIn N records.old free spare → place < N → free_at free spare place ≡ 0 → GivesOne N records.old records.new free spare place result }
{
    let r = read(records, place);
    write(records, place, r.with_parent(free.freed));
    FreePlaces {
        freed: Some(place),
        ..free
    }
}

/// Gives four places back, so that they are the next four.
pub fn give_four(records: &mut [Record], free: FreePlaces, n: FourPlaces) -> FreePlaces
    ensures table { records.new ≡ four_linked records.old free n }
    ensures value { result ≡ four_given free n }
    ensures stands { (N : ℕ) (spare : List ℕ) → FreeIn N records.old free spare → n.shrink < N → n.split < N → n.reading < N → n.outer < N → ((j : ℕ) → four j n + free_at free spare j ≤ 1) → GivesFour N records.old records.new free spare n result }
{
    let after_one = give(records, free, n.outer);
    let after_two = give(records, after_one, n.reading);
    let after_three = give(records, after_two, n.split);
    give(records, after_three, n.shrink)
}
