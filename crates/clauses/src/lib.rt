// Which clause of soundness a unit fails first, for a person who has to mend it.
#![tactic(auto)]

ghost use Rattle.std.specs.Prelude.{◌≡◌};
ghost use Rattle.clauses.specs.Clauses.{first, own_clause, shared_octet, pair_clause, own_from, pairs_from, clause_of};

use map::place::{store_end, store_start, used};
use map::{AREAS, Area, Profile, end_of};
use sound::{ADDRESSES, PID_MOST, STORE_MOST, lie_apart};

// The clauses of soundness, with the areas that fail one, counted from 1, and the first octet of the store that two of them share.
#[derive(Clone, Copy)]
pub enum Clause {
    OddStore,
    LongStore,
    Pid,
    Count,
    NoWords(usize),
    PastTop(usize),
    PastStore(usize),
    SameId(usize, usize),
    Shared(usize, usize, u64),
}

// The first clause of soundness that a profile fails over a store of that many octets.
#[tactic(auto, unfolding(crate::specs::Clauses::clause_of))]
pub fn clause_of(profile: Profile, octets: usize) -> Result<(), Clause>
    ensures { result ≡ clause_of profile octets }
{
    if octets % 2 != 0 {
        return Err(Clause::OddStore);
    }
    if octets > STORE_MOST {
        return Err(Clause::LongStore);
    }
    if profile.pid > PID_MOST {
        return Err(Clause::Pid);
    }
    if profile.count as usize > AREAS {
        return Err(Clause::Count);
    }
    areas_clause(used(&profile), octets)
}

// The first clause that some areas fail: of one area, or else of two.
fn areas_clause(areas: &[Area], octets: usize) -> Result<(), Clause>
    ensures { result ≡ first (own_from octets 1 areas.now) (pairs_from 1 areas.now) }
{
    each(areas, octets)?;
    pairs(areas)
}

// The first clause that one of some areas fails by itself.
#[tactic(auto, using(crate::proofs::Steps::steps))]
fn each(areas: &[Area], octets: usize) -> Result<(), Clause>
    ensures { result ≡ own_from octets 1 areas.now }
{
    for (i, area) in areas.iter().enumerate() {
        own(octets, i + 1, *area)?;
    }
    Ok(())
}

// The first clause that one of some areas fails with a later one.
#[tactic(auto, using(crate::proofs::Steps::steps))]
fn pairs(areas: &[Area]) -> Result<(), Clause>
    ensures { result ≡ pairs_from 1 areas.now }
{
    for (i, area) in areas.iter().enumerate() {
        for j in i + 1..areas.len() {
            pair(i + 1, *area, j + 1, areas[j])?;
        }
    }
    Ok(())
}

// What an area must meet by itself, over a store of that many octets.
#[tactic(auto, unfolding(crate::specs::Clauses::own_clause))]
fn own(octets: usize, i: usize, area: Area) -> Result<(), Clause>
    ensures { result ≡ own_clause octets i area }
{
    if area.length < 1 {
        return Err(Clause::NoWords(i));
    }
    if end_of(area.start, area.length) > ADDRESSES {
        return Err(Clause::PastTop(i));
    }
    if store_end(area) > octets as u64 {
        return Err(Clause::PastStore(i));
    }
    Ok(())
}

// What two areas must meet.
#[tactic(auto, unfolding(crate::specs::Clauses::pair_clause))]
fn pair(i: usize, a: Area, j: usize, b: Area) -> Result<(), Clause>
    ensures { result ≡ pair_clause i a j b }
{
    if a.id == b.id {
        return Err(Clause::SameId(i, j));
    }
    if !lie_apart(a, b) {
        return Err(Clause::Shared(i, j, shared_octet(a, b)));
    }
    Ok(())
}

// The first octet of the store that two areas share, if they share one.
fn shared_octet(a: Area, b: Area) -> u64
    ensures { result ≡ shared_octet a b }
{
    store_start(a).max(store_start(b))
}
