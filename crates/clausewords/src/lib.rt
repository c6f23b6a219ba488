// The words for a clause of soundness that fails.
#![tactic(auto)]

ghost use Rattle.saying.specs.Text.{SaysBy};
ghost use Rattle.clausewords.specs.Clausewords.{of_area, of_areas, clause_words, clause_told};

use clauses::Clause;

// The line that tells which clause of soundness fails, if one does.
pub fn clause_line(c: Result<(), Clause>, text: &mut [u8], at: usize) -> usize
    ensures { SaysBy (clause_told c) at text result }
{
    match c {
        Ok(()) => saying::end(text, at),
        Err(clause) => {
            let words = clause_words(clause, text, at);
            saying::end(text, words)
        }
    }
}

// What is said of the clause of soundness that fails.
fn clause_words(c: Clause, text: &mut [u8], at: usize) -> usize
    ensures { SaysBy (clause_words c) at text result }
{
    match c {
        Clause::OddStore => saying::text(text, at, b"the store has an odd number of octets"),
        Clause::LongStore => saying::text(text, at, b"the store has more than 65536 octets"),
        Clause::Pid => saying::text(text, at, b"the PID is above 127"),
        Clause::Count => saying::text(text, at, b"there are more than 8 areas"),
        Clause::NoWords(i) => of_area(i, b" has no words", text, at),
        Clause::PastTop(i) => of_area(i, b" ends above address FFFFFFFF", text, at),
        Clause::PastStore(i) => of_area(i, b" ends past the store", text, at),
        Clause::SameId(i, j) => of_areas(i, j, b" have the same memory ID", text, at),
        Clause::Shared(i, j, octet) => {
            let words = of_areas(i, j, b" share octet ", text, at);
            numerals::decimal(text, words, octet)
        }
    }
}

// What is said of one area.
fn of_area(i: usize, words: &[u8], text: &mut [u8], at: usize) -> usize
    ensures { SaysBy (of_area i words.now) at text result }
{
    let first = saying::text(text, at, b"area ");
    let area = numerals::decimal(text, first, i as u64);
    saying::text(text, area, words)
}

// What is said of two areas.
fn of_areas(i: usize, j: usize, words: &[u8], text: &mut [u8], at: usize) -> usize
    ensures { SaysBy (of_areas i j words.now) at text result }
{
    let first = saying::text(text, at, b"areas ");
    let one = numerals::decimal(text, first, i as u64);
    let second = saying::text(text, one, b" and ");
    let other = numerals::decimal(text, second, j as u64);
    saying::text(text, other, words)
}
