// Words of a line: blanks separate them, and a comment is passed over.
#![tactic(auto)]

ghost use Rattle.std.specs.Prelude.{◌≡◌, ◌+◌, drop};
ghost use Rattle.words.specs.Words.{blanks_in, plain_in, span_of, same_text};
ghost use Rattle.words.specs.Words.{is_blank as Blank};

use octets::copy::Span;

// Whether a character separates words.
fn is_blank(c: u8) -> bool
    ensures { result ≡ Blank c }
{
    matches!(c, b' ' | b'\t' | b'\r')
}

// The first place from one on at which no blank stands.
fn past_blanks(line: &[u8], at: usize) -> usize
    ensures { result ≡ at + blanks_in (drop at line.now) }
{
    let rest = octets::copy::behind(line, at);
    at + rest
        .iter()
        .position(|c| !is_blank(*c))
        .unwrap_or(rest.len())
}

// The first place from one on at which no character of a word stands: a blank, or what begins a comment.
fn past_word(line: &[u8], at: usize) -> usize
    ensures { result ≡ at + plain_in (drop at line.now) }
{
    let rest = octets::copy::behind(line, at);
    at + rest
        .iter()
        .position(|c| *c == b'#' || is_blank(*c))
        .unwrap_or(rest.len())
}

// Where the next word of a line stands from a place on; it ends where it begins if there is none.
#[tactic(auto, using(crate::proofs::Words::span_walked))]
pub fn next(line: &[u8], at: usize) -> Span
    ensures { result ≡ span_of line.now at }
{
    let from = past_blanks(line, at);
    Span {
        from,
        to: past_word(line, from),
    }
}

// Whether two texts are the same.
#[tactic(auto, using(crate::proofs::Texts::same_pointwise))]
pub fn same(a: &[u8], b: &[u8]) -> bool
    ensures { result ≡ same_text a.now b.now }
{
    a == b
}
