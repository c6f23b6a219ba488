// Lines of an input that comes in parts: the whole pieces at the front of what is not answered yet, and what is left moved to the front.
#![tactic(auto)]

ghost use Rattle.std.specs.Prelude.{◌≡◌, ◌-◌, ◌==◌, position, ◌^◌, min, length, take, drop};
ghost use Rattle.octets.specs.Copy.{laid};
ghost use Rattle.lines.specs.Lines.{newline};
ghost use Rattle.lines.specs.Cuts.{started, next_of, rest_of, taken_by, ends_line, left_of, passed_of, carried_of};

// The character that ends a line.
pub const NEWLINE: u8 = b'\n';

// How a piece of a line ends: the line goes on behind it, its newline ended it, or the input did.
#[derive(Clone, Copy)]
pub enum End {
    On,
    Newline,
    Last,
}

// A piece at the front of some input: of how many characters it is, and how it ends.
#[derive(Clone, Copy)]
pub struct Cut {
    pub count: usize,
    pub end: End,
}

// How far a walk over the pieces of an input has come: where the next one begins, whether it begins a line, whether no whole one is left, and how much text is said.
#[derive(Clone, Copy)]
pub struct Walk {
    pub from: usize,
    pub begins: bool,
    pub open: bool,
    pub at: usize,
}

// How far a program has come: how much input is not answered and stands at the front of its buffer, whether that begins a line, whether no whole piece is left in it, and how much text is said.
// A struct beside `Walk`: one names a place in the input and the other how much of it there is, and contracts name either field.
#[derive(Clone, Copy)]
pub struct Progress {
    pub have: usize,
    pub begins: bool,
    pub open: bool,
    pub at: usize,
}

// Before the first read.
pub fn start() -> Progress
    ensures { result ≡ started }
{
    Progress {
        have: 0,
        begins: true,
        open: true,
        at: 0,
    }
}

// The first characters of an input, and all of them where there are no more.
pub fn front(input: &[u8], count: usize) -> &[u8]
    ensures { result.now ≡ take count input.now }
{
    input.get(..count).unwrap_or(input)
}

// So many characters of an input from a place on.
pub fn piece(input: &[u8], from: usize, count: usize) -> &[u8]
    ensures { result.now ≡ take count (drop from input.now) }
{
    front(octets::copy::behind(input, from), count)
}

// The place of the first newline of some characters, from 0.
// A loop; the library's `position` says the same, and takes as many instructions a character.
fn newline_in(characters: &[u8]) -> Option<usize>
    ensures { result ≡ position (λ c. c == newline) characters.now }
{
    for (place, c) in characters.iter().enumerate() {
        if *c == NEWLINE {
            return Some(place);
        }
    }
    None
}

// The first whole piece of the input from a place on, which may go on: of at most so many characters, up to a newline, or up to the character that has no room in it.
pub fn next(input: &[u8], from: usize, bound: usize) -> Option<Cut>
    ensures { result ≡ next_of bound (drop from input.now) }
{
    let rest = octets::copy::behind(input, from);
    let window = front(rest, bound.saturating_add(1));
    match newline_in(window) {
        Some(count) => Some(Cut {
            count,
            end: End::Newline,
        }),
        None if bound < rest.len() => Some(Cut {
            count: bound,
            end: End::On,
        }),
        None => None,
    }
}

// The last piece of an input, at its end: all that is left, and none where nothing is.
pub fn last(input: &[u8]) -> Option<Cut>
    ensures { result ≡ rest_of input.now }
{
    if input.is_empty() {
        return None;
    }
    Some(Cut {
        count: input.len(),
        end: End::Last,
    })
}

// Whether a piece is the last of its line.
pub fn ends(end: End) -> bool
    ensures { result ≡ ends_line end }
{
    matches!(end, End::Newline | End::Last)
}

// How many characters of the input a piece takes: its own, and its newline.
fn taken(count: usize, end: End) -> usize
    ensures { result ≡ min (taken_by count end) (2 ^ 64 - 1) }
{
    match end {
        End::Newline => count.saturating_add(1),
        End::On | End::Last => count,
    }
}

// A walk behind one piece more, the text said up to a place.
pub fn passed(input: &[u8], w: Walk, count: usize, end: End, at: usize) -> Walk
    ensures { result ≡ passed_of input.now w count end at }
{
    Walk {
        from: w.from.saturating_add(taken(count, end)).min(input.len()),
        begins: ends(end),
        open: false,
        at,
    }
}

// Moves what stands from a place on, of the input at the front of a buffer, to the buffer's front, and answers how much it is: none where the place is past that input.
#[tactic(auto, using(crate::proofs::Parts::kept, crate::proofs::Parts::kept_length))]
pub fn keep(buffer: &mut [u8], from: usize, have: usize) -> usize
    ensures value { result ≡ length (left_of from have buffer.old) }
    ensures buffer_after { buffer.new ≡ laid buffer.old 0 (left_of from have buffer.old) }
{
    let end = have.min(buffer.len());
    let start = from.min(end);
    buffer.copy_within(start..end, 0);
    end - start
}

// What a walk over the input at the front of a buffer leaves, moved to the buffer's front, and how far the program has come.
pub fn carry(buffer: &mut [u8], have: usize, w: Walk) -> Progress
    ensures value { result ≡ carried_of have buffer.old w }
    ensures buffer_after { buffer.new ≡ laid buffer.old 0 (left_of w.from have buffer.old) }
{
    let left = keep(buffer, w.from, have);
    Progress {
        have: left,
        begins: w.begins,
        open: w.open,
        at: w.at,
    }
}
