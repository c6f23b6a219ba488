// The judge, line by line, and at the end of its input.
#![tactic(auto)]

ghost use Rattle.std.specs.Prelude.{◌≡◌, []};
ghost use Rattle.saying.specs.Text.{SaysBy};
ghost use Rattle.desk.specs.Did.{DidBy};
ghost use Rattle.judgestep.specs.Step.{judge_says, judge_becomes, judge_long_says, judge_long_desk, end_says, end_becomes};

use desk::{Desk, Done};
use judgeline::Found;
use packline::Halt;

// The judge's answer to a line.
#[tactic(auto, using(octets::proofs::Laid::laid_none), unfolding(crate::specs::Step::judge_says, crate::specs::Step::judge_becomes, judgeline::specs::Step::inside_says, judgeline::specs::Step::inside_desk, judgeline::specs::Step::outside_says, judgeline::specs::Step::outside_becomes))]
pub fn judge_answer(
    d: Desk,
    line: &[u8],
    store: &mut [u8],
    out: &mut [u8],
    text: &mut [u8],
    at: usize,
) -> Done
    ensures { DidBy (λ m. judge_says m line.now) (λ m. judge_becomes m line.now) d at store out text result }
{
    if desk::is_halted(d) {
        return desk::nothing(d, text, at);
    }
    let group = d.group;
    if group.open {
        let found = judgeline::beside_due(group, line, out);
        if let Found::Agrees = found {
            return desk::nothing(
                desk::moved(d, judgeline::behind(group, line, out)),
                text,
                at,
            );
        }
        return judgeline::inside(desk::counted(d), found, line, out, text, at);
    }
    if line.is_empty() {
        return desk::nothing(desk::counted(d), text, at);
    }
    judgeline::outside(desk::counted(d), line, store, out, text, at)
}

// The judge's answer to a line that is too long.
#[tactic(auto, using(octets::proofs::Laid::laid_none), unfolding(crate::specs::Step::judge_long_says, crate::specs::Step::judge_long_desk))]
pub fn judge_long(d: Desk, text: &mut [u8], at: usize) -> Done
    ensures says_by { SaysBy (judge_long_says d) at text result.at }
    ensures desk_value { result.desk ≡ judge_long_desk d }
{
    if desk::is_halted(d) {
        return desk::nothing(d, text, at);
    }
    judgeline::refused(desk::counted(d), Some(Halt::Long), text, at)
}

// The empty line that the end of the input serves as. It is answered as any line is, but apart from them: a function that has one caller is laid into it, and so a line costs fewer copies of the desk.
#[tactic(auto, using(octets::proofs::Laid::laid_none), unfolding(crate::specs::Step::judge_says, crate::specs::Step::judge_becomes, judgeline::specs::Step::inside_says, judgeline::specs::Step::inside_desk, judgeline::specs::Step::outside_says, judgeline::specs::Step::outside_becomes))]
fn ended(d: Desk, store: &mut [u8], out: &mut [u8], text: &mut [u8], at: usize) -> Done
    ensures { DidBy (λ m. judge_says m []) (λ m. judge_becomes m []) d at store out text result }
{
    if desk::is_halted(d) {
        return desk::nothing(d, text, at);
    }
    let group = d.group;
    if group.open {
        let found = judgeline::beside_due(group, b"", out);
        return judgeline::inside(desk::counted(d), found, b"", out, text, at);
    }
    desk::nothing(desk::counted(d), text, at)
}

// The judge at the end of the input, which serves as an empty line.
pub fn judge_end(d: Desk, store: &mut [u8], out: &mut [u8], text: &mut [u8], at: usize) -> Done
    ensures { DidBy end_says end_becomes d at store out text result }
{
    let last = ended(d, store, out, text, at);
    concluding::conclude(last.desk, text, last.at)
}
