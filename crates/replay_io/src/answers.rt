// The run of a replay program: the cases of the input are answered, one after another.
ghost use Rattle.replay_io.specs.Answers.{Answered, CallAnswers};
ghost use Rattle.replay_io.specs.Case.{nothing_read};

use crate::input::{next_case, nothing_read};
use crate::line::Buffer;
use std::io::{Read, Write};

// Answers each case of the input by `answer`, and says why the answers end. The buffer `input` is the caller's. The
// turns are counted, up to a number that no run uses up, so that the loop ends.
pub fn answer_all<R: Read, W: Write, F: Fn(&mut Buffer<W>, &[u8])>(
    from: &mut R,
    input: &mut [u8],
    out: &mut Buffer<W>,
    answer: F,
)
    requires { F.IsAlwaysCallable answer }
    ensures answered { Answered (CallAnswers F.Fn answer) u64.MAX input.old nothing_read out.old out.new }
{
    let mut case = nothing_read();
    for turn in 0..u64::MAX {
        case = next_case(from, input, case);
        if !case.is_case() {
            out.finish(case.found);
            return;
        }
        answer(out, &input[case.start..case.end]);
    }
}
